//! The stamps of letters.

ghost use Rattle.std.specs.Prelude.{◌≡◌, IfOk};
ghost use Rattle.spec_rules.specs.World.{stamped};

use petal_base::{NoMemory, Sequence, Stamp};
use petal_msg::{Letter, SharedLetter};
use std::alloc::Global;

/// The letters of one step with its stamp, to be shared.
pub fn stamped(
    alloc: Global,
    letters: Sequence<Letter>,
    stamp: Stamp,
) -> Result<Sequence<SharedLetter>, NoMemory>
    ensures { IfOk result (λ shared. shared ≡ stamped stamp letters) }
{
    let mut shared = Sequence::new(alloc);
    for letter in letters.into_vec() {
        let mut letter = letter;
        letter.stamp = stamp;
        shared.push(SharedLetter::new(alloc, letter)?)?;
    }
    Ok(shared)
}
