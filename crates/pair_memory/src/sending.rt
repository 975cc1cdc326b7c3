//! The letters of one step, one after the other.

ghost use Rattle.std.specs.Prelude.{◌≡◌, ◌++◌, length, IfOk};
ghost use Rattle.spec_rules.specs.Server.{letters_of, sender};
ghost use Rattle.pair_memory.specs.Letters.{posts_of};

use crate::job_context::JobContext;
use petal_base::{NoMemory, Sequence, ServerId};
use petal_msg::{Actor, Body, Letter};

/// The letters of the step so far with one letter more, if any.
pub fn with_letter(
    here: &JobContext,
    mut letters: Sequence<Letter>,
    found: Option<(ServerId, Body)>,
) -> Result<Sequence<Letter>, NoMemory>
    ensures { IfOk result (λ more. more ≡ letters ++ letters_of (sender here.now) (length letters) (posts_of found)) }
{
    if let Some((to, body)) = found {
        let nth = letters.len() as u64;
        letters.push(here.letter(Actor::Server(to), nth, body))?;
    }
    Ok(letters)
}
