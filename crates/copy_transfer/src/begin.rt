//! A copy that begins.

ghost use Rattle.std.specs.Prelude.{◌≡◌, ◌<◌, Err};
ghost use Rattle.spec_rules.specs.Copies as copies;
ghost use Rattle.spec_rules.specs.World.{greatest_u64};
ghost use Rattle.pair_memory.specs.declared.error.WorkError.TheVariants as error;
ghost use Rattle.pair_memory.specs.PairMemory.{own_of, HasTicketsAt};
ghost use Rattle.pair_memory.specs.JobResult.{IsSaid};

use crate::copy::trim_body;
use link_blocks::other_on;
use pair_memory::{JobContext, JobResult, PairMemory, WorkError, next_number, only};
use petal_base::Cell;
use petal_disk::Disk;
use petal_msg::Copying;
use server_store::Store;

/// A copy begins under the next number of this life: the other server is to drop its other entries.
///
/// # Errors
/// `NoMemory`, and `Exhausted` where no number is left: nothing changed.
pub fn begin_copy<D: Disk>(
    here: &JobContext,
    side: &mut PairMemory,
    store: &Store<D>,
    cell: Cell,
) -> Result<JobResult, WorkError>
    requires { HasTicketsAt side.old store.now }
    ensures said { ¬ (result ≡ Err error.Exhausted) → IsSaid here.now side.old side.new store.now store.now result
        (copies.copies_on here.now (copies.begins_copy (own_of side.old store.now) cell) cell) }
    ensures spent { result ≡ Err error.Exhausted → (side.new ≡ side.old)
        × (greatest_u64 < (copies.copies_on here.now (copies.begins_copy (own_of side.old store.now) cell) cell).own.pairs.next) }
{
    let later = next_number(side.next)?;
    let copy = Copying {
        op: side.next,
        trimmed: false,
        index: 0,
    };
    let body = trim_body(here, store, cell, copy)?;
    let letters = here.say_to(other_on(here, cell), body)?;
    side.copies.set_copying(cell, copy)?;
    side.next = later;
    Ok(only(letters))
}
