//! What is dropped of cells that are live no longer.

ghost use Rattle.std.specs.Prelude.{◌≡◌, [], true, nat_eq, Some, is_some};
ghost use Rattle.std.specs.List.{list_any};
ghost use Rattle.petal_base.specs.Cells.{cell_of};
ghost use Rattle.petal_msg.specs.declared.retired.Retired.TheVariants as retired;
ghost use Rattle.spec_rules.specs.Store.{chain_in, epochs_of};
ghost use Rattle.spec_rules.specs.Sweeping as sweeping;
ghost use Rattle.kept_chains.specs.Kept.{chains_of, store_of};
ghost use Rattle.pair_memory.specs.declared.job_result.FollowUp.TheVariants as follow_up;
ghost use Rattle.pair_memory.specs.JobResult.{IsDone, held};
ghost use Rattle.pair_memory.specs.PairMemory.{own_of, HasTicketsAt};

use crate::search::{retired_entry, retired_mark};
use busy_marks::MarkKind;
use global_state::GlobalState;
use kept_chains::{drop_entry, unmark};
use pair_memory::{FollowUp, JobContext, JobResult, PairMemory, WorkError, silent};
use petal_base::{Cell, Key, Sequence};
use petal_disk::Disk;
use petal_msg::Retired;
use server_store::Store;

/// What is to be dropped next: the first entry of a cell that is live no longer, or else the first such mark.
pub fn next_retired<D: Disk>(state: &GlobalState, store: &Store<D>) -> Option<Retired>
    ensures { result ≡ sweeping.next_retired state.now (store_of store.now) }
{
    // What `free` promises tells the proof that the entries are in order.
    let _ = store.free();
    match retired_entry(state, store.entries()) {
        Some(key) => Some(Retired::Key(key)),
        None => retired_mark(state, store),
    }
}

/// Whether something is to be dropped.
pub fn has_retired<D: Disk>(state: &GlobalState, store: &Store<D>) -> bool
    ensures { result ≡ is_some (sweeping.next_retired state.now (store_of store.now)) }
{
    next_retired(state, store).is_some()
}

/// No letter is sent, and the next one is dropped in a job of its own.
fn followed(here: &JobContext) -> JobResult
    ensures { result ≡ record { letters = []; follow = Some follow_up.Sweep } }
{
    JobResult {
        letters: Sequence::new(here.alloc()),
        follow: Some(FollowUp::Sweep),
    }
}

/// An entry is dropped.
fn drop_one<D: Disk>(
    here: &JobContext,
    side: &PairMemory,
    store: &mut Store<D>,
    key: Key,
) -> Result<JobResult, WorkError>
    requires tickets { HasTicketsAt side.now store.old }
    requires there { list_any (nat_eq key.epoch) (epochs_of (chain_in (chains_of store.old.entries) (cell_of key))) ≡ true }
    ensures { IsDone D.Disk here.now (held side.now store.old) (held side.now store.new) result
        (sweeping.sweeps_with (own_of side.now store.old) (Some (retired.Key key))) }
{
    let _ = side;
    drop_entry(store, key)?;
    Ok(followed(here))
}

/// A mark is taken away.
fn unmark_one<D: Disk>(
    here: &JobContext,
    side: &PairMemory,
    store: &mut Store<D>,
    kind: MarkKind,
    cell: Cell,
) -> Result<JobResult, WorkError>
    requires { HasTicketsAt side.now store.old }
    ensures { IsDone D.Disk here.now (held side.now store.old) (held side.now store.new) result
        (sweeping.sweeps_with (own_of side.now store.old) (Some (retired.Mark kind cell))) }
{
    let _ = side;
    unmark(store, kind, cell)?;
    Ok(followed(here))
}

/// The next entry or mark is dropped, with one commit to the store.
///
/// # Errors
/// `Failed` where the device failed: the entries are as they were, and the server is to be stopped.
#[tactic(auto, unfolding(spec_rules::specs::Sweeping::sweeps))]
pub fn sweep_one<D: Disk>(
    here: &JobContext,
    side: &PairMemory,
    store: &mut Store<D>,
) -> Result<JobResult, WorkError>
    requires { HasTicketsAt side.now store.old }
    ensures { IsDone D.Disk here.now (held side.now store.old) (held side.now store.new) result (sweeping.sweeps here.now (own_of side.now store.old)) }
{
    // What `free` promises tells the proof that the entries are in order.
    let _ = store.free();
    match next_retired(here.state(), store) {
        None => silent(here, side, store),
        Some(Retired::Key(key)) => drop_one(here, side, store, key),
        Some(Retired::Mark(kind, cell)) => unmark_one(here, side, store, kind, cell),
    }
}
