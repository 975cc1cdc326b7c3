//! What the holder of a link does with the letters of the other server about a copy.

ghost use Rattle.std.specs.Prelude.{◌≡◌, ◌<◌, ◌+◌, ◌-◌, ◌^◌, true};
ghost use Rattle.spec_rules.specs.Copies as copies;
ghost use Rattle.spec_rules.specs.Progress.{with_full, without_copying};
ghost use Rattle.spec_rules.specs.Server.{silent};
ghost use Rattle.pair_memory.specs.PairMemory.{own_of, HasTicketsAt};
ghost use Rattle.pair_memory.specs.JobResult.{IsDone, IsSaid, held};

use crate::copy::{copy_acts, has_next};
use pair_memory::{JobContext, JobResult, PairMemory, WorkError, silent};
use petal_base::{Cell, Op};
use petal_disk::Disk;
use petal_msg::Copying;
use server_store::Store;

/// The copy that is under way on the cell does its next stage, with at most one commit to the store.
///
/// # Errors
/// `NoMemory`, and then nothing changed; `Failed` where the device failed, and `NoRoom` only where marks and rows of the store
/// were as many as there may be: the entries are as they were, and the server is to be stopped.
#[tactic(auto, unfolding(spec_rules::specs::Copies::copies_on))]
pub fn copy_on<D: Disk>(
    here: &JobContext,
    side: &mut PairMemory,
    store: &mut Store<D>,
    cell: Cell,
) -> Result<JobResult, WorkError>
    requires tickets { HasTicketsAt side.old store.old }
    ensures { IsDone D.Disk here.now (held side.old store.old) (held side.new store.new) result (copies.copies_on here.now (own_of side.old store.old) cell) }
{
    let _ = side.copies.count();
    match side.copies.copying_on(cell) {
        Some(copy) => copy_acts(here, side, store, cell, copy),
        None => silent(here, side, store),
    }
}

/// The other server has dropped the entries that the holder has not: the first entry follows.
///
/// # Errors
/// As of [`copy_on`].
#[tactic(auto, unfolding(spec_rules::specs::Copies::on_trimmed, spec_rules::specs::Copies::copies_on))]
pub fn on_trimmed<D: Disk>(
    here: &JobContext,
    side: &mut PairMemory,
    store: &mut Store<D>,
    op: Op,
    cell: Cell,
) -> Result<JobResult, WorkError>
    requires tickets { HasTicketsAt side.old store.old }
    ensures { IsDone D.Disk here.now (held side.old store.old) (held side.new store.new) result
        (copies.on_trimmed here.now (own_of side.old store.old) op cell) }
{
    match side.copies.copying_on(cell) {
        Some(copy) if copy.op == op && !copy.trimmed => {
            let trimmed = Copying {
                trimmed: true,
                ..copy
            };
            copy_acts(here, side, store, cell, trimmed)
        }
        _ => silent(here, side, store),
    }
}

/// Whether the copy waits for the answer to its next entry.
fn is_syncing<D: Disk>(
    side: &PairMemory,
    store: &Store<D>,
    cell: Cell,
    copy: Copying,
    op: Op,
) -> bool
    ensures syncing { result ≡ copies.is_syncing (own_of side.now store.now) cell copy op }
    ensures within { result ≡ true → copy.index < 2 ^ 32 - 1 }
{
    let _ = side;
    copy.op == op && copy.trimmed && has_next(store, cell, copy)
}

/// The copy with one entry more that is put.
fn synced(copy: Copying) -> Copying
    requires { copy.index < 2 ^ 32 - 1 }
    ensures { result ≡ record copy { index = copy.index + 1 } }
{
    Copying {
        index: copy.index + 1,
        ..copy
    }
}

/// The other server has put the entry of this place: the next one follows, or the block's marks are taken away.
///
/// # Errors
/// As of [`copy_on`].
#[tactic(auto, unfolding(spec_rules::specs::Copies::on_synced, spec_rules::specs::Copies::copies_on))]
pub fn on_synced<D: Disk>(
    here: &JobContext,
    side: &mut PairMemory,
    store: &mut Store<D>,
    op: Op,
    cell: Cell,
    index: u32,
) -> Result<JobResult, WorkError>
    requires tickets { HasTicketsAt side.old store.old }
    ensures { IsDone D.Disk here.now (held side.old store.old) (held side.new store.new) result
        (copies.on_synced here.now (own_of side.old store.old) op cell index) }
{
    match side.copies.copying_on(cell) {
        Some(copy) if is_syncing(side, store, cell, copy, op) && copy.index == index => {
            let next = synced(copy);
            copy_acts(here, side, store, cell, next)
        }
        _ => silent(here, side, store),
    }
}

/// The copy ends, which found no slot.
fn end_full<D: Disk>(
    here: &JobContext,
    side: &mut PairMemory,
    store: &Store<D>,
    cell: Cell,
) -> Result<JobResult, WorkError>
    requires tickets { HasTicketsAt side.old store.now }
    ensures { IsSaid here.now side.old side.new store.now store.now result
        (silent (with_full (without_copying (own_of side.old store.now) cell) true)) }
{
    let done = silent(here, side, store)?;
    side.copies.end_copying(cell);
    side.copies.set_full(true);
    Ok(done)
}

/// The other server has no free slot: the copy ends, and begins again at a tick.
///
/// # Errors
/// Out of memory, which changed nothing.
#[tactic(auto, unfolding(spec_rules::specs::Copies::on_sync_full))]
pub fn on_sync_full<D: Disk>(
    here: &JobContext,
    side: &mut PairMemory,
    store: &Store<D>,
    op: Op,
    cell: Cell,
) -> Result<JobResult, WorkError>
    requires tickets { HasTicketsAt side.old store.now }
    ensures { IsSaid here.now side.old side.new store.now store.now result (copies.on_sync_full (own_of side.old store.now) op cell) }
{
    match side.copies.copying_on(cell) {
        Some(copy) if is_syncing(side, store, cell, copy, op) => end_full(here, side, store, cell),
        _ => silent(here, side, store),
    }
}
