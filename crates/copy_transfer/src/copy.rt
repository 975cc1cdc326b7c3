//! The stages of a copy at the holder of the link.

ghost use Rattle.std.specs.Prelude.{◌≡◌, ◌<◌, ◌-◌, ◌^◌, nat_lt, length, option_map, true, IsSome, IfOk, OnOk, OnErr};
ghost use Rattle.busy_marks.specs.Marks.{above};
ghost use Rattle.petal_base.specs.Cells.{key_at};
ghost use Rattle.petal_table.specs.Table.{at};
ghost use Rattle.petal_msg.specs.declared.body.Body.TheVariants as body;
ghost use Rattle.petal_msg.specs.declared.copying.CopyAction.TheVariants as copy_action;
ghost use Rattle.spec_rules.specs.Copies as copies;
ghost use Rattle.spec_rules.specs.Progress.{with_copying};
ghost use Rattle.spec_rules.specs.State.{id_of};
ghost use Rattle.spec_rules.specs.Store.{cell_cmp, chain_in, epochs_of};
ghost use Rattle.spec_state.specs.CellState.{cell_link};
ghost use Rattle.kept_chains.specs.Kept.{store_of};
ghost use Rattle.kept_chains.specs.Walking.{row_of};
ghost use Rattle.pair_memory.specs.declared.job_result.FollowUp.TheVariants as follow_up;
ghost use Rattle.pair_memory.specs.PairMemory.{own_of, HasTicketsAt};
ghost use Rattle.pair_memory.specs.JobResult.{IsDone, IsSaid, held};
ghost use Rattle.copy_transfer.specs.Stages.{copied_in};

use busy_marks::MarkKind;
use kept_chains::{Found, epochs, mark_left, nth, read_nth, unmark};
use link_blocks::{followed, other_on};
use pair_memory::{
    Copies, FollowUp, JobContext, JobResult, PairMemory, WorkError, link_id, say_to, silent,
};
use petal_base::{BlockNo, Cell, Key, NoMemory};
use petal_disk::{DeviceError, Disk};
use petal_msg::{Body, CopyAction, Copying, Progress};
use server_store::Store;

/// Whether the copy has an entry at its place.
pub fn has_next<D: Disk>(store: &Store<D>, cell: Cell, copy: Copying) -> bool
    ensures next { result ≡ nat_lt copy.index (length (chain_in (store_of store.now).chains cell)) }
    ensures within { result ≡ true → copy.index < 2 ^ 32 - 1 }
{
    nth(store, cell, copy.index as usize).is_some()
}

/// What the copy does next.
pub fn copy_stage<D: Disk>(store: &Store<D>, cell: Cell, copy: Copying) -> CopyAction
    ensures { result ≡ copies.copy_stage (store_of store.now) cell copy }
{
    if !copy.trimmed {
        return CopyAction::Trim;
    }
    if has_next(store, cell, copy) {
        return CopyAction::Sync;
    }
    match mark_left(store, cell) {
        Some(kind) => CopyAction::Unmark(kind),
        None => CopyAction::Close,
    }
}

/// The letter with which the copy begins.
pub fn trim_body<D: Disk>(
    here: &JobContext,
    store: &Store<D>,
    cell: Cell,
    copy: Copying,
) -> Result<Body, NoMemory>
    ensures { IfOk result (λ said. said ≡ body.Trim copy.op cell (epochs_of (chain_in (store_of store.now).chains cell))) }
{
    Ok(Body::Trim {
        op: copy.op,
        cell,
        epochs: epochs(here.alloc(), store, cell)?,
    })
}

/// The letter of an entry.
pub fn sync_body(cell: Cell, copy: Copying, found: Found) -> Body
    ensures { result ≡ body.Sync copy.op (key_at cell found.epoch) found.version copy.index found.bytes }
{
    Body::Sync {
        op: copy.op,
        key: Key {
            map: cell.map,
            block: cell.block,
            epoch: found.epoch,
        },
        version: found.version,
        index: copy.index,
        bytes: found.bytes,
    }
}

/// The other server is to drop its other entries.
fn trim<D: Disk>(
    here: &JobContext,
    side: &mut PairMemory,
    store: &Store<D>,
    cell: Cell,
    copy: Copying,
) -> Result<JobResult, WorkError>
    requires tickets { HasTicketsAt side.old store.now }
    requires there { IsSome (at cell_cmp side.old.copies.pending cell) }
    ensures { IsSaid here.now side.old side.new store.now store.now result
        (copies.copy_acts here.now (with_copying (own_of side.old store.now) cell copy) cell copy copy_action.Trim) }
{
    let body = trim_body(here, store, cell, copy)?;
    let done = say_to(here, side, store, other_on(here, cell), body)?;
    side.copies.replace_copying(cell, copy);
    Ok(done)
}

/// The other server is sent an entry.
fn send_entry<D: Disk>(
    here: &JobContext,
    side: &mut PairMemory,
    store: &Store<D>,
    cell: Cell,
    copy: Copying,
    found: Option<Found>,
) -> Result<JobResult, WorkError>
    requires tickets { HasTicketsAt side.old store.now }
    requires there { IsSome (at cell_cmp side.old.copies.pending cell) }
    ensures { IsSaid here.now side.old side.new store.now store.now result
        (copies.sends_entry here.now (with_copying (own_of side.old store.now) cell copy) cell copy (option_map row_of found)) }
{
    let done = match found {
        Some(found) => say_to(
            here,
            side,
            store,
            other_on(here, cell),
            sync_body(cell, copy, found),
        )?,
        None => silent(here, side, store)?,
    };
    side.copies.replace_copying(cell, copy);
    Ok(done)
}

/// The other server is sent the entry at the copy's place.
fn sync<D: Disk>(
    here: &JobContext,
    side: &mut PairMemory,
    store: &mut Store<D>,
    cell: Cell,
    copy: Copying,
) -> Result<JobResult, WorkError>
    requires tickets { HasTicketsAt side.old store.old }
    requires there { IsSome (at cell_cmp side.old.copies.pending cell) }
    ensures { IsDone D.Disk here.now (held side.old store.old) (held side.new store.new) result
        (copies.copy_acts here.now (with_copying (own_of side.old store.old) cell copy) cell copy copy_action.Sync) }
{
    match read_nth(here.alloc(), store, cell, copy.index as usize) {
        Ok(found) => send_entry(here, side, store, cell, copy, found),
        Err(DeviceError::Failed) => Err(WorkError::Failed),
        Err(DeviceError::NoMemory) => Err(WorkError::NoMemory),
    }
}

/// A mark of the block is taken away here.
fn unmark_block<D: Disk>(
    here: &JobContext,
    side: &mut PairMemory,
    store: &mut Store<D>,
    cell: Cell,
    copy: Copying,
    kind: MarkKind,
) -> Result<JobResult, WorkError>
    requires tickets { HasTicketsAt side.old store.old }
    requires there { IsSome (at cell_cmp side.old.copies.pending cell) }
    ensures { IsDone D.Disk here.now (held side.old store.old) (held side.new store.new) result
        (copies.copy_acts here.now (with_copying (own_of side.old store.old) cell copy) cell copy (copy_action.Unmark kind)) }
{
    unmark(store, kind, cell)?;
    side.copies.replace_copying(cell, copy);
    Ok(followed(here, Some(FollowUp::Stage(cell))))
}

fn is_above(after: Option<BlockNo>, block: BlockNo) -> bool
    ensures { result ≡ above after block }
{
    match after {
        Some(after) => after < block,
        None => true,
    }
}

/// The block is the greatest that was copied of its link, where none above it was.
fn set_copied(here: &JobContext, noted: &mut Copies, cell: Cell) -> Result<(), NoMemory>
    ensures ok { OnOk result (noted.new ≡ copied_in (cell_link here.now.state cell) noted.old cell.block) }
    ensures err { OnErr result (noted.new ≡ noted.old) }
{
    let Some(row) = here.state().cell_row(cell) else {
        return Ok(());
    };
    let link = link_id(row);
    let before = noted.progress_on(link);
    if !is_above(before.copied, cell.block) {
        return Ok(());
    }
    noted.set_progress(
        link,
        Progress {
            copied: Some(cell.block),
            ..before
        },
    )
}

/// The job that goes on with the cell's link.
fn repair_after(here: &JobContext, cell: Cell) -> Option<FollowUp>
    ensures { result ≡ option_map (λ row. follow_up.Repair (id_of row)) (cell_link here.now.state cell) }
{
    match here.state().cell_row(cell) {
        Some(row) => Some(FollowUp::Repair(link_id(row))),
        None => None,
    }
}

/// The block is copied, and the link goes on.
fn close<D: Disk>(
    here: &JobContext,
    side: &mut PairMemory,
    store: &Store<D>,
    cell: Cell,
    copy: Copying,
) -> Result<JobResult, WorkError>
    requires tickets { HasTicketsAt side.old store.now }
    ensures { IsSaid here.now side.old side.new store.now store.now result
        (copies.copy_acts here.now (with_copying (own_of side.old store.now) cell copy) cell copy copy_action.Close) }
{
    let _ = store;
    let _ = copy;
    set_copied(here, &mut side.copies, cell)?;
    side.copies.end_copying(cell);
    side.copies.set_full(false);
    Ok(followed(here, repair_after(here, cell)))
}

/// What the copy does next, as a letter has moved it on.
pub fn copy_acts<D: Disk>(
    here: &JobContext,
    side: &mut PairMemory,
    store: &mut Store<D>,
    cell: Cell,
    copy: Copying,
) -> Result<JobResult, WorkError>
    requires tickets { HasTicketsAt side.old store.old }
    requires there { IsSome (at cell_cmp side.old.copies.pending cell) }
    ensures { IsDone D.Disk here.now (held side.old store.old) (held side.new store.new) result
        (copies.copy_acts here.now (with_copying (own_of side.old store.old) cell copy) cell copy (copies.copy_stage (store_of store.old) cell copy)) }
{
    match copy_stage(store, cell, copy) {
        CopyAction::Trim => trim(here, side, store, cell, copy),
        CopyAction::Sync => sync(here, side, store, cell, copy),
        CopyAction::Unmark(kind) => unmark_block(here, side, store, cell, copy, kind),
        CopyAction::Close => close(here, side, store, cell, copy),
    }
}
