//! The other server of a link: it drops the entries that the holder has not.

ghost use Rattle.std.specs.Prelude.{◌≡◌, [], true, not, nat_eq, find, IfOk, Some, option_map};
ghost use Rattle.std.specs.List.{list_any};
ghost use Rattle.petal_base.specs.Cells as cells;
ghost use Rattle.petal_table.specs.Table.{at};
ghost use Rattle.petal_msg.specs.declared.copying.LastCopy.{LastCopy as Last};
ghost use Rattle.spec_rules.specs.Copies as copies;
ghost use Rattle.spec_rules.specs.Progress.{with_last_copy};
ghost use Rattle.spec_rules.specs.Store.{cell_cmp, chain_in, epochs_of};
ghost use Rattle.kept_chains.specs.Kept.{chains_of};
ghost use Rattle.pair_memory.specs.PairMemory.{own_of, HasTicketsAt};
ghost use Rattle.pair_memory.specs.JobResult.{IsDone, IsSaid, held};
ghost use Rattle.copy_transfer.specs.Entries.{dropped};

use kept_chains::{drop_entry, epochs};
use link_blocks::{followed, holder_on};
use pair_memory::{FollowUp, JobContext, JobResult, PairMemory, WorkError, say_to, silent};
use petal_base::{Cell, Epoch, Key, NoMemory, Op, Sequence, ServerId};
use petal_disk::Disk;
use petal_msg::{Body, LastCopy};
use server_store::Store;

/// The first of these epochs that the holder has not.
fn first_beyond(own: &[Epoch], kept: &[Epoch]) -> Option<Epoch>
    ensures { result ≡ find (λ epoch. not (list_any (nat_eq epoch) kept.now)) own.now }
{
    own.iter().copied().find(|epoch| !kept.contains(epoch))
}

/// The first epoch of the cell's entries that the holder has not.
fn beyond<D: Disk>(
    here: &JobContext,
    store: &Store<D>,
    cell: Cell,
    kept: &Sequence<Epoch>,
) -> Result<Option<Epoch>, NoMemory>
    ensures { IfOk result (λ found. found
        ≡ find (λ epoch. not (list_any (nat_eq epoch) kept.now)) (epochs_of (chain_in (chains_of store.now.entries) cell))) }
{
    let own = epochs(here.alloc(), store, cell)?;
    Ok(first_beyond(own.as_slice(), kept.as_slice()))
}

fn key_at(cell: Cell, epoch: Epoch) -> Key
    ensures { result ≡ cells.key_at cell epoch }
{
    Key {
        map: cell.map,
        block: cell.block,
        epoch,
    }
}

/// An entry is dropped.
fn drop_one<D: Disk>(
    here: &JobContext,
    side: &PairMemory,
    store: &mut Store<D>,
    cell: Cell,
    epoch: Epoch,
) -> Result<JobResult, WorkError>
    requires tickets { HasTicketsAt side.now store.old }
    requires there { list_any (nat_eq epoch) (epochs_of (chain_in (chains_of store.old.entries) cell)) ≡ true }
    ensures { IsDone D.Disk here.now (held side.now store.old) (held side.now store.new) result (dropped (own_of side.now store.old) cell epoch) }
{
    let _ = side;
    drop_entry(store, key_at(cell, epoch))?;
    Ok(followed(here, Some(FollowUp::Stage(cell))))
}

/// One of the cell's entries that the holder has not is dropped, or the holder is told that none is left.
fn trim<D: Disk>(
    here: &JobContext,
    side: &PairMemory,
    store: &mut Store<D>,
    cell: Cell,
    holder: ServerId,
    last: &LastCopy,
) -> Result<JobResult, WorkError>
    requires { HasTicketsAt side.now store.old }
    ensures { IsDone D.Disk here.now (held side.now store.old) (held side.now store.new) result
        (copies.trims_for (own_of side.now store.old) cell (Some holder) (Some last.now)) }
{
    match beyond(here, store, cell, &last.epochs)? {
        None => say_to(
            here,
            side,
            store,
            Some(holder),
            Body::Trimmed { op: last.op, cell },
        ),
        Some(epoch) => drop_one(here, side, store, cell, epoch),
    }
}

/// The last copy of the cell to this server does what is next here, with at most one commit to the store.
///
/// # Errors
/// `NoMemory`, and then nothing changed; `Failed` where the device failed, and `NoRoom` only where marks and rows of the store
/// were as many as there may be: the entries are as they were, and the server is to be stopped.
#[tactic(auto, unfolding(spec_rules::specs::Copies::trims_on))]
pub fn trim_on<D: Disk>(
    here: &JobContext,
    side: &PairMemory,
    store: &mut Store<D>,
    cell: Cell,
) -> Result<JobResult, WorkError>
    requires { HasTicketsAt side.now store.old }
    ensures { IsDone D.Disk here.now (held side.now store.old) (held side.now store.new) result (copies.trims_on here.now (own_of side.now store.old) cell) }
{
    match (holder_on(here, cell), side.copies.last_copy(cell)) {
        (Some(holder), Some(last)) => trim(here, side, store, cell, holder, last),
        (None, _) | (Some(_), None) => silent(here, side, store),
    }
}

/// A copy that is new here is remembered, and the holder is told that no other entry is left.
fn remember<D: Disk>(
    here: &JobContext,
    side: &mut PairMemory,
    store: &Store<D>,
    cell: Cell,
    holder: ServerId,
    last: LastCopy,
) -> Result<JobResult, WorkError>
    requires { HasTicketsAt side.old store.now }
    ensures { IsSaid here.now side.old side.new store.now store.now result
        (copies.trims_first (with_last_copy (own_of side.old store.now) cell last) cell last.op holder []) }
{
    let body = Body::Trimmed { op: last.op, cell };
    let done = say_to(here, side, store, Some(holder), body)?;
    side.copies.set_last_copy(cell, last)?;
    Ok(done)
}

/// A copy that is new here is remembered, and an entry is dropped.
fn remember_and_drop<D: Disk>(
    here: &JobContext,
    side: &mut PairMemory,
    store: &mut Store<D>,
    cell: Cell,
    epoch: Epoch,
    last: LastCopy,
) -> Result<JobResult, WorkError>
    requires tickets { HasTicketsAt side.old store.old }
    requires there { list_any (nat_eq epoch) (epochs_of (chain_in (chains_of store.old.entries) cell)) ≡ true }
    ensures { IsDone D.Disk here.now (held side.old store.old) (held side.new store.new) result
        (dropped (with_last_copy (own_of side.old store.old) cell last) cell epoch) }
{
    side.copies.set_last_copy(cell, last)?;
    match drop_entry(store, key_at(cell, epoch)) {
        Ok(()) => Ok(followed(here, Some(FollowUp::Stage(cell)))),
        Err(_) => Err(WorkError::Failed),
    }
}

/// A copy that is new here is remembered, and trims.
fn trim_newly<D: Disk>(
    here: &JobContext,
    side: &mut PairMemory,
    store: &mut Store<D>,
    cell: Cell,
    holder: ServerId,
    last: LastCopy,
) -> Result<JobResult, WorkError>
    requires { HasTicketsAt side.old store.old }
    ensures { IsDone D.Disk here.now (held side.old store.old) (held side.new store.new) result
        (copies.trims_for (with_last_copy (own_of side.old store.old) cell last) cell (Some holder) (Some last)) }
{
    match beyond(here, store, cell, &last.epochs)? {
        None => remember(here, side, store, cell, holder, last),
        Some(epoch) => remember_and_drop(here, side, store, cell, epoch, last),
    }
}

/// An equal number is answered again, once nothing is left to drop.
fn trim_again<D: Disk>(
    here: &JobContext,
    side: &PairMemory,
    store: &Store<D>,
    cell: Cell,
    op: Op,
    holder: ServerId,
) -> Result<JobResult, WorkError>
    requires { HasTicketsAt side.now store.now }
    ensures { (last : Last) → at cell_cmp side.now.copies.last cell ≡ Some last
        → IsSaid here.now side.now side.now store.now store.now result
        (copies.trims_again (own_of side.now store.now) cell op holder (copies.epochs_beyond (own_of side.now store.now) cell last.epochs)) }
{
    let Some(last) = side.copies.last_copy(cell) else {
        return silent(here, side, store);
    };
    match beyond(here, store, cell, &last.epochs)? {
        None => say_to(here, side, store, Some(holder), Body::Trimmed { op, cell }),
        Some(_) => silent(here, side, store),
    }
}

/// The number of the last copy of the cell to this server.
fn last_number(side: &PairMemory, cell: Cell) -> Option<Op>
    ensures { result ≡ option_map (λ last. last.op) (at cell_cmp side.now.copies.last cell) }
{
    match side.copies.last_copy(cell) {
        Some(last) => Some(last.op),
        None => None,
    }
}

/// A copy where one of the cell was known here.
fn trim_after<D: Disk>(
    here: &JobContext,
    side: &mut PairMemory,
    store: &mut Store<D>,
    cell: Cell,
    holder: ServerId,
    copy: LastCopy,
    last: Op,
) -> Result<JobResult, WorkError>
    requires tickets { HasTicketsAt side.old store.old }
    requires known { option_map (λ known. known.op) (at cell_cmp side.old.copies.last cell) ≡ Some last }
    requires begins { copy.index ≡ 0 }
    ensures { copies.cell_holder here.now cell ≡ Some holder → IsDone D.Disk here.now (held side.old store.old) (held side.new store.new) result
        (copies.on_trim here.now (own_of side.old store.old) copy.op cell copy.epochs) }
{
    if copy.op < last {
        return silent(here, side, store);
    }
    if copy.op == last {
        return trim_again(here, side, store, cell, copy.op, holder);
    }
    trim_newly(here, side, store, cell, holder, copy)
}

/// An older number is dropped, an equal one is answered again, a newer one is remembered and trims.
///
/// # Errors
/// As of [`trim_on`](crate::follow::trim_on).
#[tactic(auto, unfolding(spec_rules::specs::Copies::on_trim))]
pub fn on_trim<D: Disk>(
    here: &JobContext,
    side: &mut PairMemory,
    store: &mut Store<D>,
    op: Op,
    cell: Cell,
    epochs: &Sequence<Epoch>,
) -> Result<JobResult, WorkError>
    requires { HasTicketsAt side.old store.old }
    ensures { IsDone D.Disk here.now (held side.old store.old) (held side.new store.new) result
        (copies.on_trim here.now (own_of side.old store.old) op cell epochs.now) }
{
    let Some(holder) = holder_on(here, cell) else {
        return silent(here, side, store);
    };
    let copy = new_copy(op, epochs)?;
    match last_number(side, cell) {
        None => trim_newly(here, side, store, cell, holder, copy),
        Some(last) => trim_after(here, side, store, cell, holder, copy, last),
    }
}

/// The copy that a letter begins here.
fn new_copy(op: Op, epochs: &Sequence<Epoch>) -> Result<LastCopy, NoMemory>
    ensures { IfOk result (λ last. last ≡ record { op = op; epochs = epochs.now; index = 0 }) }
{
    Ok(LastCopy {
        op,
        epochs: epochs.clone()?,
        index: 0,
    })
}
