//! The other server of a link: it puts the holder's entries.

ghost use Rattle.std.specs.Prelude.{◌≡◌, nat_lt, IfOk, IsSome, Some, option_map};
ghost use Rattle.petal_base.specs.Cells.{cell_of};
ghost use Rattle.petal_table.specs.Table.{at};
ghost use Rattle.petal_msg.specs.declared.copying.LastCopy.{LastCopy as Last};
ghost use Rattle.petal_msg.specs.declared.body.Body.TheVariants as body;
ghost use Rattle.spec_rules.specs.Copies as copies;
ghost use Rattle.spec_rules.specs.Server as rules;
ghost use Rattle.spec_rules.specs.Store.{cell_cmp, free_of};
ghost use Rattle.kept_chains.specs.Kept.{store_of};
ghost use Rattle.pair_memory.specs.PairMemory.{own_of, HasTicketsAt};
ghost use Rattle.pair_memory.specs.JobResult.{IsDone, IsSaid, held};
ghost use Rattle.copy_transfer.specs.Entries.{counted, entry_of, put_as, put_at};

use kept_chains::has_stored;
use link_blocks::holder_on;
use pair_memory::{JobContext, JobResult, PairMemory, WorkError, only, put_new, say_to, silent};
use petal_base::{Cell, Key, NoMemory, Op, ServerId, SharedBlock, Version};
use petal_disk::{DeviceError, Disk};
use petal_msg::{Body, LastCopy};
use server_store::Store;

/// An entry of the holder's, as its letter has it.
#[derive(Drop)]
pub struct CopiedEntry<'a> {
    /// The number of the copy.
    pub op: Op,
    /// Where it is to be put.
    pub key: Key,
    /// Its place in the holder's chain.
    pub index: u32,
    pub version: Version,
    pub bytes: &'a SharedBlock,
}

/// The holder is told that the entry is put.
fn say_synced<D: Disk>(
    here: &JobContext,
    side: &PairMemory,
    store: &Store<D>,
    entry: &CopiedEntry,
    holder: ServerId,
) -> Result<JobResult, WorkError>
    requires { HasTicketsAt side.now store.now }
    ensures { IsSaid here.now side.now side.now store.now store.now result
        (rules.says_to (own_of side.now store.now) (Some holder) (body.Synced entry.now.op (cell_of entry.now.key) entry.now.index)) }
{
    let body = Body::Synced {
        op: entry.op,
        cell: entry.key.cell(),
        index: entry.index,
    };
    say_to(here, side, store, Some(holder), body)
}

/// The copy with the entry at this place put.
fn advanced(last: &LastCopy, place: u32) -> Result<LastCopy, NoMemory>
    ensures { IfOk result (λ next. next ≡ put_at place last.now) }
{
    Ok(LastCopy {
        op: last.op,
        epochs: last.epochs.clone()?,
        index: place as u64 + 1,
    })
}

/// The entry is put in a free slot, and the copy is as far as this.
fn put_entry<D: Disk>(
    here: &JobContext,
    side: &mut PairMemory,
    store: &mut Store<D>,
    entry: &CopiedEntry,
    holder: ServerId,
    next: LastCopy,
) -> Result<JobResult, WorkError>
    requires tickets { HasTicketsAt side.old store.old }
    requires there { IsSome (at cell_cmp side.old.copies.last (cell_of entry.now.key)) }
    ensures { IsDone D.Disk here.now (held side.old store.old) (held side.new store.new) result
        (put_as (own_of side.old store.old) (entry_of entry.now) next holder (nat_lt 0 (free_of (store_of store.old)))) }
{
    let cell = entry.key.cell();
    let body = Body::Synced {
        op: entry.op,
        cell,
        index: entry.index,
    };
    let letters = here.say_to(Some(holder), body)?;
    if put_new(store, entry.key, entry.version, entry.bytes)? {
        side.copies.replace_last_copy(cell, next);
        return Ok(only(letters));
    }
    let body = Body::SyncFull { op: entry.op, cell };
    say_to(here, side, store, Some(holder), body)
}

/// The entry is there already: the copy is as far as this.
fn count_entry<D: Disk>(
    here: &JobContext,
    side: &mut PairMemory,
    store: &Store<D>,
    entry: &CopiedEntry,
    holder: ServerId,
    next: LastCopy,
) -> Result<JobResult, WorkError>
    requires tickets { HasTicketsAt side.old store.now }
    requires there { IsSome (at cell_cmp side.old.copies.last (cell_of entry.now.key)) }
    ensures { IsSaid here.now side.old side.new store.now store.now result
        (counted (own_of side.old store.now) (entry_of entry.now) next holder) }
{
    let done = say_synced(here, side, store, entry, holder)?;
    side.copies.replace_last_copy(entry.key.cell(), next);
    Ok(done)
}

/// The entry is put, unless it is there already: then it takes no slot.
fn take_entry<D: Disk>(
    here: &JobContext,
    side: &mut PairMemory,
    store: &mut Store<D>,
    entry: &CopiedEntry,
    holder: ServerId,
    next: LastCopy,
) -> Result<JobResult, WorkError>
    requires tickets { HasTicketsAt side.old store.old }
    requires there { IsSome (at cell_cmp side.old.copies.last (cell_of entry.now.key)) }
    ensures { IsDone D.Disk here.now (held side.old store.old) (held side.new store.new) result
        (put_as (own_of side.old store.old) (entry_of entry.now) next holder (copies.has_room (store_of store.old) (entry_of entry.now))) }
{
    match has_stored(here.alloc(), store, entry.key, entry.version, entry.bytes) {
        Ok(true) => count_entry(here, side, store, entry, holder, next),
        Ok(false) => put_entry(here, side, store, entry, holder, next),
        Err(DeviceError::Failed) => Err(WorkError::Failed),
        Err(DeviceError::NoMemory) => Err(WorkError::NoMemory),
    }
}

/// The next entry is put, and one that is put already is answered again.
fn hear_entry<D: Disk>(
    here: &JobContext,
    side: &mut PairMemory,
    store: &mut Store<D>,
    entry: &CopiedEntry,
    holder: ServerId,
    index: u64,
) -> Result<JobResult, WorkError>
    requires { HasTicketsAt side.old store.old }
    ensures { (last : Last) → at cell_cmp side.old.copies.last (cell_of entry.now.key) ≡ Some last → last.index ≡ index
        → IsDone D.Disk here.now (held side.old store.old) (held side.new store.new) result
        (copies.hears_entry (own_of side.old store.old) (entry_of entry.now) holder last) }
{
    let place = entry.index as u64;
    if place < index {
        return say_synced(here, side, store, entry, holder);
    }
    if place != index {
        return silent(here, side, store);
    }
    match next_copy(side, entry.key.cell(), entry.index)? {
        Some(next) => take_entry(here, side, store, entry, holder, next),
        None => silent(here, side, store),
    }
}

/// The last copy of the cell with the entry at this place put.
fn next_copy(side: &PairMemory, cell: Cell, place: u32) -> Result<Option<LastCopy>, NoMemory>
    ensures { IfOk result (λ next. next ≡ option_map (put_at place) (at cell_cmp side.now.copies.last cell)) }
{
    match side.copies.last_copy(cell) {
        Some(last) => Ok(Some(advanced(last, place)?)),
        None => Ok(None),
    }
}

/// The number of the last copy of the cell to this server, and how many of its entries are put.
fn last_place(side: &PairMemory, cell: Cell) -> Option<(Op, u64)>
    ensures { result ≡ option_map (λ last. (last.op, last.index)) (at cell_cmp side.now.copies.last cell) }
{
    match side.copies.last_copy(cell) {
        Some(last) => Some((last.op, last.index)),
        None => None,
    }
}

/// An entry of the copy that trimmed the cell last is put as the holder has it, in a free slot. One that is there already needs none.
///
/// # Errors
/// As of [`trim_on`](crate::follow::trim_on).
#[tactic(auto, unfolding(spec_rules::specs::Copies::on_sync))]
pub fn on_sync<D: Disk>(
    here: &JobContext,
    side: &mut PairMemory,
    store: &mut Store<D>,
    entry: &CopiedEntry,
) -> Result<JobResult, WorkError>
    requires { HasTicketsAt side.old store.old }
    ensures { IsDone D.Disk here.now (held side.old store.old) (held side.new store.new) result
        (copies.on_sync here.now (own_of side.old store.old) (entry_of entry.now)) }
{
    let cell = entry.key.cell();
    match (holder_on(here, cell), last_place(side, cell)) {
        (Some(holder), Some((op, index))) if op == entry.op => {
            hear_entry(here, side, store, entry, holder, index)
        }
        _ => silent(here, side, store),
    }
}
