//! Slots set apart, by the cells for whose puts they are.

ghost use Rattle.std.specs.Prelude.{◌≡◌, ◌==◌, ◌&&◌, ◌+◌, ◌++◌, ◌∷◌, [], nat_lt, not, true, false, ℕ, None, Some, IsSome, IfOk, OnOk, OnErr, IfErr};
ghost use Rattle.std.specs.List.Sorted.{IsStrictlySortedBy};
ghost use Rattle.std.specs.Map.{keys_of};
ghost use Rattle.petal_disk.specs.Disk.{LeavesOnly};
ghost use Rattle.petal_table.specs.Table.{at, put, without};
ghost use Rattle.spec_rules.specs.Store.{cell_cmp, free_of, with_put};
ghost use Rattle.petal_base.specs.Limits.{marks_limit};
ghost use Rattle.kept_chains.specs.Holdings.{adds_row, kept_in, marked_in};
ghost use Rattle.kept_chains.specs.Tickets as lists;
ghost use Rattle.kept_chains.specs.Kept.{store_of};
ghost use Rattle.kept_chains.specs.Marking.{IsChange};
ghost use Rattle.kept_chains.specs.Standing.{StandsAsEither};
ghost use Rattle.pair_memory.specs.declared.error.WorkError.TheVariants as error;
ghost use Rattle.pair_memory.specs.JobResult.{HasFault, HoldsAt};
ghost use Rattle.pair_memory.specs.Slots.{IsKept, IsOutAt, with_new};

use crate::error::WorkError;
use kept_chains::{Store, StoreError, Ticket, set_apart};
use petal_base::{Cell, Key, NoMemory, Origin, SharedBlock, Version};
use petal_disk::Disk;
use petal_table::Table;

/// Sets a slot apart for a cell that has none; false where none is free.
pub fn keep<D: Disk>(
    table: &mut Table<Cell, Ticket>,
    store: &mut Store<D>,
    cell: Cell,
) -> Result<bool, NoMemory>
    ensures room { IfOk result (λ kept. kept ≡ nat_lt 0 (free_of (store_of store.old))) }
    ensures yes { IfOk result (λ kept. kept ≡ true → IsKept table.old table.new store.old store.new cell) }
    ensures no { IfOk result (λ kept. kept ≡ false → (table.new ≡ table.old) × (store.new ≡ store.old)) }
    ensures err { OnErr result ((table.new ≡ table.old) × (store.new ≡ store.old)) }
{
    match set_apart(store)? {
        None => Ok(false),
        Some(ticket) => match table.insert(cell, ticket) {
            Ok(()) => Ok(true),
            Err(ticket) => {
                store.give_back(ticket);
                Err(NoMemory)
            }
        },
    }
}

/// Puts a block in the slot that was set apart for a cell, for a client's write if it is for one. A row for it has room.
///
/// # Errors
/// The device failed. All that is kept in memory of entries and marks stays.
pub fn spend<D: Disk>(
    table: &mut Table<Cell, Ticket>,
    store: &mut Store<D>,
    cell: Cell,
    key: Key,
    version: Version,
    block: &SharedBlock,
    origin: Option<Origin>,
) -> Result<(), WorkError>
    requires room { not ((marked_in store.old == marks_limit) && adds_row store.old key.map origin) ≡ true }
    requires some { IsSome (at cell_cmp table.old cell) }
    requires out { IsOutAt table.old cell store.old.tickets }
    ensures ok { OnOk result (D.observable → store_of store.new
        ≡ with_put (store_of store.old) key (record { version = version; bytes = block.now }) origin) }
    ensures table { OnOk result (table.new ≡ without cell_cmp table.old cell) }
    ensures tickets { OnOk result ((slot : ℕ) → at cell_cmp table.old cell ≡ Some slot → store.new.tickets ≡ lists.without store.old.tickets slot) }
    ensures sorted { IsStrictlySortedBy cell_cmp (keys_of table.old) }
    ensures kept { OnErr result (D.observable → store.new.entries ≡ store.old.entries) }
    ensures holds { D.observable → HoldsAt D.Disk store.old → OnOk result (HoldsAt D.Disk store.new) }
    ensures stays { OnErr result (kept_in store.new ≡ kept_in store.old) }
    ensures moments { D.observable → HoldsAt D.Disk store.old → LeavesOnly D.moment D.left_since store.old.disk store.new.disk
        (StandsAsEither store.old (with_put (store_of store.old) key (record { version = version; bytes = block.now }) origin)) }
    ensures errors { IfErr result (λ e. e ≡ error.Failed) }
    ensures cause { HasFault (D.faults store.old.disk) (D.faults store.new.disk) result }
    ensures run { D.came_to store.old.disk store.new.disk }
{
    // What `len` promises tells the proof that the rows rise by cell.
    let _ = table.len();
    match table.remove(&cell) {
        Some(ticket) => match store.put(ticket, key, version, block.block(), origin) {
            Ok(()) => Ok(()),
            Err(_) => Err(WorkError::Failed),
        },
        None => Err(WorkError::Failed),
    }
}

/// The slot that was set apart for a cell is free again.
pub fn give_back<D: Disk>(table: &mut Table<Cell, Ticket>, store: &mut Store<D>, cell: Cell)
    requires some { IsSome (at cell_cmp table.old cell) }
    requires out { IsOutAt table.old cell store.old.tickets }
    ensures table { table.new ≡ without cell_cmp table.old cell }
    ensures store { (slot : ℕ) → at cell_cmp table.old cell ≡ Some slot → store.new ≡ record store.old { tickets = lists.without store.old.tickets slot } }
    ensures sorted { IsStrictlySortedBy cell_cmp (keys_of table.old) }
{
    if let Some(ticket) = table.remove(&cell) {
        store.give_back(ticket);
    }
}

/// Puts a block in a free slot; false where none is free, and then nothing changed.
///
/// # Errors
/// Out of memory, before any call of the device; `Failed`, where the device failed. The entries stay as they were.
pub fn put_new<D: Disk>(
    store: &mut Store<D>,
    key: Key,
    version: Version,
    block: &SharedBlock,
) -> Result<bool, StoreError>
    ensures room { IfOk result (λ put. put ≡ nat_lt 0 (free_of (store_of store.old))) }
    ensures none { IfOk result (λ put. put ≡ false → store.new ≡ store.old) }
    ensures change { IsChange D.Disk store.old store.new result
        (with_new (store_of store.old) key (record { version = version; bytes = block.now }) (nat_lt 0 (free_of (store_of store.old)))) }
{
    match set_apart(store)? {
        None => Ok(false),
        Some(ticket) => match store.put(ticket, key, version, block.block(), None) {
            Ok(()) => Ok(true),
            Err(error) => Err(error),
        },
    }
}
