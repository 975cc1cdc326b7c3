//! Calls of a store, said as the rules say them.

ghost use Rattle.std.specs.Prelude.{◌≡◌, ◌+◌, ◌-◌, ◌^◌, ◌<◌, ◌≤◌, ◌++◌, ◌∷◌, [], length, nat_lt, Contains, IfOk, IfErr, IfSome, IfNone};
ghost use Rattle.std.specs.Prelude.{OnErr, is_some, nat_eq, true};
ghost use Rattle.std.specs.List.{list_any};
ghost use Rattle.petal_base.specs.Cells.{cell_of};
ghost use Rattle.device_faults.specs.Faults.{HasCause};
ghost use Rattle.petal_disk.specs.Keeping.{KeepsDevice};
ghost use Rattle.spec_rules.specs.Store.{bytes_of, chain_in, entry_at, epochs_of, free_of, settled, version_of, top_of};
ghost use Rattle.spec_rules.specs.Copies.{unmarks_limit};
ghost use Rattle.spec_rules.specs.Store.{unmark_all_on, with_mark_on, without_entry, without_mark_on};
ghost use Rattle.physical_map.specs.Entries as map;
ghost use Rattle.server_store.specs.Holdings.{listed};
ghost use Rattle.server_store.specs.Shown.{Holds};
ghost use Rattle.kept_chains.specs.Kept.{chains_of, store_of};
ghost use Rattle.kept_chains.specs.Marking.{IsChange, IsCommit};
ghost use Rattle.kept_chains.specs.Reading.{IsReadFault};
ghost use Rattle.petal_base.specs.Block.{block_bytes};

use busy_marks::MarkKind;
use petal_base::{BLOCK_BYTES, Block, Cell, Epoch, Key, NoMemory, SharedBlock, Version};
use petal_disk::{DeviceError, Disk, Failed};
use server_store::{Store, StoreError, Ticket};
use std::alloc::{AllocError, Global};

/// The version after the greatest one of a cell's entries.
pub fn next_version<D: Disk>(store: &Store<D>, cell: Cell) -> Version
    requires { map.top_of (listed store.now.entries) < 2 ^ 64 - 1 }
    ensures { result ≡ version_of (chain_in (chains_of store.now.entries) cell) + 1 }
{
    // What `free` promises tells the proof that the entries are in order.
    let _ = store.free();
    store.version(cell) + 1
}

/// Sets a slot apart; None exactly where none is free, and then nothing changed.
///
/// # Errors
/// Out of memory, which changed nothing.
pub fn set_apart<D: Disk>(store: &mut Store<D>) -> Result<Option<Ticket>, NoMemory>
    ensures room { IfOk result (λ found. is_some found ≡ nat_lt 0 (free_of (store_of store.old))) }
    ensures some { IfOk result (λ found. IfSome found (λ ticket. store.new ≡ record store.old { tickets = store.old.tickets ++ ticket ∷ [] })) }
    ensures other { IfOk result (λ found. IfSome found (λ ticket. ¬ Contains store.old.tickets ticket)) }
    ensures out { IfOk result (λ found. IfSome found (λ ticket. Contains store.new.tickets ticket)) }
    ensures none { IfOk result (λ found. IfNone found (store.new ≡ store.old)) }
    ensures err { OnErr result (store.new ≡ store.old) }
{
    if store.free() == 0 {
        return Ok(None);
    }
    match store.reserve() {
        Ok(ticket) => Ok(Some(ticket)),
        Err(_) => Err(NoMemory),
    }
}

fn buffer(alloc: Global) -> Result<Vec<u8>, AllocError>
    ensures { IfOk result (λ v. length v.items ≡ block_bytes) }
{
    Ok(vec![in alloc; 0; BLOCK_BYTES]?)
}

/// The bytes that a cell has at an epoch.
///
/// # Errors
/// `Failed`, where the device failed, and out of memory. Nothing that the store has changed, and the device keeps it as before.
pub fn read_at<D: Disk>(
    alloc: Global,
    store: &mut Store<D>,
    cell: Cell,
    epoch: Epoch,
) -> Result<SharedBlock, DeviceError>
    ensures bytes { IfOk result (λ bytes. D.observable → bytes ≡ bytes_of (entry_at (chain_in (chains_of store.old.entries) cell) epoch)) }
    ensures same { store.new ≡ record store.old { disk = store.new.disk } }
    ensures device { KeepsDevice D.size D.seen D.may_leave D.moment D.left_since store.old.disk store.new.disk }
    ensures holds { D.observable → Holds store.old (D.seen store.old.disk) (D.may_leave store.old.disk)
        → Holds store.new (D.seen store.new.disk) (D.may_leave store.new.disk) }
    ensures cause { IsReadFault (D.faults store.old.disk) (D.faults store.new.disk) result }
    ensures run { D.came_to store.old.disk store.new.disk }
{
    let mut bytes = buffer(alloc)?;
    let _ = store.free();
    let _ = store.read(cell.map, cell.block, epoch, &mut bytes)?;
    Ok(SharedBlock::new(alloc, Block::of(bytes))?)
}

/// Marks a cell. Where it has the mark nothing changes.
///
/// # Errors
/// `MarksFull` only where marks and rows are as many as there may be; out of memory, before any call of the device; `Failed`, where
/// the device failed. The store keeps what it has.
pub fn mark<D: Disk>(store: &mut Store<D>, kind: MarkKind, cell: Cell) -> Result<(), StoreError>
    ensures { IsCommit D.Disk store.old store.new result (with_mark_on (store_of store.old) kind cell) }
{
    store.mark(kind, cell)
}

/// Takes a cell's mark away. Where it has none nothing changes. It takes no memory.
///
/// # Errors
/// The device failed. The store keeps what it has.
pub fn unmark<D: Disk>(store: &mut Store<D>, kind: MarkKind, cell: Cell) -> Result<(), StoreError>
    ensures commit { IsCommit D.Disk store.old store.new result (without_mark_on (store_of store.old) kind cell) }
    ensures errors { IfErr result (λ e. e ≡ StoreError.Failed) }
{
    store.unmark(kind, cell)
}

/// Takes the marks of this kind away from the cells that have it, by one commit. It takes no memory.
///
/// # Errors
/// The device failed. The store keeps what it has.
pub fn unmark_all<D: Disk>(
    store: &mut Store<D>,
    kind: MarkKind,
    cells: &[Cell],
) -> Result<(), StoreError>
    requires { length cells.now ≤ unmarks_limit }
    ensures commit { IsCommit D.Disk store.old store.new result (unmark_all_on (store_of store.old) kind cells.now) }
    ensures errors { IfErr result (λ e. e ≡ StoreError.Failed) }
{
    store.unmark_all(kind, cells)
}

/// Drops the entry of a key, and its slot is free. It takes no memory.
///
/// # Errors
/// The device failed. The entries stay as they were.
pub fn drop_entry<D: Disk>(store: &mut Store<D>, key: Key) -> Result<(), StoreError>
    requires { list_any (nat_eq key.epoch) (epochs_of (chain_in (chains_of store.old.entries) (cell_of key))) ≡ true }
    ensures change { IsChange D.Disk store.old store.new result (without_entry (store_of store.old) key) }
    ensures errors { IfErr result (λ e. e ≡ StoreError.Failed) }
{
    // What `free` promises tells the proof that the entries are in order.
    let _ = store.free();
    store.drop_key(key)
}

/// The store waits for nobody any more. Where it waited for nobody nothing changes. It takes no memory.
///
/// # Errors
/// The device failed. It waits as before.
pub fn settle<D: Disk>(store: &mut Store<D>) -> Result<(), StoreError>
    ensures commit { IsCommit D.Disk store.old store.new result (settled (store_of store.old)) }
    ensures errors { IfErr result (λ e. e ≡ StoreError.Failed) }
{
    store.settle_fresh()
}
