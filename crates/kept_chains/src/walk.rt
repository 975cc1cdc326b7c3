//! The blocks of a map in order, and the entries of a block.

ghost use Rattle.std.specs.Prelude.{◌≡◌, ◌<◌, ◌-◌, ◌^◌, filter, map, nat_eq, slice_get, option_map, IfOk, IfSome, is_some};
ghost use Rattle.std.specs.List.{find};
ghost use Rattle.std.specs.Ordering.{nat_cmp};
ghost use Rattle.petal_base.specs.Cells.{cell_of};
ghost use Rattle.petal_table.specs.Table.{at};
ghost use Rattle.busy_marks.specs.Marks.{above};
ghost use Rattle.petal_disk.specs.Keeping.{KeepsDevice};
ghost use Rattle.spec_rules.specs.Copies.{least};
ghost use Rattle.spec_rules.specs.Store as rules;
ghost use Rattle.spec_rules.specs.Store.{chain_in, epochs_of};
ghost use Rattle.server_store.specs.Shown.{Holds};
ghost use Rattle.kept_chains.specs.Kept.{chains_of, store_of};
ghost use Rattle.kept_chains.specs.Reading.{IsReadFault};
ghost use Rattle.kept_chains.specs.Walking.{marked_in, place_of, row_of, stored_in};

use crate::read_at;
use busy_marks::MarkKind;
use petal_base::{BlockNo, Cell, Epoch, Key, MapId, NoMemory, Sequence, SharedBlock, Version};
use petal_disk::{DeviceError, Disk};
use server_store::{Entry, Store};
use std::alloc::{AllocError, Global};

/// One entry of a cell's chain, with an owner of its bytes.
#[derive(Drop)]
pub struct Found {
    pub epoch: Epoch,
    pub version: Version,
    pub bytes: SharedBlock,
}

/// The least block of the map above `after` with an entry.
pub fn next_stored<D: Disk>(store: &Store<D>, map: MapId, after: Option<BlockNo>) -> Option<BlockNo>
    ensures { result ≡ least (filter (above after) (stored_in map (chains_of store.now.entries))) }
{
    store.next_block(map, after)
}

/// The least block of the map above `after` with a mark of either kind.
pub fn next_marked<D: Disk>(store: &Store<D>, map: MapId, after: Option<BlockNo>) -> Option<BlockNo>
    ensures { result ≡ least (filter (above after) (marked_in map store.now.marks)) }
{
    store.next_mark(map, after)
}

fn version_in(chain: &[Entry], epoch: Epoch) -> Option<Version>
    ensures { result ≡ option_map (λ entry. entry.version) (find (λ entry. nat_eq epoch entry.key.epoch) chain.now) }
{
    match chain.iter().find(|entry| epoch == entry.key.epoch) {
        Some(entry) => Some(entry.version),
        None => None,
    }
}

/// The version of the entry that has the key.
pub fn version_at<D: Disk>(store: &Store<D>, key: Key) -> Option<Version>
    ensures { result ≡ option_map (λ entry. entry.version) (at nat_cmp (chain_in (chains_of store.now.entries) (cell_of key)) key.epoch) }
{
    // What `free` promises tells the proof that the entries are in order.
    let _ = store.free();
    version_in(store.chain_at(key.cell()), key.epoch)
}

/// Whether an entry has the key.
pub fn has_entry<D: Disk>(store: &Store<D>, key: Key) -> bool
    ensures { result ≡ is_some (at nat_cmp (chain_in (chains_of store.now.entries) (cell_of key)) key.epoch) }
{
    version_at(store, key).is_some()
}

/// The bytes of the entry that has the key.
///
/// # Errors
/// `Failed`, where the device failed, and out of memory. Nothing that the store has changed, and the device keeps it as before.
pub fn read_key<D: Disk>(
    alloc: Global,
    store: &mut Store<D>,
    key: Key,
) -> Result<Option<SharedBlock>, DeviceError>
    ensures entry { IfOk result (λ found. D.observable → found
        ≡ option_map (λ entry. entry.bytes) (at nat_cmp (chain_in (chains_of store.old.entries) (cell_of key)) key.epoch)) }
    ensures same { store.new ≡ record store.old { disk = store.new.disk } }
    ensures device { KeepsDevice D.size D.seen D.may_leave D.moment D.left_since store.old.disk store.new.disk }
    ensures holds { D.observable → Holds store.old (D.seen store.old.disk) (D.may_leave store.old.disk)
        → Holds store.new (D.seen store.new.disk) (D.may_leave store.new.disk) }
    ensures cause { IsReadFault (D.faults store.old.disk) (D.faults store.new.disk) result }
    ensures run { D.came_to store.old.disk store.new.disk }
{
    if !has_entry(store, key) {
        return Ok(None);
    }
    Ok(Some(read_at(alloc, store, key.cell(), key.epoch)?))
}

/// Whether an entry of this version with these bytes has the key. The block is read only where one of this version has it.
///
/// # Errors
/// `Failed`, where the device failed, and out of memory. Nothing that the store has changed, and the device keeps it as before.
pub fn has_stored<D: Disk>(
    alloc: Global,
    store: &mut Store<D>,
    key: Key,
    version: Version,
    bytes: &SharedBlock,
) -> Result<bool, DeviceError>
    ensures stored { IfOk result (λ found. D.observable → found
        ≡ rules.has_stored (store_of store.old) key (record { version = version; bytes = bytes.now })) }
    ensures same { store.new ≡ record store.old { disk = store.new.disk } }
    ensures device { KeepsDevice D.size D.seen D.may_leave D.moment D.left_since store.old.disk store.new.disk }
    ensures holds { D.observable → Holds store.old (D.seen store.old.disk) (D.may_leave store.old.disk)
        → Holds store.new (D.seen store.new.disk) (D.may_leave store.new.disk) }
    ensures cause { IsReadFault (D.faults store.old.disk) (D.faults store.new.disk) result }
    ensures run { D.came_to store.old.disk store.new.disk }
{
    match version_at(store, key) {
        Some(found) if found == version => {
            Ok(*bytes == read_at(alloc, store, key.cell(), key.epoch)?)
        }
        _ => Ok(false),
    }
}

/// Whether the cell has an entry of an epoch not above.
pub fn has_below<D: Disk>(store: &Store<D>, cell: Cell, epoch: Epoch) -> bool
    ensures { result ≡ is_some (rules.entry_at (chain_in (chains_of store.now.entries) cell) epoch) }
{
    // What `free` promises tells the proof that the entries are in order.
    let _ = store.free();
    store.lookup(cell.map, cell.block, epoch).is_some()
}

/// The mark of a cell that is to be taken away first.
pub fn mark_left<D: Disk>(store: &Store<D>, cell: Cell) -> Option<MarkKind>
    ensures { result ≡ rules.mark_left (store_of store.now) cell }
{
    if store.has(MarkKind::Busy, cell) {
        Some(MarkKind::Busy)
    } else if store.has(MarkKind::Stale, cell) {
        Some(MarkKind::Stale)
    } else {
        None
    }
}

/// The epoch and the version of the entry at this place of a cell's chain, counted from 0.
pub fn nth<D: Disk>(store: &Store<D>, cell: Cell, place: usize) -> Option<(Epoch, Version)>
    ensures found { result ≡ option_map place_of (slice_get (chain_in (chains_of store.now.entries) cell) place) }
    ensures within { IfSome result (λ _. place < 2 ^ 32 - 1) }
{
    // What `free` promises tells the proof that the entries are in order.
    let _ = store.free();
    match store.nth(cell, place) {
        Some(entry) => Some((entry.key.epoch, entry.version)),
        None => None,
    }
}

fn epochs_in(alloc: Global, chain: &[Entry]) -> Result<Vec<Epoch>, AllocError>
    ensures { IfOk result (λ epochs. epochs.items ≡ map (λ entry. entry.key.epoch) chain.now) }
{
    chain.iter().map(|entry| entry.key.epoch).collect(alloc)
}

/// The epochs of a cell's chain, rising.
///
/// # Errors
/// Out of memory.
pub fn epochs<D: Disk>(
    alloc: Global,
    store: &Store<D>,
    cell: Cell,
) -> Result<Sequence<Epoch>, NoMemory>
    ensures { IfOk result (λ epochs. epochs ≡ epochs_of (chain_in (chains_of store.now.entries) cell)) }
{
    let _ = store.free();
    let chain = store.chain(alloc, cell)?;
    Ok(Sequence::of(epochs_in(alloc, chain.as_slice())?))
}

/// The entry at this place of a cell's chain, counted from 0.
///
/// # Errors
/// `Failed`, where the device failed, and out of memory. Nothing that the store has changed, and the device keeps it as before.
pub fn read_nth<D: Disk>(
    alloc: Global,
    store: &mut Store<D>,
    cell: Cell,
    place: usize,
) -> Result<Option<Found>, DeviceError>
    ensures entry { IfOk result (λ found. D.observable → option_map row_of found ≡ slice_get (chain_in (chains_of store.old.entries) cell) place) }
    ensures same { store.new ≡ record store.old { disk = store.new.disk } }
    ensures device { KeepsDevice D.size D.seen D.may_leave D.moment D.left_since store.old.disk store.new.disk }
    ensures holds { D.observable → Holds store.old (D.seen store.old.disk) (D.may_leave store.old.disk)
        → Holds store.new (D.seen store.new.disk) (D.may_leave store.new.disk) }
    ensures cause { IsReadFault (D.faults store.old.disk) (D.faults store.new.disk) result }
    ensures run { D.came_to store.old.disk store.new.disk }
{
    let _ = store.free();
    match nth(store, cell, place) {
        None => Ok(None),
        Some((epoch, version)) => {
            let bytes = read_at(alloc, store, cell, epoch)?;
            Ok(Some(Found {
                epoch,
                version,
                bytes,
            }))
        }
    }
}
