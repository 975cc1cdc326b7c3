//! A store of two slots: happy paths.

use busy_marks::MarkKind;
use petal_base::{Block, Cell, Key, Version};
use petal_disk::{Disk, MemDisk};
use server_store::{Reread, Store, StoreError};
use std::alloc::Global;
use std::test::Fail;

const TWO_SLOTS: u64 = 4_329_472;

const CELL: Cell = Cell { map: 0, block: 5 };

fn two_slots(alloc: Global, fresh: bool) -> Result<Store<MemDisk>, Fail> {
    let disk = MemDisk::new(alloc, TWO_SLOTS)?;
    match Store::format(alloc, disk, 2, fresh) {
        Ok(store) => Ok(store),
        Err((_, error)) => Err(error.into()),
    }
}

fn key(block: u64) -> Key {
    Key {
        map: 0,
        block,
        epoch: 0,
    }
}

fn put<D: Disk>(store: &mut Store<D>, block: u64, content: &Block) -> Result<(), StoreError> {
    let ticket = store.reserve()?;
    store.put(ticket, key(block), 3, content, None)
}

fn last_byte<D: Disk>(store: &mut Store<D>, alloc: Global, block: u64) -> Result<u8, Fail> {
    let mut content = vec![in alloc; 9u8; 65_536]?;
    store.read(0, block, 3, &mut content)?;
    Ok(content.last().copied().unwrap_or(9))
}

fn puts_and_reads<D: Disk>(alloc: Global, store: &mut Store<D>) -> Result<bool, Fail> {
    let sevens = Block::fill(alloc, 7)?;
    let before = last_byte(store, alloc, 5)?;
    put(store, 5, &sevens)?;
    Ok(before == 0 && last_byte(store, alloc, 5)? == 7 && store.free() == 1)
}

// The tests lend their store and drop it before they leave: the prover pays for a store at each exit that drops it.
#[test]
fn a_put_is_read(rt: HostRuntime) -> Result<(), Fail> {
    let mut store = two_slots(rt.alloc(), false)?;
    let seen = puts_and_reads(rt.alloc(), &mut store);
    drop(store);
    assert!(rt; seen?);
    Ok(())
}

fn give_back<D: Disk>(store: &mut Store<D>) -> Result<u32, StoreError> {
    let ticket = store.reserve()?;
    store.give_back(ticket);
    Ok(store.free())
}

// The third of three puts.
fn fill<D: Disk>(alloc: Global, store: &mut Store<D>) -> Result<Result<(), StoreError>, Fail> {
    let zeros = Block::zero(alloc)?;
    put(store, 6, &zeros)?;
    put(store, 7, &zeros)?;
    Ok(put(store, 8, &zeros))
}

fn gives_back_and_fills<D: Disk>(alloc: Global, store: &mut Store<D>) -> Result<bool, Fail> {
    Ok(give_back(store)? == 2 && fill(alloc, store)? == Err(StoreError::NoSpace))
}

#[test]
fn a_full_store(rt: HostRuntime) -> Result<(), Fail> {
    let mut store = two_slots(rt.alloc(), false)?;
    let seen = gives_back_and_fills(rt.alloc(), &mut store);
    let _ = store.into_disk();
    assert!(rt; seen?);
    Ok(())
}

fn newest_version<D: Disk>(store: &Store<D>) -> Option<Version> {
    match store.lookup(0, 5, 9) {
        Some(entry) => Some(entry.version),
        None => None,
    }
}

fn finds<D: Disk>(store: &Store<D>) -> bool {
    newest_version(store) == Some(3)
        && store.version(CELL) == 3
        && store.top() == 3
        && store.next_block(0, None) == Some(5)
}

fn drops<D: Disk>(store: &mut Store<D>) -> Result<bool, StoreError> {
    store.drop_key(key(5))?;
    Ok(store.next_block(0, None) == None && store.free() == 2)
}

fn has_one<D: Disk>(alloc: Global, store: &Store<D>) -> Result<bool, Fail> {
    Ok(store.chain(alloc, CELL)?.len() == 1)
}

fn put_zeros<D: Disk>(alloc: Global, store: &mut Store<D>) -> Result<(), Fail> {
    let zeros = Block::zero(alloc)?;
    put(store, 5, &zeros)?;
    Ok(())
}

fn finds_and_drops<D: Disk>(alloc: Global, store: &mut Store<D>) -> Result<bool, Fail> {
    put_zeros(alloc, store)?;
    Ok(finds(store) && has_one(alloc, store)? && drops(store)?)
}

#[test]
fn entries(rt: HostRuntime) -> Result<(), Fail> {
    let mut store = two_slots(rt.alloc(), false)?;
    let seen = finds_and_drops(rt.alloc(), &mut store);
    drop(store);
    assert!(rt; seen?);
    Ok(())
}

fn put_two<D: Disk>(alloc: Global, store: &mut Store<D>) -> Result<bool, Fail> {
    let zeros = Block::zero(alloc)?;
    put(store, 5, &zeros)?;
    put(store, 6, &zeros)?;
    match store.nth(CELL, 0) {
        Some(entry) => Ok(entry.version == 3),
        None => Ok(false),
    }
}

fn drops_and_reopens<D: Disk>(alloc: Global, store: &mut Store<D>) -> Result<bool, StoreError> {
    store.drop_key(key(5))?;
    Ok(
        store.reopen(alloc)? == Reread::Same
            && store.nth(CELL, 0).is_none()
            && store.next_block(0, None) == Some(6)
            && store.free() == 1,
    )
}

fn stays_dropped<D: Disk>(alloc: Global, store: &mut Store<D>) -> Result<bool, Fail> {
    Ok(put_two(alloc, store)? && drops_and_reopens(alloc, store)?)
}

#[test]
fn a_dropped_entry_stays_dropped(rt: HostRuntime) -> Result<(), Fail> {
    let mut store = two_slots(rt.alloc(), false)?;
    let seen = stays_dropped(rt.alloc(), &mut store);
    drop(store);
    assert!(rt; seen?);
    Ok(())
}

fn marks_and_unmarks<D: Disk>(store: &mut Store<D>) -> Result<bool, StoreError> {
    store.mark(MarkKind::Busy, CELL)?;
    let marked = store.has(MarkKind::Busy, CELL)
        && store.next_mark(0, Some(4)) == Some(5)
        && store.next_map(None) == Some(0);
    store.unmark(MarkKind::Busy, CELL)?;
    Ok(marked && store.next_map(None) == None)
}

fn settles<D: Disk>(store: &mut Store<D>) -> Result<bool, StoreError> {
    let fresh = store.fresh();
    store.settle_fresh()?;
    Ok(fresh && !store.fresh())
}

fn marks_and_settles<D: Disk>(store: &mut Store<D>) -> Result<bool, StoreError> {
    Ok(marks_and_unmarks(store)? && settles(store)?)
}

#[test]
fn marks(rt: HostRuntime) -> Result<(), Fail> {
    let mut store = two_slots(rt.alloc(), true)?;
    let seen = marks_and_settles(&mut store);
    drop(store);
    assert!(rt; seen?);
    Ok(())
}
