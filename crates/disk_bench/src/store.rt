//! A store of 1,024 slots.

use busy_marks::MarkKind;
use petal_base::{Block, Cell, Key};
use petal_disk::{Disk, MemDisk};
use server_store::{DATA_START, Opened, SLOT_BYTES, Store, StoreError};
use std::alloc::Global;

const SLOTS: u32 = 1_024;

// One slot stays free for the next put.
const BLOCKS: u64 = 1_023;

// The marks of so many writes go by one commit.
const GROUP: u64 = 64;

// The block of the last mark that there may be.
const LAST: u64 = 28_671;

/// What is done with a store.
#[derive(Clone, Copy)]
pub enum Act {
    /// Writes in whole groups of 64, each a mark and a put; the marks of a group go together.
    Fill,
    /// A mark is set and taken away beside 1,023 entries.
    Mark,
    /// The same beside as many marks as there may be but one, so that each turn of the journal copies many records.
    Turn,
}

fn cell(block: u64) -> Cell {
    Cell { map: 1, block }
}

// Puts a block with this version, over all blocks in turn.
fn put<D: Disk>(store: &mut Store<D>, block: &Block, version: u64) -> Result<(), StoreError> {
    let ticket = store.reserve()?;
    let key = Key {
        map: 1,
        block: version % BLOCKS,
        epoch: 0,
    };
    store.put(ticket, key, version, block, None)
}

fn write_group<D: Disk>(store: &mut Store<D>, block: &Block, group: u32) -> Result<(), StoreError> {
    let mut cells = [cell(0); 64];
    for i in 0..64 {
        let version = GROUP * u64::from(group) + i as u64;
        cells[i] = cell(version % BLOCKS);
        store.mark(MarkKind::Busy, cells[i])?;
        put(store, block, version)?;
    }
    store.unmark_all(MarkKind::Busy, &cells)
}

fn write_all<D: Disk>(store: &mut Store<D>, block: &Block, count: u32) -> Result<(), StoreError> {
    for group in 0..count / 64 {
        write_group(store, block, group)?;
    }
    Ok(())
}

fn put_each<D: Disk>(store: &mut Store<D>, block: &Block) -> Result<(), StoreError> {
    for version in 0..BLOCKS {
        put(store, block, version)?;
    }
    Ok(())
}

fn mark_below_last<D: Disk>(store: &mut Store<D>) -> Result<(), StoreError> {
    for block in 0..LAST {
        store.mark(MarkKind::Busy, cell(block))?;
    }
    Ok(())
}

// Sets the last mark and takes it away, so often.
fn mark_and_unmark<D: Disk>(store: &mut Store<D>, count: u32) -> Result<(), StoreError> {
    for _ in 0..count {
        store.mark(MarkKind::Busy, cell(LAST))?;
        store.unmark(MarkKind::Busy, cell(LAST))?;
    }
    Ok(())
}

fn act_on<D: Disk>(
    store: &mut Store<D>,
    block: &Block,
    act: Act,
    count: u32,
) -> Result<(), StoreError> {
    match act {
        Act::Fill => write_all(store, block, count),
        Act::Mark => {
            put_each(store, block)?;
            mark_and_unmark(store, count)
        }
        Act::Turn => {
            put_each(store, block)?;
            mark_below_last(store)?;
            mark_and_unmark(store, count)
        }
    }
}

fn opened<D: Disk>(alloc: Global, disk: D) -> Option<Store<D>> {
    match Store::open(alloc, disk) {
        Ok(Opened::Store(store)) => Some(store),
        Ok(Opened::Blank(_)) => None,
        Err((_, _)) => None,
    }
}

fn formatted(alloc: Global) -> Option<Store<MemDisk>> {
    let disk = MemDisk::new(alloc, DATA_START + SLOT_BYTES * u64::from(SLOTS)).ok()?;
    match Store::format(alloc, disk, SLOTS, false) {
        Ok(store) => Some(store),
        Err((_, _)) => None,
    }
}

// A store with which this was done so often.
fn acted_on(alloc: Global, act: Act, count: u32) -> Option<Store<MemDisk>> {
    let block = Block::fill(alloc, 7).ok()?;
    let mut store = formatted(alloc)?;
    let acted = act_on(&mut store, &block, act, count);
    drop(block);
    match acted {
        Ok(()) => Some(store),
        Err(_) => None,
    }
}

fn free_once_opened(alloc: Global, disk: MemDisk) -> Option<u32> {
    Some(opened(alloc, disk)?.free())
}

/// Formats a store and does this with it so often, and opens it again where it is asked to. Gives how many slots are free then.
pub fn run(alloc: Global, act: Act, count: u32, opens: bool) -> Option<u32> {
    let store = acted_on(alloc, act, count)?;
    if opens {
        free_once_opened(alloc, store.into_disk())
    } else {
        Some(store.free())
    }
}
