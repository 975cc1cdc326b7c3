//! The device of a small store after a stop: its bytes, and what a server reads there.

use busy_marks::MarkKind;
use byte_streams::{Sink, write_all};
use petal_base::{BLOCK_BYTES, Block, Cell, Key, Origin};
use petal_disk::{CallKind, Disk, MemDisk, Plan, Planned};
use server_store::{DATA_START, Entry, Opened, SLOT_BYTES, Store, StoreError};
use std::alloc::Global;

const SLOTS: usize = 8;

const DEVICE_BYTES: u64 = DATA_START + SLOT_BYTES * 8;

// After so many changes the store has been filled.
const SETTLES: u32 = 999;

// So many changes follow once the stop is planned.
const CHANGES_MORE: u32 = 64;

const PIECE: usize = 4_096;

fn busy(number: u32) -> Cell {
    Cell {
        map: 1 + number % 2,
        block: u64::from(number % 64),
    }
}

fn stale(round: u32) -> Cell {
    Cell {
        map: 2 - round % 2,
        block: u64::from(round % 40),
    }
}

fn key_of_one(round: u32) -> Key {
    Key {
        map: 1,
        block: u64::from(round % 3),
        epoch: 0,
    }
}

fn key_of_two(round: u32) -> Key {
    Key {
        map: 2,
        block: u64::from(round % 2),
        epoch: round / 2 % 2,
    }
}

// Three of four puts are for a client's write, whose number may be below that of an earlier one.
fn origin(round: u32, number: u32) -> Option<Origin> {
    if round % 4 == 3 {
        return None;
    }
    Some(Origin::new((round % 3) as u8, (round / 3 % 8) as u8, 1 + number % 500))
}

fn put<D: Disk>(
    alloc: Global,
    store: &mut Store<D>,
    key: Key,
    number: u32,
) -> Result<(), StoreError> {
    let block = Block::fill(alloc, (number % 251) as u8)?;
    let ticket = store.reserve()?;
    let origin = origin(number / 11, number);
    store.put(ticket, key, u64::from(number), &block, origin)
}

fn unmark_busy<D: Disk>(store: &mut Store<D>) -> Result<(), StoreError> {
    let mut cells = [busy(0); 64];
    for i in 0..64 {
        cells[i] = busy(i as u32);
    }
    store.unmark_all(MarkKind::Busy, &cells)
}

// Seven keys take part, so that one of eight slots is free for the next put.
fn change<D: Disk>(alloc: Global, store: &mut Store<D>, number: u32) -> Result<(), StoreError> {
    let round = number / 11;
    match number % 11 {
        0 => put(alloc, store, key_of_one(round), number),
        1 => put(alloc, store, key_of_two(round), number),
        2 => store.drop_key(key_of_two(round / 3)),
        3 => store.mark(MarkKind::Stale, stale(round)),
        4 => store.unmark(MarkKind::Stale, stale(round / 3)),
        5 => store.unmark(MarkKind::Busy, busy(number / 2)),
        6 if round % 16 == 0 => store.forget(1 + round / 16 % 2, (round / 32 % 3) as u8),
        7 if round % 16 == 0 => unmark_busy(store),
        _ => store.mark(MarkKind::Busy, busy(number)),
    }
}

fn changed<D: Disk>(alloc: Global, store: &mut Store<D>, changes: u32) -> Result<(), StoreError> {
    for number in 0..changes {
        change(alloc, store, number)?;
        if number == SETTLES {
            store.settle_fresh()?;
        }
    }
    Ok(())
}

// Goes on until a change is stopped.
fn go_on<D: Disk>(alloc: Global, store: &mut Store<Planned<D>>, changes: u32) {
    for number in 0..CHANGES_MORE {
        if change(alloc, store, changes.saturating_add(number)).is_err() {
            return;
        }
    }
}

fn formatted<D: Disk>(alloc: Global, disk: D) -> Option<Store<D>> {
    if disk.len() < DEVICE_BYTES {
        return None;
    }
    match Store::format(alloc, disk, SLOTS as u32, true) {
        Ok(store) => Some(store),
        Err((_, _)) => None,
    }
}

// The device after so many changes, and the stop at this call of those that follow.
fn stopped<D: Disk>(alloc: Global, disk: D, changes: u32, call: u32) -> Option<Planned<D>> {
    let mut store = formatted(alloc, Planned::new(disk))?;
    changed(alloc, &mut store, changes).ok()?;
    store.arm(Plan {
        kind: CallKind::Any,
        at: call,
        stop: true,
        late: false,
    });
    go_on(alloc, &mut store, changes);
    store.disarm();
    let mut disk = store.into_disk();
    disk.crash();
    Some(disk)
}

fn left(alloc: Global, changes: u32, call: u32) -> Option<Planned<MemDisk>> {
    let disk = MemDisk::new(alloc, DEVICE_BYTES).ok()?;
    stopped(alloc, disk, changes, call)
}

fn write_piece<D: Disk, S: Sink>(disk: &mut D, at: u64, sink: &mut S) -> Option<()> {
    let mut piece = [0; PIECE];
    let len = disk.len();
    if len < PIECE as u64 || at > len - PIECE as u64 {
        return None;
    }
    disk.read(at, &mut piece).ok()?;
    write_all(sink, &piece).ok()
}

fn write_bytes<D: Disk, S: Sink>(disk: &mut D, sink: &mut S) -> Option<()> {
    for at in 0..disk.len() / PIECE as u64 {
        write_piece(disk, PIECE as u64 * at, sink)?;
    }
    Some(())
}

/// Writes the bytes of the device after so many changes and the stop at this call.
pub fn write_image<S: Sink>(alloc: Global, changes: u32, call: u32, sink: &mut S) -> Option<()> {
    write_bytes(&mut left(alloc, changes, call)?, sink)
}

fn print_entry<D: Disk>(rt: &HostRuntime, store: &mut Store<D>, entry: Entry) -> Option<()> {
    let mut bytes = vec![in rt.alloc(); 0u8; BLOCK_BYTES].ok()?;
    let Key { map, block, epoch } = entry.key;
    store.read(map, block, epoch, &mut bytes).ok()?;
    let (version, slot, byte) = (entry.version, entry.slot, bytes[0]);
    println!(rt; "entry {map} {block} {epoch} version {version} slot {slot} byte {byte}").ok()
}

fn print_entries<D: Disk>(rt: &HostRuntime, store: &mut Store<D>) -> Option<()> {
    for at in 0..SLOTS {
        if let Some(entry) = store.entries().get(at).copied() {
            print_entry(rt, store, entry)?;
        }
    }
    Some(())
}

fn print_marks<D: Disk>(rt: &HostRuntime, store: &Store<D>, map: u32) -> Option<()> {
    for block in 0..64 {
        if store.has(MarkKind::Busy, Cell { map, block }) {
            println!(rt; "busy {map} {block}").ok()?;
        }
        if store.has(MarkKind::Stale, Cell { map, block }) {
            println!(rt; "stale {map} {block}").ok()?;
        }
    }
    Some(())
}

fn print_rows<D: Disk>(rt: &HostRuntime, store: &Store<D>, map: u32) -> Option<()> {
    for link in 0..8 {
        for client in 0..8 {
            if let Some(seq) = store.row(map, link, client) {
                println!(rt; "row {map} {link} {client} {seq}").ok()?;
            }
        }
    }
    Some(())
}

fn print_store<D: Disk>(rt: &HostRuntime, store: &mut Store<D>) -> Option<()> {
    println!(rt; "free {}", store.free()).ok()?;
    println!(rt; "fresh {}", store.fresh()).ok()?;
    print_entries(rt, store)?;
    for map in 1..3 {
        print_marks(rt, store, map)?;
    }
    for map in 1..3 {
        print_rows(rt, store, map)?;
    }
    Some(())
}

/// Opens that device as a server does when it starts, and prints the store that it finds.
pub fn print_listing(rt: &HostRuntime, changes: u32, call: u32) -> Option<()> {
    match Store::open(rt.alloc(), left(rt.alloc(), changes, call)?) {
        Ok(Opened::Store(mut store)) => print_store(rt, &mut store),
        Ok(Opened::Blank(_)) => None,
        Err((_, _)) => None,
    }
}
