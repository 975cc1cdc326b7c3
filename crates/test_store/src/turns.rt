//! Stores whose journal turns: many marks on few cells, as many marks as there may be, and what is there after a stop at each call of
//! a turn.

ghost use Rattle.std.specs.Prelude.{◌≤◌, length};

use busy_marks::MarkKind;
use petal_base::{Block, Cell, Key, Origin};
use petal_disk::{CallKind, Disk, Failed, MemDisk, Plan, Planned};
use server_store::{Opened, Reread, Store, StoreError};
use std::alloc::Global;
use std::test::Fail;

const TWO_SLOTS: u64 = 4_329_472;

const MARKS_LIMIT: u64 = 28_672;

fn cell(block: u64) -> Cell {
    Cell { map: 1, block }
}

fn two_slots<D: Disk>(alloc: Global, disk: D, fresh: bool) -> Result<Store<D>, Fail> {
    if disk.len() < TWO_SLOTS {
        return Err(StoreError::NoSpace.into());
    }
    match Store::format(alloc, disk, 2, fresh) {
        Ok(store) => Ok(store),
        Err((_, error)) => Err(error.into()),
    }
}

fn opened<D: Disk>(alloc: Global, disk: D) -> Result<Store<D>, Fail> {
    match Store::open(alloc, disk) {
        Ok(Opened::Store(store)) => Ok(store),
        Ok(Opened::Blank(_)) => Err(StoreError::NoMemory.into()),
        Err((_, error)) => Err(error.into()),
    }
}

fn put<D: Disk>(store: &mut Store<D>, block: &Block, seq: u32) -> Result<(), StoreError> {
    let ticket = store.reserve()?;
    let key = Key {
        map: 1,
        block: 5,
        epoch: 0,
    };
    store.put(ticket, key, 3, block, Some(Origin::new(1, 0, seq)))
}

// Sets and takes away so many marks, on eight cells in turn.
fn marks_and_unmarks<D: Disk>(store: &mut Store<D>, count: u64) -> Result<(), StoreError> {
    for i in 0..count {
        store.mark(MarkKind::Busy, cell(i % 8))?;
        store.unmark(MarkKind::Busy, cell(i % 8))?;
    }
    Ok(())
}

// A put, a mark that stays, and a turn at least.
fn works_long<D: Disk>(alloc: Global, store: &mut Store<D>) -> Result<(), Fail> {
    let sevens = Block::fill(alloc, 7)?;
    put(store, &sevens, 7)?;
    store.mark(MarkKind::Stale, cell(9))?;
    store.settle_fresh()?;
    marks_and_unmarks(store, 20_000)?;
    Ok(())
}

// Whether there is what that left.
fn has_worked<D: Disk>(store: &Store<D>) -> bool {
    store.has(MarkKind::Stale, cell(9))
        && store.marked() == 2
        && store.version(cell(5)) == 3
        && store.row(1, 1, 0) == Some(7)
        && store.free() == 1
        && !store.fresh()
}

fn stays_through_turns<D: Disk>(alloc: Global, store: &mut Store<D>) -> Result<bool, Fail> {
    works_long(alloc, store)?;
    let before = has_worked(store);
    let same = store.reopen(alloc)? == Reread::Same;
    Ok(before && same && has_worked(store))
}

#[test]
fn marks_that_come_and_go(rt: HostRuntime) -> Result<(), Fail> {
    let disk = MemDisk::new(rt.alloc(), TWO_SLOTS)?;
    let mut store = two_slots(rt.alloc(), disk, true)?;
    let seen = stays_through_turns(rt.alloc(), &mut store);
    drop(store);
    assert!(rt; seen?);
    Ok(())
}

fn marks_of<D: Disk>(store: &mut Store<D>, from: u64, to: u64) -> Result<(), StoreError> {
    for block in from..to {
        store.mark(MarkKind::Busy, cell(block))?;
    }
    Ok(())
}

// A new mark and the row of a new write are refused, and the put of one that is there is not.
fn is_full<D: Disk>(alloc: Global, store: &mut Store<D>) -> Result<bool, Fail> {
    let zeros = Block::zero(alloc)?;
    let mark = store.mark(MarkKind::Stale, cell(0));
    let row = put(store, &zeros, 7);
    Ok(
        mark == Err(StoreError::MarksFull)
            && row == Err(StoreError::MarksFull)
            && store.free() == 2
            && u64::from(store.marked()) == MARKS_LIMIT,
    )
}

// Takes 64 marks away together and sets them again, so many times.
fn changes_in_groups<D: Disk>(store: &mut Store<D>, times: u64) -> Result<(), StoreError> {
    let mut cells = [cell(0); 64];
    for i in 0..64 {
        cells[i] = cell(MARKS_LIMIT - 64 + i as u64);
    }
    for _ in 0..times {
        store.unmark_all(MarkKind::Busy, &cells)?;
        marks_of(store, MARKS_LIMIT - 64, MARKS_LIMIT)?;
    }
    Ok(())
}

fn fills_and_turns<D: Disk>(alloc: Global, store: &mut Store<D>) -> Result<bool, Fail> {
    marks_of(store, 0, MARKS_LIMIT)?;
    let full = is_full(alloc, store)?;
    changes_in_groups(store, 40)?;
    let same = store.reopen(alloc)? == Reread::Same;
    Ok(full && same && is_full(alloc, store)?)
}

#[test]
fn as_many_marks_as_there_may_be(rt: HostRuntime) -> Result<(), Fail> {
    let disk = MemDisk::new(rt.alloc(), TWO_SLOTS)?;
    let mut store = two_slots(rt.alloc(), disk, false)?;
    let seen = fills_and_turns(rt.alloc(), &mut store);
    drop(store);
    assert!(rt; seen?);
    Ok(())
}

// How many bytes a half has.
const HALF_BYTES: usize = 2_097_152;

// Records that say that a store has been filled again, as many as a half has room for.
fn spell_settled(records: &mut [u8])
    requires { 2_097_152 ≤ length records.old }
{
    for i in 0..32_768 {
        records[64 * i] = 0xa5;
        records[64 * i + 1] = 5;
    }
}

// Fills a half up to its end, which begins at this byte and has so many records after its first one.
fn fill_half<D: Disk>(disk: &mut D, half: u64, taken: u64, records: &[u8]) -> Result<(), Failed> {
    if disk.len() < 4_198_400 || half > 2_101_248 || taken > 32_767 || records.len() < HALF_BYTES {
        return Ok(());
    }
    disk.write_at(
        half + 64 * (1 + taken),
        &records[..64 * (32_767 - taken as usize)],
    )?;
    disk.sync()
}

// A device whose next record comes with its second turn, since the first one finds the other half's gate shut. Two marks are set.
fn prepared(alloc: Global) -> Result<MemDisk, Fail> {
    let mut records = vec![in alloc; 0u8; HALF_BYTES]?;
    spell_settled(&mut records);
    let disk = MemDisk::new(alloc, TWO_SLOTS)?;
    let first = marked_on(
        two_slots(alloc, disk, false)?,
        MarkKind::Busy,
        4096,
        1,
        &records,
    )?;
    marked_on(
        opened(alloc, first)?,
        MarkKind::Stale,
        2_101_248,
        2,
        &records,
    )
}

// The device of a store with one mark more, whose journal's half that begins at this byte is full.
fn marked_on(
    store: Store<MemDisk>,
    kind: MarkKind,
    half: u64,
    taken: u64,
    records: &[u8],
) -> Result<MemDisk, Fail> {
    let mut store = store;
    store.mark(kind, cell(1))?;
    let mut disk = store.into_disk();
    fill_half(&mut disk, half, taken, records)?;
    Ok(disk)
}

// Another device with the same bytes.
fn copy(alloc: Global, disk: &mut MemDisk) -> Result<MemDisk, Fail> {
    let mut bytes = vec![in alloc; 0u8; 4_329_472]?;
    let mut other = MemDisk::new(alloc, TWO_SLOTS)?;
    carry_over(disk, &mut other, &mut bytes)?;
    Ok(other)
}

fn carry_over<D: Disk>(from: &mut D, to: &mut D, bytes: &mut [u8]) -> Result<(), Failed> {
    let n = bytes.len() as u64;
    if from.len() < n || to.len() < n {
        return Ok(());
    }
    from.read(0, bytes)?;
    to.write_at(0, bytes)?;
    to.sync()
}

// Sets another mark, and is stopped at that call of the device, if there are so many; whether it was answered.
fn stopped_mark<D: Disk>(store: &mut Store<Planned<D>>, at: u32) -> bool {
    store.arm(Plan {
        kind: CallKind::Any,
        at,
        stop: true,
        late: false,
    });
    let answered = store.mark(MarkKind::Busy, cell(2)).is_ok();
    store.disarm();
    answered
}

// What the device stands for after a crash.
fn booted<D: Disk>(alloc: Global, disk: D) -> Result<Store<D>, Fail> {
    let mut disk = disk;
    disk.crash();
    opened(alloc, disk)
}

// The two marks, or three, as they are counted and found.
fn marks_there<D: Disk>(store: &Store<D>) -> Option<u32> {
    if !store.has(MarkKind::Busy, cell(1)) || !store.has(MarkKind::Stale, cell(1)) {
        return None;
    }
    let other = store.has(MarkKind::Busy, cell(2));
    match store.marked() {
        2 if !other => Some(2),
        3 if other => Some(3),
        _ => None,
    }
}

// Whether a mark was answered that is stopped at this call, and which marks are there after it.
fn after_stop(alloc: Global, disk: MemDisk, at: u32) -> Result<(bool, Option<u32>), Fail> {
    let mut store = opened(alloc, Planned::new(disk))?;
    let answered = stopped_mark(&mut store, at);
    let again = booted(alloc, store.into_disk())?;
    Ok((answered, marks_there(&again)))
}

// The turn is six calls and the record four: a gate, a sync, the list, a sync, a gate, a sync; then its body, a sync, its gate, a sync.
#[test]
fn a_stop_at_each_call_of_a_turn(rt: HostRuntime) -> Result<(), Fail> {
    let mut disk = prepared(rt.alloc())?;
    for at in 1..9 {
        let one = copy(rt.alloc(), &mut disk)?;
        assert!(rt;
            after_stop(rt.alloc(), one, at)? == (false, Some(2)),
            "call {at}"
        );
    }
    for at in 9..11 {
        let one = copy(rt.alloc(), &mut disk)?;
        let (answered, marks) = after_stop(rt.alloc(), one, at)?;
        assert!(rt; !answered && marks.is_some(), "call {at}");
    }
    let one = copy(rt.alloc(), &mut disk)?;
    assert!(rt; after_stop(rt.alloc(), one, 11)? == (true, Some(3)));
    Ok(())
}

// Whether marks that are stopped at these calls are not answered, and one that is not stopped is there in the end.
fn turns_in_the_end(alloc: Global, disk: MemDisk, first: u32, second: u32) -> Result<bool, Fail> {
    let mut store = opened(alloc, Planned::new(disk))?;
    let answered = stopped_mark(&mut store, first);
    let mut again = booted(alloc, store.into_disk())?;
    let once_more = stopped_mark(&mut again, second);
    let mut last = booted(alloc, again.into_disk())?;
    last.mark(MarkKind::Busy, cell(2))?;
    Ok(!answered && !once_more && marks_there(&last) == Some(3))
}

#[test]
fn a_turn_that_is_stopped_twice(rt: HostRuntime) -> Result<(), Fail> {
    let mut disk = prepared(rt.alloc())?;
    for first in 1..7 {
        let one = copy(rt.alloc(), &mut disk)?;
        assert!(rt;
            turns_in_the_end(rt.alloc(), one, first, 7 - first)?,
            "call {first}"
        );
    }
    Ok(())
}
