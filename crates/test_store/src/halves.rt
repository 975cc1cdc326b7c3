//! What is read of two halves after each call of an append of a group, or of a turn, has been stopped in turn.

ghost use Rattle.std.specs.Prelude.{◌≡◌, ◌≤◌, replicate, IfOk};
ghost use Rattle.petal_disk.specs.Plans.{beneath};

use block_journal::{BODY_BYTES, Bodies, HALVES_BYTES, Halves, JournalError, TURN_BYTES};
use petal_disk::{CallKind, Disk, MemDisk, Plan, Planned};
use std::alloc::Global;
use std::test::Fail;

// So many bodies of one byte.
#[derive(Drop)]
struct Copies {
    count: u32,
    byte: u8,
}

impl Bodies for Copies {
    ghost bodies = { λ copies. replicate copies.count (replicate 63 copies.byte) };

    fn count(&self) -> u32 {
        self.count
    }

    fn body(&self, i: u32, into: &mut [u8]) {
        let _index = i;
        into.fill(self.byte);
    }
}

// How many bodies are there, and the first byte of the last.
type Shown = (u32, u8);

fn begun<D: Disk>(disk: &mut D) -> Result<Halves, JournalError>
    requires { 4194304 ≤ D.size disk.old }
    ensures size { D.size disk.new ≡ D.size disk.old }
    ensures place { IfOk result (λ halves. halves.base ≡ 0) }
{
    let mut halves = Halves::format(disk, 0)?;
    halves.append_all(disk, &[[1; BODY_BYTES], [2; BODY_BYTES]])?;
    Ok(halves)
}

fn last_byte(bodies: &[Vec<u8>]) -> u8 {
    match bodies.last() {
        Some(body) => body.first().copied().unwrap_or(0),
        None => 0,
    }
}

fn reopened<D: Disk>(alloc: Global, disk: &mut D) -> Result<(Halves, Shown), JournalError>
    requires { 4194304 ≤ D.size disk.old }
    ensures size { D.size disk.new ≡ D.size disk.old }
    ensures place { IfOk result (λ out. out.0.base ≡ 0) }
{
    let Some((halves, bodies)) = Halves::open(alloc, disk, 0)? else {
        return Err(JournalError::Full);
    };
    let shown = (halves.count(), last_byte(bodies.as_slice()));
    Ok((halves, shown))
}

fn shown<D: Disk>(alloc: Global, disk: &mut D) -> Result<Shown, JournalError>
    requires { 4194304 ≤ D.size disk.old }
    ensures { D.size disk.new ≡ D.size disk.old }
{
    let (_, shown) = reopened(alloc, disk)?;
    Ok(shown)
}

// A server that stops at the call of this number.
fn stop_at(at: u32) -> Plan {
    Plan {
        kind: CallKind::Any,
        at,
        stop: true,
        late: false,
    }
}

// Crashes, or does not.
fn ends<D: Disk>(disk: &mut D, crashes: bool)
    ensures { D.size disk.new ≡ D.size disk.old }
{
    if crashes {
        disk.crash();
    }
}

fn appends_three<D: Disk>(halves: &mut Halves, disk: &mut D)
    requires place { halves.old.base ≡ 0 }
    requires size { 4194304 ≤ D.size disk.old }
    ensures place { halves.new.base ≡ 0 }
    ensures size { D.size disk.new ≡ D.size disk.old }
{
    let _ = halves.append_all(disk, &[[3; BODY_BYTES], [4; BODY_BYTES], [5; BODY_BYTES]]);
}

// What is there after an append of three bodies behind two of which this call was stopped.
fn after_append(alloc: Global, at: u32, crashes: bool) -> Result<Shown, JournalError> {
    let Ok(memory) = MemDisk::new(alloc, HALVES_BYTES) else {
        return Err(JournalError::NoMemory);
    };
    let mut disk = Planned::new(memory);
    let mut halves = begun(&mut disk)?;
    disk.arm(stop_at(at));
    appends_three(&mut halves, &mut disk);
    disk.disarm();
    ends(&mut disk, crashes);
    shown(alloc, &mut disk)
}

#[test]
fn each_stop_of_an_append_leaves_all_bodies_or_none(rt: HostRuntime) -> Result<(), Fail> {
    let mut kept = [(0, 0); 5];
    let mut crashed = [(0, 0); 5];
    for i in 0..5 {
        kept[i] = after_append(rt.alloc(), i as u32 + 1, false)?;
        crashed[i] = after_append(rt.alloc(), i as u32 + 1, true)?;
    }
    assert_eq!(rt; kept, [(2, 2), (2, 2), (2, 2), (5, 5), (5, 5)]);
    assert_eq!(rt; crashed, [(2, 2), (2, 2), (2, 2), (2, 2), (5, 5)]);
    Ok(())
}

// Turns to so many bodies of this byte, with a buffer of its own.
fn turns<D: Disk>(
    alloc: Global,
    halves: &mut Halves,
    disk: &mut D,
    list: Copies,
) -> Result<bool, JournalError>
    requires count { list.count ≤ 32767 }
    requires place { halves.old.base ≡ 0 }
    requires size { 4194304 ≤ D.size disk.old }
    ensures size { D.size disk.new ≡ D.size disk.old }
    ensures place { halves.new.base ≡ 0 }
{
    let mut buffer = vec![in alloc; 0; TURN_BYTES]?;
    Ok(halves.turn(disk, &list, &mut buffer).is_ok())
}

// Turns, with the call of this number stopped, and crashes or does not.
fn stopped_turn<D: Disk>(
    alloc: Global,
    halves: &mut Halves,
    disk: &mut Planned<D>,
    list: Copies,
    at: u32,
    crashes: bool,
) -> Result<(), JournalError>
    requires count { list.count ≤ 32767 }
    requires place { halves.old.base ≡ 0 }
    requires size { 4194304 ≤ D.size (beneath disk.old) }
    ensures size { D.size (beneath disk.new) ≡ D.size (beneath disk.old) }
    ensures place { halves.new.base ≡ 0 }
{
    disk.arm(stop_at(at));
    let _ = turns(alloc, halves, disk, list)?;
    disk.disarm();
    ends(disk, crashes);
    Ok(())
}

// What is there after a first turn that is stopped, after a second one, and after a third one that is stopped too.
fn three_turns<D: Disk>(
    alloc: Global,
    disk: &mut Planned<D>,
    at: [u32; 2],
    crashes: bool,
) -> Result<[Shown; 3], JournalError>
    requires { 4194304 ≤ D.size (beneath disk.old) }
{
    let mut halves = begun(disk)?;
    stopped_turn(
        alloc,
        &mut halves,
        disk,
        Copies { count: 3, byte: 7 },
        at[0],
        crashes,
    )?;
    let (mut halves, first) = reopened(alloc, disk)?;
    let _ = turns(alloc, &mut halves, disk, Copies { count: 4, byte: 8 })?;
    let (mut halves, second) = reopened(alloc, disk)?;
    stopped_turn(
        alloc,
        &mut halves,
        disk,
        Copies { count: 5, byte: 9 },
        at[1],
        crashes,
    )?;
    Ok([first, second, shown(alloc, disk)?])
}

fn after_turns(alloc: Global, at: [u32; 2], crashes: bool) -> Result<[Shown; 3], JournalError> {
    let Ok(memory) = MemDisk::new(alloc, HALVES_BYTES) else {
        return Err(JournalError::NoMemory);
    };
    let mut disk = Planned::new(memory);
    three_turns(alloc, &mut disk, at, crashes)
}

const OLD: Shown = (2, 2);

const FIRST: Shown = (3, 7);

const SECOND: Shown = (4, 8);

const THIRD: Shown = (5, 9);

// The first turn has four calls, since the gate of the idle half is closed.
#[test]
fn each_stop_of_a_first_turn_leaves_one_of_two_lists(rt: HostRuntime) -> Result<(), Fail> {
    for i in 1..4 {
        assert_eq!(rt;
            after_turns(rt.alloc(), [i, 1], false)?,
            [OLD, SECOND, SECOND],
            "call {i}"
        );
        assert_eq!(rt;
            after_turns(rt.alloc(), [i, 1], true)?,
            [OLD, SECOND, SECOND],
            "call {i}"
        );
    }
    assert_eq!(rt;
        after_turns(rt.alloc(), [4, 1], false)?,
        [FIRST, SECOND, SECOND]
    );
    assert_eq!(rt;
        after_turns(rt.alloc(), [4, 1], true)?,
        [OLD, SECOND, SECOND]
    );
    Ok(())
}

// A later one has six: it closes that gate first.
#[test]
fn each_stop_of_a_later_turn_leaves_one_of_two_lists(rt: HostRuntime) -> Result<(), Fail> {
    for i in 1..6 {
        assert_eq!(rt;
            after_turns(rt.alloc(), [5, i], false)?,
            [FIRST, SECOND, SECOND],
            "call {i}"
        );
        assert_eq!(rt;
            after_turns(rt.alloc(), [5, i], true)?,
            [FIRST, SECOND, SECOND],
            "call {i}"
        );
    }
    assert_eq!(rt;
        after_turns(rt.alloc(), [5, 6], false)?,
        [FIRST, SECOND, THIRD]
    );
    assert_eq!(rt;
        after_turns(rt.alloc(), [5, 6], true)?,
        [FIRST, SECOND, SECOND]
    );
    assert_eq!(rt;
        after_turns(rt.alloc(), [5, 7], true)?,
        [FIRST, SECOND, THIRD]
    );
    Ok(())
}

// A turn stops ahead of its gate, bodies are appended, and the next turn stops.
fn append_between<D: Disk>(
    alloc: Global,
    disk: &mut Planned<D>,
    at: u32,
) -> Result<Shown, JournalError>
    requires { 4194304 ≤ D.size (beneath disk.old) }
{
    let mut halves = begun(disk)?;
    stopped_turn(
        alloc,
        &mut halves,
        disk,
        Copies { count: 3, byte: 7 },
        3,
        true,
    )?;
    let (mut halves, _) = reopened(alloc, disk)?;
    appends_three(&mut halves, disk);
    stopped_turn(
        alloc,
        &mut halves,
        disk,
        Copies { count: 4, byte: 8 },
        at,
        true,
    )?;
    shown(alloc, disk)
}

fn after_append_between(alloc: Global, at: u32) -> Result<Shown, JournalError> {
    let Ok(memory) = MemDisk::new(alloc, HALVES_BYTES) else {
        return Err(JournalError::NoMemory);
    };
    let mut disk = Planned::new(memory);
    append_between(alloc, &mut disk, at)
}

// What was appended between two turns that are stopped is there: the second one writes no gate that is closed.
#[test]
fn a_turn_that_was_stopped_is_not_read(rt: HostRuntime) -> Result<(), Fail> {
    for i in 1..5 {
        assert_eq!(rt; after_append_between(rt.alloc(), i)?, (5, 5), "call {i}");
    }
    assert_eq!(rt; after_append_between(rt.alloc(), 5)?, SECOND);
    Ok(())
}

// The record of a Head of generation 1.
#[test]
fn the_bytes_of_a_head(rt: HostRuntime) -> Result<(), Fail> {
    let mut disk = MemDisk::new(rt.alloc(), HALVES_BYTES)?;
    let head = first_record(&mut disk);
    drop(disk);
    assert_eq!(rt; head, head_of_one());
    Ok(())
}

fn head_of_one() -> [u8; 64] {
    let mut bytes = [0; 64];
    bytes[0] = 0xa5;
    bytes[1] = 6;
    bytes[9] = 1;
    bytes
}

fn first_record<D: Disk>(disk: &mut D) -> [u8; 64]
    requires { 4194304 ≤ D.size disk.old }
{
    let mut bytes = [9; 64];
    let _ = Halves::format(disk, 0);
    let _ = disk.read(0, &mut bytes);
    bytes
}
