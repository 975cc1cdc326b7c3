//! Each kind of outside once: what its failures look like, and what a crash leaves.

ghost use Rattle.std.specs.Prelude.{◌≡◌, ◌≤◌};

use byte_streams::{MemSink, MemSource, Sink, Source, read_full, write_all};
use petal_disk::{
    CallKind, DeviceError, Disk, Failed, MemDisk, MemShelf, Plan, Planned, Shelf, Which,
    write_kept, write_zeros_kept,
};
use std::alloc::Global;
use std::test::Fail;

// Of three reads the second one fails.
fn is_read_in_pieces(source: &mut MemSource) -> bool {
    let mut buffer = [0; 3];
    let first = source.read(&mut buffer);
    let second = source.read(&mut buffer);
    let third = read_full(source, &mut buffer);
    first == Ok(3) && second == Err(Failed) && third == Ok(1) && buffer == [4, 2, 3]
}

// Of two writes the first one fails.
fn takes_the_second(sink: &mut MemSink) -> bool {
    sink.write(b"lost") == Err(Failed) && write_all(sink, b"kept") == Ok(())
}

#[test]
fn listed_calls_of_sources_fail(rt: HostRuntime) -> Result<(), Fail> {
    let alloc = rt.alloc();
    let mut source = MemSource::new(vec![in alloc; 1, 2, 3, 4]?, vec![in alloc; 2]?);
    assert!(rt; is_read_in_pieces(&mut source));
    Ok(())
}

#[test]
fn listed_calls_of_sinks_fail(rt: HostRuntime) -> Result<(), Fail> {
    let mut sink = MemSink::new(rt.alloc(), vec![in rt.alloc(); 1]?);
    assert!(rt; takes_the_second(&mut sink));
    assert!(rt; sink.into_bytes().as_slice() == b"kept".as_slice());
    Ok(())
}

// Of three calls of the device the second one meets a plan.
fn meet_plan<D: Disk>(disk: &mut Planned<D>) -> bool
    requires { 8 ≤ ⟦<Planned<D> as Disk>⟧.size disk.old }
    ensures { ⟦<Planned<D> as Disk>⟧.size disk.new ≡ ⟦<Planned<D> as Disk>⟧.size disk.old }
{
    disk.arm(Plan {
        kind: CallKind::Write,
        at: 2,
        stop: true,
        late: false,
    });
    let first = write_kept(disk, 0, b"abcd");
    let second = disk.write_at(4, b"efgh");
    let third = disk.sync();
    (first, second, third) == (Ok(()), Err(Failed), Ok(())) && disk.stopped()
}

#[test]
fn a_plan_is_met_once(rt: HostRuntime) -> Result<(), Fail> {
    let mut disk = Planned::new(MemDisk::new(rt.alloc(), 8)?);
    assert!(rt; meet_plan(&mut disk));
    let mut seen = [0; 8];
    let read = disk.into_disk().read(0, &mut seen);
    assert!(rt; read == Ok(()) && seen == *b"abcdef\0\0");
    Ok(())
}

// What a read gives after a write and a sync of which one fails late, and what it gives after a crash.
fn fail_late<D: Disk>(
    disk: &mut Planned<D>,
    kind: CallKind,
    stop: bool,
) -> Result<[[u8; 4]; 2], Failed>
    requires { 4 ≤ ⟦<Planned<D> as Disk>⟧.size disk.old }
{
    disk.arm(Plan {
        kind,
        at: 1,
        stop,
        late: true,
    });
    if disk.write_at(0, b"abcd").is_ok() && disk.sync().is_ok() {
        return Err(Failed);
    }
    let (mut seen, mut left) = ([0; 4], [0; 4]);
    disk.read(0, &mut seen)?;
    disk.crash();
    disk.read(0, &mut left)?;
    Ok([seen, left])
}

// Whether this is what is there then, and the device has stopped where its plan said so.
fn is_kept(alloc: Global, kind: CallKind, stop: bool, wanted: [[u8; 4]; 2]) -> Result<bool, Fail> {
    let mut disk = Planned::new(MemDisk::new(alloc, 4)?);
    let kept = fail_late(&mut disk, kind, stop);
    Ok(kept == Ok(wanted) && disk.stopped() == stop)
}

#[test]
fn a_late_sync_outlasts_a_crash(rt: HostRuntime) -> Result<(), Fail> {
    for stop in [false, true] {
        assert!(rt; is_kept(rt.alloc(), CallKind::Sync, stop, [*b"abcd", *b"abcd"])?);
    }
    Ok(())
}

#[test]
fn a_late_write_is_whole_and_lost_in_a_crash(rt: HostRuntime) -> Result<(), Fail> {
    for stop in [false, true] {
        assert!(rt; is_kept(rt.alloc(), CallKind::Write, stop, [*b"abcd", [0; 4]])?);
    }
    Ok(())
}

fn write_and_crash<D: Disk>(disk: &mut D) -> Result<[u8; 4], Failed>
    requires { 4 ≤ D.size disk.old }
{
    write_kept(disk, 1, b"ab")?;
    disk.write_at(2, b"xy")?;
    disk.crash();
    let mut seen = [0; 4];
    disk.read(0, &mut seen)?;
    Ok(seen)
}

#[test]
fn a_crash_loses_what_was_not_synced(rt: HostRuntime) -> Result<(), Fail> {
    let mut disk = MemDisk::new(rt.alloc(), 4)?;
    assert_eq!(rt; write_and_crash(&mut disk), Ok(*b"\0ab\0"));
    Ok(())
}

fn write_zeros_over<D: Disk>(disk: &mut D) -> Result<[u8; 8], Failed>
    requires { 8 ≤ D.size disk.old }
{
    write_kept(disk, 0, b"abcd")?;
    write_zeros_kept(disk, 1, 2)?;
    disk.write_zeros(6, 2)?;
    let mut seen = [9; 8];
    disk.read(0, &mut seen)?;
    Ok(seen)
}

#[test]
fn zeros_are_written_over_what_is_there_alone(rt: HostRuntime) -> Result<(), Fail> {
    let mut disk = MemDisk::new(rt.alloc(), 8)?;
    assert_eq!(rt; write_zeros_over(&mut disk), Ok(*b"a\0\0d\0\0\0\0"));
    Ok(())
}

#[test]
fn a_shelf_refuses_the_stated_call(rt: HostRuntime) -> Result<(), Fail> {
    let mut shelf = MemShelf::refusing(2);
    let mut answers = [false; 3];
    for answer in answers.iter_mut() {
        *answer = match shelf.device(rt.alloc(), 0, Which::Data, 4) {
            Ok(disk) => disk.len() == 4,
            Err(error) => error != DeviceError::Failed,
        };
    }
    assert_eq!(rt; answers, [true, false, true]);
    Ok(())
}
