//! A store that is stopped within a put, and opened again; the bytes of its records; and devices that are blank.

use petal_base::{Block, Key, Origin};
use petal_disk::{CallKind, Disk, MemDisk, Plan, Planned};
use server_store::{Opened, Store, StoreError};
use std::alloc::Global;
use std::test::Fail;

// A header, the journal's two halves, and the slots.
const THREE_SLOTS: u64 = 4_395_008;

const KEY: Key = Key {
    map: 1,
    block: 5,
    epoch: 0,
};

fn put<D: Disk>(store: &mut Store<D>, block: &Block) -> Result<(), StoreError> {
    let ticket = store.reserve()?;
    store.put(ticket, KEY, 3, block, None)
}

fn formatted<D: Disk>(alloc: Global, disk: D) -> Result<Store<D>, Fail> {
    if disk.len() < THREE_SLOTS {
        return Err(StoreError::NoSpace.into());
    }
    match Store::format(alloc, disk, 3, false) {
        Ok(store) => Ok(store),
        Err((_, error)) => Err(error.into()),
    }
}

fn opened<D: Disk>(alloc: Global, disk: D) -> Result<Store<D>, Fail> {
    match Store::open(alloc, disk) {
        Ok(Opened::Store(store)) => Ok(store),
        Ok(Opened::Blank(_)) => Err(StoreError::NoMemory.into()),
        Err((_, error)) => Err(error.into()),
    }
}

// The last byte of the block, where it is there.
fn content<D: Disk>(store: &mut Store<D>, alloc: Global) -> Result<Option<u8>, Fail> {
    let mut bytes = vec![in alloc; 9u8; 65_536]?;
    match store.read(1, 5, 0, &mut bytes)? {
        Some(_) => Ok(bytes.last().copied()),
        None => Ok(None),
    }
}

// Whether a put was answered at whose call of this number the server stops.
fn stopped_put<D: Disk>(store: &mut Store<Planned<D>>, at: u32, block: &Block) -> bool {
    store.arm(Plan {
        kind: CallKind::Any,
        at,
        stop: true,
        late: false,
    });
    let answered = put(store, block).is_ok();
    store.disarm();
    answered
}

// What is there after a crash.
fn booted<D: Disk>(disk: D, alloc: Global) -> Result<Option<u8>, Fail> {
    let mut disk = disk;
    disk.crash();
    let mut again = opened(alloc, disk)?;
    content(&mut again, alloc)
}

// Whether a put was answered that is stopped at this call, and what is there after it.
fn after_stop(alloc: Global, at: u32) -> Result<(bool, Option<u8>), Fail> {
    let sevens = Block::fill(alloc, 7)?;
    let disk = Planned::new(MemDisk::new(alloc, THREE_SLOTS)?);
    let mut store = formatted(alloc, disk)?;
    let answered = stopped_put(&mut store, at, &sevens);
    Ok((answered, booted(store.into_disk(), alloc)?))
}

#[test]
fn stopped_before_the_gate(rt: HostRuntime) -> Result<(), Fail> {
    for at in 1..5 {
        assert!(rt; after_stop(rt.alloc(), at)? == (false, None), "call {at}");
    }
    Ok(())
}

// Whether no put was answered, and what is there is nothing or all of it.
fn is_nothing_or_all((answered, found): (bool, Option<u8>)) -> bool {
    !answered && (found.is_none() || found == Some(7))
}

#[test]
fn stopped_at_the_gate(rt: HostRuntime) -> Result<(), Fail> {
    for at in 5..7 {
        assert!(rt; is_nothing_or_all(after_stop(rt.alloc(), at)?), "call {at}");
    }
    Ok(())
}

#[test]
fn not_stopped(rt: HostRuntime) -> Result<(), Fail> {
    assert!(rt; after_stop(rt.alloc(), 7)? == (true, Some(7)));
    Ok(())
}

// The third of three slots, and a client's write.
const PUT_BYTES: [u8; 37] = [
    0xa5, 1, 0, 0, 0, 1, 0, 0, 0, 0, 0, 0, 0, 5, 0, 0, 0, 0, 0, 0, 0, 0, 0, 0, 0, 3, 0, 0, 0, 2, 0,
    1, 0, 0, 0, 7, 1,
];

// A half begins with its number.
const HEAD_BYTES: [u8; 10] = [0xa5, 6, 0, 0, 0, 0, 0, 0, 0, 1];

fn put_third<D: Disk>(store: &mut Store<D>, block: &Block) -> Result<(), StoreError> {
    let _first = store.reserve()?;
    let _second = store.reserve()?;
    let third = store.reserve()?;
    store.put(third, KEY, 3, block, Some(Origin::new(1, 0, 7)))
}

// The first 128 bytes of the journal, after a put.
fn first_records<D: Disk>(store: Store<D>, block: &Block) -> Result<[u8; 128], Fail> {
    let mut store = store;
    put_third(&mut store, block)?;
    let mut bytes = [9; 128];
    read_at(store.into_disk(), &mut bytes)?;
    Ok(bytes)
}

fn read_at<D: Disk>(disk: D, into: &mut [u8]) -> Result<(), Fail> {
    let mut disk = disk;
    if disk.len() < 8192 || into.len() > 128 {
        return Ok(());
    }
    disk.read(4096, into)?;
    Ok(())
}

// What they have to be: a Head, and a put in the second record.
fn head_and_put() -> [u8; 128] {
    let mut bytes = [0; 128];
    for i in 0..10 {
        bytes[i] = HEAD_BYTES[i];
    }
    for i in 0..37 {
        bytes[64 + i] = PUT_BYTES[i];
    }
    bytes
}

#[test]
fn the_bytes_of_a_head_and_a_put(rt: HostRuntime) -> Result<(), Fail> {
    let sevens = Block::fill(rt.alloc(), 7)?;
    let store = formatted(rt.alloc(), MemDisk::new(rt.alloc(), THREE_SLOTS)?)?;
    let bytes = first_records(store, &sevens)?;
    assert_eq!(rt; bytes, head_and_put());
    Ok(())
}

#[test]
fn a_blank_device(rt: HostRuntime) -> Result<(), Fail> {
    let disk = MemDisk::new(rt.alloc(), THREE_SLOTS)?;
    assert!(rt; matches!(&Store::open(rt.alloc(), disk), Ok(Opened::Blank(_))));
    Ok(())
}

// The header of a formatted device with other bytes at a place of it.
fn with_header<D: Disk>(disk: D, at: usize, bytes: [u8; 2]) -> Result<D, Fail> {
    let mut disk = disk;
    let mut header = [0; 64];
    if disk.len() < 64 || at > 62 {
        return Ok(disk);
    }
    disk.read(0, &mut header)?;
    header[at] = bytes[0];
    header[at + 1] = bytes[1];
    disk.write_at(0, &header)?;
    Ok(disk)
}

// A device on which 1,025 slots fit.
const MANY_SLOTS: u64 = 71_372_800;

// Whether such a device with these two bytes in its header is blank.
fn is_blank(alloc: Global, at: usize, bytes: [u8; 2]) -> Result<bool, Fail> {
    let store = formatted(alloc, MemDisk::new(alloc, MANY_SLOTS)?)?;
    let disk = with_header(store.into_disk(), at, bytes)?;
    Ok(matches!(&Store::open(alloc, disk), Ok(Opened::Blank(_))))
}

// The version ends at byte 12, the number of slots at byte 16: 1,024 may be there.
#[test]
fn headers_that_are_none(rt: HostRuntime) -> Result<(), Fail> {
    assert!(rt; !is_blank(rt.alloc(), 11, [0, 2])?);
    assert!(rt; is_blank(rt.alloc(), 11, [0, 1])?);
    assert!(rt; !is_blank(rt.alloc(), 15, [4, 0])?);
    assert!(rt; is_blank(rt.alloc(), 15, [4, 1])?);
    Ok(())
}

// A device whose journal has no half that counts.
fn without_journal<D: Disk>(disk: D) -> Result<D, Fail> {
    let mut disk = disk;
    if disk.len() < 8192 {
        return Ok(disk);
    }
    disk.write_at(4096, &[0])?;
    Ok(disk)
}

#[test]
fn no_half_that_counts(rt: HostRuntime) -> Result<(), Fail> {
    let store = formatted(rt.alloc(), MemDisk::new(rt.alloc(), THREE_SLOTS)?)?;
    let disk = without_journal(store.into_disk())?;
    assert!(rt; matches!(&Store::open(rt.alloc(), disk), Ok(Opened::Blank(_))));
    Ok(())
}
