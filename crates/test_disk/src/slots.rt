//! Two slots are taken, written and read.

ghost use Rattle.std.specs.Prelude.{◌≡◌, ◌<◌, ◌≤◌, ◌+◌, length};
ghost use Rattle.slot_store.specs.Slots.{slot_start};
ghost use Rattle.petal_base.specs.Block.{block_bytes};

use petal_base::{BLOCK_BYTES, Block};
use petal_disk::{Disk, MemDisk};
use slot_store::SlotStore;
use std::test::Fail;

// Of two slots one is taken by its number, once, and then the other one.
fn are_taken(store: &mut SlotStore) -> bool {
    store.take_this(1)
        && !store.take_this(1)
        && !store.take_this(2)
        && store.take() == Some(0)
        && store.take() == None
        && store.free() == 0
}

#[test]
fn slots(rt: HostRuntime) -> Result<(), Fail> {
    let mut store = SlotStore::new(rt.alloc(), 4096, 2)?;
    assert!(rt; are_taken(&mut store));
    Ok(())
}

// The last byte of a slot.
fn last_byte<D: Disk>(disk: &mut D, store: &SlotStore, content: &mut [u8], slot: u32) -> Option<u8>
    requires slot { slot < length store.now.used }
    requires room { slot_start store.now.base slot + block_bytes ≤ D.size disk.old }
    requires content { length content.old ≡ block_bytes }
{
    store.read(disk, slot, content).ok()?;
    content.last().copied()
}

// Writes a block into a slot.
fn is_written<D: Disk>(disk: &mut D, store: &SlotStore, slot: u32, block: &Block) -> bool
    requires slot { slot < length store.now.used }
    requires room { slot_start store.now.base slot + block_bytes ≤ D.size disk.old }
    ensures size { D.size disk.new ≡ D.size disk.old }
{
    store.write(disk, slot, block).is_ok()
}

#[test]
fn a_written_slot(rt: HostRuntime) -> Result<(), Fail> {
    let sevens = Block::fill(rt.alloc(), 7)?;
    let mut content = vec![in rt.alloc(); 9u8; BLOCK_BYTES]?;
    let store = SlotStore::new(rt.alloc(), 4096, 2)?;
    let mut disk = MemDisk::new(rt.alloc(), 135_168)?;
    assert!(rt; is_written(&mut disk, &store, 1, &sevens));
    assert!(rt; last_byte(&mut disk, &store, &mut content, 1) == Some(7));
    Ok(())
}

#[test]
fn an_empty_slot(rt: HostRuntime) -> Result<(), Fail> {
    let mut content = vec![in rt.alloc(); 9u8; BLOCK_BYTES]?;
    let store = SlotStore::new(rt.alloc(), 4096, 2)?;
    let mut disk = MemDisk::new(rt.alloc(), 135_168)?;
    assert!(rt; last_byte(&mut disk, &store, &mut content, 0) == Some(0));
    Ok(())
}
