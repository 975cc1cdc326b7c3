//! Entries of one block at two epochs.

use petal_base::{Cell, Key, NoMemory};
use physical_map::{Entry, PhysicalMap};
use std::test::Fail;

fn entry(block: u64, epoch: u32, slot: u32) -> Entry {
    let key = Key {
        map: 1,
        block,
        epoch,
    };
    Entry {
        key,
        slot,
        version: u64::from(slot),
    }
}

fn put(map: &mut PhysicalMap, entry: Entry) -> Result<Option<u32>, NoMemory> {
    map.reserve(1)?;
    Ok(map.put(entry))
}

// Each put gives the slot of the entry whose place it takes.
fn puts(map: &mut PhysicalMap) -> Result<bool, NoMemory> {
    Ok(
        put(map, entry(5, 1, 4))? == None
            && put(map, entry(5, 0, 2))? == None
            && put(map, entry(5, 0, 3))? == Some(2),
    )
}

const CELL: Cell = Cell { map: 1, block: 5 };

fn finds(map: &PhysicalMap) -> bool {
    let newest = match map.lookup(1, 5, 9) {
        Some(entry) => entry.slot == 4,
        None => false,
    };
    newest && map.slot(entry(5, 0, 0).key) == Some(3) && map.version(CELL) == 4
}

fn drops(map: &mut PhysicalMap) -> bool {
    map.drop_key(entry(5, 1, 0).key) == Some(4)
        && map.top() == 3
        && map.next_block(1, Some(5)) == None
        && map.next_map(None) == Some(1)
}

#[test]
fn entries(rt: HostRuntime) -> Result<(), Fail> {
    let mut map = PhysicalMap::new(rt.alloc());
    assert!(rt; puts(&mut map)?, "puts");
    assert!(rt; finds(&map), "finds");
    assert!(rt; map.chain(rt.alloc(), CELL)?.len() == 2, "chain");
    assert!(rt; drops(&mut map), "drops");
    Ok(())
}
