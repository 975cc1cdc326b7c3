//! A cell of a store with two slots is read, counted on and put.

use crate::stores::with_sevens;
use kept_chains::{next_version, read_at, set_apart};
use petal_base::{Cell, Key, NoMemory};
use petal_disk::{Disk, MemDisk};
use server_store::Store;
use std::alloc::Global;
use std::test::Fail;

const CELL: Cell = Cell { map: 0, block: 5 };

/// The cell's entry of version 3 at epoch 2.
const KEY: Key = Key {
    map: 0,
    block: 5,
    epoch: 2,
};

fn store(alloc: Global) -> Result<Store<MemDisk>, Fail> {
    with_sevens(alloc, KEY, 3)
}

fn byte_of<D: Disk>(alloc: Global, store: &mut Store<D>, epoch: u32) -> Result<Option<u8>, Fail> {
    let bytes = read_at(alloc, store, CELL, epoch)?;
    Ok(bytes.bytes().first().copied())
}

fn first_byte(alloc: Global, epoch: u32) -> Result<Option<u8>, Fail> {
    let mut store = store(alloc)?;
    let byte = byte_of(alloc, &mut store, epoch);
    drop(store);
    byte
}

#[test]
fn reads_at_an_epoch(rt: HostRuntime) -> Result<(), Fail> {
    for (epoch, byte) in [(1, 0), (2, 7)] {
        assert!(rt;
            first_byte(rt.alloc(), epoch)? == Some(byte),
            "epoch {epoch}"
        );
    }
    Ok(())
}

// The next versions of the cell and of another one.
fn next_versions<D: Disk>(store: &Store<D>) -> Option<(u64, u64)> {
    if store.top() < 100 {
        let other = Cell { map: 0, block: 6 };
        Some((next_version(store, CELL), next_version(store, other)))
    } else {
        None
    }
}

#[test]
fn counts_versions_on(rt: HostRuntime) -> Result<(), Fail> {
    let store = store(rt.alloc())?;
    assert!(rt; store.top() == 3 && next_versions(&store) == Some((4, 1)));
    Ok(())
}

// Whether there is a slot to set apart, and whether there is another one.
fn set_two_apart<D: Disk>(store: &mut Store<D>) -> Result<(bool, bool), NoMemory> {
    Ok((set_apart(store)?.is_some(), set_apart(store)?.is_some()))
}

// The same of a new store.
fn set_two_of_new_apart(alloc: Global) -> Result<(bool, bool), Fail> {
    let mut store = store(alloc)?;
    let apart = set_two_apart(&mut store);
    drop(store);
    Ok(apart?)
}

#[test]
fn sets_the_last_slot_apart(rt: HostRuntime) -> Result<(), Fail> {
    assert!(rt; set_two_of_new_apart(rt.alloc())? == (true, false));
    Ok(())
}
