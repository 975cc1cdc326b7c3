//! A store with one block of sevens.

use petal_base::{Block, Key};
use petal_disk::{Disk, MemDisk};
use server_store::{Store, StoreError};
use std::alloc::Global;
use std::test::Fail;

fn put<D: Disk>(
    store: &mut Store<D>,
    key: Key,
    version: u64,
    block: &Block,
) -> Result<(), StoreError> {
    let ticket = store.reserve()?;
    store.put(ticket, key, version, block, None)
}

fn put_sevens<D: Disk>(
    alloc: Global,
    store: &mut Store<D>,
    key: Key,
    version: u64,
) -> Result<(), Fail> {
    let sevens = Block::fill(alloc, 7)?;
    put(store, key, version, &sevens)?;
    Ok(())
}

fn two_slots(alloc: Global) -> Result<Store<MemDisk>, Fail> {
    let disk = MemDisk::new(alloc, 4_329_472)?;
    match Store::format(alloc, disk, 2, false) {
        Ok(store) => Ok(store),
        Err((_, error)) => Err(error.into()),
    }
}

/// Two slots, and in one of them sevens as this version of this entry.
pub fn with_sevens(alloc: Global, key: Key, version: u64) -> Result<Store<MemDisk>, Fail> {
    let mut store = two_slots(alloc)?;
    put_sevens(alloc, &mut store, key, version)?;
    Ok(store)
}
