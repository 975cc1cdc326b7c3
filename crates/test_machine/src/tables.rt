//! Tables: happy paths at concrete keys.

use petal_base::NoMemory;
use petal_table::Table;
use std::process::Abort;
use std::test::Fail;

fn put_three(table: &mut Table<u64, u8>) -> Result<(), NoMemory> {
    table.put(5, 50)?;
    table.put(3, 30)?;
    table.put(5, 51)
}

fn find(rt: &impl Abort, table: &Table<u64, u8>) {
    assert_eq!(rt; table.len(), 2);
    assert_eq!(rt; table.get(&5).copied(), Some(51));
    assert_eq!(rt; table.get(&4).copied(), None);
}

fn remove(rt: &impl Abort, table: &mut Table<u64, u8>) {
    assert_eq!(rt; table.remove(&5), Some(51));
    assert_eq!(rt; table.remove(&5), None);
}

fn insert(rt: &impl Abort, table: &mut Table<u64, u8>) {
    assert_eq!(rt; table.insert(5, 52), Ok(()));
    assert_eq!(rt; table.get(&5).copied(), Some(52));
    assert_eq!(rt; table.get(&3).copied(), Some(30));
}

#[test]
fn rows_come_and_go(rt: HostRuntime) -> Result<(), Fail> {
    let mut table: Table<u64, u8> = Table::new(rt.alloc());
    put_three(&mut table)?;
    find(&rt, &table);
    remove(&rt, &mut table);
    insert(&rt, &mut table);
    Ok(())
}

fn replace(table: &mut Table<u64, u8>) -> Result<(), NoMemory> {
    table.put(3, 30)?;
    table.put(5, 50)?;
    if table.get(&5).is_some() {
        table.replace(5, 51);
    }
    Ok(())
}

fn find_replaced(rt: &impl Abort, table: &Table<u64, u8>) {
    assert_eq!(rt; table.get(&5).copied(), Some(51));
    assert_eq!(rt; table.get(&3).copied(), Some(30));
    assert_eq!(rt; table.len(), 2);
}

#[test]
fn a_row_is_replaced(rt: HostRuntime) -> Result<(), Fail> {
    let mut table: Table<u64, u8> = Table::new(rt.alloc());
    replace(&mut table)?;
    find_replaced(&rt, &table);
    Ok(())
}

/// A copy of the table before its row is replaced.
fn copied(table: &mut Table<u64, u8>) -> Result<Table<u64, u8>, NoMemory> {
    table.put(5, 50)?;
    let copy = table.clone()?;
    table.put(5, 51)?;
    Ok(copy)
}

fn look(rt: &impl Abort, copy: &Table<u64, u8>) {
    assert_eq!(rt; copy.get(&5).copied(), Some(50));
    assert_eq!(rt; copy.len(), 1);
}

#[test]
fn a_copy_stands_alone(rt: HostRuntime) -> Result<(), Fail> {
    let mut table: Table<u64, u8> = Table::new(rt.alloc());
    let copy = copied(&mut table)?;
    look(&rt, &copy);
    Ok(())
}
