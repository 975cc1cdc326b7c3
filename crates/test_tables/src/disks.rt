//! A disk moves, with values worked by hand.

use petal_base::{Name, NoMemory};
use std::alloc::Global;
use std::test::Fail;
use virtual_dir::Directory;

fn is_at_its_first_epoch(disks: &Directory) -> bool {
    match disks.row(0) {
        Some(row) => row.epoch == 0,
        None => false,
    }
}

/// Whether the first disk of a directory is as it should be.
fn make(alloc: Global, disks: &mut Directory, vol: &Name) -> Result<bool, NoMemory> {
    if disks.made() != 0 {
        return Ok(false);
    }
    let disk = disks.make(alloc, vol, 0)?;
    Ok(disk == 0 && is_at_its_first_epoch(disks) && disks.find(vol).is_some())
}

/// Whether the last region of a move is `New` with the second of its two links, and a link counts once.
fn move_away(alloc: Global, disks: &mut Directory) -> Result<bool, NoMemory> {
    disks.start_move(alloc, 0, 1)?;
    disks.fence_region(alloc, 0, 15)?;
    let first = disks.moved(alloc, 0, 15, 1, 2)?;
    let again = disks.moved(alloc, 0, 15, 1, 2)?;
    let last = disks.moved(alloc, 0, 15, 0, 2)?;
    Ok(!first && !again && last)
}

fn is_moved(disks: &Directory) -> bool {
    match disks.row(0) {
        Some(row) => row.map == 1 && row.moving.is_none(),
        None => false,
    }
}

fn copy_is_moved(disks: &Directory) -> Result<bool, NoMemory> {
    let same = disks.copy()?;
    Ok(same.rows().len() == 1 && same.row(1).is_none() && is_moved(&same))
}

#[test]
fn disks(rt: HostRuntime) -> Result<(), Fail> {
    let vol = Name::read(b"vol").ok_or("a name")?;
    let mut disks = Directory::new(rt.alloc());
    assert!(rt; make(rt.alloc(), &mut disks, &vol)?);
    assert!(rt; move_away(rt.alloc(), &mut disks)?);
    assert!(rt; copy_is_moved(&disks)?);
    Ok(())
}
