//! What happens to the disk of a number. Where there is none, nothing changes.

ghost use Rattle.std.specs.Prelude.{◌≡◌, ◌<◌, ◌-◌, ◌^◌, IfOk, OnOk, OnErr, position, option_and_then};
ghost use Rattle.std.specs.Option.{ForSome};
ghost use Rattle.global_tables.specs.Disk.{change, disk_at, row_frozen, row_moving, row_fenced, row_noted, completes, is_disk};

use crate::row::{Note, fence_row, freeze_row, move_row, note_row};
use global_tables::DiskRow;
use petal_base::{DiskId, MapId, Name, NoMemory};
use std::alloc::{AllocError, Global};

fn place_of(rows: &[DiskRow], disk: DiskId) -> Option<usize>
    ensures { result ≡ position (is_disk disk) rows.now }
{
    rows.iter().position(|row| row.id == disk)
}

/// Takes a snapshot of the disk, where it is known.
pub fn freeze(rows: &mut [DiskRow], disk: DiskId, name: &Name) -> Result<(), NoMemory>
    requires { ForSome (disk_at rows.old disk) (λ row. row.epoch < 2 ^ 32 - 1) }
    ensures ok { OnOk result (rows.new ≡ change disk (row_frozen name.now) rows.old) }
    ensures err { OnErr result (rows.new ≡ rows.old) }
{
    match place_of(rows, disk) {
        Some(at) => {
            freeze_row(&mut rows[at], name)?;
            Ok(())
        }
        None => Ok(()),
    }
}

/// Begins a move of the disk, where it is known.
pub fn start_move(
    alloc: Global,
    rows: &mut [DiskRow],
    disk: DiskId,
    map: MapId,
) -> Result<(), AllocError>
    ensures ok { OnOk result (rows.new ≡ change disk (row_moving map) rows.old) }
    ensures err { OnErr result (rows.new ≡ rows.old) }
{
    match place_of(rows, disk) {
        Some(at) => {
            move_row(alloc, &mut rows[at], map)?;
            Ok(())
        }
        None => Ok(()),
    }
}

/// Fences one region of the disk, where it is known and moves.
pub fn fence_region(
    alloc: Global,
    rows: &mut [DiskRow],
    disk: DiskId,
    region: u8,
) -> Result<(), AllocError>
    ensures ok { OnOk result (rows.new ≡ change disk (row_fenced region) rows.old) }
    ensures err { OnErr result (rows.new ≡ rows.old) }
{
    match place_of(rows, disk) {
        Some(at) => {
            fence_row(alloc, &mut rows[at], region)?;
            Ok(())
        }
        None => Ok(()),
    }
}

/// True exactly where the region is then `New`.
pub fn note_link(
    alloc: Global,
    rows: &mut [DiskRow],
    disk: DiskId,
    note: Note,
) -> Result<bool, AllocError>
    ensures ok { OnOk result (rows.new ≡ change disk (row_noted note.region note.link note.links) rows.old) }
    ensures done { IfOk result (λ done. done ≡ completes note.link note.links (option_and_then (λ row. row.moving) (disk_at rows.old disk))) }
    ensures err { OnErr result (rows.new ≡ rows.old) }
{
    match place_of(rows, disk) {
        Some(at) => Ok(note_row(alloc, &mut rows[at], note)?),
        None => Ok(false),
    }
}
