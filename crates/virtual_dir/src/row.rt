//! What happens to one disk.

ghost use Rattle.std.specs.Prelude.{◌≡◌, ◌<◌, ◌-◌, ◌^◌, Some, IfOk, OnOk, OnErr, slice_set, if◌then◌else◌};
ghost use Rattle.global_tables.specs.Disk.{row_frozen, row_moving, row_fenced, row_noted, move_fenced, move_done, with_link};
ghost use Rattle.global_tables.specs.Disk.{all_noted, completes, option_moved};

use global_tables::{DiskRow, Move, RegionState, Snapshot};
use petal_base::{MapId, Name, NoMemory, REGIONS, Sequence};
use std::alloc::{AllocError, Global};

/// How many regions a disk has.
const ALL: usize = REGIONS as usize;

/// The region with which a move ends.
const LAST: u8 = REGIONS - 1;

/// Takes a snapshot: what is written from now on is of the next epoch.
pub fn freeze_row(row: &mut DiskRow, name: &Name) -> Result<(), NoMemory>
    requires { row.old.epoch < 2 ^ 32 - 1 }
    ensures ok { OnOk result (row.new ≡ row_frozen name.now row.old) }
    ensures err { OnErr result (row.new ≡ row.old) }
{
    row.snaps.push(Snapshot {
        name: name.copy(),
        epoch: row.epoch,
    })?;
    row.epoch += 1;
    Ok(())
}

/// Begins a move to a new map: each region is still at the old one.
pub fn move_row(alloc: Global, row: &mut DiskRow, map: MapId) -> Result<(), AllocError>
    ensures ok { OnOk result (row.new ≡ row_moving map row.old) }
    ensures err { OnErr result (row.new ≡ row.old) }
{
    let regions = vec![in alloc; RegionState::Old; ALL]?;
    row.moving = Some(Move {
        old_map: row.map,
        regions: Sequence::of(regions),
        noted: Sequence::new(alloc),
    });
    row.map = map;
    Ok(())
}

/// Fences one region of a disk that moves.
pub fn fence_row(alloc: Global, row: &mut DiskRow, region: u8) -> Result<(), AllocError>
    ensures ok { OnOk result (row.new ≡ row_fenced region row.old) }
    ensures err { OnErr result (row.new ≡ row.old) }
{
    if let Some(before) = &row.moving {
        let after = fence_move(alloc, before, region)?;
        row.moving = Some(after);
    }
    Ok(())
}

fn fence_move(alloc: Global, before: &Move, region: u8) -> Result<Move, AllocError>
    ensures { IfOk result (λ after. after ≡ move_fenced region before.now) }
{
    Ok(Move {
        old_map: before.old_map,
        regions: with_region(
            alloc,
            before.regions.as_slice(),
            region,
            RegionState::Fenced,
        )?,
        noted: Sequence::new(alloc),
    })
}

/// A link of an old map with `links` links has moved all that it has of a region.
#[derive(Clone, Copy, Debug, PartialEq, Eq)]
pub struct Note {
    pub region: u8,
    pub link: u8,
    pub links: u8,
}

/// True exactly where the region is then `New`.
pub fn note_row(alloc: Global, row: &mut DiskRow, note: Note) -> Result<bool, AllocError>
    ensures ok { OnOk result (row.new ≡ row_noted note.region note.link note.links row.old) }
    ensures done { IfOk result (λ done. done ≡ completes note.link note.links row.old.moving) }
    ensures err { OnErr result (row.new ≡ row.old) }
{
    let done = completes(alloc, &row.moving, note)?;
    let after = note_moving(alloc, &row.moving, note)?;
    row.moving = after;
    Ok(done)
}

fn completes(alloc: Global, moving: &Option<Move>, note: Note) -> Result<bool, AllocError>
    ensures { IfOk result (λ done. done ≡ completes note.link note.links moving.now) }
{
    match moving {
        None => Ok(false),
        Some(before) => {
            let noted = with_link(alloc, note.link, before.noted.as_slice())?;
            Ok(all_noted(note.links, noted.as_slice()))
        }
    }
}

fn note_moving(alloc: Global, moving: &Option<Move>, note: Note) -> Result<Option<Move>, AllocError>
    ensures { IfOk result (λ after. after ≡ option_moved note.region note.link note.links moving.now) }
{
    match moving {
        None => Ok(None),
        Some(before) => {
            let noted = with_link(alloc, note.link, before.noted.as_slice())?;
            let done = all_noted(note.links, noted.as_slice());
            note_move(alloc, before, note.region, noted, done)
        }
    }
}

fn note_move(
    alloc: Global,
    before: &Move,
    region: u8,
    noted: Sequence<u8>,
    done: bool,
) -> Result<Option<Move>, AllocError>
    ensures { IfOk result (λ after. after ≡ (if done then move_done region before.now else Some (record before.now { noted = noted }))) }
{
    if done {
        return finish_region(alloc, before, region);
    }
    Ok(Some(Move {
        old_map: before.old_map,
        regions: before.regions.clone()?,
        noted,
    }))
}

fn finish_region(alloc: Global, before: &Move, region: u8) -> Result<Option<Move>, AllocError>
    ensures { IfOk result (λ after. after ≡ move_done region before.now) }
{
    if region == LAST {
        return Ok(None);
    }
    Ok(Some(Move {
        old_map: before.old_map,
        regions: with_region(alloc, before.regions.as_slice(), region, RegionState::New)?,
        noted: Sequence::new(alloc),
    }))
}

fn with_region(
    alloc: Global,
    regions: &[RegionState],
    region: u8,
    state: RegionState,
) -> Result<Sequence<RegionState>, AllocError>
    ensures { IfOk result (λ after. after ≡ slice_set regions.now region state) }
{
    let mut after = Vec::from_slice(alloc, regions)?;
    if (region as usize) < after.len() {
        after[region as usize] = state;
    }
    Ok(Sequence::of(after))
}

fn with_link(alloc: Global, link: u8, noted: &[u8]) -> Result<Sequence<u8>, AllocError>
    ensures { IfOk result (λ after. after ≡ with_link link noted.now) }
{
    let mut after = Vec::from_slice(alloc, noted)?;
    if !noted.contains(&link) {
        after.push(link)?;
    }
    Ok(Sequence::of(after))
}

fn all_noted(links: u8, noted: &[u8]) -> bool
    ensures { result ≡ all_noted links noted.now }
{
    (0..links).all(|link| noted.contains(&link))
}
