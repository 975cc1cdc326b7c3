//! Virtual disks, their snapshots and their moves, and what clients are told of their commands.

use petal_base::{DiskId, Epoch, MapId, Name, Seq, Sequence};
use std::alloc::AllocError;

/// How far a region of a disk has moved: it is under the old map alone, under both, or under the new map alone.
#[derive(Clone, Copy, Debug, PartialEq, Eq)]
pub enum RegionState {
    Old,
    Fenced,
    New,
}

/// What became of a client's command.
#[derive(Clone, Copy, Debug, PartialEq, Eq)]
pub enum Verdict {
    /// A snapshot is queued.
    Waiting,
    Ok,
    /// The name is taken.
    Exists,
    NoDisk,
    /// The disk is on the move already.
    Moving,
}

/// A client's last command: its number and what became of it.
#[derive(Clone, Copy, Debug, PartialEq, Eq)]
pub struct Latest {
    pub seq: Seq,
    pub verdict: Verdict,
}

/// A snapshot: the disk as it was at the end of this epoch.
#[derive(Drop, PartialEq, Eq)]
pub struct Snapshot {
    pub name: Name,
    pub epoch: Epoch,
}

/// A disk's way from its old map to its present one, region by region.
#[derive(Drop, PartialEq, Eq)]
pub struct Move {
    pub old_map: MapId,
    /// The state of each of the 16 regions.
    pub regions: Sequence<RegionState>,
    /// The links of the old map noted for the region that is `Fenced`, in the order in which they came.
    pub noted: Sequence<u8>,
}

/// A virtual disk.
#[derive(Drop, PartialEq, Eq)]
pub struct DiskRow {
    pub id: DiskId,
    pub name: Name,
    pub map: MapId,
    /// Raised by one at each snapshot.
    pub epoch: Epoch,
    /// By rising epoch.
    pub snaps: Sequence<Snapshot>,
    pub moving: Option<Move>,
}

impl Clone for Snapshot {
    ghost use Rattle.std.specs.Prelude.{◌≡◌};

    ghost is_clone = { λ x y. y ≡ x };

    fn clone(&self) -> Result<Self, AllocError> {
        Ok(Snapshot {
            name: self.name.copy(),
            epoch: self.epoch,
        })
    }
}

impl Clone for Move {
    ghost use Rattle.std.specs.Prelude.{◌≡◌};

    ghost is_clone = { λ x y. y ≡ x };

    fn clone(&self) -> Result<Self, AllocError> {
        Ok(Move {
            old_map: self.old_map,
            regions: self.regions.clone()?,
            noted: self.noted.clone()?,
        })
    }
}

impl Clone for DiskRow {
    ghost use Rattle.std.specs.Prelude.{◌≡◌};

    ghost is_clone = { λ x y. y ≡ x };

    fn clone(&self) -> Result<Self, AllocError> {
        Ok(DiskRow {
            id: self.id,
            name: self.name.copy(),
            map: self.map,
            epoch: self.epoch,
            snaps: self.snaps.clone()?,
            moving: self.moving.clone()?,
        })
    }
}
