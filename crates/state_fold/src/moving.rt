//! How far a disk is on its way from map to map.

ghost use Rattle.std.specs.Prelude.{◌≡◌, option_copied};
ghost use Rattle.spec_state.specs.State.{leaves, mover};
ghost use Rattle.spec_state.specs.CellState.{move_region, is_fenced};

use crate::tables::Tables;
use global_tables::{DiskRow, Move, RegionState};
use petal_base::MapId;

/// How far a region has moved; `New` without a move.
pub fn move_region(region: u8, moving: &Option<Move>) -> RegionState
    ensures { result ≡ move_region region moving.now }
{
    match moving {
        Some(moving) => match moving.regions.as_slice().get(region as usize) {
            Some(state) => *state,
            None => RegionState::New,
        },
        None => RegionState::New,
    }
}

/// Whether a region is on its way.
pub fn is_fenced(state: RegionState) -> bool
    ensures { result ≡ is_fenced state }
{
    match state {
        RegionState::Fenced => true,
        RegionState::Old | RegionState::New => false,
    }
}

/// Whether the move leaves this map.
pub fn leaves(map: MapId, moving: &Option<Move>) -> bool
    ensures { result ≡ leaves map moving.now }
{
    match moving {
        Some(moving) => moving.old_map == map,
        None => false,
    }
}

impl Tables {
    /// The disk that is on its way from this map.
    pub fn mover(&self, map: MapId) -> Option<&DiskRow>
        ensures { option_copied result ≡ mover self.now map }
    {
        self.disks
            .rows()
            .iter()
            .find(|row| leaves(map, &row.moving))
    }
}
