//! Global maps.

use petal_base::{DiskId, Tuple};
use std::alloc::AllocError;

/// A global map, which never changes: the servers over which the blocks of its disk are spread.
#[derive(Drop, PartialEq, Eq)]
pub struct MapRow {
    pub tuple: Tuple,
    pub disk: DiskId,
}

impl Clone for MapRow {
    ghost use Rattle.std.specs.Prelude.{◌≡◌};

    ghost is_clone = { λ x y. y ≡ x };

    fn clone(&self) -> Result<Self, AllocError> {
        Ok(MapRow {
            tuple: self.tuple.copy(),
            disk: self.disk,
        })
    }
}
