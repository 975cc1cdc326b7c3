//! Where a block lies: under which map, and in which epoch.

use crate::{BlockNo, Epoch, MapId};

/// A block under one global map. The two copies of a cell are on neighbouring servers of the map's tuple.
#[derive(Clone, Copy, Debug, PartialEq, Eq, PartialOrd, Ord)]
pub struct Cell {
    pub map: MapId,
    pub block: BlockNo,
}

/// A cell at an epoch: what one entry of a server's physical map stands for.
#[derive(Clone, Copy, Debug, PartialEq, Eq, PartialOrd, Ord)]
pub struct Key {
    pub map: MapId,
    pub block: BlockNo,
    pub epoch: Epoch,
}

impl Key {
    ghost use Rattle.std.specs.Prelude.{◌≡◌};
    ghost use Rattle.petal_base.specs.Cells.{cell_of};

    /// The cell whose entry this is.
    pub fn cell(&self) -> Cell
        ensures { result ≡ cell_of self.now }
    {
        Cell {
            map: self.map,
            block: self.block,
        }
    }
}
