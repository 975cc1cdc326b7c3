//! What the state is asked for.

use global_tables::LinkState;
use petal_base::{DiskId, Epoch, MapId, ServerId};

/// A disk as its users see it.
#[derive(Clone, Copy, Debug, PartialEq, Eq)]
pub struct DiskView {
    pub disk: DiskId,
    pub map: MapId,
    pub epoch: Epoch,
    /// The map that it moves from, while a move is on.
    pub old_map: Option<MapId>,
}

/// The two servers of a link, and which of them may serve its blocks.
#[derive(Clone, Copy, Debug, PartialEq, Eq)]
pub struct Link {
    pub primary: ServerId,
    pub secondary: ServerId,
    pub state: LinkState,
}

/// What the active fence holds of a cell.
#[derive(Clone, Copy, Debug, PartialEq, Eq)]
pub enum Hold {
    No,
    /// New client writes.
    Writes,
    /// New client writes and reads.
    All,
}
