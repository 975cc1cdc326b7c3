//! Which blocks a fence is about.

ghost use Rattle.std.specs.Prelude.{◌≡◌};
ghost use Rattle.pair_lock.specs.Pairs.{in_scope, is_any, is_this};

use chain_place::region;
use petal_base::{Cell, MapId};

/// The blocks of one or two maps, or those of one region of them.
#[derive(Clone, Copy, Debug, PartialEq, Eq)]
pub struct Scope {
    pub map: MapId,
    /// The map that a disk moves from.
    pub old_map: Option<MapId>,
    /// One region alone, from 0.
    pub region: Option<u8>,
}

impl Scope {
    /// Whether the cell lies in it.
    pub fn covers(&self, cell: Cell) -> bool
        ensures { result ≡ in_scope self.now cell }
    {
        (self.map == cell.map || is_this(self.old_map, cell.map))
            && is_any(self.region, region(cell.block))
    }
}

// Whether the map is the one that a disk moves from.
fn is_this(map: Option<MapId>, other: MapId) -> bool
    ensures { result ≡ is_this map other }
{
    match map {
        Some(map) => map == other,
        None => false,
    }
}

fn is_any(region: Option<u8>, other: u8) -> bool
    ensures { result ≡ is_any region other }
{
    match region {
        Some(region) => region == other,
        None => true,
    }
}
