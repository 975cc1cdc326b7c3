//! Where a block lies: on which link of its map, and in which region of its disk.
//!
//! To the layer above it promises the two formulas. It knows nothing of servers and maps.
#![tactic(auto)]

ghost use Rattle.std.specs.Prelude.{◌≡◌, ◌≤◌, ◌<◌};
ghost use Rattle.global_tables.specs.Region.{link_of, region_of};

use petal_base::{BlockNo, REGIONS};

/// Blocks follow one another within a region in runs of this length.
const RUN: BlockNo = 8;

/// The link of a block in a map of `k` servers ("Chained Declustering", 1990).
pub fn link_of(k: u8, block: BlockNo) -> u8
    requires { 2 ≤ k }
    ensures value { result ≡ link_of k block }
    ensures below { result < k }
{
    (block % BlockNo::from(k)) as u8
}

/// The region of a block.
pub fn region(block: BlockNo) -> u8
    ensures value { result ≡ region_of block }
    ensures below { result < 16 }
{
    ((block / RUN) % BlockNo::from(REGIONS)) as u8
}
