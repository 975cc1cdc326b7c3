//! What the agreed log keeps besides the log itself, as plain data: maps, disks with their snapshots and moves, links, the
//! view of running servers and the queue of fences. `specs/` says what each command does to each of these tables.
//!
//! To the layer above it promises one definition per change and per question, which code, rules and laws share. It knows
//! nothing of commands, of the order in which they come, or of how a table is kept.
#![tactic(auto)]

mod disk;
mod fence;
mod link;
mod map;

pub use disk::{DiskRow, Latest, Move, RegionState, Snapshot, Verdict};
pub use fence::{Fence, FenceKind, Member};
pub use link::{LinkRow, LinkState};
pub use map::MapRow;
