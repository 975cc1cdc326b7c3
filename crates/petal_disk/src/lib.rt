//! Disks that fail and crash, shelves of new disks, and both in memory.
//!
//! To the layer above it promises what each call leaves when it succeeds, when it fails and when a crash ends it, and that
//! no call answers `Failed` unless a count of faults has risen. It knows nothing of what the bytes stand for.
#![tactic(auto)]

mod disk;
mod memory_disk;
mod memory_shelf;
mod planned;
mod shelf;
mod write;

pub use device_faults::{CallKind, DeviceError, Failed, Plan, Which};
pub use disk::Disk;
pub use memory_disk::MemDisk;
pub use memory_shelf::MemShelf;
pub use planned::Planned;
pub use shelf::Shelf;
pub use write::{write_kept, write_zeros_kept};
