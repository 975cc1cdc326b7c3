//! What the plain machine keeps.

use crate::Write;
use petal_base::{BlockNo, Name, Sequence, SharedBlock};
use petal_table::Table;

/// What a disk was when its snapshot was taken.
#[derive(Drop)]
pub struct PlainSnapshot {
    pub name: Name,
    pub blocks: Table<BlockNo, SharedBlock>,
}

/// A disk: its blocks now, and its snapshots in the order in which they were taken.
#[derive(Drop)]
pub struct PlainDisk {
    pub name: Name,
    pub now: Table<BlockNo, SharedBlock>,
    pub snaps: Sequence<PlainSnapshot>,
}

/// A write under way.
#[derive(Drop)]
pub struct Open {
    pub write: Write,
    /// Whether the block has had these bytes at some moment since the write was opened.
    pub held: bool,
}
