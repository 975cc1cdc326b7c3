//! What a request is answered.

use petal_base::SharedBlock;

/// The answer of one request.
#[derive(Clone, PartialEq, Eq, Drop)]
pub enum Answer {
    /// It is done.
    Ok,
    /// The contents that a read found.
    Data(SharedBlock),
    /// A write found no free slot, or a settle met a server without one.
    NoSpace,
    /// No running server may serve the block.
    Unavailable,
    /// There is no disk of this name.
    NoDisk,
    /// The disk has no snapshot of this name.
    NoSnap,
    /// There is a disk or snapshot of this name already.
    Exists,
    /// A move of the disk is under way.
    Moving,
    /// After a start or blank the server doesn't run.
    Failed,
}
