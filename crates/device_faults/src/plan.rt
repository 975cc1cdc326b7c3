//! A plan for one disk: which of its next calls fails, and what it does before.

/// Which calls a plan counts.
#[derive(Clone, Copy, Debug, PartialEq, Eq)]
pub enum CallKind {
    /// Reads, writes and syncs.
    Any,
    /// Reads.
    Read,
    /// Writes.
    Write,
    /// Syncs.
    Sync,
}

/// The call of this kind with the number `at` after arming, counted from 1, fails, once. With `late`, a write or a sync that
/// fails so does all of its work before; with `stop` alone, a write writes the first half of its bytes; else the call does
/// nothing.
#[derive(Clone, Copy, Debug, PartialEq, Eq)]
pub struct Plan {
    /// Which calls count.
    pub kind: CallKind,
    /// The number of the call that fails.
    pub at: u32,
    /// Whether the server is to stop at it.
    pub stop: bool,
    /// Whether a write or a sync that fails has done all of its work before.
    pub late: bool,
}
