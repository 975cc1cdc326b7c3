//! What two servers of a pair remember of an operation on one block.

use busy_marks::MarkKind;
use petal_base::{Cell, Key, Op, Rev, Seq, SharedBlock, Version};
use petal_command::Below;

/// A client that writes: one of a script's, 0 to 7, and not the operator. Contracts see the number.
pub type WriterNumber = Below<8>;

/// Why an operation was opened.
#[derive(Clone, Copy, Debug, PartialEq, Eq)]
pub enum OpKind {
    /// For a client's write.
    Write,
    /// To move an entry to a new map.
    Fill,
    /// To bring the other server's copy up to date.
    Copy,
}

/// What an operation has done so far.
#[derive(Clone, Copy, Debug, PartialEq, Eq)]
pub struct Stage {
    /// The second server has set a slot apart.
    pub reserved: bool,
    /// The block is marked busy.
    pub busy: bool,
    /// The block is marked stale.
    pub stale: bool,
    /// The lead has put its copy.
    pub put: bool,
    /// The second server has put its copy.
    pub paired: bool,
    /// The other server has dropped the entries that a copy replaces.
    pub trimmed: bool,
    /// The next entry of a copy.
    pub index: u32,
}

/// An operation that the lead of a cell works on. A cell has at most one.
#[derive(Clone, PartialEq, Eq, Drop)]
pub struct Pending {
    pub op: Op,
    pub kind: OpKind,
    pub cell: Cell,
    pub key: Key,
    /// The version of the lead's own put, 0 before it.
    pub version: Version,
    pub stage: Stage,
    /// Whose write it was opened for, 0 where it was opened for none.
    pub client: WriterNumber,
    pub seq: Seq,
    /// The revision at which it was opened.
    pub rev: Rev,
    pub bytes: SharedBlock,
}

/// What an operation does next.
#[derive(Clone, Copy, Debug, PartialEq, Eq)]
pub enum Action {
    /// Ask the second server for a slot, and wait.
    Reserve,
    /// Mark the block.
    Mark(MarkKind),
    /// Put the lead's own copy.
    Put,
    /// Send the second server its copy, and wait.
    Replicate,
    /// Take the block's mark away.
    Unmark(MarkKind),
    /// Answer the client.
    Answer,
    /// Give up, since this server is not the lead.
    Drop,
}

/// What a server that may read a cell says to a read.
#[derive(Clone, PartialEq, Eq, Drop)]
pub enum Reply {
    Data(SharedBlock),
    NotHere,
    BlockBusy,
    Held,
}

/// How a write ended.
#[derive(Clone, Copy, Debug, PartialEq, Eq)]
pub enum Ending {
    Written,
    Full,
}

/// The last request of a client that a lead is done with.
#[derive(Clone, Copy, Debug, PartialEq, Eq)]
pub struct Finished {
    pub seq: Seq,
    pub ending: Ending,
}

/// How far a second server is with an operation.
#[derive(Clone, Copy, Debug, PartialEq, Eq)]
pub enum FollowProgress {
    /// A slot is set apart.
    Reserved,
    /// Its copy is put.
    Replicated,
}

/// The last operation on a cell that a second server took part in.
#[derive(Clone, Copy, Debug, PartialEq, Eq)]
pub struct LastOp {
    pub op: Op,
    pub progress: FollowProgress,
}
