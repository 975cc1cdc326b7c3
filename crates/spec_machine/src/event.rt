//! What happens to the plain machine.

use petal_base::{BlockNo, ClientId, Name, Seq, SharedBlock};

/// A client's request to put new contents into a block of a disk.
#[derive(PartialEq, Eq, Drop)]
pub struct Write {
    pub client: ClientId,
    pub seq: Seq,
    pub disk: Name,
    pub block: BlockNo,
    pub bytes: SharedBlock,
}

/// What a write was answered.
#[derive(Clone, Copy, Debug, PartialEq, Eq)]
pub enum WriteEnd {
    Ok,
    NoSpace,
    Unavailable,
    NoDisk,
}

/// One event of the machine.
#[derive(PartialEq, Eq, Drop)]
pub enum Event {
    /// A new disk.
    Make {
        disk: Name,
    },
    /// A snapshot of a disk.
    Freeze {
        disk: Name,
        snap: Name,
    },
    /// A write is called.
    Begin(Write),
    /// A write takes effect.
    Take(Write),
    /// A write is answered.
    End(Write, WriteEnd),
    /// A read of a disk, or of a snapshot of it, gives these bytes.
    Look {
        disk: Name,
        snap: Option<Name>,
        block: BlockNo,
        bytes: SharedBlock,
    },
}
