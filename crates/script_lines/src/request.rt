//! What a line asks for.

ghost use Rattle.std.specs.Prelude.{◌≡◌, None, Some, IfOk, MatchOption};
ghost use Rattle.script_lines.specs.Pattern.{pattern_block};
ghost use Rattle.script_lines.specs.Requests.{is_disk, is_write, is_read, is_snap, is_move, is_stop, is_boot, disk_of};

use device_faults::{CallKind, Which};
use petal_base::{Block, BlockNo, ClientId, Name, NoMemory, ServerId, Tuple};
use std::alloc::Global;

/// The contents that a line spells for a block.
#[derive(Clone, Copy, Debug, PartialEq, Eq)]
pub enum Pattern {
    /// One byte throughout.
    Fill(u8),
    /// One byte in the first half and another in the second.
    Halves(u8, u8),
    /// Byte i is `(x + i) mod 256`.
    Ramp(u8),
}

impl Pattern {
    /// The block with these contents.
    pub fn block(self, alloc: Global) -> Result<Block, NoMemory>
        ensures { IfOk result (λ block. block ≡ pattern_block self) }
    {
        match self {
            Pattern::Fill(x) => Block::fill(alloc, x),
            Pattern::Halves(x, y) => Block::halves(alloc, x, y),
            Pattern::Ramp(x) => Block::ramp(alloc, x),
        }
    }
}

/// What a client or the operator asks for.
#[derive(PartialEq, Eq, Drop)]
pub enum Request {
    /// A new disk over these servers.
    Disk {
        name: Name,
        tuple: Tuple,
    },
    /// New contents for a block.
    Write {
        name: Name,
        block: BlockNo,
        pattern: Pattern,
    },
    /// The contents of a block, as they are now or as a snapshot has them.
    Read {
        name: Name,
        snap: Option<Name>,
        block: BlockNo,
    },
    /// A snapshot of a disk.
    Snap {
        name: Name,
        snap: Name,
    },
    /// A disk's data goes to other servers.
    Move {
        name: Name,
        tuple: Tuple,
    },
    /// A server stops, if it runs.
    Stop {
        server: ServerId,
    },
    /// A server stops in the `at`-th call of its data device from now on.
    StopAt {
        server: ServerId,
        at: u32,
    },
    /// The `at`-th call of a kind from now on fails at one of a server's devices.
    Fault {
        server: ServerId,
        which: Which,
        kind: CallKind,
        at: u32,
    },
    /// A server starts again, if it is stopped.
    Start {
        server: ServerId,
    },
    /// A server starts again with a blank data device.
    Blank {
        server: ServerId,
    },
    /// The operator waits until all is settled.
    Settle,
}

impl Request {
    /// Whether a disk is to be made.
    pub fn is_disk(&self) -> bool
        ensures { result ≡ is_disk self.now }
    {
        match self {
            Request::Disk { .. } => true,
            _ => false,
        }
    }

    /// Whether a block is to be written.
    pub fn is_write(&self) -> bool
        ensures { result ≡ is_write self.now }
    {
        match self {
            Request::Write { .. } => true,
            _ => false,
        }
    }

    /// Whether a block is to be read.
    pub fn is_read(&self) -> bool
        ensures { result ≡ is_read self.now }
    {
        match self {
            Request::Read { .. } => true,
            _ => false,
        }
    }

    /// Whether a snapshot is to be taken.
    pub fn is_snap(&self) -> bool
        ensures { result ≡ is_snap self.now }
    {
        match self {
            Request::Snap { .. } => true,
            _ => false,
        }
    }

    /// Whether a disk is to move.
    pub fn is_move(&self) -> bool
        ensures { result ≡ is_move self.now }
    {
        match self {
            Request::Move { .. } => true,
            _ => false,
        }
    }

    /// Whether a server is to stop at once.
    pub fn is_stop(&self) -> bool
        ensures { result ≡ is_stop self.now }
    {
        match self {
            Request::Stop { .. } => true,
            _ => false,
        }
    }

    /// Whether a server is to start.
    pub fn is_boot(&self) -> bool
        ensures { result ≡ is_boot self.now }
    {
        match self {
            Request::Start { .. } | Request::Blank { .. } => true,
            _ => false,
        }
    }

    /// The name and the servers of the disk that is to be made.
    pub fn disk(&self) -> Option<(&Name, &Tuple)>
        ensures { MatchOption result (disk_of self.now ≡ None) (λ disk. disk_of self.now ≡ Some (disk.0.now, disk.1.now)) }
    {
        match self {
            Request::Disk { name, tuple } => Some((name, tuple)),
            _ => None,
        }
    }
}

/// A request, where it stands, and who makes it.
#[derive(PartialEq, Eq, Drop)]
pub struct Line {
    /// The number of its line in the text, from 1.
    pub number: u32,
    /// The phase in which it is asked, from 0.
    pub phase: u32,
    /// 0 to 7 for the clients `a` to `h`, 8 for the operator.
    pub client: ClientId,
    pub request: Request,
}
