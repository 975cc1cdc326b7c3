//! The view of running servers, and fences: switches that take effect only once every server that is In has nothing
//! pending in their scope.

use petal_base::{ClientId, DiskId, Inc, Name, Seq, Sequence, ServerId};
use std::alloc::AllocError;

/// A server in the view, with its last incarnation.
#[derive(Clone, Copy, Debug, PartialEq, Eq)]
pub enum Member {
    In(Inc),
    Out(Inc),
}

/// What a fence does once it takes effect, and so what it holds until then.
#[derive(Drop, PartialEq, Eq)]
pub enum FenceKind {
    /// The disk gets a snapshot of this name, asked for by this request.
    Whole {
        disk: DiskId,
        name: Name,
        client: ClientId,
        seq: Seq,
    },
    /// The region of the disk's move becomes `Fenced`.
    Region {
        disk: DiskId,
        region: u8,
    },
}

/// A fence of the queue. The first of the queue is active.
#[derive(Drop, PartialEq, Eq)]
pub struct Fence {
    /// Counted from 1 in the order of queueing.
    pub number: u32,
    pub kind: FenceKind,
    /// The servers whose report is awaited, in rising order; empty while the fence is not the first of the queue.
    pub waiting: Sequence<ServerId>,
}

impl Clone for FenceKind {
    ghost use Rattle.std.specs.Prelude.{◌≡◌};

    ghost is_clone = { λ x y. y ≡ x };

    fn clone(&self) -> Result<Self, AllocError> {
        Ok(match self {
            FenceKind::Whole {
                disk,
                name,
                client,
                seq,
            } => FenceKind::Whole {
                disk: *disk,
                name: name.copy(),
                client: *client,
                seq: *seq,
            },
            FenceKind::Region { disk, region } => FenceKind::Region {
                disk: *disk,
                region: *region,
            },
        })
    }
}

impl Clone for Fence {
    ghost use Rattle.std.specs.Prelude.{◌≡◌};

    ghost is_clone = { λ x y. y ≡ x };

    fn clone(&self) -> Result<Self, AllocError> {
        Ok(Fence {
            number: self.number,
            kind: self.kind.clone()?,
            waiting: self.waiting.clone()?,
        })
    }
}
