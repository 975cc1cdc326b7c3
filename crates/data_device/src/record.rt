//! What a data device's journal says: one record for each change of a store, and the bytes that spell it.
//!
//! Every record has exactly one spelling, and no bytes spell two.

mod reading;
mod writing;

use busy_marks::MarkKind;
use petal_base::{Cell, Key, MapId, Origin, Version};
pub use reading::decode;
pub use writing::encode;

/// A record is spelled by so many bytes, after its gate.
pub const RECORD_BYTES: usize = 63;

/// One change of a store. After the gate, the 63 bytes of its spelling are, with numbers in big-endian order:
///
/// | offset | field |
/// |---|---|
/// | 0 | kind: 1 Put, 2 Drop, 3 Mark, 4 Unmark, 5 Settled, 7 Forget, 8 Done; 6 is the first record of a half |
/// | 1 | map u32 (all but Settled) |
/// | 5 | block u64 (Put, Drop, Mark, Unmark); link u8 (Forget, Done) |
/// | 6 | client u8 (Done) |
/// | 7 | number of the request u32 (Done) |
/// | 13 | epoch u32 (Put, Drop) |
/// | 17 | version u64 (Put) |
/// | 25 | slot u32 (Put) |
/// | 29 | mark kind u8 (Mark, Unmark): 1 Busy, 2 Stale |
/// | 30 | the client and 1, u8 (Put): 0 where the put is for no write of a client |
/// | 31 | number of the request u32 (Put) |
/// | 35 | link u8 (Put) |
/// | 36 | zeros; unused bytes before are zero too |
#[derive(Clone, Copy, Debug, PartialEq, Eq)]
pub enum StoreRecord {
    /// The key has the content of this slot, put with this version, for this write if it was for one.
    Put {
        key: Key,
        version: Version,
        slot: u32,
        origin: Option<Origin>,
    },
    /// The key is not there any more.
    Drop {
        key: Key,
    },
    /// The mark is set.
    Mark {
        kind: MarkKind,
        cell: Cell,
    },
    /// The mark is not set any more.
    Unmark {
        kind: MarkKind,
        cell: Cell,
    },
    /// The store has been filled again.
    Settled,
    /// What was put on a link of a map is not asked any more.
    Forget {
        map: MapId,
        link: u8,
    },
    /// This write was put.
    Done {
        map: MapId,
        origin: Origin,
    },
}
