//! The words that every other crate of Petal uses: names, blocks, tuples of servers, cells and keys, which write a put is for, the
//! two small types that make lists and shared blocks plain for contracts, and lists that only contracts see.
//!
//! To the layer above it promises that a `Name`, a `Tuple` and a `Block` are always well formed, and that a contract sees
//! them as the list of their bytes or numbers. A ghost list takes no memory. The crate knows nothing of servers, disks or letters.
#![tactic(auto)]

mod block;
mod cell;
mod ghost_list;
mod memory;
mod name;
mod number;
mod origin;
mod sequence;
mod shared;
mod slot_count;
mod tuple;

pub use block::{BLOCK_BYTES, Block};
pub use cell::{Cell, Key};
pub use ghost_list::{Change, GhostList};
pub use memory::NoMemory;
pub use name::{NAME_BYTES, Name};
pub use number::{
    BLOCKS, BlockNo, CLIENTS, ClientId, DiskId, Epoch, Inc, JOURNAL_RECORDS, MARKS_LIMIT,
    MAX_SERVERS, MAX_SLOTS, MapId, OPERATOR, Op, REGIONS, Rev, Seq, ServerId, Stamp, Version,
};
pub use origin::Origin;
pub use sequence::Sequence;
pub use shared::SharedBlock;
pub use slot_count::SlotCount;
pub use tuple::Tuple;
