//! What stands on a data device: a header, a journal of records in two halves, and after them the slots. Each change of a store is a
//! record, and the ledger says whose each slot is: an entry's, a ticket's, or free. A turn writes what the store keeps into the other
//! half, in place of all records so far.
//!
//! To the layer above it promises that records are committed together or not at all at any crash, that a crash in a turn leaves the
//! records before or after it, which give the same, and that what is opened is what the records give. Every record has exactly one
//! spelling. No two entries and tickets share a slot, and a slot set aside is free again exactly where its ticket is handed back. The
//! crate knows nothing of what the slots hold.
#![tactic(auto)]

mod error;
mod formatting;
mod header;
mod ledger;
mod opening;
pub mod record;
mod record_log;
mod replay;
mod store_list;
mod ticket;

pub use error::StoreError;
pub use formatting::write_format;
pub use header::Header;
pub use ledger::{DATA_START, Ledger};
pub use opening::{Found, read_device};
pub use record_log::RecordLog;
pub use slot_store::{SLOT_BYTES, SlotStore};
pub use store_list::StoreList;
pub use ticket::Ticket;
