//! The blocks of one storage server: which keys it has, their contents in slots of its device, marks on cells, and rows that say which
//! write of each client was put last.
//!
//! To the layer above it promises a list of entries in the order of their keys, each with the content that was put last at
//! its key, a set of marks, and that a put never writes over a slot in use. It knows nothing of servers, letters or the
//! agreed log.
#![tactic(auto)]

mod changing;
mod commit;
mod equal;
mod opened;
mod reread;
mod rows;
mod store;
mod unmarks;

pub use data_device::{DATA_START, SLOT_BYTES, StoreError, Ticket};
pub use opened::Opened;
pub use physical_map::Entry;
pub use reread::Reread;
pub use store::Store;
