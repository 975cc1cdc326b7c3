//! The operations that a server works on as the lead of a block: at most one for each block.
//!
//! To the layer above it promises a table of pending operations by their cells, and each call's whole new table and answer.
//! It knows nothing of what an operation does, of letters or of the store.
#![tactic(auto)]

mod error;
mod lock;
mod scope;

pub use error::PairError;
pub use lock::{PairLock, is_clients};
pub use petal_msg::{OpKind, Pending, Stage};
pub use scope::Scope;
