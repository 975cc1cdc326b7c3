//! Why an operation was not opened.

use petal_msg::Pending;

/// An operation that was not opened is handed back.
#[derive(Drop)]
pub enum PairError {
    /// Another one is pending on its block.
    Busy(Pending),
    /// There was no memory for this call, which changed nothing.
    NoMemory(Pending),
}
