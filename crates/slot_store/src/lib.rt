//! The slots of a data device: which are in use, and the contents of blocks in them.
//!
//! To the layer above it promises the list of slots in use, which each call shows whole, and that a write touches one slot
//! and is on the device when it returns. It knows nothing of keys, journals or tickets.
#![tactic(auto)]

mod slots;
mod usage;

pub use slots::{SLOT_BYTES, SlotStore};
