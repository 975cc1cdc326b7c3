//! The entries of one server in the order of their keys, in memory.
//!
//! To the layer above it promises the list of entries, which each call shows whole, and room for the puts that were asked
//! for beforehand. It knows nothing of the device on which contents lie.
#![tactic(auto)]

mod entry;
mod map;
mod search;

pub use entry::Entry;
pub use map::PhysicalMap;
