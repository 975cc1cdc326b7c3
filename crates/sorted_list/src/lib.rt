//! A list whose items stand in their order, one for each place in it, with room that is asked for beforehand.
//!
//! To the layer above it promises the whole list after each call, and that an item for which there is room takes no memory. It knows
//! nothing of what the items are.
#![tactic(auto)]

mod list;

pub use list::SortedList;
