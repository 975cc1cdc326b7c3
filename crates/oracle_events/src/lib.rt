//! The events of a history, worked out from its records alone, once more and apart from the definition of a history's events: what
//! letters tell of operations, which writes the plain machine is told of, and what stands in the blocks by them; of what servers have
//! chosen, the disks, links, fences and moves that come of it.
//!
//! To the layer above it promises no more than safety; that the machine takes what is told is what tests look at. It knows
//! nothing of how a run comes about.
#![tactic(auto)]

mod asked;
mod choices;
mod contents;
mod disks;
mod events;
mod fences;
mod members;
mod moves;
mod operations;
mod reads;
mod stores;
mod told;
mod writes;

pub use events::{made, old_reads, tells, told_of};
pub use stores::{Looks, Stores};
pub use told::Told;
