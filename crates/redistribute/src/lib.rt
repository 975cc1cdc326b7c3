//! Moves at the servers of the old map: which entry of a link goes to the new map next, the letters with which it goes, what their
//! answers mean, and what is dropped of cells that are live no longer.
//!
//! To the layer above it promises that each job is the rule's of `spec_rules`: what it leaves, the letters that it sends, and
//! the job that follows it up. It knows nothing of how the new map's servers put an entry, of queues, or of how letters travel.
#![tactic(auto)]

mod answer;
mod letters;
mod next;
mod region;
mod search;
mod sweep;
mod want;

pub use answer::{on_fill_full, on_filled};
pub use letters::fills_after;
pub use sweep::{has_retired, sweep_one};
pub use want::moving;
