//! The global state: what the entries of the agreed log make of it, one definition per command, and what it says of a block:
//! whether its cell is live, who leads it, who may read it, and which fence holds it.
//!
//! To the layer above it promises that these definitions alone say what a log means; code, rules and laws cite them. It
//! knows nothing of how a log comes about, or of how the state is kept.
#![tactic(auto)]

mod answer;

pub use answer::{DiskView, Hold, Link};
