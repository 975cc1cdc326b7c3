//! The records of running actors, put together into one history: each actor's own list is kept where its steps are taken, and at the end
//! of a run the lists are merged by stamp and actor.
//!
//! To the layer above it promises that the history has exactly the records of the lists, in that order, and each actor's in the order of
//! its own list; that each letter that comes in it is the one that its sender's record has, or which one is not; and, where what joins the
//! actors is found to be in order, that it is legal. It knows nothing of how the lists came about.
#![tactic(auto)]

mod error;
mod front;
mod joining;
mod lookup;
mod merging;
mod order;
mod record;
mod turns;

pub use error::MergeError;
pub use front::Front;
pub use joining::joined;
pub use merging::{by_stamps, merge};
pub use record::record_again;
