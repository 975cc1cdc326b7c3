//! What agreement means for one place of the log and for all of them: what an acceptor and a proposer do at one letter, what
//! the records of a state device stand for, which commands are chosen by the records on all of them, and what may happen to
//! servers that stop, lose and repeat letters, and start again from their state devices.
//!
//! To the layers above it promises nothing itself: it has the definitions that the calls of agreement are bound to, and that
//! its law speaks of. It knows nothing of disks, of threads and of what a command does.
#![tactic(auto)]

mod commits;
mod phase;
mod promises;
mod record;

pub use commits::{commit_is_told, commit_keeps, standing_commit_is_told, standing_commit_keeps};
pub use phase::{Heard, Phase};
pub use promises::{a_promise_lists_its_range, highest_is_of_one_place, next_is_the_least_place};
pub use record::{Row, StateRecord};
