//! The jobs of a server: those that wait, in order, with the blocks that are in memory already; those of the pairs, by letter or by
//! the server itself; and those of the agreed log: what the server wants chosen, and the ballots that it starts for it.
//!
//! To the layer above it promises how each call changes the queue, and that each job is the rule's of `spec_rules`: what it leaves, the
//! letters that it sends, and the job that follows it up. It knows nothing of when a server works, or of how letters travel.
#![tactic(auto)]

mod ballots;
mod jobs;
mod letters;
mod queue;
mod recent;
mod wants;

pub use ballots::does_log;
pub use copy_recovery::{letters_after as copy_letters_after, repair_jobs};
pub use jobs::does;
pub use queue::{Kind, add_all, enter, go_on, kind_of, make_room};
pub use recent::RecentBlocks;
pub use redistribute::{fills_after, has_retired};
pub use wants::{is_in, own_wants};
pub use write_pair::letters_after as write_letters_after;
