//! A server's part in the agreed log: what it has in memory of the log (`memory`), and over its state store the ballots that it takes
//! part in and the entries that it learns, applies and tells others.
//!
//! To the layer above it promises that each of its calls is the rule of `spec_rules`, what the device of the state store stands for
//! after it, and that the global state which it gives is what its applied entries make. It knows nothing of pairs, of queues, or of
//! how letters travel.
#![tactic(auto)]

mod ballots;
mod entries;
mod jobs;
mod memory;
mod news;

pub use ballots::start_ballot;
pub use jobs::does;
pub use memory::{Entered, Envelope, LogDone, LogSide, Next, farewell};
pub use paxos_core::ServerCount;
