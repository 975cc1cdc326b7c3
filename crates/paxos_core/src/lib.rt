//! One server's part in agreement: its acceptor, over the state store, and its proposer.
//!
//! To the layer above it promises that a promise or an acceptance that was answered stands on the device in every crash, that
//! a command is told to be chosen only where a majority answered that they accepted it in one ballot, and, over every
//! schedule, one chosen command for each place. It knows nothing of what a command does, of when a ballot is started and of
//! how letters travel.
#![tactic(auto)]

mod acceptor;
mod count;
pub mod laws;
mod proposer;

pub use acceptor::{on_accept, on_prepare};
pub use count::ServerCount;
pub use proposer::{Proposer, has_majority};
pub use spec_paxos::{Heard, Phase};
pub use state_store::{StateError, StateStore};
