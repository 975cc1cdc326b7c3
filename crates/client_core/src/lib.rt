//! One step of a client: it calls its next line, handles a letter or takes a tick. Its open request says what each send posts, and
//! what a letter, a glance or an entry means for it.
//!
//! To the layer above it promises that each step is the rule's of `spec_rules`: what it leaves, the letters that it sends
//! and the answer that it gives. It keeps the global state that the entries of the log make which it has applied, and of
//! these entries nothing else. It knows nothing of servers' stores, of how letters travel, or of stamps.
#![tactic(auto)]

mod client;
mod error;
mod hearing;
mod judging;
mod learning;
mod open;
mod order;
mod posting;
mod proposing;
mod reaction;
mod round;
mod sending;

pub use client::ClientCore;
pub use error::ClientError;
pub use order::{Order, order_of};
pub use reaction::Reaction;
