//! How long an actor waits before it is ticked again.
//!
//! It promises nothing to contracts: which ticks are passed on is free.
#![tactic(auto)]

mod backoff;

pub use backoff::Backoff;
