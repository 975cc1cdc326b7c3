//! Writes over a pair of servers: at their lead (`lead`), at their second server (`second`), and which job a letter of theirs is.
//!
//! To the layer above it promises that each job is the rule's of `spec_rules`: what it leaves, the letters that it sends,
//! and the job that follows it up. It knows nothing of queues, reads, clients or how letters travel.
#![tactic(auto)]

mod job;
mod lead;
mod second;

pub use job::on_letter;
pub use lead::{Moving, go_on, letters_after, on_fill};
pub use pair_memory::{JobContext, JobResult, PairMemory, WorkError};
