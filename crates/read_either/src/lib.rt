//! Reads: what a server that may read a cell says, and what its client is told.
//!
//! To the layer above it promises that the reply, and the job of a read, are the rules' of `spec_rules`, and that a read changes
//! nothing. It knows nothing of queues, writes or how letters travel.
#![tactic(auto)]

mod answer;
mod read;

pub use answer::{answer_read, said};
pub use petal_msg::Reply;
pub use read::on_read;
