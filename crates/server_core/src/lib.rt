//! One server, step by step: it takes letters into a queue, does the first job of the queue, of the pairs, of the agreed log, or one
//! that applies an entry to both, and sends again what is not yet answered.
//!
//! To the layer above it promises that each of its steps is the rule of `spec_rules`: the server afterwards and the letters.
//! It knows nothing of threads, of the way letters travel, or of what is kept of its steps.
#![tactic(auto)]

mod boot;
mod entry;
mod log;
mod pair;
mod parts;
mod server;
mod ticks;
mod work;

pub use pair_memory::WorkError;
pub use server::ServerCore;
pub use server_log::ServerCount;
