//! The world of all servers and clients, stepped one at a time: each client with its lines and its seat, the letters ever sent, and
//! the lines without an answer.
//!
//! To the layer above it promises that the records that it keeps are a legal history of its script, and that a step is
//! refused exactly where the rules, or the order of the operator's lines, do not allow it. It knows nothing of the order in which
//! steps are taken, and of how a server keeps its blocks.
#![tactic(auto)]

mod actors;
pub mod blocks;
pub mod control;
pub mod copies;
mod deciding;
pub mod errand;
mod error;
pub mod seat;
mod seats;
mod step_result;
mod taking;
mod world;

pub use error::{GaveUp, WorldError};
pub use server_host::{Host, StepEnd, are_in_order};
pub use spec_history::{History, Record};
pub use spec_rules::{CommitEnd, Step, WorkEnd};
pub use step_result::StepResult;
pub use world::World;
