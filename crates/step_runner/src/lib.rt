//! Runs of worlds in orders that the plain schedule never takes, over servers of any kind: step by step, as cases say, and what a case
//! expects of its servers and answers.
//!
//! To the layer above it promises no more than safety; tests show what it plays. It knows nothing of how a server keeps its
//! blocks.
#![tactic(auto)]

mod held;
mod player;
mod schedule;
mod wants;

pub use held::FirstHosts;
pub use schedule::{Case, play_case};
pub use world_probe::Run;
