//! Numbers by chance, scripts by them, runs of worlds by chance over servers of any kind, and what is counted of them.
//!
//! To the layer above it promises no more than safety; tests show what it plays. It knows nothing of how a server keeps its
//! blocks.
#![tactic(auto)]

mod count;
mod cuts;
mod random;
mod scripts;
mod simulation;
mod struck;

pub use count::Count;
pub use random::Random;
pub use scripts::{Tale, script_by};
pub use simulation::{Habit, simulate, simulate_struck};
