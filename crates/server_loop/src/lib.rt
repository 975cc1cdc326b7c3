//! A server's seat behind a lock, with the records of its steps, and its workers: one takes its mail, one does its jobs, and a ticker goes
//! round all servers.
//!
//! To the layers above it promises of each seat that its records are the server's own steps from the start, each with a stamp later than
//! the one before and than the letter that it receives, and that each failure of its devices uses up a plan. A step is recorded before
//! its letters are given out. It knows nothing of clients, and of when a letter comes; what joins the actors' records is for the layers
//! above. It sees a server only through `Host`.
#![tactic(auto)]

pub mod desk;
pub mod gate;
pub mod run;
mod run_state;
pub mod seat;
pub mod workers;

pub use desk::ServerDesk;
pub use gate::{Gate, OpenGate, StepKind};
pub use run::Run;
pub use run_state::RunState;
pub use seat::Seat;
pub use workers::{serve, serve_and_work, tick_servers, work_off};
