//! The top call: all that the program does, over a source of bytes, a sink and a shelf of disks that it is given.
//!
//! It promises its caller, status by status, when the status comes and which bytes were then written; where the run
//! ended, the bytes are the text of the history that it hands back, or what a drill's answers came to, and that history is
//! one of real steps of the script's servers and clients. It knows nothing of files, terminals or processes.
#![tactic(auto)]

mod buffer;
mod drill;
mod laws;
mod outcome;
mod reading;
mod script;
mod text;

pub use laws::{lines_are_few, lines_rise, nothing_is_a_part, phases_rise};
pub use outcome::{GAVE_UP, Outcome, petal};
pub use plain_schedule::GaveUp;
