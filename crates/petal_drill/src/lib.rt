//! A drill: the script that a number and a count of requests stand for, and the one line that tells what its answers came to.
//!
//! It promises that the script is the one that the drill's text spells, and that the line has the counts of the answers that
//! were added. It knows nothing of how a script is run.
#![tactic(auto)]

mod counts;
mod drill;
mod writer;

pub use counts::{Counts, summary_text};
pub use drill::drill_script;
