//! The script language of Petal: what a run is told to do, and how its answers are printed. The words of a line are read first, then
//! the line as a whole; printing needs neither.
//!
//! To the layer above it promises that `read_script` gives exactly the script that a text spells, and else its first
//! refused line with the first thing that is wrong with it; and that an answer has one printed text. It knows nothing of
//! servers, letters or disks beyond their names. The types of scripts and answers are those of `script_lines`, shown again.
#![tactic(auto)]

mod cause;
mod client;
mod contents;
mod draft;
mod error;
pub mod fields;
pub mod number;
mod operator;
mod print;
mod reading;
mod tally;
pub mod text;
pub mod tuple;
mod words;

pub use cause::Cause;
pub use error::ScriptError;
pub use print::{write_answer, write_refusal};
pub use reading::{SCRIPT_BYTES, read_script};
pub use script_lines::{Answer, Line, Pattern, Request, Script};
