//! The language of a case's steps: the words for actors, numbers, devices and letters, what a step asks for by its words, and letters
//! that nobody sent, as cases hand them over in the place of one that was.
//!
//! To the layer above it promises no more than safety; tests show what it reads. It knows nothing of runs.
#![tactic(auto)]

mod act;
mod letters;
mod words;

pub use act::{Act, Holding, Want, act_of};
pub use letters::{changed, owners_of, renamed};
pub use words::Mail;
