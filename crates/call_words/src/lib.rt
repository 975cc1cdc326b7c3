//! The words that the program is called with: which of its forms they are.
//!
//! It promises that the form is that of the words, and it knows nothing of what a form does.
#![tactic(auto)]

mod form;
mod parse;

pub use form::Form;
pub use parse::read_words;
