//! Fields of records at fixed places: numbers with the highest byte first, yes or no, and lists with their length before them.
//!
//! To the layer above it promises how each field is spelled, and that a field that is spelled so is read again. It knows
//! nothing of the records.
#![tactic(auto)]

mod reading;
mod writing;

pub use reading::{flag_at, long_at, padded_at, word_at};
pub use writing::{put, put_byte, put_flag, put_gap, put_long, put_padded, put_word, put_zeros};
