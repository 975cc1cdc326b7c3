//! The log of chosen commands as one server knows it: places learnt in any order, and the run of places from 1 that can be
//! applied.
//!
//! To the layer above it promises that `prefix` is the longest run of learnt places from 1 and that a learnt place stays. It
//! knows nothing of how a command came to be chosen, or of what it does.
#![tactic(auto)]

mod log;

pub use log::ChosenLog;
