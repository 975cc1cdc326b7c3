//! Whole-program tests: tables of scripts with their answers, over a source, a sink and a shelf in memory. A case says what is expected
//! of the status, of what is written, and of the letters of the run.
#![tactic(auto)]

mod call;
#[cfg(test)]
mod cases;
mod letters;
