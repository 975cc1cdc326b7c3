//! Tests of the words, commands and letters that every layer uses, and of the postroom. The crate itself has no code.
#![tactic(auto)]

#[cfg(test)]
mod commands;
#[cfg(test)]
mod letters;
#[cfg(test)]
mod posting;
#[cfg(test)]
mod words;
