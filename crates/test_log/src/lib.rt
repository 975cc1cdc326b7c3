//! Tests of how servers agree: the log of chosen commands, ballots among three servers, and what outlives a boot. The
//! crate itself has no code.
#![tactic(auto)]

#[cfg(test)]
mod ballots;
#[cfg(test)]
mod chosen;
#[cfg(test)]
mod states;
