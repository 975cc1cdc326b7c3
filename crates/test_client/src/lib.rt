//! Tests of a client over one disk, and of the operator's settle. The crate itself has no code.
#![tactic(auto)]

#[cfg(test)]
mod clients;
#[cfg(test)]
mod settles;
