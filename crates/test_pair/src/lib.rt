//! Tests of what a server's side of its pairs is made of: pending operations, chains, and reads. The crate itself has no code.
#![tactic(auto)]

#[cfg(test)]
mod chains;
#[cfg(test)]
mod locks;
#[cfg(test)]
mod reads;
#[cfg(test)]
mod stores;
