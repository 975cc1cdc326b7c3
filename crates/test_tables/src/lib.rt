//! Tests of the global state: its tables one by one, and runs of the log, with values worked by hand from the rules. The crate itself
//! has no code.
#![tactic(auto)]

#[cfg(test)]
mod disks;
#[cfg(test)]
mod fences;
#[cfg(test)]
mod links;
#[cfg(test)]
mod logs;
#[cfg(test)]
mod maps;
#[cfg(test)]
mod places;
