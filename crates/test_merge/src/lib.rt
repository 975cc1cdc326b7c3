//! Merged histories: lists of records that were written by hand, and runs over disks in memory, split by actor and merged again. The crate
//! itself has no code.
#![tactic(auto)]

#[cfg(test)]
mod joins;
#[cfg(test)]
mod letters;
#[cfg(test)]
mod made;
#[cfg(test)]
mod runs;
