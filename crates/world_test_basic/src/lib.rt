//! Whole-world tests: worlds of servers over disks in memory, stepped in orders that the plain schedule never takes, and
//! their histories fed to the plain machine. The crate itself has no code.
#![tactic(auto)]

#[cfg(test)]
mod cases;
#[cfg(test)]
mod moves;
#[cfg(test)]
mod snapshots;
