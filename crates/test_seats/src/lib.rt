//! Tests of servers' seats and of their workers, over servers with disks in memory. The crate itself has no code.
#![tactic(auto)]

#[cfg(test)]
mod desks;
#[cfg(test)]
mod letters;
#[cfg(test)]
mod steps;
#[cfg(test)]
mod threads;
