//! Whole-world tests at random: worlds of servers over disks in memory, their histories fed to the plain machine; plain ones, ones with
//! servers that stop, with devices that fail, and with all kinds of steps at once. The crate itself has no code.
#![tactic(auto)]

#[cfg(test)]
mod faults;
#[cfg(test)]
mod mixed;
#[cfg(test)]
mod stops;
#[cfg(test)]
mod worlds;
