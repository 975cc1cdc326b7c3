//! Whole-world tests with devices that fail, call by call, in a boot, or after the boot of a blanked server, and of the plans by which
//! they do: worlds of servers over disks in memory, their histories fed to the plain machine. The crate itself has no code.
#![tactic(auto)]

#[cfg(test)]
mod arming;
#[cfg(test)]
mod boot_faults;
#[cfg(test)]
mod faults;
