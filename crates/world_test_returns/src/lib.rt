//! Whole-world tests with servers that start again, and with plans of devices that come and go: worlds of servers over disks in
//! memory, stepped in orders that the plain schedule never takes, and their histories fed to the plain machine. The crate itself
//! has no code.
#![tactic(auto)]

#[cfg(test)]
mod tests;
