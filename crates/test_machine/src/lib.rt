//! Tests of tables and of the plain machine over them. The crate itself has no code.
#![tactic(auto)]

#[cfg(test)]
mod machine;
#[cfg(test)]
mod tables;
