//! Tests of devices in memory and of what is kept on them: slots, entries, marks and the bytes of records.
//! The crate itself has no code.
#![tactic(auto)]

#[cfg(test)]
mod adapters;
#[cfg(test)]
mod entries;
#[cfg(test)]
mod marks;
#[cfg(test)]
mod outside;
#[cfg(test)]
mod records;
#[cfg(test)]
mod slots;
