//! Tests of stores on a device in memory: a journal's bytes and what is read after a stop, the same of two halves, a server's store,
//! what is there after a stop at each call of a put, and a journal that turns. The crate itself has no code.
#![tactic(auto)]

#[cfg(test)]
mod halves;
#[cfg(test)]
mod journals;
#[cfg(test)]
mod puts;
#[cfg(test)]
mod stops;
#[cfg(test)]
mod turns;
