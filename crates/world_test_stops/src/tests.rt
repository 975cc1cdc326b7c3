//! Rows by what stops servers, and what they do meanwhile.

mod effects;
mod moves;
mod orders;
mod snapshots;
mod takeovers;
