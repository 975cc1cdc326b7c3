//! A disk whose contracts show its moments: what a crash since an earlier one might have left.
//!
//! The memory disk says only what is there now, so of it the clauses on moments say no more than those on this moment. This one
//! remembers, for contracts alone, what it was at each earlier moment, and meets the trait. So those clauses are about something:
//! an append to a journal on it has moments at which a crash would have left the list without the new body, and these are past.
#![tactic(auto)]

mod journal_use;
mod remembering;

pub use journal_use::{append_body, with_a_past};
pub use remembering::Remembering;
