//! A server's store as the rules see it: the chains of cells.
//!
//! To the layer above it promises that what a store tells of its entries is what the rules read in the chains, and that its
//! own calls do to the chains what the rules say. It knows nothing of letters, operations or the agreed log.
#![tactic(auto)]

mod laws;
mod store;
mod walk;

pub use laws::{a_put_is_an_entry_more, a_read_finds_the_chains_entry, versions_and_counts_agree};
pub use server_store::{Store, StoreError, Ticket};
pub use store::{drop_entry, mark, next_version, read_at, set_apart, settle, unmark, unmark_all};
pub use walk::{
    Found, epochs, has_below, has_entry, has_stored, mark_left, next_marked, next_stored, nth,
    read_key, read_nth,
};
