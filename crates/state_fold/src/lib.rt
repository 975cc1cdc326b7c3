//! The tables of the global state together, and what an entry of the agreed log makes of them.
//!
//! To the layer above it promises that `next` gives the fold with one entry more. It knows nothing of how entries are
//! chosen, and nothing of what servers and clients ask of the state.
#![tactic(auto)]

mod command;
mod entry;
mod moving;
mod pass;
mod snapshot;
mod tables;

pub use command::{is_alone, may_catch, may_join, other_of};
pub use moving::{is_fenced, leaves, move_region};
pub use snapshot::snapshot_named;
pub use tables::Tables;
