//! Copies between the two servers of a link. The holder, which has the link alone, begins each copy, moves it on with the other
//! server's answers, and closes it. The server that came back drops the entries that the holder has not, and puts the holder's.
//!
//! To the layer above it promises that each job is the rule's of `spec_rules`: what it leaves, the letters that it sends, and
//! the job that follows it up. It knows nothing of which block is next, of queues, or of how letters travel.
#![tactic(auto)]

mod begin;
mod copy;
mod follow;
mod holder;
mod sync;

pub use begin::begin_copy;
pub use copy::{copy_stage, sync_body, trim_body};
pub use follow::{on_trim, trim_on};
pub use holder::{copy_on, on_sync_full, on_synced, on_trimmed};
pub use link_blocks::{
    UNMARKS_LIMIT, cell_at, followed, idle_marks, next_copy, next_idle, other_in, other_on,
};
pub use sync::{CopiedEntry, on_sync};
