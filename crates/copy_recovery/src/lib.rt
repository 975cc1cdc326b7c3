//! Copies: how the server that holds a link alone brings the other one up to date, which came back: it asks for the pages of its
//! marked blocks, it has a job for each link, and it sends again what is not answered.
//!
//! To the layer above it promises that each job is the rule's of `spec_rules`: what it leaves, the letters that it sends, and
//! the job that follows it up. It knows nothing of clients' operations, of queues, or of how letters travel.
#![tactic(auto)]

mod again;
mod link;
mod page;

pub use again::letters_after;
pub use copy_transfer::{
    CopiedEntry, copy_on, on_sync, on_sync_full, on_synced, on_trim, on_trimmed, trim_on,
};
pub use link::{repair, repair_jobs};
pub use page::{on_hello, on_hello_ask};
