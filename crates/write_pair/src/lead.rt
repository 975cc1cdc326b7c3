//! Writes and fills at their lead: how an operation is opened, the stages that it goes through, what the second server's letters do to
//! it, and what ends it.

mod actions;
mod end;
mod fill;
mod open;
mod origin;
mod replies;
mod resend;
mod stage;
mod stages;
mod write;

pub use actions::go_on;
pub use fill::{Moving, on_fill};
pub use replies::{on_pair_full, on_replicated, on_reserved};
pub use resend::letters_after;
pub use stage::next_stage;
pub use write::{Wanted, on_write};
