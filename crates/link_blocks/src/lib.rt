//! The blocks of a link at a server: who the link's other server is, which blocks are marked or have an entry, which one is to be
//! copied next, the job that goes on with them, and the links of which none is left.
//!
//! To the layer above it promises that each answer is the rule's of `spec_rules`. It changes nothing, sends nothing, and knows
//! nothing of how a copy goes.
#![tactic(auto)]

mod caught;
mod follow;
mod next;
mod roles;
mod walk;

pub use caught::caught_links;
pub use follow::followed;
pub use next::next_copy;
pub use roles::{holder_on, other_in, other_on};
pub use walk::{UNMARKS_LIMIT, cell_at, idle_marks, marked_above, next_idle};
