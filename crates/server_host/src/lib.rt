//! What a world keeps beside its clients: the servers at their desks, the letters ever sent, and the lines without an answer.
//!
//! To the layer above it promises that each of these is the table that the rules speak of, and that a letter sent is the
//! letter with its stamp. It stands apart from `petal_world` since it waits for no client.
#![tactic(auto)]

pub mod copies;
pub mod desks;
mod error;
mod host;
pub mod name;
mod order;
pub mod sent;
pub mod stamping;
mod step_end;
pub mod waiting;

pub use error::HostError;
pub use host::{Host, HostResult};
pub use order::are_in_order;
pub use step_end::StepEnd;
