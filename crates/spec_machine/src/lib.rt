//! The plain machine: what Petal's disks do, told without servers. Each disk is one map from block numbers to blocks, a
//! snapshot is a whole copy of it, and a write takes effect between its call and its answer.
//!
//! To the layer above it promises when each event is allowed and what it does; and `Machine`, a plain slow program, does
//! exactly that. It knows nothing of copies, epochs, logs or letters.
#![tactic(auto)]

mod event;
mod machine;
mod state;

pub use event::{Event, Write, WriteEnd};
pub use machine::{EventError, Machine};
pub use state::{Open, PlainDisk, PlainSnapshot};
