//! Faults of devices and streams: why a call fails, how often one has failed, and which call a plan makes fail.
//!
//! To the layer above it promises nothing but plain values, and a count that only rises. It knows nothing of what a device or
//! a stream does.
#![tactic(auto)]

mod count;
mod failure;
mod plan;
mod which;

pub use count::Count;
pub use failure::{DeviceError, Failed};
pub use plan::{CallKind, Plan};
pub use which::Which;
