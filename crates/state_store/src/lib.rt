//! What one server must not forget: its incarnation, and for each place of the log the ballots that it promised, what it
//! accepted, and what it knows to be chosen, on a device of its own. Each commit is one record of the device's journal.
//!
//! To the layer above it promises that each commit stands on the device whole or not at all at any crash, and that what is
//! told of a place is what the records of the device give. Every record has exactly one spelling. The crate knows nothing of when to
//! promise or accept.
#![tactic(auto)]

mod device;
mod error;
mod places;
mod record;
mod register;
mod row;
mod same;
mod store;

pub use device::DEVICE_BYTES;
pub use error::StateError;
pub use store::StateStore;
