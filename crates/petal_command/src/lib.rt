//! What servers agree on: commands, each with one spelling of 64 bytes; the ballots in which they are proposed; and the
//! bodies of the letters that carry them.
//!
//! To the layer above it promises that every command has exactly one spelling and that no bytes spell two. It knows nothing
//! of what a command does, of devices or of servers.
#![tactic(auto)]

mod ballot;
mod command;
mod number;
mod pax;
mod reading;
mod same;
mod writing;

pub use ballot::Ballot;
pub use command::{COMMAND_BYTES, Command};
pub use number::{Below, ClientNumber, LinkNumber, RegionNumber, ServerNumber};
pub use pax::Pax;
pub use reading::decode;
pub use same::tests_tell_equality;
pub use writing::encode;
