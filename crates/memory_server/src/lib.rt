//! A server with its two stores on disks in memory, as a world steps it, and the servers of a run that begins. Where a device failed
//! in a job or a boot, both are opened again, and tell how it ended.
//!
//! To the layer above it promises the rule of each step, with the end that the devices gave it, and that the servers of a run that
//! begins are those of its script. It knows nothing of how letters travel.
#![tactic(auto)]

mod attempt;
mod boot;
mod cast;
mod failing;
mod memory;
mod opening;
mod recovery;
mod server;
mod taken;
mod work;

pub use cast::members;
pub use memory::MemServer;
pub use server::DeskServer;
