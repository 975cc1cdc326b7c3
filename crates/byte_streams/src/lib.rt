//! Bytes that come in and bytes that go out, one after the other: sources and sinks, in memory and over the standard streams.
//!
//! To the layer above it promises which bytes a call took or added when it succeeds and when it fails, and that no call
//! answers `Failed` unless a count of faults has risen. It knows nothing of disks, and of what the bytes stand for.
#![tactic(auto)]

mod memory_stream;
mod standard;
mod stream;

pub use memory_stream::{MemSink, MemSource};
pub use standard::{StdSink, StdSource, slices_and_vectors_tell};
pub use stream::{Sink, Source, read_full, write_all};
