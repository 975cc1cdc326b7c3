//! Snapshots of whole disks, at one server: what it reports to the fence that is to make one.
//!
//! To the layer above it promises the number of the active fence exactly where the rules of `spec_rules` have a server report to
//! it. It knows nothing of how a report is chosen, and of what a fence does once it takes effect.
#![tactic(auto)]

mod report;

pub use report::drained;
