//! Marks on cells: that a pair operation is under way, or that the other copy has missed one.
//!
//! To the layer above it promises a set of (kind, cell) pairs, which each call shows whole. It knows nothing of why a cell is
//! marked, and nothing of the journal that keeps the marks.
#![tactic(auto)]

mod marks;

pub use marks::{Mark, MarkKind, Marks};
