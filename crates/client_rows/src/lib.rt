//! Which write of each client was put last: for each map, link and client the greatest number of a request that was put.
//!
//! To the layer above it promises the whole list of these rows, which each call shows. A row for which there is room takes no memory.
//! It knows nothing of the journal that keeps the rows.
#![tactic(auto)]

mod row;
mod rows;

pub use row::Row;
pub use rows::Rows;
