//! Tables: what stands at each key. Pending operations, chains of entries and maps of blocks are tables.
//!
//! To the layer above it promises that a contract sees a table as the list of its rows by rising key, so that a rule that
//! speaks of tables and the code that keeps one say the same. It knows nothing of what stands in a table.
#![tactic(auto)]

mod table;

pub use table::Table;
