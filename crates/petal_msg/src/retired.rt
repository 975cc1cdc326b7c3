//! What a server keeps of cells that are no longer live.

use busy_marks::MarkKind;
use petal_base::{Cell, Key};

/// The next thing to be swept.
#[derive(Clone, Copy, Debug, PartialEq, Eq)]
pub enum Retired {
    /// An entry.
    Key(Key),
    /// A mark.
    Mark(MarkKind, Cell),
}
