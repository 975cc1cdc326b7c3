//! What the two servers of a link remember of copies, by which the one that holds it alone brings the other up to date.

use busy_marks::MarkKind;
use petal_base::{BlockNo, Cell, Epoch, MapId, Op, Sequence};

/// A link of a map, by its number.
#[derive(Clone, Copy, Debug, PartialEq, Eq)]
pub struct LinkId {
    pub map: MapId,
    pub link: u8,
}

/// How far the holder of a link is with the pages of the other server's marks, and with copies.
#[derive(Clone, Copy, Debug, PartialEq, Eq)]
pub struct Progress {
    /// The last block that a page answered.
    pub after: Option<BlockNo>,
    /// A page answered that no marked block is left.
    pub paged: bool,
    /// The greatest block that was copied.
    pub copied: Option<BlockNo>,
    /// A ballot was started for the link's `Caught`: from then on its writes are held.
    pub caught: bool,
}

/// A copy of a cell that the link's holder works on.
#[derive(Clone, Copy, Debug, PartialEq, Eq)]
pub struct Copying {
    pub op: Op,
    /// The other server has dropped the entries that the holder has not.
    pub trimmed: bool,
    /// How many of the holder's entries the other server has put.
    pub index: u32,
}

/// The last copy of a cell that the other server took part in.
#[derive(PartialEq, Eq, Drop)]
pub struct LastCopy {
    pub op: Op,
    /// The epochs of the holder's entries.
    pub epochs: Sequence<Epoch>,
    /// How many of these entries are put.
    pub index: u64,
}

/// What a copy does next.
#[derive(Clone, Copy, Debug, PartialEq, Eq)]
pub enum CopyAction {
    /// Have the other server drop its other entries, and wait.
    Trim,
    /// Send the other server the next entry, and wait.
    Sync,
    /// Take the block's mark away.
    Unmark(MarkKind),
    /// The two copies are equal, and the block is not marked.
    Close,
}

/// What is next of a link that is held alone, while its other server is In.
#[derive(Clone, Copy, Debug, PartialEq, Eq)]
pub enum NextCopy {
    /// Ask for the next page of the other server's marks.
    Ask,
    /// Copy this cell.
    Block(Cell),
    /// Wait for what is pending.
    Wait,
    /// Nothing is left to copy.
    Nothing,
}
