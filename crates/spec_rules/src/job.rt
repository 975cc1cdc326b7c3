//! What waits in a server's queue.

use petal_base::Cell;
use petal_msg::{LinkId, SharedLetter};

/// One thing that a server does, with at most one commit to its devices.
#[derive(Drop)]
pub enum Job {
    /// A letter that was delivered.
    Letter(SharedLetter),
    /// The next stage of the operation, or of the copy, that is under way on a cell.
    Stage(Cell),
    /// The next page or copy of a link that is held alone, or the next mark to take away on one in `Both`.
    Repair(LinkId),
    /// One entry or mark of a cell that is no longer live is dropped.
    Sweep,
    /// The next entry of the log, which is known to be chosen, is applied.
    Apply,
    /// A ballot is started for the first command that is wanted.
    Start,
}
