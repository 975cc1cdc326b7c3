//! What a job leaves to its caller.

ghost use Rattle.std.specs.Prelude.{◌≡◌};
ghost use Rattle.pair_memory.specs.JobResult.{only};

use petal_base::{Cell, Sequence};
use petal_msg::{Letter, LinkId};

/// The job that follows a job up.
#[derive(Clone, Copy, Debug, PartialEq, Eq)]
pub enum FollowUp {
    /// What is under way on the cell does its next stage.
    Stage(Cell),
    /// The link is mended further.
    Repair(LinkId),
    /// The next entry or mark of a cell that is no longer live is dropped.
    Sweep,
}

/// What a job leaves to its caller, beside what it changed.
#[derive(Drop)]
pub struct JobResult {
    /// The letters that it sends, with the stamp 0.
    pub letters: Sequence<Letter>,
    /// The job that follows it up.
    pub follow: Option<FollowUp>,
}

/// Letters and nothing else.
pub fn only(letters: Sequence<Letter>) -> JobResult
    ensures { result ≡ only letters }
{
    JobResult {
        letters,
        follow: None,
    }
}
