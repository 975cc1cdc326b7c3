//! The job that goes on with a link or a cell.

ghost use Rattle.std.specs.Prelude.{◌≡◌, []};

use pair_memory::{FollowUp, JobContext, JobResult};
use petal_base::Sequence;

/// No letter is sent, and this job follows the job up.
pub fn followed(here: &JobContext, follow: Option<FollowUp>) -> JobResult
    ensures { result ≡ record { letters = []; follow = follow } }
{
    JobResult {
        letters: Sequence::new(here.alloc()),
        follow,
    }
}
