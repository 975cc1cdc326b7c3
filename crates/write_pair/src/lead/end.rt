//! What an operation was opened for ends.

ghost use Rattle.std.specs.Prelude.{◌≡◌};
ghost use Rattle.spec_rules.specs.Writes as writes;
ghost use Rattle.pair_memory.specs.PairMemory.{own_of, HasTicketsAt};
ghost use Rattle.pair_memory.specs.JobResult.{IsSaid};

use pair_memory::{JobContext, JobResult, PairMemory, WorkError, finish, say_to, silent};
use petal_base::Key;
use petal_disk::Disk;
use petal_msg::{Body, Ending, OpKind, Pending};
use server_store::Store;

/// How a fill went.
fn moved_as(key: Key, ending: Ending) -> Body
    ensures { result ≡ writes.moved_as key ending }
{
    match ending {
        Ending::Written => Body::Filled { key },
        Ending::Full => Body::FillFull { key },
    }
}

/// A client's request is done with, and its client is told; of a fill the lead of the old map's link is told.
pub fn end<D: Disk>(
    here: &JobContext,
    side: &mut PairMemory,
    store: &Store<D>,
    op: &Pending,
    ending: Ending,
) -> Result<JobResult, WorkError>
    requires { HasTicketsAt side.old store.now }
    ensures { IsSaid here.now side.old side.new store.now store.now result
        (writes.ends here.now (own_of side.old store.now) op.now op.now.kind ending) }
{
    match op.kind {
        OpKind::Write => finish(here, side, store, op.client.get(), op.seq, ending),
        OpKind::Fill => say_to(
            here,
            side,
            store,
            here.state().old_lead(op.cell),
            moved_as(op.key, ending),
        ),
        OpKind::Copy => silent(here, side, store),
    }
}
