//! What a pending operation does next.

ghost use Rattle.std.specs.Prelude.{◌≡◌, Err};
ghost use Rattle.spec_rules.specs.Writes as writes;
ghost use Rattle.petal_msg.specs.declared.operation.Action.TheVariants as action;
ghost use Rattle.pair_memory.specs.declared.error.WorkError.TheVariants as error;
ghost use Rattle.pair_memory.specs.PairMemory.{own_of, HasTicketsAt};
ghost use Rattle.pair_memory.specs.JobResult.{IsDone, IsReady, IsSaid, held};
ghost use Rattle.write_pair.specs.Moved.{IsMoved};

use crate::lead::origin::origin_by;
use crate::lead::stage::next_stage;
use crate::lead::stages::{answer, drop_operation, flags, put_own, wait};
use pair_memory::{JobContext, JobResult, PairMemory, WorkError, silent};
use petal_base::Cell;
use petal_disk::Disk;
use petal_msg::{Action, Body, Pending};
use server_store::Store;

/// The second server is asked for a slot.
fn reserve<D: Disk>(
    here: &JobContext,
    side: &mut PairMemory,
    store: &Store<D>,
    op: &Pending,
) -> Result<JobResult, WorkError>
    requires tickets { HasTicketsAt side.old store.now }
    requires moved { IsMoved side.old.pending op.now }
    ensures { IsSaid here.now side.old side.new store.now store.now result
        (writes.acts here.now (writes.with_pending (own_of side.old store.now) op.now) op.now action.Reserve) }
{
    let body = Body::Reserve {
        op: op.op,
        cell: op.cell,
    };
    wait(here, side, store, op, body)
}

/// The second server is sent its copy.
fn replicate<D: Disk>(
    here: &JobContext,
    side: &mut PairMemory,
    store: &Store<D>,
    op: &Pending,
) -> Result<JobResult, WorkError>
    requires tickets { HasTicketsAt side.old store.now }
    requires moved { IsMoved side.old.pending op.now }
    ensures { IsSaid here.now side.old side.new store.now store.now result
        (writes.acts here.now (writes.with_pending (own_of side.old store.now) op.now) op.now action.Replicate) }
{
    let body = Body::Replicate {
        op: op.op,
        key: op.key,
        version: op.version,
        origin: origin_by(here, op),
        bytes: op.bytes.share()?,
    };
    wait(here, side, store, op, body)
}

/// What the operation does next, as a letter has moved it on.
pub fn act<D: Disk>(
    here: &JobContext,
    side: &mut PairMemory,
    store: &mut Store<D>,
    op: &Pending,
) -> Result<JobResult, WorkError>
    requires ready { IsReady side.old store.old }
    requires moved { IsMoved side.old.pending op.now }
    ensures job { IsDone D.Disk here.now (held side.old store.old) (held side.new store.new) result
        (writes.acts here.now (writes.with_pending (own_of side.old store.old) op.now) op.now (writes.next_stage here.now.state here.now.me op.now)) }
    ensures same { result ≡ Err error.NoMemory → store.new ≡ store.old }
    ensures unspent { ¬ (result ≡ Err error.Exhausted) }
{
    match next_stage(here, op) {
        Action::Reserve => reserve(here, side, store, op),
        Action::Mark(kind) => flags(here, side, store, op, kind, true),
        Action::Put => put_own(here, side, store, op),
        Action::Replicate => replicate(here, side, store, op),
        Action::Unmark(kind) => flags(here, side, store, op, kind, false),
        Action::Answer => answer(here, side, store, op),
        Action::Drop => Ok(drop_operation(here, side, store, op)),
    }
}

/// The operation that is pending on the cell does its next stage, with at most one commit to the store.
///
/// # Errors
/// `NoMemory`, and then nothing changed; `Failed` where the device failed, and `NoRoom` only where marks and rows of the store
/// were as many as there may be: the entries are as they were, and the server is to be stopped.
pub fn go_on<D: Disk>(
    here: &JobContext,
    side: &mut PairMemory,
    store: &mut Store<D>,
    cell: Cell,
) -> Result<JobResult, WorkError>
    requires ready { IsReady side.old store.old }
    ensures job { IsDone D.Disk here.now (held side.old store.old) (held side.new store.new) result (writes.goes_on here.now (own_of side.old store.old) cell) }
    ensures same { result ≡ Err error.NoMemory → store.new ≡ store.old }
    ensures unspent { ¬ (result ≡ Err error.Exhausted) }
{
    match side.pending_on(cell)? {
        Some(op) => act(here, side, store, &op),
        None => silent(here, side, store),
    }
}
