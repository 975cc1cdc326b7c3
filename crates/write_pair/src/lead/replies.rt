//! What the lead does with the letters of its second server.

ghost use Rattle.std.specs.Prelude.{◌≡◌, false, Some, Err};
ghost use Rattle.petal_table.specs.Table.{at};
ghost use Rattle.spec_rules.specs.Store.{cell_cmp};
ghost use Rattle.spec_rules.specs.Writes as writes;
ghost use Rattle.petal_msg.specs.declared.operation.Ending.TheVariants as ending;
ghost use Rattle.pair_memory.specs.declared.error.WorkError.TheVariants as error;
ghost use Rattle.pair_memory.specs.PairMemory.{own_of, HasTicketsAt};
ghost use Rattle.pair_memory.specs.JobResult.{IsDone, IsReady, IsSaid, held};

use crate::lead::actions::act;
use crate::lead::end::end;
use pair_memory::{JobContext, JobResult, PairMemory, WorkError, give_back, silent};
use petal_base::{Cell, Op};
use petal_disk::Disk;
use petal_msg::{Ending, Pending};
use server_store::Store;

fn with_reserved(mut op: Pending) -> Pending
    ensures { result ≡ writes.with_reserved op }
{
    op.stage.reserved = true;
    op
}

fn with_paired(mut op: Pending) -> Pending
    ensures { result ≡ writes.with_paired op }
{
    op.stage.paired = true;
    op
}

/// The second server has set its slot apart: the block is marked next.
///
/// # Errors
/// As of [`go_on`](crate::lead::actions::go_on).
#[tactic(auto, unfolding(spec_rules::specs::Writes::on_reserved))]
pub fn on_reserved<D: Disk>(
    here: &JobContext,
    side: &mut PairMemory,
    store: &mut Store<D>,
    op: Op,
    cell: Cell,
) -> Result<JobResult, WorkError>
    requires ready { IsReady side.old store.old }
    ensures job { IsDone D.Disk here.now (held side.old store.old) (held side.new store.new) result
        (writes.on_reserved here.now (own_of side.old store.old) op cell) }
    ensures same { result ≡ Err error.NoMemory → store.new ≡ store.old }
{
    match side.pending_on(cell)? {
        Some(pending) if pending.op == op && !pending.stage.reserved => {
            act(here, side, store, &with_reserved(pending))
        }
        _ => silent(here, side, store),
    }
}

/// The second server has no slot: the operation gives its own back and ends.
fn end_full<D: Disk>(
    here: &JobContext,
    side: &mut PairMemory,
    store: &mut Store<D>,
    op: &Pending,
) -> Result<JobResult, WorkError>
    requires tickets { HasTicketsAt side.old store.old }
    requires there { at cell_cmp side.old.pending op.now.cell ≡ Some op.now }
    requires unused { op.now.stage.put ≡ false }
    ensures { IsSaid here.now side.old side.new store.old store.new result
        (writes.ends here.now (writes.gives_back (writes.without_pending (own_of side.old store.old) op.now.cell)) op.now op.now.kind ending.Full) }
{
    let done = end(here, side, store, op, Ending::Full)?;
    side.locks.close(op.cell);
    give_back(&mut side.own, store, op.cell);
    Ok(done)
}

/// Only an operation that still waits for its reservation is refused; one whose copy is put goes on.
///
/// # Errors
/// Out of memory, which changed nothing.
#[tactic(auto, unfolding(spec_rules::specs::Writes::on_pair_full))]
pub fn on_pair_full<D: Disk>(
    here: &JobContext,
    side: &mut PairMemory,
    store: &mut Store<D>,
    op: Op,
    cell: Cell,
) -> Result<JobResult, WorkError>
    requires tickets { HasTicketsAt side.old store.old }
    ensures { IsSaid here.now side.old side.new store.old store.new result (writes.on_pair_full here.now (own_of side.old store.old) op cell) }
{
    match side.pending_on(cell)? {
        Some(pending) if pending.op == op && !pending.stage.reserved && !pending.stage.put => {
            end_full(here, side, store, &pending)
        }
        _ => silent(here, side, store),
    }
}

/// The second server has put its copy: what the operation was opened for ends.
///
/// # Errors
/// As of [`go_on`](crate::lead::actions::go_on).
#[tactic(auto, unfolding(spec_rules::specs::Writes::on_replicated))]
pub fn on_replicated<D: Disk>(
    here: &JobContext,
    side: &mut PairMemory,
    store: &mut Store<D>,
    op: Op,
    cell: Cell,
) -> Result<JobResult, WorkError>
    requires ready { IsReady side.old store.old }
    ensures job { IsDone D.Disk here.now (held side.old store.old) (held side.new store.new) result
        (writes.on_replicated here.now (own_of side.old store.old) op cell) }
    ensures same { result ≡ Err error.NoMemory → store.new ≡ store.old }
{
    match side.pending_on(cell)? {
        Some(pending) if pending.op == op && pending.stage.put && !pending.stage.paired => {
            act(here, side, store, &with_paired(pending))
        }
        _ => silent(here, side, store),
    }
}
