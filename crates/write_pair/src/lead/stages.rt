//! The stages of an operation at its lead.

ghost use Rattle.std.specs.Prelude.{◌≡◌, [], true, false, Some, Ok, Err};
ghost use Rattle.spec_rules.specs.Server as rules;
ghost use Rattle.spec_rules.specs.State.{second};
ghost use Rattle.spec_rules.specs.Writes as writes;
ghost use Rattle.petal_msg.specs.declared.operation.Action.TheVariants as action;
ghost use Rattle.pair_memory.specs.declared.job_result.FollowUp.TheVariants as follow;
ghost use Rattle.pair_memory.specs.declared.error.WorkError.TheVariants as error;
ghost use Rattle.pair_memory.specs.PairMemory.{own_of, HasTicketsAt};
ghost use Rattle.pair_memory.specs.JobResult.{IsDone, IsReady, IsSaid, held};
ghost use Rattle.kept_chains.specs.Kept.{store_of};
ghost use Rattle.kept_chains.specs.Marking.{IsCommit};
ghost use Rattle.write_pair.specs.Flagged.{flags, with_mark_as};
ghost use Rattle.write_pair.specs.Moved.{IsMoved};

use crate::lead::end::end;
use crate::lead::origin::origin_by;
use busy_marks::MarkKind;
use kept_chains::{mark, next_version, unmark};
use pair_memory::{FollowUp, JobContext, JobResult, PairMemory, WorkError, give_back, only, spend};
use petal_base::{Cell, Sequence};
use petal_disk::Disk;
use petal_msg::{Body, Ending, Pending, Stage};
use server_store::{Store, StoreError};

/// A letter is sent to the second server, and its answer is waited for.
pub fn wait<D: Disk>(
    here: &JobContext,
    side: &mut PairMemory,
    store: &Store<D>,
    op: &Pending,
    body: Body,
) -> Result<JobResult, WorkError>
    requires tickets { HasTicketsAt side.old store.now }
    requires moved { IsMoved side.old.pending op.now }
    ensures { IsSaid here.now side.old side.new store.now store.now result
        (rules.says_to (writes.with_pending (own_of side.old store.now) op.now) (second here.now.state op.now.cell) body) }
{
    let letters = here.say_to(here.second(op.cell), body)?;
    side.locks.set_stage(op.cell, op.stage);
    Ok(only(letters))
}

/// What the operation was opened for is done.
pub fn answer<D: Disk>(
    here: &JobContext,
    side: &mut PairMemory,
    store: &Store<D>,
    op: &Pending,
) -> Result<JobResult, WorkError>
    requires tickets { HasTicketsAt side.old store.now }
    requires moved { IsMoved side.old.pending op.now }
    requires put { op.now.stage.put ≡ true }
    ensures { IsSaid here.now side.old side.new store.now store.now result
        (writes.acts here.now (writes.with_pending (own_of side.old store.now) op.now) op.now action.Answer) }
{
    let done = end(here, side, store, op, Ending::Written)?;
    side.locks.close(op.cell);
    Ok(done)
}

/// The operation ends without an answer; a slot that it has not used is free again.
pub fn drop_operation<D: Disk>(
    here: &JobContext,
    side: &mut PairMemory,
    store: &mut Store<D>,
    op: &Pending,
) -> JobResult
    requires tickets { HasTicketsAt side.old store.old }
    requires moved { IsMoved side.old.pending op.now }
    ensures { IsSaid here.now side.old side.new store.old store.new (Ok result)
        (writes.acts here.now (writes.with_pending (own_of side.old store.old) op.now) op.now action.Drop) }
{
    side.locks.close(op.cell);
    if op.stage.put {
        return only(Sequence::new(here.alloc()));
    }
    give_back(&mut side.own, store, op.cell);
    only(Sequence::new(here.alloc()))
}

/// No letter is sent, and the next stage is a job of its own.
fn follow_up(here: &JobContext, cell: Cell) -> JobResult
    ensures { result ≡ record { letters = []; follow = Some (follow.Stage cell) } }
{
    JobResult {
        letters: Sequence::new(here.alloc()),
        follow: Some(FollowUp::Stage(cell)),
    }
}

fn with_flag(stage: &Stage, kind: MarkKind, is: bool) -> Stage
    ensures { result ≡ writes.with_flag stage.now kind is }
{
    match kind {
        MarkKind::Busy => Stage { busy: is, ..*stage },
        MarkKind::Stale => Stage {
            stale: is,
            ..*stage
        },
    }
}

fn set_mark<D: Disk>(
    store: &mut Store<D>,
    kind: MarkKind,
    cell: Cell,
    is: bool,
) -> Result<(), StoreError>
    ensures { IsCommit D.Disk store.old store.new result (with_mark_as (store_of store.old) kind cell is) }
{
    if is {
        mark(store, kind, cell)
    } else {
        unmark(store, kind, cell)
    }
}

/// The block is marked, or its mark is taken away.
pub fn flags<D: Disk>(
    here: &JobContext,
    side: &mut PairMemory,
    store: &mut Store<D>,
    op: &Pending,
    kind: MarkKind,
    is: bool,
) -> Result<JobResult, WorkError>
    requires tickets { HasTicketsAt side.old store.old }
    requires moved { IsMoved side.old.pending op.now }
    ensures job { IsDone D.Disk here.now (held side.old store.old) (held side.new store.new) result
        (flags (writes.with_pending (own_of side.old store.old) op.now) op.now kind is) }
    ensures same { result ≡ Err error.NoMemory → store.new ≡ store.old }
    ensures unspent { ¬ (result ≡ Err error.Exhausted) }
{
    set_mark(store, kind, op.cell, is)?;
    side.locks
        .set_stage(op.cell, with_flag(&op.stage, kind, is));
    Ok(follow_up(here, op.cell))
}

fn put_stage(stage: &Stage) -> Stage
    ensures { result ≡ record stage.now { put = true } }
{
    Stage {
        put: true,
        ..*stage
    }
}

/// The lead puts its own copy, with the version after that of its chain. `NoRoom` where there may be no row more for its write.
pub fn put_own<D: Disk>(
    here: &JobContext,
    side: &mut PairMemory,
    store: &mut Store<D>,
    op: &Pending,
) -> Result<JobResult, WorkError>
    requires ready { IsReady side.old store.old }
    requires moved { IsMoved side.old.pending op.now }
    requires put { op.now.stage.put ≡ false }
    ensures job { IsDone D.Disk here.now (held side.old store.old) (held side.new store.new) result
        (writes.acts here.now (writes.with_pending (own_of side.old store.old) op.now) op.now action.Put) }
    ensures same { result ≡ Err error.NoMemory → store.new ≡ store.old }
    ensures unspent { ¬ (result ≡ Err error.Exhausted) }
{
    let origin = origin_by(here, op);
    if !store.has_room_for(op.key.map, &origin) {
        return Err(WorkError::NoRoom);
    }
    let version = next_version(store, op.cell);
    spend(
        &mut side.own,
        store,
        op.cell,
        op.key,
        version,
        &op.bytes,
        origin,
    )?;
    side.locks.set_put(op.cell, version, put_stage(&op.stage));
    Ok(follow_up(here, op.cell))
}
