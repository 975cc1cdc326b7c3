//! An operation that is opened.

ghost use Rattle.std.specs.Prelude.{◌≡◌, ◌+◌, ℕ, nat_lt, true, false, Some, None, Err, IsSome, IfOk, IfErr, OnErr, OnOk};
ghost use Rattle.petal_table.specs.Table.{at, put, without};
ghost use Rattle.spec_rules.specs.Store.{cell_cmp, free_of};
ghost use Rattle.server_store.specs.Tickets as lists;
ghost use Rattle.kept_chains.specs.Kept.{store_of};
ghost use Rattle.pair_memory.specs.declared.error.WorkError.TheVariants as error;
ghost use Rattle.pair_memory.specs.PairMemory.{own_of, HasTicketsAt};
ghost use Rattle.pair_memory.specs.JobResult.{IsDone, IsReady, held};
ghost use Rattle.pair_memory.specs.Slots.{IsOutAt};
ghost use Rattle.write_pair.specs.Opened.{IsOpenError, IsOpened, begun};

use crate::lead::actions::go_on;
use crate::lead::end::end;
use pair_lock::PairLock;
use pair_memory::{JobContext, JobResult, PairMemory, WorkError, give_back, keep, next_number};
use petal_base::{Cell, Op};
use petal_disk::Disk;
use petal_msg::{Ending, Pending};
use server_store::Store;

/// The operation is pending from now on, and the next one has a number more.
fn add_pending(next: &mut Op, locks: &mut PairLock, op: &Pending) -> Result<(), WorkError>
    requires { at cell_cmp locks.old op.now.cell ≡ None }
    ensures ok { OnOk result (locks.new ≡ put cell_cmp locks.old op.now.cell op.now) }
    ensures next { OnOk result (next.new ≡ next.old + 1) }
    ensures err { OnErr result ((locks.new ≡ locks.old) × (next.new ≡ next.old)) }
    ensures why { IfErr result (IsOpenError next.old true) }
{
    let later = next_number(*next)?;
    let Ok(pending) = op.clone() else {
        return Err(WorkError::NoMemory);
    };
    match locks.open(pending) {
        Ok(()) => {
            *next = later;
            Ok(())
        }
        Err(_) => Err(WorkError::NoMemory),
    }
}

/// The operation is opened, with a slot of its own; false where no slot is free.
fn begin<D: Disk>(
    side: &mut PairMemory,
    store: &mut Store<D>,
    op: &Pending,
) -> Result<bool, WorkError>
    requires tickets { HasTicketsAt side.old store.old }
    requires none { at cell_cmp side.old.pending op.now.cell ≡ None }
    ensures room { IfOk result (λ begun. begun ≡ nat_lt 0 (free_of (store_of store.old))) }
    ensures yes { IfOk result (λ begun. begun ≡ true → IsOpened op.now side.old side.new store.old store.new) }
    ensures no { IfOk result (λ begun. begun ≡ false → (side.new ≡ side.old) × (store.new ≡ store.old)) }
    ensures err { OnErr result ((side.new ≡ side.old) × (store.new ≡ store.old)) }
    ensures why { IfErr result (IsOpenError side.old.next (nat_lt 0 (free_of (store_of store.old)))) }
{
    if !keep(&mut side.own, store, op.cell)? {
        return Ok(false);
    }
    match add_pending(&mut side.next, &mut side.locks, op) {
        Ok(()) => Ok(true),
        Err(error) => {
            give_back(&mut side.own, store, op.cell);
            Err(error)
        }
    }
}

/// An operation that was just opened is not: its number is free again, and so is its slot.
fn take_back<D: Disk>(side: &mut PairMemory, store: &mut Store<D>, cell: Cell, number: Op)
    requires some { IsSome (at cell_cmp side.old.own cell) }
    requires out { IsOutAt side.old.own cell store.old.tickets }
    ensures side { side.new ≡ record side.old { next = number; pending = without cell_cmp side.old.pending cell; own = without cell_cmp side.old.own cell } }
    ensures store { (slot : ℕ) → at cell_cmp side.old.own cell ≡ Some slot → store.new ≡ record store.old { tickets = lists.without store.old.tickets slot } }
{
    side.next = number;
    side.locks.close(cell);
    give_back(&mut side.own, store, cell);
}

/// An operation gets a slot of its own, is opened and does its first stage; where no slot is free what it is for ends. Nothing of it
/// is done yet.
///
/// # Errors
/// As of [`go_on`], and `Exhausted` where no number is left for it: nothing changed.
pub fn open<D: Disk>(
    here: &JobContext,
    side: &mut PairMemory,
    store: &mut Store<D>,
    op: &Pending,
) -> Result<JobResult, WorkError>
    requires ready { IsReady side.old store.old }
    requires none { at cell_cmp side.old.pending op.now.cell ≡ None }
    requires new { op.now.stage.put ≡ false }
    ensures job { IsDone D.Disk here.now (held side.old store.old) (held side.new store.new) result
        (begun here.now (own_of side.old store.old) op.now (nat_lt 0 (free_of (store_of store.old)))) }
    ensures same { result ≡ Err error.NoMemory → store.new ≡ store.old }
{
    let number = side.next;
    if !begin(side, store, op)? {
        return end(here, side, store, op, Ending::Full);
    }
    match go_on(here, side, store, op.cell) {
        Err(WorkError::NoMemory) => {
            take_back(side, store, op.cell, number);
            Err(WorkError::NoMemory)
        }
        Err(WorkError::NoRoom) => {
            take_back(side, store, op.cell, number);
            Err(WorkError::NoRoom)
        }
        Err(WorkError::Failed) => Err(WorkError::Failed),
        Err(WorkError::Exhausted) => Err(WorkError::Exhausted),
        Ok(done) => Ok(done),
    }
}
