//! The second server of a pair.

ghost use Rattle.std.specs.Prelude.{◌≡◌, nat_lt, true, false, Some, Err, IfOk, OnOk, OnErr};
ghost use Rattle.petal_base.specs.Cells.{cell_of};
ghost use Rattle.petal_table.specs.Table.{at, put};
ghost use Rattle.spec_rules.specs.Server.{letters_of, post_to, sender};
ghost use Rattle.spec_rules.specs.State as rules;
ghost use Rattle.spec_rules.specs.Store.{cell_cmp, free_of};
ghost use Rattle.spec_rules.specs.Writes as writes;
ghost use Rattle.petal_msg.specs.declared.body.Body.TheVariants as body;
ghost use Rattle.petal_msg.specs.declared.operation.FollowProgress.TheVariants as follow_progress;
ghost use Rattle.kept_chains.specs.Kept.{store_of};
ghost use Rattle.pair_memory.specs.declared.error.WorkError.TheVariants as error;
ghost use Rattle.pair_memory.specs.PairMemory.{needs_apart, own_of, HasTicketsAt};
ghost use Rattle.pair_memory.specs.JobResult.{IsDone, IsReady, IsSaid, held};

use kept_chains::next_version;
use pair_memory::{
    JobContext, JobResult, PairMemory, WorkError, give_back, keep, only, say_to, silent, spend,
};
use petal_base::{Cell, Key, NoMemory, Op, Origin, Sequence, SharedBlock};
use petal_disk::Disk;
use petal_msg::{Body, FollowProgress, LastOp, Letter};
use petal_table::Table;
use server_store::Store;

/// The second server tells the lead how far it is.
fn tell<D: Disk>(
    here: &JobContext,
    side: &PairMemory,
    store: &Store<D>,
    cell: Cell,
    op: Op,
    progress: FollowProgress,
) -> Result<JobResult, WorkError>
    requires { HasTicketsAt side.now store.now }
    ensures { IsSaid here.now side.now side.now store.now store.now result
        (writes.tells here.now (own_of side.now store.now) cell op progress) }
{
    match progress {
        FollowProgress::Reserved => {
            let body = Body::Reserved { op, cell };
            say_to(here, side, store, here.first(cell), body)
        }
        FollowProgress::Replicated => {
            let body = Body::Replicated { op, cell };
            say_to(here, side, store, here.first(cell), body)
        }
    }
}

/// The slot that is set apart for the cell serves an operation that is new here.
fn reserve_again<D: Disk>(
    here: &JobContext,
    side: &mut PairMemory,
    store: &Store<D>,
    cell: Cell,
    op: Op,
) -> Result<JobResult, WorkError>
    requires tickets { HasTicketsAt side.old store.now }
    requires has { needs_apart (at cell_cmp side.old.last cell) ≡ true }
    ensures { IsSaid here.now side.old side.new store.now store.now result
        (writes.reserves here.now (own_of side.old store.now) cell op true (nat_lt 0 (free_of (store_of store.now)))) }
{
    let done = tell(here, side, store, cell, op, FollowProgress::Reserved)?;
    let last = LastOp {
        op,
        progress: FollowProgress::Reserved,
    };
    side.last.replace(cell, last);
    Ok(done)
}

/// The lead is told that its slot is set apart, which is remembered.
fn promise(
    here: &JobContext,
    last: &mut Table<Cell, LastOp>,
    cell: Cell,
    op: Op,
) -> Result<Sequence<Letter>, NoMemory>
    ensures letters { IfOk result (λ letters. letters
        ≡ letters_of (sender here.now) 0 (post_to (rules.first here.now.state cell) (body.Reserved op cell))) }
    ensures ok { OnOk result (last.new ≡ put cell_cmp last.old cell (record { op = op; progress = follow_progress.Reserved })) }
    ensures err { OnErr result (last.new ≡ last.old) }
{
    let letters = here.say_to(here.first(cell), Body::Reserved { op, cell })?;
    let reserved = LastOp {
        op,
        progress: FollowProgress::Reserved,
    };
    match last.put(cell, reserved) {
        Ok(()) => Ok(letters),
        Err(NoMemory) => Err(NoMemory),
    }
}

/// An operation that is new here gets a free slot.
fn reserve_free_slot<D: Disk>(
    here: &JobContext,
    side: &mut PairMemory,
    store: &mut Store<D>,
    cell: Cell,
    op: Op,
) -> Result<JobResult, WorkError>
    requires tickets { HasTicketsAt side.old store.old }
    requires has { needs_apart (at cell_cmp side.old.last cell) ≡ false }
    ensures { IsSaid here.now side.old side.new store.old store.new result
        (writes.reserves here.now (own_of side.old store.old) cell op false (nat_lt 0 (free_of (store_of store.old)))) }
{
    if !keep(&mut side.apart, store, cell)? {
        let body = Body::PairFull { op, cell };
        return say_to(here, side, store, here.first(cell), body);
    }
    match promise(here, &mut side.last, cell, op) {
        Ok(letters) => Ok(only(letters)),
        Err(NoMemory) => {
            give_back(&mut side.apart, store, cell);
            Err(WorkError::NoMemory)
        }
    }
}

fn has_slot(progress: FollowProgress) -> bool
    ensures { result ≡ writes.has_slot progress }
{
    match progress {
        FollowProgress::Reserved => true,
        FollowProgress::Replicated => false,
    }
}

/// An operation that is new here gets the slot that is set apart for the cell, or a free one.
fn reserve<D: Disk>(
    here: &JobContext,
    side: &mut PairMemory,
    store: &mut Store<D>,
    cell: Cell,
    op: Op,
    has: bool,
) -> Result<JobResult, WorkError>
    requires tickets { HasTicketsAt side.old store.old }
    requires has { needs_apart (at cell_cmp side.old.last cell) ≡ has }
    ensures { IsSaid here.now side.old side.new store.old store.new result
        (writes.reserves here.now (own_of side.old store.old) cell op has (nat_lt 0 (free_of (store_of store.old)))) }
{
    if has {
        reserve_again(here, side, store, cell, op)
    } else {
        reserve_free_slot(here, side, store, cell, op)
    }
}

/// The same, where an operation on the cell is known.
fn reserve_after<D: Disk>(
    here: &JobContext,
    side: &mut PairMemory,
    store: &mut Store<D>,
    cell: Cell,
    op: Op,
    last: LastOp,
) -> Result<JobResult, WorkError>
    requires tickets { HasTicketsAt side.old store.old }
    requires last { at cell_cmp side.old.last cell ≡ Some last }
    ensures { IsSaid here.now side.old side.new store.old store.new result
        (writes.hears_reserve here.now (own_of side.old store.old) cell op (Some last)) }
{
    if op < last.op {
        return silent(here, side, store);
    }
    if op == last.op {
        return tell(here, side, store, cell, op, last.progress);
    }
    reserve(here, side, store, cell, op, has_slot(last.progress))
}

/// An older number is dropped, an equal one is answered again, a newer one gets a slot.
///
/// # Errors
/// Out of memory, which changed nothing.
#[tactic(auto, unfolding(spec_rules::specs::Writes::on_reserve))]
pub fn on_reserve<D: Disk>(
    here: &JobContext,
    side: &mut PairMemory,
    store: &mut Store<D>,
    op: Op,
    cell: Cell,
) -> Result<JobResult, WorkError>
    requires tickets { HasTicketsAt side.old store.old }
    ensures { IsSaid here.now side.old side.new store.old store.new result
        (writes.on_reserve here.now (own_of side.old store.old) op cell) }
{
    if !here.is_second(cell) {
        return silent(here, side, store);
    }
    match side.last_on(cell) {
        None => reserve(here, side, store, cell, op, false),
        Some(last) => reserve_after(here, side, store, cell, op, last),
    }
}

/// The second server puts its copy in the slot that was set apart, with the version after that of its own chain, for the write that the
/// lead named. `NoRoom` where there may be no row more for it.
fn follow<D: Disk>(
    here: &JobContext,
    side: &mut PairMemory,
    store: &mut Store<D>,
    op: Op,
    key: Key,
    origin: Option<Origin>,
    bytes: &SharedBlock,
) -> Result<JobResult, WorkError>
    requires ready { IsReady side.old store.old }
    requires has { needs_apart (at cell_cmp side.old.last (cell_of key)) ≡ true }
    ensures job { IsDone D.Disk here.now (held side.old store.old) (held side.new store.new) result
        (writes.follows here.now (own_of side.old store.old) op key origin bytes.now) }
    ensures same { result ≡ Err error.NoMemory → store.new ≡ store.old }
{
    if !store.has_room_for(key.map, &origin) {
        return Err(WorkError::NoRoom);
    }
    let cell = key.cell();
    let body = Body::Replicated { op, cell };
    let letters = here.say_to(here.first(cell), body)?;
    let version = next_version(store, cell);
    spend(&mut side.apart, store, cell, key, version, bytes, origin)?;
    let last = LastOp {
        op,
        progress: FollowProgress::Replicated,
    };
    side.last.replace(cell, last);
    Ok(only(letters))
}

/// A copy is put once, and only for the number whose slot was set apart; an equal number is answered again.
///
/// # Errors
/// `NoMemory`, and then nothing changed; `Failed` where the device failed, and `NoRoom` only where marks and rows of the store
/// were as many as there may be: the entries are as they were, and the server is to be stopped.
#[tactic(auto, unfolding(spec_rules::specs::Writes::on_replicate))]
pub fn on_replicate<D: Disk>(
    here: &JobContext,
    side: &mut PairMemory,
    store: &mut Store<D>,
    op: Op,
    key: Key,
    origin: Option<Origin>,
    bytes: &SharedBlock,
) -> Result<JobResult, WorkError>
    requires ready { IsReady side.old store.old }
    ensures job { IsDone D.Disk here.now (held side.old store.old) (held side.new store.new) result
        (writes.on_replicate here.now (own_of side.old store.old) op key origin bytes.now) }
    ensures same { result ≡ Err error.NoMemory → store.new ≡ store.old }
{
    let cell = key.cell();
    if !here.is_second(cell) {
        return silent(here, side, store);
    }
    match side.last_on(cell) {
        Some(last) if op == last.op => match last.progress {
            FollowProgress::Reserved => follow(here, side, store, op, key, origin, bytes),
            FollowProgress::Replicated => tell(here, side, store, cell, op, last.progress),
        },
        _ => silent(here, side, store),
    }
}
