//! An entry that moves, at the lead of the new map's cell.

ghost use Rattle.std.specs.Prelude.{◌≡◌, Err, IfOk, None, false, nat_lt};
ghost use Rattle.petal_base.specs.Cells.{cell_of};
ghost use Rattle.petal_table.specs.Table.{at};
ghost use Rattle.spec_rules.specs.Fills as fills;
ghost use Rattle.spec_rules.specs.Store.{cell_cmp, chain_in, free_of};
ghost use Rattle.pair_memory.specs.Copies.{has_proposed_in};
ghost use Rattle.kept_chains.specs.Kept.{store_of};
ghost use Rattle.pair_memory.specs.declared.error.WorkError.TheVariants as error;
ghost use Rattle.pair_memory.specs.PairMemory.{own_of};
ghost use Rattle.pair_memory.specs.JobResult.{IsDone, IsReady, held};
ghost use Rattle.write_pair.specs.Wanted.{moving};

use crate::lead::open::open;
use crate::lead::stage::first_stage;
use kept_chains::has_entry;
use pair_lock::{OpKind, Pending};
use pair_memory::{JobContext, JobResult, PairMemory, WorkError, say_to, silent};
use petal_base::{Key, NoMemory, Op, SharedBlock};
use petal_disk::Disk;
use petal_msg::{Body, WriterNumber};
use server_store::Store;

/// An entry that moves, as its letter has it.
#[derive(Drop)]
pub struct Moving<'a> {
    pub key: Key,
    pub bytes: &'a SharedBlock,
}

/// The operation that a fill opens.
fn fill_operation(here: &JobContext, op: Op, entry: &Moving) -> Result<Pending, NoMemory>
    ensures { IfOk result (λ pending. pending ≡ fills.fill_operation here.now op (moving entry.now)) }
{
    Ok(Pending {
        op,
        kind: OpKind::Fill,
        cell: entry.key.cell(),
        key: entry.key,
        version: 0,
        stage: first_stage(),
        client: WriterNumber::new(0),
        seq: 0,
        rev: here.rev(),
        bytes: entry.bytes.share()?,
    })
}

/// An entry of a cell on which nothing is under way is put as a write is.
fn open_fill<D: Disk>(
    here: &JobContext,
    side: &mut PairMemory,
    store: &mut Store<D>,
    entry: &Moving,
) -> Result<JobResult, WorkError>
    requires ready { IsReady side.old store.old }
    requires none { at cell_cmp side.old.pending (cell_of entry.now.key) ≡ None }
    ensures job { IsDone D.Disk here.now (held side.old store.old) (held side.new store.new) result
        (fills.opens_fill here.now (own_of side.old store.old) (moving entry.now) (nat_lt 0 (free_of (store_of store.old)))) }
    ensures same { result ≡ Err error.NoMemory → store.new ≡ store.old }
{
    let op = fill_operation(here, side.next, entry)?;
    open(here, side, store, &op)
}

/// An entry of a cell on which nothing is under way. One whose epoch is there is answered again.
fn hear_fill<D: Disk>(
    here: &JobContext,
    side: &mut PairMemory,
    store: &mut Store<D>,
    entry: &Moving,
) -> Result<JobResult, WorkError>
    requires ready { IsReady side.old store.old }
    requires none { at cell_cmp side.old.pending (cell_of entry.now.key) ≡ None }
    ensures job { IsDone D.Disk here.now (held side.old store.old) (held side.new store.new) result
        (fills.hears_fill here.now (own_of side.old store.old) (moving entry.now) false
        (fills.has_epoch (chain_in (store_of store.old).chains (cell_of entry.now.key)) entry.now.key.epoch)
        (has_proposed_in here.now.state side.old.copies (cell_of entry.now.key))) }
    ensures same { result ≡ Err error.NoMemory → store.new ≡ store.old }
{
    let cell = entry.key.cell();
    if has_entry(store, entry.key) {
        let told = Body::Filled { key: entry.key };
        return say_to(here, side, store, here.state().old_lead(cell), told);
    }
    if side.copies.has_proposed(here, cell) {
        return silent(here, side, store);
    }
    open_fill(here, side, store, entry)
}

/// An entry that moves is taken by the lead of its cell.
///
/// # Errors
/// As of [`go_on`](crate::lead::actions::go_on).
#[tactic(auto, unfolding(spec_rules::specs::Fills::on_fill))]
pub fn on_fill<D: Disk>(
    here: &JobContext,
    side: &mut PairMemory,
    store: &mut Store<D>,
    entry: &Moving,
) -> Result<JobResult, WorkError>
    requires ready { IsReady side.old store.old }
    ensures job { IsDone D.Disk here.now (held side.old store.old) (held side.new store.new) result
        (fills.on_fill here.now (own_of side.old store.old) (moving entry.now)) }
    ensures same { result ≡ Err error.NoMemory → store.new ≡ store.old }
{
    let cell = entry.key.cell();
    if !here.is_lead(cell) {
        return silent(here, side, store);
    }
    if side.is_under_way(cell) {
        return silent(here, side, store);
    }
    hear_fill(here, side, store, entry)
}
