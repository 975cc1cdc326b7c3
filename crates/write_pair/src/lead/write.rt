//! A client's write at the lead.

ghost use Rattle.std.specs.Prelude.{◌≡◌, ◌<◌, ◌||◌, nat_lt, None, Err, IfOk};
ghost use Rattle.std.specs.Bool.{OnTrue};
ghost use Rattle.petal_base.specs.Limits.{client_limit};
ghost use Rattle.std.specs.Ordering.{nat_cmp};
ghost use Rattle.petal_table.specs.Table.{at};
ghost use Rattle.spec_rules.specs.State as states;
ghost use Rattle.spec_rules.specs.Store.{cell_cmp, free_of};
ghost use Rattle.spec_rules.specs.Writes as writes;
ghost use Rattle.kept_chains.specs.Kept.{store_of};
ghost use Rattle.pair_memory.specs.declared.error.WorkError.TheVariants as error;
ghost use Rattle.pair_memory.specs.PairMemory.{own_of};
ghost use Rattle.pair_memory.specs.Copies.{has_proposed_in};
ghost use Rattle.pair_memory.specs.JobResult.{IsDone, IsReady, held};
ghost use Rattle.write_pair.specs.Opened.{begun};
ghost use Rattle.write_pair.specs.Wanted.{wanted};

use crate::lead::open::open;
use crate::lead::stage::first_stage;
use global_state::Hold;
use pair_lock::{OpKind, Pending, is_clients};
use pair_memory::{JobContext, JobResult, PairMemory, WorkError, ended, say, silent};
use petal_base::{Cell, ClientId, Epoch, Key, NoMemory, OPERATOR, Op, Seq, SharedBlock};
use petal_disk::Disk;
use petal_msg::{Actor, Body, WriterNumber};
use server_store::Store;

/// A client's write, as its letter has it.
#[derive(Drop)]
pub struct Wanted<'a> {
    pub client: ClientId,
    pub seq: Seq,
    pub cell: Cell,
    pub epoch: Epoch,
    pub bytes: &'a SharedBlock,
}

/// The operation that a write opens.
fn operation(here: &JobContext, op: Op, want: &Wanted) -> Result<Pending, NoMemory>
    requires { want.now.client < client_limit }
    ensures { IfOk result (λ pending. pending ≡ writes.operation here.now op (wanted want.now)) }
{
    Ok(Pending {
        op,
        kind: OpKind::Write,
        cell: want.cell,
        key: Key {
            map: want.cell.map,
            block: want.cell.block,
            epoch: want.epoch,
        },
        version: 0,
        stage: first_stage(),
        client: WriterNumber::new(want.client),
        seq: want.seq,
        rev: here.rev(),
        bytes: want.bytes.share()?,
    })
}

fn is_writes_held(held: Hold) -> bool
    ensures { result ≡ writes.is_writes_held held }
{
    match held {
        Hold::No => false,
        Hold::Writes | Hold::All => true,
    }
}

/// Whether what is pending on the write's cell was opened for it.
fn is_pending_for(side: &PairMemory, want: &Wanted) -> bool
    ensures { result ≡ writes.is_pending_for (at cell_cmp side.now.pending want.now.cell) (wanted want.now) }
{
    match side.locks.get(want.cell) {
        Some(op) => { is_clients(op.kind) && op.client.get() == want.client && op.seq == want.seq }
        None => false,
    }
}

/// Whether a fence holds the cell's writes, or a ballot was started for the `Caught` of its link.
fn is_kept_back(here: &JobContext, side: &PairMemory, cell: Cell) -> bool
    ensures { result ≡ (writes.is_writes_held (states.held here.now.state cell) || has_proposed_in here.now.state side.now.copies cell) }
{
    is_writes_held(here.held(cell)) || side.copies.has_proposed(here, cell)
}

/// Nothing is under way on the write's block, and its operation is opened under the next number.
fn open_write<D: Disk>(
    here: &JobContext,
    side: &mut PairMemory,
    store: &mut Store<D>,
    want: &Wanted,
) -> Result<JobResult, WorkError>
    requires ready { IsReady side.old store.old }
    requires client { want.now.client < client_limit }
    requires none { at cell_cmp side.old.pending want.now.cell ≡ None }
    ensures job { IsDone D.Disk here.now (held side.old store.old) (held side.new store.new) result
        (begun here.now (own_of side.old store.old) (writes.operation here.now side.old.next (wanted want.now)) (nat_lt 0 (free_of (store_of store.old)))) }
    ensures same { result ≡ Err error.NoMemory → store.new ≡ store.old }
{
    let op = operation(here, side.next, want)?;
    open(here, side, store, &op)
}

/// A write that is not finished. What is kept back, or waits for what is under way on its block, is refused, and ends nothing.
fn take_newer<D: Disk>(
    here: &JobContext,
    side: &mut PairMemory,
    store: &mut Store<D>,
    want: &Wanted,
) -> Result<JobResult, WorkError>
    requires ready { IsReady side.old store.old }
    requires client { want.now.client < client_limit }
    ensures job { IsDone D.Disk here.now (held side.old store.old) (held side.new store.new) result
        (writes.takes here.now (own_of side.old store.old) (wanted want.now) writes.Newer) }
    ensures same { result ≡ Err error.NoMemory → store.new ≡ store.old }
{
    if is_pending_for(side, want) {
        return silent(here, side, store);
    }
    let client = Actor::Client(want.client);
    if is_kept_back(here, side, want.cell) {
        return say(here, side, store, client, Body::Held { seq: want.seq });
    }
    if side.is_under_way(want.cell) {
        return say(here, side, store, client, Body::BlockBusy { seq: want.seq });
    }
    open_write(here, side, store, want)
}

/// A write by what its client's last request was that is finished.
fn take<D: Disk>(
    here: &JobContext,
    side: &mut PairMemory,
    store: &mut Store<D>,
    want: &Wanted,
) -> Result<JobResult, WorkError>
    requires ready { IsReady side.old store.old }
    requires client { want.now.client < client_limit }
    ensures job { IsDone D.Disk here.now (held side.old store.old) (held side.new store.new) result
        (writes.takes here.now (own_of side.old store.old) (wanted want.now)
        (writes.standing (at nat_cmp side.old.finished want.now.client) want.now.seq)) }
    ensures same { result ≡ Err error.NoMemory → store.new ≡ store.old }
{
    match side.finished_for(want.client) {
        Some(last) if want.seq < last.seq => silent(here, side, store),
        Some(last) if want.seq == last.seq => say(
            here,
            side,
            store,
            Actor::Client(want.client),
            ended(want.seq, last.ending),
        ),
        _ => take_newer(here, side, store, want),
    }
}

/// Whether the client is one of those that write.
fn is_writer(client: ClientId) -> bool
    ensures value { result ≡ nat_lt client client_limit }
    ensures below { OnTrue result (client < client_limit) }
{
    client < OPERATOR
}

/// A write is taken by the cell's lead, once; its client is one of those that write.
///
/// # Errors
/// As of [`go_on`](crate::lead::actions::go_on).
#[tactic(auto, unfolding(spec_rules::specs::Writes::on_write))]
pub fn on_write<D: Disk>(
    here: &JobContext,
    side: &mut PairMemory,
    store: &mut Store<D>,
    want: &Wanted,
) -> Result<JobResult, WorkError>
    requires ready { IsReady side.old store.old }
    ensures job { IsDone D.Disk here.now (held side.old store.old) (held side.new store.new) result
        (writes.on_write here.now (own_of side.old store.old) (wanted want.now)) }
    ensures same { result ≡ Err error.NoMemory → store.new ≡ store.old }
{
    if here.is_lead(want.cell) && is_writer(want.client) {
        take(here, side, store, want)
    } else {
        silent(here, side, store)
    }
}
