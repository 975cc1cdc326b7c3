//! The reply to a read.

ghost use Rattle.std.specs.Prelude.{◌≡◌, ◌&&◌, not, true, is_some, IfOk};
ghost use Rattle.petal_disk.specs.Keeping.{KeepsDevice};
ghost use Rattle.spec_rules.specs.Reads as reads;
ghost use Rattle.spec_rules.specs.State.{coming, readable};
ghost use Rattle.spec_rules.specs.Store.{chain_in, entry_at};
ghost use Rattle.kept_chains.specs.Kept.{chains_of};
ghost use Rattle.kept_chains.specs.Reading.{IsReadFault};
ghost use Rattle.pair_memory.specs.PairMemory.{own_of};
ghost use Rattle.pair_memory.specs.JobResult.{HoldsAt};

use global_state::Hold;
use kept_chains::{has_below, read_at};
use pair_memory::{JobContext, PairMemory};
use petal_base::{Cell, Epoch, Seq};
use petal_disk::{DeviceError, Disk};
use petal_msg::{Body, Reply};
use server_store::Store;

fn is_all_held(held: Hold) -> bool
    ensures { result ≡ reads.is_all_held held }
{
    match held {
        Hold::No | Hold::Writes => false,
        Hold::All => true,
    }
}

/// Whether the cell is on its way from an old map, and has nothing here yet that counts at the epoch.
fn is_elsewhere<D: Disk>(here: &JobContext, store: &Store<D>, cell: Cell, epoch: Epoch) -> bool
    ensures { result ≡ (coming here.now.state cell && not (is_some (entry_at (chain_in (chains_of store.now.entries) cell) epoch))) }
{
    here.state().coming(cell) && !has_below(store, cell, epoch)
}

/// What a server that may read the cell says: a fence, or at the lead what is under way on the block, keeps the read back; else it
/// gives the bytes of the entry of the greatest epoch not above. Where there is none it gives zeros, or, of a cell that is on its way
/// from an old map, says so. Nothing of the store changes, and the device keeps it as before.
///
/// # Errors
/// `Failed` where the device failed, and out of memory.
#[tactic(auto, using(crate::proofs::Replies::not_here, crate::proofs::Replies::read_here))]
pub fn answer_read<D: Disk>(
    here: &JobContext,
    side: &PairMemory,
    store: &mut Store<D>,
    cell: Cell,
    epoch: Epoch,
) -> Result<Reply, DeviceError>
    requires { readable here.now.state here.now.me cell ≡ true }
    ensures reply { IfOk result (λ reply. D.observable → reply ≡ reads.reply_to here.now (own_of side.now store.old) cell epoch) }
    ensures same { store.new ≡ record store.old { disk = store.new.disk } }
    ensures device { KeepsDevice D.size D.seen D.may_leave D.moment D.left_since store.old.disk store.new.disk }
    ensures holds { D.observable → HoldsAt D.Disk store.old → HoldsAt D.Disk store.new }
    ensures cause { IsReadFault (D.faults store.old.disk) (D.faults store.new.disk) result }
    ensures run { D.came_to store.old.disk store.new.disk }
{
    if is_all_held(here.held(cell)) {
        return Ok(Reply::Held);
    }
    if here.is_lead(cell) && side.is_under_way(cell) {
        return Ok(Reply::BlockBusy);
    }
    if is_elsewhere(here, store, cell, epoch) {
        return Ok(Reply::NotHere);
    }
    Ok(Reply::Data(read_at(here.alloc(), store, cell, epoch)?))
}

/// The reply as a letter's content.
pub fn said(seq: Seq, reply: Reply) -> Body
    ensures { result ≡ reads.said seq reply }
{
    match reply {
        Reply::Data(bytes) => Body::Data { seq, bytes },
        Reply::NotHere => Body::NotHere { seq },
        Reply::BlockBusy => Body::BlockBusy { seq },
        Reply::Held => Body::Held { seq },
    }
}
