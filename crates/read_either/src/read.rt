//! A letter that asks for a read.

ghost use Rattle.std.specs.Prelude.{◌≡◌};
ghost use Rattle.spec_rules.specs.Reads.{on_read};
ghost use Rattle.pair_memory.specs.JobResult.{IsDone, held};
ghost use Rattle.pair_memory.specs.PairMemory.{HasTicketsAt, own_of};

use crate::answer::{answer_read, said};
use pair_memory::{JobContext, JobResult, PairMemory, WorkError, say, silent};
use petal_base::{Cell, ClientId, Epoch, Seq};
use petal_disk::{DeviceError, Disk};
use petal_msg::Actor;
use server_store::Store;

/// A read is answered at a server that may read the cell.
///
/// # Errors
/// `Failed` where the device failed, and out of memory.
#[tactic(auto, unfolding(spec_rules::specs::Reads::on_read))]
pub fn on_read<D: Disk>(
    here: &JobContext,
    side: &PairMemory,
    store: &mut Store<D>,
    client: ClientId,
    seq: Seq,
    cell: Cell,
    epoch: Epoch,
) -> Result<JobResult, WorkError>
    requires { HasTicketsAt side.now store.old }
    ensures { IsDone D.Disk here.now (held side.now store.old) (held side.now store.new) result
        (on_read here.now (own_of side.now store.old) client seq cell epoch) }
{
    if !here.readable(cell) {
        return silent(here, side, store);
    }
    match answer_read(here, side, store, cell, epoch) {
        Ok(reply) => say(here, side, store, Actor::Client(client), said(seq, reply)),
        Err(DeviceError::Failed) => Err(WorkError::Failed),
        Err(DeviceError::NoMemory) => Err(WorkError::NoMemory),
    }
}
