//! The jobs of writes.

ghost use Rattle.std.specs.Prelude.{◌≡◌, true, Err};
ghost use Rattle.petal_msg.specs.Kinds.{is_of_write, subject_of};
ghost use Rattle.spec_rules.specs.Jobs.{handles};
ghost use Rattle.pair_memory.specs.declared.error.WorkError.TheVariants as error;
ghost use Rattle.pair_memory.specs.PairMemory.{own_of};
ghost use Rattle.pair_memory.specs.JobResult.{IsDone, IsReady, held};

use crate::lead::{Wanted, on_pair_full, on_replicated, on_reserved, on_write};
use crate::second::{on_replicate, on_reserve};
use pair_memory::{JobContext, JobResult, PairMemory, WorkError, silent};
use petal_disk::Disk;
use petal_msg::{Body, Letter};
use server_store::Store;

/// What a letter of writes does: at most one commit. After Ok all is as the rule `handles` says, where the device tells its bytes.
///
/// # Errors
/// `NoMemory`, and then nothing changed; `Failed` where the device failed, and `NoRoom` only where marks and rows of the store
/// were as many as there may be: the entries are as they were, and the server is to be stopped.
#[tactic(auto, unfolding(spec_rules::specs::Jobs::handles))]
pub fn on_letter<D: Disk>(
    here: &JobContext,
    side: &mut PairMemory,
    store: &mut Store<D>,
    letter: &Letter,
) -> Result<JobResult, WorkError>
    requires letter { is_of_write (subject_of letter.now.body) ≡ true }
    requires ready { IsReady side.old store.old }
    ensures job { IsDone D.Disk here.now (held side.old store.old) (held side.new store.new) result
        (handles here.now (own_of side.old store.old) letter.now.body) }
    ensures same { result ≡ Err error.NoMemory → store.new ≡ store.old }
{
    match &letter.body {
        Body::Write {
            client,
            seq,
            cell,
            epoch,
            bytes,
        } => {
            let want = Wanted {
                client: *client,
                seq: *seq,
                cell: *cell,
                epoch: *epoch,
                bytes,
            };
            on_write(here, side, store, &want)
        }
        Body::Reserve { op, cell } => on_reserve(here, side, store, *op, *cell),
        Body::Reserved { op, cell } => on_reserved(here, side, store, *op, *cell),
        Body::PairFull { op, cell } => on_pair_full(here, side, store, *op, *cell),
        Body::Replicate {
            op,
            key,
            version: _,
            origin,
            bytes,
        } => on_replicate(here, side, store, *op, *key, *origin, bytes),
        Body::Replicated { op, cell } => on_replicated(here, side, store, *op, *cell),
        _ => silent(here, side, store),
    }
}
