//! The first job of the queue.

ghost use Rattle.std.specs.Prelude.{◌≡◌, false};
ghost use Rattle.kept_chains.specs.Kept.{store_of};
ghost use Rattle.pair_memory.specs.PairMemory.{HasTicketsAt};
ghost use Rattle.server_core.specs.Works.{IsFirstJob, as_some};
ghost use Rattle.server_core.specs.ServerView.{is_spent};

use crate::server::ServerCore;
use pair_memory::WorkError;
use petal_base::Sequence;
use petal_disk::Disk;
use petal_msg::Letter;
use server_jobs::Kind;
use server_store::Store;
use state_store::StateStore;
use std::alloc::Global;

/// The letters of a job that was there.
fn as_some(
    worked: Result<Sequence<Letter>, WorkError>,
) -> Result<Option<Sequence<Letter>>, WorkError>
    ensures { result ≡ as_some worked }
{
    match worked {
        Ok(letters) => Ok(Some(letters)),
        Err(error) => Err(error),
    }
}

impl ServerCore {
    /// Does the first job of the queue, with at most one commit, and gives its letters, with the stamp 0; None exactly where there
    /// is no job. Where a device showed its store, now and after any crash, it shows the store after the job; a crash at any
    /// moment leaves the store before it, or the one that the rule leaves.
    ///
    /// # Errors
    /// `Failed` where one of the devices failed: the entries and the records are as they were, and the server is to be stopped.
    /// `NoRoom` where one has no room for what the job commits: nothing happened, and the server is to be stopped. `NoMemory`: nothing
    /// happened, and the devices show the stores as before. `Exhausted`, where no number is left for the job's operation, or no record
    /// can name its place or its round: nothing happened.
    pub fn work<D: Disk, E: Disk>(
        &mut self,
        alloc: Global,
        store: &mut Store<D>,
        state: &mut StateStore<E>,
    ) -> Result<Option<Sequence<Letter>>, WorkError>
        requires goes_on { is_spent self.old (store_of store.old) ≡ false }
        requires tickets { HasTicketsAt self.old.side store.old }
        ensures { IsFirstJob D.Disk E.Disk self.old self.new store.old store.new state.old state.new result }
    {
        let _ = store.free();
        let Some(first) = self.parts.first_kind() else {
            return Ok(None);
        };
        match first {
            Kind::OfPairs => as_some(self.parts.work_pair(alloc, store, state)),
            Kind::OfLog => as_some(self.parts.work_log(alloc, store, state)),
            Kind::Applies => as_some(self.parts.work_apply(alloc, store, state)),
        }
    }
}
