//! The first job, where it is of the pairs.

ghost use Rattle.std.specs.Prelude.{◌≡◌, ◌≢◌, false, slice_get, IsSomeAnd};
ghost use Rattle.server_jobs.specs.Kind.{kind_of};
ghost use Rattle.server_jobs.specs.declared.queue.Kind.TheVariants.{OfPairs};
ghost use Rattle.kept_chains.specs.Kept.{store_of};
ghost use Rattle.pair_memory.specs.JobResult.{HasVersions};
ghost use Rattle.pair_memory.specs.PairMemory.{HasTicketsAt};
ghost use Rattle.spec_rules.specs.Store as stores;
ghost use Rattle.spec_rules.specs.World.{greatest_u64};
ghost use Rattle.server_core.specs.ServerView.{is_spent};
ghost use Rattle.server_core.specs.Work.{IsStoreWork};

use crate::parts::ServerMemory;
use pair_memory::{JobContext, WorkError};
use petal_base::Sequence;
use petal_disk::Disk;
use petal_msg::Letter;
use server_jobs::{does, go_on};
use server_store::Store;
use state_store::StateStore;
use std::alloc::Global;

// What the store promises of its greatest version tells the proof that it can be counted up.
fn has_versions<D: Disk>(store: &Store<D>)
    requires { stores.top_of (store_of store.now).chains ≢ greatest_u64 }
    ensures { HasVersions store.now }
{
    let _ = store.free();
    let _ = store.top();
}

impl ServerMemory {
    /// Does the first job, of the pairs.
    ///
    /// # Errors
    /// As of each job of the pairs.
    pub fn work_pair<D: Disk, E: Disk>(
        &mut self,
        alloc: Global,
        store: &mut Store<D>,
        state: &StateStore<E>,
    ) -> Result<Sequence<Letter>, WorkError>
        requires goes_on { is_spent self.old (store_of store.old) ≡ false }
        requires tickets { HasTicketsAt self.old.side store.old }
        requires first { IsSomeAnd (slice_get self.old.queue 0) (λ job. kind_of job ≡ OfPairs) }
        ensures { IsStoreWork D.Disk state.now.records self.old self.new store.old store.new result }
    {
        let _ = state;
        has_versions(store);
        let here = JobContext::new(alloc, self.log.state(), self.log.number(), self.log.inc());
        let Some(job) = self.queue.front() else {
            return Ok(Sequence::new(alloc));
        };
        let done = does(&here, &mut self.side, store, job)?;
        let letters = self.recent.after(job, done.letters);
        go_on(&mut self.queue, done.follow);
        Ok(letters)
    }
}
