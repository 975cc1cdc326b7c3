//! The first job, where it is of the agreed log.

ghost use Rattle.std.specs.Prelude.{◌≡◌, slice_get, IsSomeAnd};
ghost use Rattle.server_jobs.specs.Kind.{kind_of};
ghost use Rattle.server_jobs.specs.declared.queue.Kind.TheVariants.{OfLog};
ghost use Rattle.kept_chains.specs.Kept.{store_of};
ghost use Rattle.server_core.specs.Work.{IsLogWork, of_state};

use crate::parts::ServerMemory;
use pair_memory::WorkError;
use petal_base::Sequence;
use petal_disk::Disk;
use petal_msg::Letter;
use server_jobs::{does_log, enter, make_room};
use server_store::Store;
use state_store::{StateError, StateStore};
use std::alloc::Global;

/// What a refusal of the state store means for a job.
pub fn of_state(error: StateError) -> WorkError
    ensures { result ≡ of_state error }
{
    match error {
        StateError::Failed | StateError::Blank | StateError::BadRecord { .. } => WorkError::Failed,
        StateError::JournalFull => WorkError::NoRoom,
        StateError::NoMemory => WorkError::NoMemory,
        StateError::Exhausted => WorkError::Exhausted,
    }
}

impl ServerMemory {
    /// Does the first job, of the agreed log.
    ///
    /// # Errors
    /// As of each job of the log.
    pub fn work_log<D: Disk, E: Disk>(
        &mut self,
        alloc: Global,
        store: &Store<D>,
        state: &mut StateStore<E>,
    ) -> Result<Sequence<Letter>, WorkError>
        requires first { IsSomeAnd (slice_get self.old.queue 0) (λ job. kind_of job ≡ OfLog) }
        ensures { IsLogWork E.Disk (store_of store.now) self.old self.new state.old state.new result }
    {
        make_room(&mut self.queue, 0)?;
        let Some(job) = self.queue.front() else {
            return Ok(Sequence::new(alloc));
        };
        match does_log(alloc, &mut self.log, &mut self.side, store, state, job) {
            Ok(done) => {
                enter(&mut self.queue, done.apply, done.again);
                Ok(done.letters)
            },
            Err(error) => Err(of_state(error)),
        }
    }
}
