//! The first job, where it applies the next entry of the agreed log.

ghost use Rattle.std.specs.Prelude.{◌≡◌, ◌≢◌, ◌≤◌, ◌+◌, Bool, true, false, length, Err, slice_get, IsSomeAnd, IfSome, IfOk, IfErr, option_map};
ghost use Rattle.std.specs.VecDeque.{deque_len, deque_capacity};
ghost use Rattle.server_jobs.specs.Kind.{kind_of};
ghost use Rattle.server_jobs.specs.declared.queue.Kind.TheVariants.{Applies};
ghost use Rattle.server_jobs.specs.Wants.{here_by, own_in};
ghost use Rattle.server_log.specs.Entered.{IsNext, entry_in, entry_of, next_known};
ghost use Rattle.server_log.specs.Part.{log_of, sender_of, state_of};
ghost use Rattle.server_log.specs.Said.{IsBy};
ghost use Rattle.pair_memory.specs.Crossed.{IsEntered};
ghost use Rattle.pair_memory.specs.PairMemory.{HasTicketsAt};
ghost use Rattle.pair_memory.specs.declared.error.WorkError.TheVariants as error;
ghost use Rattle.spec_rules.specs.Crossing.{jobs_by};
ghost use Rattle.spec_rules.specs.Entries.{applies};
ghost use Rattle.spec_rules.specs.State.{State};
ghost use Rattle.spec_rules.specs.Store as stores;
ghost use Rattle.spec_state.specs.Command.{after};
ghost use Rattle.server_core.specs.ServerView.{core_of};
ghost use Rattle.server_core.specs.Work.{IsStoreWork};

use crate::parts::ServerMemory;
use global_state::GlobalState;
use pair_memory::{JobContext, PairMemory, WorkError, enter_all, entry_jobs};
use petal_base::{Inc, NoMemory, Sequence};
use petal_command::ServerNumber;
use petal_disk::Disk;
use petal_msg::Letter;
use server_jobs::{add_all, enter, make_room};
use server_log::{Entered, LogDone, LogSide, Next};
use server_store::Store;
use spec_rules::Job;
use state_store::StateStore;
use std::alloc::Global;
use std::collections::VecDeque;

/// What an entry that was applied does to the pairs and the store.
fn enter_by<D: Disk>(
    alloc: Global,
    me: ServerNumber,
    inc: Inc,
    entered: Option<Entered>,
    next: &GlobalState,
    side: &mut PairMemory,
    store: &mut Store<D>,
) -> Result<(), WorkError>
    requires tickets { HasTicketsAt side.old store.old }
    requires next { IfSome entered (λ it. next.now ≡ after it.before it.entry) }
    ensures { (state : State) → IfSome entered (λ it. it.before ≡ state)
        → IsEntered D.Disk (record { state = state; me = me; inc = inc }) (option_map entry_of entered) side.old side.new store.old store.new result }
{
    match entered {
        Some(entered) => {
            let here = JobContext::new(alloc, &entered.before, me, inc);
            enter_all(&here, &entered.entry, next, side, store)
        }
        None => Ok(()),
    }
}

/// The jobs that follow the next entry, once it is applied.
fn jobs_of_next(
    alloc: Global,
    log: &LogSide,
    side: &PairMemory,
    next: &Option<Next>,
) -> Result<Vec<Job>, NoMemory>
    requires { IfSome next.now (λ it. it.state ≡ after (state_of log.now) it.entry) }
    ensures { (store : stores.Store) → IfOk result (λ jobs. jobs.items
        ≡ jobs_by (state_of log.now) log.now.voter.me (option_map entry_in next.now) (own_in side.now store)) }
{
    match next {
        Some(next) => {
            let here = JobContext::new(alloc, log.state(), log.number(), log.inc());
            entry_jobs(&here, &next.entry, side, &next.state)
        }
        None => Ok(Vec::new(alloc)),
    }
}

/// The jobs that follow the next entry, for which the queue has room now.
fn jobs_with_room(
    alloc: Global,
    log: &LogSide,
    side: &PairMemory,
    queue: &mut VecDeque<Job>,
    next: &Option<Next>,
) -> Result<Vec<Job>, NoMemory>
    requires { IfSome next.now (λ it. it.state ≡ after (state_of log.now) it.entry) }
    ensures same { queue.new.items ≡ queue.old.items }
    ensures room { IfOk result (λ jobs. deque_len queue.new + length jobs.items + 1 ≤ deque_capacity queue.new) }
    ensures jobs { (store : stores.Store) → IfOk result (λ jobs. jobs.items
        ≡ jobs_by (state_of log.now) log.now.voter.me (option_map entry_in next.now) (own_in side.now store)) }
{
    let jobs = jobs_of_next(alloc, log, side, next)?;
    make_room(queue, jobs.len())?;
    Ok(jobs)
}

/// The next entry, and the jobs that follow it, for which the queue has room now.
fn next_with_jobs<E: Disk>(
    alloc: Global,
    log: &LogSide,
    side: &PairMemory,
    queue: &mut VecDeque<Job>,
    state: &StateStore<E>,
) -> Result<(Option<Next>, Vec<Job>), NoMemory>
    ensures same { queue.new.items ≡ queue.old.items }
    ensures room { IfOk result (λ found. deque_len queue.new + length found.1.items + 1 ≤ deque_capacity queue.new) }
    ensures next { IfOk result (λ found. IsNext log.now state.now.records found.0) }
    ensures jobs { (held : stores.Store) → IfOk result (λ found. found.1.items
        ≡ jobs_by (state_of log.now) log.now.voter.me (option_map entry_in found.0) (own_in side.now held)) }
{
    let next = log.next_entry(alloc, state)?;
    let jobs = jobs_with_room(alloc, log, side, queue, &next)?;
    Ok((next, jobs))
}

/// The next entry is applied to the log, and does to the pairs and the store what it does. Without memory nothing changes.
fn enter_next<D: Disk, E: Disk>(
    alloc: Global,
    log: &mut LogSide,
    side: &mut PairMemory,
    store: &mut Store<D>,
    state: &StateStore<E>,
    next: Option<Next>,
) -> Result<LogDone, WorkError>
    requires tickets { HasTicketsAt side.old store.old }
    requires next { IsNext log.old state.now.records next }
    ensures voter { log.new.voter ≡ log.old.voter }
    ensures done { IfOk result (λ done. IsBy (sender_of log.old) (log_of log.new state.now.records) done (applies (log_of log.old state.now.records))) }
    ensures entered { result ≢ Err error.NoMemory
        → IsEntered D.Disk (here_by log.old) (next_known log.old state.now.records) side.old side.new store.old store.new result }
    ensures same { result ≡ Err error.NoMemory → (log.new ≡ log.old) × (side.new ≡ side.old) × (store.new ≡ store.old) }
{
    let (me, inc) = (log.number(), log.inc());
    // what was applied is owned here alone, since each early return of a caller would have to drop it too
    let (done, entered) = log.apply(alloc, state, next)?;
    match enter_by(alloc, me, inc, entered, log.state(), side, store) {
        Ok(()) => Ok(done),
        Err(error) => Err(error),
    }
}

/// The next entry is applied, where it is known, as the first job of this queue.
fn apply_next<D: Disk, E: Disk>(
    alloc: Global,
    log: &mut LogSide,
    side: &mut PairMemory,
    queue: &mut VecDeque<Job>,
    store: &mut Store<D>,
    state: &StateStore<E>,
) -> Result<Sequence<Letter>, WorkError>
    requires tickets { HasTicketsAt side.old store.old }
    requires first { IsSomeAnd (slice_get queue.old.items 0) (λ job. kind_of job ≡ Applies) }
    ensures { (running : Bool) → IsStoreWork D.Disk state.now.records (core_of running log.old side.old queue.old.items)
        (core_of running log.new side.new queue.new.items) store.old store.new result }
{
    let (next, jobs) = next_with_jobs(alloc, log, side, queue, state)?;
    match enter_next(alloc, log, side, store, state, next) {
        Ok(done) => {
            enter(queue, done.apply, done.again);
            add_all(queue, jobs);
            Ok(done.letters)
        }
        Err(error) => Err(error),
    }
}

impl ServerMemory {
    /// Applies the next entry, where it is known: the first job.
    ///
    /// # Errors
    /// As of each job of the pairs.
    pub fn work_apply<D: Disk, E: Disk>(
        &mut self,
        alloc: Global,
        store: &mut Store<D>,
        state: &StateStore<E>,
    ) -> Result<Sequence<Letter>, WorkError>
        requires tickets { HasTicketsAt self.old.side store.old }
        requires first { IsSomeAnd (slice_get self.old.queue 0) (λ job. kind_of job ≡ Applies) }
        ensures { IsStoreWork D.Disk state.now.records self.old self.new store.old store.new result }
    {
        apply_next(
            alloc,
            &mut self.log,
            &mut self.side,
            &mut self.queue,
            store,
            state,
        )
    }
}
