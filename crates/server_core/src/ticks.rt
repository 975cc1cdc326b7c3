//! What a tick sends and queues.

ghost use Rattle.std.specs.Prelude.{◌≡◌, ◌++◌, ◌+◌, ◌-◌, ◌%◌, ◌∷◌, List, [], length, if◌then◌else◌, IfOk, OnOk, OnErr};
ghost use Rattle.kept_chains.specs.Kept.{store_of};
ghost use Rattle.kept_chains.specs.Reading.{IsReadFault};
ghost use Rattle.server_jobs.specs.Wants.{own_in, wants_in};
ghost use Rattle.server_log.specs.Part.{state_of};
ghost use Rattle.pair_memory.specs.JobResult.{HoldsAt};
ghost use Rattle.pair_memory.specs.Letters.{IsLook};
ghost use Rattle.petal_disk.specs.Keeping.{KeepsDevice};
ghost use Rattle.spec_paxos.specs.declared.record.StateRecord.{StateRecord};
ghost use Rattle.spec_rules.specs.Ballots.{start_jobs};
ghost use Rattle.spec_rules.specs.Copies.{repair_jobs};
ghost use Rattle.spec_rules.specs.Jobs.{copies_again, tick_jobs, tick_posts};
ghost use Rattle.spec_rules.specs.Server.{letters_of, sender};
ghost use Rattle.spec_rules.specs.State.{is_in};
ghost use Rattle.spec_rules.specs.Sweeping.{sweep_jobs};
ghost use Rattle.server_core.specs.ServerView.{here_in, server_of};

use crate::parts::ServerMemory;
use pair_memory::JobContext;
use petal_base::{NoMemory, Sequence};
use petal_disk::{DeviceError, Disk};
use petal_msg::Letter;
use server_jobs::{
    copy_letters_after, fills_after, has_retired, is_in, own_wants, repair_jobs,
    write_letters_after,
};
use server_store::Store;
use spec_rules::Job;
use std::alloc::Global;

/// These letters of a tick, and after them those of copies, pages and entries that move that are not yet answered, while the
/// server is In as itself.
fn copies_after<D: Disk>(
    alloc: Global,
    parts: &ServerMemory,
    store: &mut Store<D>,
    before: Sequence<Letter>,
) -> Result<Sequence<Letter>, DeviceError>
    ensures letters { IfOk result (λ letters. D.observable → letters ≡ before ++ letters_of (sender (here_in parts.now)) (length before)
        (copies_again (here_in parts.now) (own_in parts.now.side (store_of store.old)))) }
    ensures look { IsLook D.Disk store.old store.new result }
{
    if !is_in(&parts.log) {
        return Ok(before);
    }
    let here = JobContext::new(
        alloc,
        parts.log.state(),
        parts.log.number(),
        parts.log.inc(),
    );
    let copies = copy_letters_after(&here, &parts.side, store, before)?;
    fills_after(&here, &parts.side, store, copies)
}

/// What a tick sends.
///
/// # Errors
/// `Failed` where the data device failed, and out of memory.
pub fn tick_letters<D: Disk>(
    alloc: Global,
    parts: &ServerMemory,
    store: &mut Store<D>,
) -> Result<Sequence<Letter>, DeviceError>
    ensures letters { IfOk result (λ letters. D.observable → (records : List StateRecord) → letters
        ≡ letters_of (sender (here_in parts.now)) 0 (tick_posts (here_in parts.now) (server_of parts.now (store_of store.old) records))) }
    ensures same { store.new ≡ record store.old { disk = store.new.disk } }
    ensures device { KeepsDevice D.size D.seen D.may_leave D.moment D.left_since store.old.disk store.new.disk }
    ensures holds { D.observable → HoldsAt D.Disk store.old → HoldsAt D.Disk store.new }
    ensures cause { IsReadFault (D.faults store.old.disk) (D.faults store.new.disk) result }
    ensures run { D.came_to store.old.disk store.new.disk }
{
    let here = JobContext::new(
        alloc,
        parts.log.state(),
        parts.log.number(),
        parts.log.inc(),
    );
    let ballot = parts.log.ballot_letters(alloc)?;
    let pending = write_letters_after(&here, &parts.side, ballot)?;
    let copies = copies_after(alloc, parts, store, pending)?;
    Ok(parts.log.with_ask(copies)?)
}

/// This job, where it is to be done.
fn job_where(alloc: Global, may: bool, job: Job) -> Result<Vec<Job>, NoMemory>
    ensures { IfOk result (λ queued. queued.items ≡ (if may then job ∷ [] else [])) }
{
    let mut queued = Vec::new(alloc);
    if may {
        queued.push(job)?;
    }
    Ok(queued)
}

/// An idle proposer is to start a ballot where a command is wanted.
fn start_jobs<D: Disk>(
    alloc: Global,
    parts: &ServerMemory,
    store: &Store<D>,
) -> Result<Vec<Job>, NoMemory>
    ensures { IfOk result (λ jobs. jobs.items
        ≡ start_jobs parts.now.log.phase (wants_in parts.now.log parts.now.side (store_of store.now))) }
{
    let wants = own_wants(alloc, &parts.log, &parts.side, store)?;
    let may = parts.log.may_start(alloc, wants.as_slice())?;
    job_where(alloc, may, Job::Start)
}

/// Links of which something waits are to be mended, and what is left of cells that are live no longer is to be dropped.
fn link_jobs<D: Disk>(
    alloc: Global,
    parts: &ServerMemory,
    store: &Store<D>,
) -> Result<Vec<Job>, NoMemory>
    ensures { IfOk result (λ jobs. jobs.items ≡ (if is_in (state_of parts.now.log) parts.now.log.voter.me parts.now.log.voter.inc
        then repair_jobs (here_in parts.now) (own_in parts.now.side (store_of store.now))
        ++ sweep_jobs (here_in parts.now) (own_in parts.now.side (store_of store.now)) else [])) }
{
    if !is_in(&parts.log) {
        return Ok(Vec::new(alloc));
    }
    let here = JobContext::new(
        alloc,
        parts.log.state(),
        parts.log.number(),
        parts.log.inc(),
    );
    let mut queued = repair_jobs(&here, &parts.side, store)?;
    let mut sweeps = job_where(alloc, has_retired(parts.log.state(), store), Job::Sweep)?;
    queued.append(&mut sweeps)?;
    Ok(queued)
}

/// What a tick queues.
///
/// # Errors
/// Out of memory.
pub fn tick_jobs<D: Disk>(
    alloc: Global,
    parts: &ServerMemory,
    store: &Store<D>,
) -> Result<Vec<Job>, NoMemory>
    ensures { IfOk result (λ queued. (records : List StateRecord)
        → queued.items ≡ tick_jobs (here_in parts.now) (server_of parts.now (store_of store.now) records)) }
{
    let mut queued = start_jobs(alloc, parts, store)?;
    let mut links = link_jobs(alloc, parts, store)?;
    queued.append(&mut links)?;
    Ok(queued)
}

/// These jobs wait too, and another server is asked after the next tick.
///
/// # Errors
/// Out of memory, and then nothing changed.
pub fn move_on(parts: &mut ServerMemory, jobs: Vec<Job>) -> Result<(), NoMemory>
    ensures ok { OnOk result (parts.new ≡ record parts.old {
      log = record parts.old.log { asks = (parts.old.log.asks + 1) % (parts.old.log.voter.servers - 1) };
      queue = parts.old.queue ++ jobs.items;
    }) }
    ensures err { OnErr result (parts.new ≡ parts.old) }
{
    let asks = parts.log.ask_next();
    parts.queue_all(jobs)?;
    parts.log.ask_at(asks);
    Ok(())
}
