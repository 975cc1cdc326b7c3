//! One job of the log. Those that make no call of the device are said here to be such as may have made one.

ghost use Rattle.std.specs.Prelude.{◌≡◌, Err};
ghost use Rattle.spec_paxos.specs.Kept.{committed};
ghost use Rattle.spec_paxos.specs.Proposer as proposers;
ghost use Rattle.spec_paxos.specs.declared.record.StateRecord.{StateRecord};
ghost use Rattle.spec_rules.specs.Ballots as ballots;
ghost use Rattle.spec_rules.specs.Entries as entries;
ghost use Rattle.spec_rules.specs.Jobs.{log_does};
ghost use Rattle.spec_rules.specs.Log.{LogDone as Rule, keeps};
ghost use Rattle.state_store.specs.Body.{HasBody};
ghost use Rattle.state_store.specs.declared.error.StateError.TheVariants as error;
ghost use Rattle.server_log.specs.Part.{log_of};
ghost use Rattle.server_log.specs.Said.{IsLogSaid};
ghost use Rattle.server_log.specs.Done.{IsLogDone};

use crate::ballots::on_letter;
use crate::entries::on_ask;
use crate::memory::{LogDone, LogSide, only};
use petal_base::{Inc, NoMemory, Rev, Sequence, ServerId};
use petal_command::{Command, Pax, ServerNumber};
use petal_disk::Disk;
use petal_msg::Actor;
use spec_rules::Job;
use state_store::{StateError, StateStore};
use std::alloc::Global;

/// Nothing is done.
pub(crate) fn quiet<D: Disk>(
    alloc: Global,
    log: &LogSide,
    state: &StateStore<D>,
) -> Result<LogDone, StateError>
    ensures { IsLogDone D.Disk log.now log.now state.now state.now result (keeps (log_of log.now state.now.records)) }
{
    let _ = log;
    let _ = state;
    Ok(only(Sequence::new(alloc)))
}

/// No record can be of the job, as it would name a place or a round beyond the greatest. Nothing is done.
pub(crate) fn exhausted<D: Disk>(
    log: &LogSide,
    state: &StateStore<D>,
) -> Result<LogDone, StateError>
    ensures refused { result ≡ Err error.Exhausted }
    ensures done { (entry : StateRecord) → (rule : Rule) → ¬ HasBody entry → rule.log.records ≡ committed state.now.records entry
        → IsLogDone D.Disk log.now log.now state.now state.now result rule }
{
    let _ = log;
    let _ = state;
    Err(StateError::Exhausted)
}

/// A client's command is wanted.
pub(crate) fn proposed<D: Disk>(
    alloc: Global,
    log: &mut LogSide,
    state: &StateStore<D>,
    command: &Command,
) -> Result<LogDone, StateError>
    ensures { IsLogDone D.Disk log.old log.new state.now state.now result (ballots.on_propose (log_of log.old state.now.records) command.now) }
{
    let _ = state;
    log.on_propose(alloc, command)
}

/// Its proposer hears of its ballot.
pub(crate) fn heard<D: Disk>(
    alloc: Global,
    log: &mut LogSide,
    state: &StateStore<D>,
    from: ServerId,
    said: &Pax,
) -> Result<LogDone, StateError>
    ensures { IsLogDone D.Disk log.old log.new state.now state.now result
        (ballots.comes_out log.old.voter (log_of log.old state.now.records) (proposers.hear log.old.voter.servers log.old.phase from said.now)) }
{
    let _ = state;
    log.hear(alloc, from, said)
}

/// What follows a revision is told.
pub(crate) fn asked<D: Disk>(
    alloc: Global,
    log: &LogSide,
    state: &StateStore<D>,
    from: Actor,
    rev: Rev,
) -> Result<LogDone, StateError>
    ensures { IsLogDone D.Disk log.now log.now state.now state.now result (entries.on_ask (log_of log.now state.now.records) from rev) }
{
    on_ask(alloc, log, state, from, rev)
}

/// An incarnation has stopped.
pub(crate) fn downed<D: Disk>(
    alloc: Global,
    log: &mut LogSide,
    state: &StateStore<D>,
    server: ServerNumber,
    inc: Inc,
) -> Result<LogDone, StateError>
    ensures { IsLogDone D.Disk log.old log.new state.now state.now result (ballots.on_down (log_of log.old state.now.records) server inc) }
{
    let _ = state;
    log.on_down(alloc, server, inc)
}

/// The next entry is applied, where it is known, and is not given.
fn apply_alone<D: Disk>(
    alloc: Global,
    log: &mut LogSide,
    state: &StateStore<D>,
) -> Result<LogDone, StateError>
    ensures { IsLogSaid log.old log.new state.now.records result (entries.applies (log_of log.old state.now.records)) }
{
    let next = log.next_entry(alloc, state)?;
    match log.apply(alloc, state, next) {
        Ok((done, _)) => Ok(done),
        Err(NoMemory) => Err(StateError::NoMemory),
    }
}

/// The next entry is applied, where it is known.
fn applied<D: Disk>(
    alloc: Global,
    log: &mut LogSide,
    state: &StateStore<D>,
) -> Result<LogDone, StateError>
    ensures { IsLogDone D.Disk log.old log.new state.now state.now result (entries.applies (log_of log.old state.now.records)) }
{
    apply_alone(alloc, log, state)
}

/// One job of the agreed log, with at most one commit. A job of the pairs changes nothing here, and a ballot is started by
/// `start_ballot`.
///
/// # Errors
/// As at `on_letter`.
#[tactic(auto, unfolding(spec_rules::specs::Jobs::log_does))]
pub fn does<D: Disk>(
    alloc: Global,
    log: &mut LogSide,
    state: &mut StateStore<D>,
    job: &Job,
) -> Result<LogDone, StateError>
    ensures { IsLogDone D.Disk log.old log.new state.old state.new result (log_does log.old.voter (log_of log.old state.old.records) job.now) }
{
    match job {
        Job::Letter(letter) => on_letter(alloc, log, state, letter),
        Job::Stage(_) | Job::Repair(_) | Job::Sweep | Job::Start => quiet(alloc, log, state),
        Job::Apply => applied(alloc, log, state),
    }
}
