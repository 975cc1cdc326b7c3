//! News of the log: one entry a job.

ghost use Rattle.std.specs.Prelude.{◌≡◌, ◌≤◌, ◌^◌, None, IfOk};
ghost use Rattle.spec_rules.specs.Entries as rules;
ghost use Rattle.spec_rules.specs.Log.{Log};
ghost use Rattle.spec_rules.specs.declared.job.Job.TheVariants as job;
ghost use Rattle.server_log.specs.Part.{log_of};
ghost use Rattle.server_log.specs.Done.{IsLogDone};

use crate::entries::learn;
use crate::jobs::{exhausted, quiet};
use crate::memory::{LogDone, LogSide};
use petal_base::{NoMemory, Rev, Sequence};
use petal_command::Command;
use petal_disk::Disk;
use petal_msg::SharedLetter;
use state_store::{StateError, StateStore};
use std::alloc::Global;

/// The commands that are not known, each with its place; the first of all stands at this place.
fn unknown_from<D: Disk>(
    alloc: Global,
    state: &StateStore<D>,
    from: u64,
    commands: &[Command],
) -> Result<Sequence<(u64, Command)>, NoMemory>
    requires { from ≤ 2 ^ 32 }
    ensures { (log : Log) → log.records ≡ state.now.records → IfOk result (λ unknown. unknown ≡ rules.unknown_from log from commands.now) }
{
    let mut unknown = Sequence::new(alloc);
    let mut place = from;
    for command in commands {
        if state.chosen(place).is_none() {
            unknown.push((place, command.copy()))?;
        }
        place += 1;
    }
    Ok(unknown)
}

/// The command is chosen for the place, which may be beyond the greatest that a record can name.
fn learn_at<D: Disk>(
    alloc: Global,
    log: &LogSide,
    state: &mut StateStore<D>,
    place: u64,
    command: &Command,
) -> Result<LogDone, StateError>
    ensures alone { IfOk result (λ done. done.again ≡ None) }
    ensures done { IsLogDone D.Disk log.now log.now state.old state.new result (rules.learns (log_of log.now state.old.records) place command.now) }
{
    if place > u32::MAX as u64 {
        return exhausted(log, state);
    }
    learn(alloc, log, state, place as u32, command)
}

/// The command is chosen for the place, and the letter that tells it follows up.
fn learn_one<D: Disk>(
    alloc: Global,
    log: &LogSide,
    state: &mut StateStore<D>,
    letter: &SharedLetter,
    place: u64,
    command: &Command,
) -> Result<LogDone, StateError>
    ensures { IsLogDone D.Disk log.now log.now state.old state.new result
        (rules.followed_by (rules.learns (log_of log.now state.old.records) place command.now) (job.Letter letter.now)) }
{
    let letter = letter.share()?;
    let done = learn_at(alloc, log, state, place, command)?;
    Ok(LogDone {
        letters: done.letters,
        apply: done.apply,
        again: Some(letter),
    })
}

/// The first of the commands that is not known is learnt, and the letter follows up while one is left.
#[tactic(auto, unfolding(spec_rules::specs::Entries::on_news))]
pub(crate) fn on_news<D: Disk>(
    alloc: Global,
    log: &LogSide,
    state: &mut StateStore<D>,
    letter: &SharedLetter,
    after: Rev,
    commands: &[Command],
) -> Result<LogDone, StateError>
    ensures { IsLogDone D.Disk log.now log.now state.old state.new result
        (rules.on_news (log_of log.now state.old.records) letter.now after commands.now) }
{
    let unknown = unknown_from(alloc, state, after as u64 + 1, commands)?;
    match unknown.as_slice() {
        [] => quiet(alloc, log, state),
        [(place, command)] => learn_at(alloc, log, state, *place, command),
        [(place, command), ..] => { learn_one(alloc, log, state, letter, *place, command) },
    }
}
