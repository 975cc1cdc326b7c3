//! Entries of the log: they are learnt, and told to those who ask.

ghost use Rattle.std.specs.Prelude.{◌≡◌, ◌==◌, ◌&&◌, is_none, None, IfOk};
ghost use Rattle.spec_paxos.specs.Kept.{known_at};
ghost use Rattle.spec_rules.specs.Entries as rules;
ghost use Rattle.spec_rules.specs.Log.{next_place};
ghost use Rattle.server_log.specs.Part.{log_of};
ghost use Rattle.server_log.specs.Said.{IsLogSaid};
ghost use Rattle.server_log.specs.Done.{IsLogDone};

use crate::memory::{LogDone, LogSide, known_run, only, room_for};
use petal_base::{Rev, Sequence};
use petal_command::Command;
use petal_disk::Disk;
use petal_msg::{Actor, Body};
use state_store::{StateError, StateStore};
use std::alloc::Global;

/// The most entries that one letter tells.
const MOST: u32 = 64;

/// The command is chosen for the place.
#[tactic(auto, unfolding(spec_rules::specs::Entries::learns))]
pub(crate) fn learn<D: Disk>(
    alloc: Global,
    log: &LogSide,
    state: &mut StateStore<D>,
    place: u32,
    command: &Command,
) -> Result<LogDone, StateError>
    ensures alone { IfOk result (λ done. done.again ≡ None) }
    ensures done { IsLogDone D.Disk log.now log.now state.old state.new result (rules.learns (log_of log.now state.old.records) place command.now) }
{
    let apply = is_next(log, state, place);
    match state.choose(place, command) {
        Ok(()) => Ok(LogDone {
            letters: Sequence::new(alloc),
            apply,
            again: None,
        }),
        Err(error) => Err(error),
    }
}

/// Whether the place is the next one, and not known.
fn is_next<D: Disk>(log: &LogSide, state: &StateStore<D>, place: u32) -> bool
    ensures { result ≡ (is_none (known_at state.now.records place) && (place == next_place (log_of log.now state.now.records))) }
{
    state.chosen(place as u64).is_none() && place as u64 == log.next_place()
}

/// What follows the revision asked is told, perhaps nothing.
#[tactic(auto, unfolding(spec_rules::specs::Entries::on_ask))]
pub(crate) fn on_ask<D: Disk>(
    alloc: Global,
    log: &LogSide,
    state: &StateStore<D>,
    from: Actor,
    rev: Rev,
) -> Result<LogDone, StateError>
    ensures { IsLogSaid log.now log.now state.now.records result (rules.on_ask (log_of log.now state.now.records) from rev) }
{
    let commands = known_run(alloc, state, rev, MOST)?;
    let room = room_for(alloc, 1)?;
    let news = Body::News {
        after: rev,
        commands,
    };
    Ok(only(log.envelope().one(room, from, news)))
}
