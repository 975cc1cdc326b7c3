//! Ballots: those that the server starts, and those that it takes part in.

ghost use Rattle.spec_rules.specs.Ballots as rules;
ghost use Rattle.spec_rules.specs.Jobs.{hears_log};
ghost use Rattle.server_log.specs.Part.{log_of};
ghost use Rattle.server_log.specs.Done.{IsLogDone};

use crate::entries::learn;
use crate::jobs::{asked, downed, exhausted, heard, proposed, quiet};
use crate::memory::{LogDone, LogSide, only, room_for};
use crate::news::on_news;
use paxos_core::{on_accept, on_prepare};
use petal_base::ServerId;
use petal_command::{Ballot, Command, Pax};
use petal_disk::Disk;
use petal_msg::{Actor, Body, SharedLetter};
use state_store::{StateError, StateStore};
use std::alloc::Global;

/// Its acceptor promises the ballot of another server, or refuses it.
fn promise<D: Disk>(
    alloc: Global,
    log: &LogSide,
    state: &mut StateStore<D>,
    from: ServerId,
    place: u32,
    ballot: Ballot,
) -> Result<LogDone, StateError>
    ensures { IsLogDone D.Disk log.now log.now state.old state.new result (rules.on_prepare (log_of log.now state.old.records) from place ballot) }
{
    let room = room_for(alloc, 1)?;
    match on_prepare(state, place, ballot) {
        Ok(reply) => {
            let letters = log
                .envelope()
                .one(room, Actor::Server(from), Body::Pax(reply));
            Ok(only(letters))
        },
        Err(error) => Err(error),
    }
}

/// Its acceptor accepts the command in the ballot of another server, or refuses it.
fn accept<D: Disk>(
    alloc: Global,
    log: &LogSide,
    state: &mut StateStore<D>,
    from: ServerId,
    place: u32,
    ballot: Ballot,
    command: &Command,
) -> Result<LogDone, StateError>
    ensures { IsLogDone D.Disk log.now log.now state.old state.new result
        (rules.on_accept (log_of log.now state.old.records) from place ballot command.now) }
{
    let room = room_for(alloc, 1)?;
    match on_accept(state, place, ballot, command) {
        Ok(reply) => {
            let letters = log
                .envelope()
                .one(room, Actor::Server(from), Body::Pax(reply));
            Ok(only(letters))
        },
        Err(error) => Err(error),
    }
}

/// A letter about a ballot. Only servers speak of ballots.
#[tactic(auto, unfolding(spec_rules::specs::Ballots::on_pax))]
fn on_pax<D: Disk>(
    alloc: Global,
    log: &mut LogSide,
    state: &mut StateStore<D>,
    from: Actor,
    said: &Pax,
) -> Result<LogDone, StateError>
    ensures { IsLogDone D.Disk log.old log.new state.old state.new result
        (rules.on_pax log.old.voter (log_of log.old state.old.records) from said.now) }
{
    let Actor::Server(from) = from else {
        return quiet(alloc, log, state);
    };
    match said {
        Pax::Prepare { place, ballot } => { promise(alloc, log, state, from, *place, *ballot) },
        Pax::Accept {
            place,
            ballot,
            command,
        } => accept(alloc, log, state, from, *place, *ballot, command),
        Pax::Chosen { place, command } => learn(alloc, log, state, *place, command),
        Pax::Promise { .. } => heard(alloc, log, state, from, said),
        Pax::Accepted { .. } => heard(alloc, log, state, from, said),
        Pax::Refuse { .. } => heard(alloc, log, state, from, said),
    }
}

/// A letter of the agreed log, of another server or of a client.
///
/// # Errors
/// `Failed` where the device failed, `JournalFull` only where its journal had all its records: the server is to be stopped.
/// `NoMemory`, and `Exhausted` only where no record can name the place or the round: nothing changed.
#[tactic(auto, unfolding(spec_rules::specs::Jobs::hears_log))]
pub fn on_letter<D: Disk>(
    alloc: Global,
    log: &mut LogSide,
    state: &mut StateStore<D>,
    letter: &SharedLetter,
) -> Result<LogDone, StateError>
    ensures { IsLogDone D.Disk log.old log.new state.old state.new result
        (hears_log log.old.voter (log_of log.old state.old.records) letter.now letter.now.body) }
{
    let it = letter.get();
    match &it.body {
        Body::Down { server, inc } => downed(alloc, log, state, *server, *inc),
        Body::Propose { command } => proposed(alloc, log, state, command),
        Body::Pax(said) => on_pax(alloc, log, state, it.from, said),
        Body::Ask { rev } => asked(alloc, log, state, it.from, *rev),
        Body::News { after, commands } => {
            on_news(alloc, log, state, letter, *after, commands.as_slice())
        },
        _ => quiet(alloc, log, state),
    }
}

/// Its proposer starts a ballot for the command that `next_want` told, if any, at the next place. Its own acceptor commits the
/// promise first.
///
/// # Errors
/// As at `on_letter`.
pub fn start_ballot<D: Disk>(
    alloc: Global,
    log: &mut LogSide,
    state: &mut StateStore<D>,
    found: Option<Command>,
) -> Result<LogDone, StateError>
    ensures { IsLogDone D.Disk log.old log.new state.old state.new result
        (rules.starts_for log.old.voter (log_of log.old state.old.records) found) }
{
    let Some(want) = found else {
        return quiet(alloc, log, state);
    };
    let servers = log.servers().get();
    let room = room_for(alloc, servers)?;
    let envelope = log.envelope();
    let Some(place) = log.ballot_place() else {
        return exhausted(log, state);
    };
    let Some(round) = log.next_round(state, place) else {
        return exhausted(log, state);
    };
    let ballot = Ballot {
        round,
        server: log.me(),
    };
    match state.promise(place, ballot) {
        Ok(()) => {
            let prepare = log.begin(place, round, want);
            Ok(only(envelope.to_all(room, servers, &prepare)))
        },
        Err(error) => Err(error),
    }
}
