//! The server's proposer: what its next ballot is for, and what it hears of its ballot.

ghost use Rattle.std.specs.Prelude.{◌≡◌, ◌≤◌, ◌+◌, ◌^◌, max, IfOk, IfSome, IfNone, List};
ghost use Rattle.petal_command.specs.declared.pax.Pax.TheVariants.{Prepare};
ghost use Rattle.spec_paxos.specs.Kept.{row_of};
ghost use Rattle.spec_paxos.specs.Proposer as proposers;
ghost use Rattle.spec_paxos.specs.declared.record.StateRecord.{StateRecord};
ghost use Rattle.spec_rules.specs.Ballots as rules;
ghost use Rattle.server_log.specs.Part.{log_of, next_want};
ghost use Rattle.server_log.specs.Said.{IsLogSaid};

use crate::memory::done::{LogDone, only};
use crate::memory::envelope::room_for;
use crate::memory::side::LogSide;
use paxos_core::{Heard, StateError, StateStore};
use petal_base::{NoMemory, Sequence, ServerId};
use petal_command::{Ballot, Command, Pax};
use petal_disk::Disk;
use spec_paxos::Phase;
use std::alloc::Global;

/// The log has so many places.
const GREATEST_PLACE: u32 = 16384;

fn round_of(ballot: Option<Ballot>) -> u32
    ensures { result ≡ rules.round_of ballot }
{
    match ballot {
        None => 0,
        Some(ballot) => ballot.round,
    }
}

impl LogSide {
    /// Its proposer hears of its ballot. What it says of the letter goes to each server; one that is refused is idle, and
    /// remembers the round.
    ///
    /// # Errors
    /// Out of memory, which changed nothing.
    pub fn hear(&mut self, alloc: Global, from: ServerId, said: &Pax) -> Result<LogDone, StateError>
        ensures { (records : List StateRecord) → IsLogSaid self.old self.new records result
            (rules.comes_out self.old.voter (log_of self.old records) (proposers.hear self.old.voter.servers self.old.phase from said.now)) }
    {
        let servers = self.proposer.servers.get();
        let room = room_for(alloc, servers)?;
        let envelope = self.envelope();
        let letters = match self.proposer.hear(from, said) {
            Heard::Nothing => Sequence::of(room),
            Heard::Send(pax) => envelope.to_all(room, servers, &pax),
            Heard::Chosen { place, command } => {
                envelope.to_all(room, servers, &Pax::Chosen { place, command })
            },
            Heard::Refused(promised) => {
                self.proposer.phase = Phase::Idle;
                self.refused = self.refused.max(promised.round);
                Sequence::of(room)
            },
        };
        Ok(only(letters))
    }

    /// What the next ballot is for, where the proposer is idle and the log has a place left. These commands are wanted after the
    /// Leaves, so that the server and its links return.
    ///
    /// # Errors
    /// Out of memory.
    pub fn next_want(
        &self,
        alloc: Global,
        returning: &[Command],
    ) -> Result<Option<Command>, NoMemory>
        ensures { IfOk result (λ found. found ≡ next_want self.now returning.now) }
    {
        match &self.proposer.phase {
            Phase::Collecting { .. } => return Ok(None),
            Phase::Voting { .. } => return Ok(None),
            Phase::Idle => {},
        }
        if self.rev() >= GREATEST_PLACE {
            return Ok(None);
        }
        self.most_urgent(alloc, returning)
    }

    /// One above each round that its acceptor promised at the place, or that it was refused with; None exactly where no record can
    /// name that.
    pub fn next_round<D: Disk>(&self, state: &StateStore<D>, place: u32) -> Option<u32>
        ensures some { IfSome result (λ round. round ≡ max (rules.round_of (row_of state.now.records place).promised) self.now.refused + 1) }
        ensures none { IfNone result (2 ^ 32 ≤ max (rules.round_of (row_of state.now.records place).promised) self.now.refused + 1) }
    {
        let known = round_of(state.promised(place)).max(self.refused);
        known.checked_add(1)
    }

    /// Its proposer collects promises of this ballot of its own. Gives the letter that asks for them.
    pub fn begin(&mut self, place: u32, round: u32, want: Command) -> Pax
        ensures begun { self.new ≡ record self.old { phase = proposers.collecting place (record { round = round; server = self.old.voter.me }) want } }
        ensures letter { result ≡ Prepare place (record { round = round; server = self.old.voter.me }) }
    {
        self.proposer.start(place, round, want)
    }
}
