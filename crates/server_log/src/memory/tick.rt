//! What a tick sends of the log.

ghost use Rattle.std.specs.Prelude.{◌≡◌, ◌+◌, ◌-◌, ◌%◌, ◌∷◌, ◌++◌, List, [], length, if◌then◌else◌, is_some, slice_get, IfOk};
ghost use Rattle.spec_paxos.specs.declared.record.StateRecord.{StateRecord};
ghost use Rattle.spec_rules.specs.Ballots as rules;
ghost use Rattle.spec_rules.specs.Server.{letters_of};
ghost use Rattle.spec_rules.specs.declared.job.Job.TheVariants as job;
ghost use Rattle.server_log.specs.Part.{log_of, sender_of};

use crate::memory::envelope::room_for;
use crate::memory::side::LogSide;
use paxos_core::has_majority;
use petal_base::{NoMemory, Sequence};
use petal_command::{Command, Pax};
use petal_msg::{Actor, Body, Letter};
use spec_paxos::Phase;
use std::alloc::Global;

impl LogSide {
    /// What of the ballot is not yet answered; once a majority has accepted, that its command is chosen.
    ///
    /// # Errors
    /// Out of memory.
    pub fn ballot_letters(&self, alloc: Global) -> Result<Sequence<Letter>, NoMemory>
        ensures { IfOk result (λ letters. letters ≡ letters_of (sender_of self.now) 0 (rules.ballot_posts self.now.voter self.now.phase)) }
    {
        let servers = self.proposer.servers.get();
        let envelope = self.envelope();
        match &self.proposer.phase {
            Phase::Idle => Ok(Sequence::new(alloc)),
            Phase::Collecting {
                place,
                ballot,
                heard,
                ..
            } => {
                let prepare = Pax::Prepare {
                    place: *place,
                    ballot: *ballot,
                };
                envelope.to_unheard(alloc, servers, heard, &prepare)
            },
            Phase::Voting {
                place,
                ballot,
                command,
                heard,
            } => {
                if has_majority(servers, heard) {
                    let chosen = Pax::Chosen {
                        place: *place,
                        command: command.copy(),
                    };
                    let room = room_for(alloc, servers)?;
                    return Ok(envelope.to_all(room, servers, &chosen));
                }
                let accept = Pax::Accept {
                    place: *place,
                    ballot: *ballot,
                    command: command.copy(),
                };
                envelope.to_unheard(alloc, servers, heard, &accept)
            },
        }
    }

    /// Whether a tick is to start a ballot. These commands are wanted after the Leaves, so that the server returns.
    ///
    /// # Errors
    /// Out of memory.
    pub fn may_start(&self, alloc: Global, returning: &[Command]) -> Result<bool, NoMemory>
        ensures { IfOk result (λ may. (records : List StateRecord) → (if may then job.Start ∷ [] else [])
            ≡ rules.start_jobs self.now.phase (rules.wanted self.now.voter (log_of self.now records) returning.now)) }
    {
        match &self.proposer.phase {
            Phase::Idle => self.has_wanted(alloc, returning),
            Phase::Collecting { .. } | Phase::Voting { .. } => Ok(false),
        }
    }

    /// Whether something is wanted.
    fn has_wanted(&self, alloc: Global, returning: &[Command]) -> Result<bool, NoMemory>
        ensures { IfOk result (λ has. (records : List StateRecord)
            → has ≡ is_some (slice_get (rules.wanted self.now.voter (log_of self.now records) returning.now) 0)) }
    {
        Ok(self.most_urgent(alloc, returning)?.is_some())
    }

    /// Which of the other servers it asks after the next tick.
    pub fn ask_next(&self) -> u8
        ensures { result ≡ (self.now.asks + 1) % (self.now.voter.servers - 1) }
    {
        let others = self.proposer.servers.get() - 1;
        ((self.asks as u16 + 1) % others as u16) as u8
    }

    /// It asks this one after the next tick.
    pub fn ask_at(&mut self, asks: u8)
        ensures { self.new ≡ record self.old { asks = asks } }
    {
        self.asks = asks;
    }

    /// These letters, and after them the one that asks one of the other servers, in turn, what follows.
    ///
    /// # Errors
    /// Out of memory.
    pub fn with_ask(&self, letters: Sequence<Letter>) -> Result<Sequence<Letter>, NoMemory>
        ensures { (records : List StateRecord) → IfOk result (λ all. all
            ≡ letters ++ letters_of (sender_of self.now) (length letters) (rules.ask_posts self.now.voter (log_of self.now records))) }
    {
        let servers = self.proposer.servers.get() as u16;
        let to = ((self.proposer.me.get() as u16 + 1 + self.asks as u16) % servers) as u8;
        let nth = letters.len() as u64;
        let ask = Body::Ask { rev: self.rev() };
        let mut letters = letters;
        letters.push(self.envelope().letter(Actor::Server(to), nth, ask))?;
        Ok(letters)
    }
}
