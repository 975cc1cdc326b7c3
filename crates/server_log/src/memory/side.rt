//! What a server has in memory of the agreed log.

ghost use Rattle.std.specs.Prelude.{◌≡◌, ◌≤◌, ◌<◌, ◌+◌, ◌^◌, IfOk, length, IfSome, IfNone};
ghost use Rattle.spec_rules.specs.World.{greatest_u32};
ghost use Rattle.server_log.specs.Part.{new_part, sender_of, state_of};

use crate::memory::envelope::Envelope;
use global_state::GlobalState;
use paxos_core::{Proposer, ServerCount};
use petal_base::{Inc, NoMemory, Rev, Sequence, ServerId};
use petal_command::{Command, ServerNumber};
use std::alloc::Global;
use std::marker::Model;

/// A server's part of the agreed log in memory. Contracts see what its proposer is about, the entries that it has applied,
/// the incarnations of which it heard that they stopped, as Leaves, and the commands that it wants chosen; the global state is
/// what the applied entries make.
#[derive(Drop)]
pub struct LogSide {
    pub(crate) inc: Inc,
    pub(crate) state: GlobalState,
    pub(crate) applied: Sequence<Command>,
    pub(crate) proposer: Proposer,
    pub(crate) refused: u32,
    pub(crate) leaves: Sequence<Command>,
    pub(crate) wants: Sequence<Command>,
    pub(crate) asks: u8,
}

impl Model for LogSide {
    ghost use Rattle.std.specs.Prelude.{◌≡◌};
    ghost use Rattle.spec_state.specs.Command.{state_after};
    ghost use Rattle.server_log.specs.Part.{Part};

    ghost Value = { Part };

    ghost view = { λ s. record {
      voter = record { me = s.proposer.me; inc = s.inc; servers = s.proposer.servers };
      phase = s.proposer.phase;
      refused = s.refused;
      applied = s.applied;
      leaves = s.leaves;
      wants = s.wants;
      asks = s.asks;
    } };

    ghost invariant = { λ s. s.state ≡ state_after s.proposer.servers s.applied };
}

impl LogSide {
    /// An incarnation of one of so many servers, which has applied nothing.
    ///
    /// # Errors
    /// Out of memory.
    pub fn start(
        alloc: Global,
        me: ServerNumber,
        inc: Inc,
        servers: ServerCount,
    ) -> Result<LogSide, NoMemory>
        ensures { IfOk result (λ side. side ≡ new_part (record { me = me; inc = inc; servers = servers })) }
    {
        Ok(LogSide {
            inc,
            state: GlobalState::new(alloc, servers.get())?,
            applied: Sequence::new(alloc),
            proposer: Proposer::new(me, servers),
            refused: 0,
            leaves: Sequence::new(alloc),
            wants: Sequence::new(alloc),
            asks: 0,
        })
    }

    /// The server.
    pub fn me(&self) -> ServerId
        ensures { result ≡ self.now.voter.me }
    {
        self.proposer.me.get()
    }

    /// The same, as commands name it.
    pub fn number(&self) -> ServerNumber
        ensures { result ≡ self.now.voter.me }
    {
        self.proposer.me
    }

    /// Its incarnation.
    pub fn inc(&self) -> Inc
        ensures { result ≡ self.now.voter.inc }
    {
        self.inc
    }

    /// How many servers there are.
    pub fn servers(&self) -> ServerCount
        ensures { result ≡ self.now.voter.servers }
    {
        self.proposer.servers
    }

    /// The global state, as the applied entries make it.
    pub fn state(&self) -> &GlobalState
        ensures { result.now ≡ state_of self.now }
    {
        &self.state
    }

    /// The revision: how many entries were applied.
    pub fn rev(&self) -> Rev
        ensures state { result ≡ (state_of self.now).rev }
        ensures entries { result ≡ length self.now.applied }
    {
        self.state.rev()
    }

    /// Its letters carry its incarnation and its revision.
    pub fn envelope(&self) -> Envelope
        ensures { result ≡ sender_of self.now }
    {
        Envelope::new(self.proposer.me.get(), self.inc, self.state.rev())
    }

    /// Its incarnation is the next one.
    pub fn raise(&mut self)
        requires { self.old.voter.inc < greatest_u32 }
        ensures { self.new ≡ record self.old { voter = record self.old.voter { inc = self.old.voter.inc + 1 } } }
    {
        self.inc += 1;
    }

    /// The place after the last applied entry. It may be beyond the greatest that a record can name.
    pub fn next_place(&self) -> u64
        ensures place { result ≡ length self.now.applied + 1 }
        ensures state { result ≡ (state_of self.now).rev + 1 }
        ensures above { result ≤ 2 ^ 32 }
    {
        self.rev() as u64 + 1
    }

    /// The same, as a ballot names it; None exactly where no record can name it.
    pub fn ballot_place(&self) -> Option<u32>
        ensures some { IfSome result (λ place. place ≡ length self.now.applied + 1) }
        ensures none { IfNone result (2 ^ 32 ≤ length self.now.applied + 1) }
    {
        self.rev().checked_add(1)
    }
}
