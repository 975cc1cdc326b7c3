//! The state as the layers above see it.

ghost use Rattle.std.specs.Prelude.{◌≡◌, ◌<◌, ◌-◌, ◌^◌, IfOk, OnOk, OnErr, option_copied, slice_get};
ghost use Rattle.global_tables.specs.View.{head};
ghost use Rattle.spec_state.specs.State.{start, inc_of};
ghost use Rattle.spec_state.specs.Command.{after, may_join};
ghost use Rattle.spec_state.specs.Bound.{IsWithin};

use global_tables::Fence;
use petal_base::{Inc, NoMemory, Rev, ServerId};
use petal_command::Command;
use state_fold::Tables;
use std::alloc::Global;
use std::marker::Model;

/// What the entries applied so far have made. Contracts see the fold of these entries.
#[derive(Drop)]
pub struct GlobalState {
    pub(crate) tables: Tables,
}

impl Model for GlobalState {
    ghost use Rattle.spec_state.specs.State.{State};
    ghost use Rattle.spec_state.specs.Bound.{IsWithin};

    ghost Value = { State };

    ghost view = { λ g. g.tables };

    ghost invariant = { λ g. IsWithin g.tables.rev g.tables };
}

impl GlobalState {
    /// Before the first entry: all servers In with incarnation 1, and no disk.
    pub fn new(alloc: Global, servers: u8) -> Result<GlobalState, NoMemory>
        ensures { IfOk result (λ state. state ≡ start servers) }
    {
        Ok(GlobalState {
            tables: Tables::start(alloc, servers)?,
        })
    }

    /// One entry more. It takes time and memory by the size of the tables, whatever the length of the log.
    pub fn apply(&mut self, alloc: Global, command: &Command) -> Result<(), NoMemory>
        requires { self.old.rev < 2 ^ 32 - 1 }
        ensures ok { OnOk result (self.new ≡ after self.old command.now) }
        ensures err { OnErr result (self.new ≡ self.old) }
    {
        let next = self.tables.next(alloc, command)?;
        self.tables = next;
        Ok(())
    }

    /// The state with one entry more, as `apply` makes it.
    pub fn next(&self, alloc: Global, command: &Command) -> Result<GlobalState, NoMemory>
        requires { self.now.rev < 2 ^ 32 - 1 }
        ensures { IfOk result (λ next. next ≡ after self.now command.now) }
    {
        Ok(GlobalState {
            tables: self.tables.next(alloc, command)?,
        })
    }

    /// The same state again.
    pub fn copy(&self) -> Result<GlobalState, NoMemory>
        ensures { IfOk result (λ state. state ≡ self.now) }
    {
        Ok(GlobalState {
            tables: self.tables.copy()?,
        })
    }

    /// How many entries have been applied, and with that a bound for every number of the state.
    pub fn rev(&self) -> Rev
        ensures value { result ≡ self.now.rev }
        ensures within { IsWithin self.now.rev self.now }
    {
        self.tables.rev
    }

    /// The incarnation with which a server is In.
    pub fn inc_in(&self, server: ServerId) -> Option<Inc>
        ensures { result ≡ inc_of self.now server }
    {
        self.tables.inc_of(server)
    }

    /// Whether a server that is Out may come In as this incarnation: it was In as an earlier one only.
    pub fn may_join(&self, server: ServerId, inc: Inc) -> bool
        ensures { result ≡ may_join (slice_get self.now.view.members server) inc }
    {
        state_fold::may_join(self.tables.view.member(server), inc)
    }

    /// The active fence.
    pub fn fence(&self) -> Option<&Fence>
        ensures { option_copied result ≡ head self.now.view.queue }
    {
        self.tables.view.head()
    }
}
