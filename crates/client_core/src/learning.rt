//! The entries of a letter, applied one after the other.

ghost use Rattle.std.specs.Prelude.{◌≡◌, ◌++◌, [], ◌∷◌, None, OnOk, IfOk, IsErrOf};
ghost use Rattle.spec_state.specs.Command.{after};
ghost use Rattle.spec_rules.specs.State.{servers_of};
ghost use Rattle.spec_rules.specs.World.{greatest_u32};
ghost use Rattle.spec_rules.specs.Clients.{next_entries, takes_all, takes_entry};
ghost use Rattle.client_core.specs.ClientView.{state_of};
ghost use Rattle.client_core.specs.declared.error.ClientError.TheVariants as error;
ghost use Rattle.client_core.specs.Learning.{learnt};

use crate::judging::{Fate, judged};
use crate::{ClientCore, ClientError};
use global_state::GlobalState;
use petal_base::{Change, GhostList, NoMemory, Rev};
use petal_command::Command;
use std::alloc::Global;

/// A client on its way through the entries of a letter: the state that they make, and what becomes of its open request. The
/// client itself stays as it is, for where memory runs out.
#[derive(Drop)]
pub struct Learning {
    pub state: GlobalState,
    pub applied: GhostList<Command>,
    pub fate: Fate,
}

// The list stays as it is.
pub struct Kept;

impl Change<Command> for Kept {
    ghost changed = { λ items item. items };
}

impl Learning {
    /// One entry more is applied.
    #[tactic(auto, using(spec_rules::proofs::Applied::after_keeps))]
    fn apply(&mut self, alloc: Global, entry: &Command) -> Result<(), ClientError>
        ensures servers { OnOk result (servers_of self.new.state ≡ servers_of self.old.state) }
        ensures state { OnOk result (self.new.state ≡ after self.old.state entry.now) }
        ensures applied { OnOk result (self.new.applied.items ≡ self.old.applied.items ++ entry.now ∷ []) }
        ensures fate { self.new.fate ≡ self.old.fate }
        ensures exhausted { IsErrOf result error.Exhausted → self.old.state.rev ≡ greatest_u32 }
    {
        if self.state.rev() == Rev::MAX {
            return Err(ClientError::Exhausted);
        }
        self.state.apply(alloc, entry)?;
        self.applied = self.applied.with(entry);
        Ok(())
    }
}

impl ClientCore {
    /// The entries of a letter that come next. They begin after a revision; there is none where that leaves a gap.
    #[tactic(auto, using(spec_rules::proofs::Applied::rev_after))]
    pub(crate) fn next_entries<'a>(&self, after: Rev, commands: &'a [Command]) -> &'a [Command]
        ensures { result.now ≡ next_entries self.now.client after commands.now }
    {
        let rev = self.rev();
        if after > rev {
            return &commands[..0];
        }
        match commands.get((rev - after) as usize..) {
            Some(entries) => entries,
            None => &commands[..0],
        }
    }

    /// The client as it is before the first of these entries.
    pub(crate) fn begin(&self, first: &Command) -> Result<Learning, NoMemory>
        ensures state { IfOk result (λ learning. learning.state ≡ state_of self.now) }
        ensures applied { IfOk result (λ learning. learning.applied.items ≡ self.now.client.applied) }
        ensures learnt { IfOk result (λ learning. learnt self.now.client self.now.client.asked learning
            ≡ record { state = state_of self.now; client = self.now.client; answer = None }) }
    {
        Ok(Learning {
            state: self.state.copy()?,
            applied: self.applied.changed::<Kept>(first),
            fate: Fate::Waits(self.witnesses()),
        })
    }

    /// One entry more is applied, and may answer the open request.
    fn take(
        &self,
        alloc: Global,
        learning: &mut Learning,
        entry: &Command,
    ) -> Result<(), ClientError>
        requires { self.now.servers ≡ servers_of learning.old.state }
        ensures taken { OnOk result (learnt self.now.client self.now.client.asked learning.new
            ≡ takes_entry self.now.me (learnt self.now.client self.now.client.asked learning.old) entry.now) }
        ensures servers { OnOk result (self.now.servers ≡ servers_of learning.new.state) }
    {
        learning.apply(alloc, entry)?;
        let Some(open) = &self.asked else {
            return Ok(());
        };
        let Fate::Waits(witnesses) = learning.fate else {
            return Ok(());
        };
        learning.fate = judged(
            self.servers,
            &learning.state,
            self.id,
            open,
            witnesses,
            entry,
        )?;
        Ok(())
    }

    /// All these entries are applied.
    pub(crate) fn take_all(
        &self,
        alloc: Global,
        learning: &mut Learning,
        entries: &[Command],
    ) -> Result<(), ClientError>
        requires { self.now.servers ≡ servers_of learning.old.state }
        ensures taken { OnOk result (learnt self.now.client self.now.client.asked learning.new
            ≡ takes_all self.now.me (learnt self.now.client self.now.client.asked learning.old) entries.now) }
        ensures servers { OnOk result (self.now.servers ≡ servers_of learning.new.state) }
    {
        for entry in entries {
            self.take(alloc, learning, entry)?;
        }
        Ok(())
    }
}
