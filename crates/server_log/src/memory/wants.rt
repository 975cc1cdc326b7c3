//! Commands that are wanted.

ghost use Rattle.std.specs.Prelude.{◌≡◌, List};
ghost use Rattle.petal_command.specs.Same.{has_command, same_command};
ghost use Rattle.spec_paxos.specs.declared.record.StateRecord.{StateRecord};
ghost use Rattle.spec_rules.specs.Ballots as ballots;
ghost use Rattle.spec_rules.specs.Entries as entries;
ghost use Rattle.server_log.specs.Said.{IsLogSaid};
ghost use Rattle.server_log.specs.Part.{log_of};

use crate::memory::done::{LogDone, only};
use crate::memory::side::LogSide;
use paxos_core::StateError;
use petal_base::Sequence;
use petal_command::Command;
use std::alloc::Global;

/// Whether two commands are one.
pub(crate) fn is_same_command(a: &Command, b: &Command) -> bool
    ensures { result ≡ same_command a.now b.now }
{
    *a == *b
}

fn has_command(commands: &[Command], command: &Command) -> bool
    ensures { result ≡ has_command commands.now command.now }
{
    commands.iter().any(|other| is_same_command(command, other))
}

/// The commands but this one. It takes no memory.
pub(crate) fn but(command: &Command, commands: Sequence<Command>) -> Sequence<Command>
    ensures { result ≡ entries.but command.now commands }
{
    let mut commands = commands.into_vec();
    commands.retain(|other| !is_same_command(command, other));
    Sequence::of(commands)
}

impl LogSide {
    /// A client's command is wanted where it is neither applied nor wanted already.
    ///
    /// # Errors
    /// Out of memory, which changed nothing.
    #[tactic(auto, unfolding(spec_rules::specs::Ballots::on_propose))]
    pub fn on_propose(&mut self, alloc: Global, command: &Command) -> Result<LogDone, StateError>
        ensures { (records : List StateRecord) → IsLogSaid self.old self.new records result (ballots.on_propose (log_of self.old records) command.now) }
    {
        if !has_command(self.applied.as_slice(), command)
            && !has_command(self.wants.as_slice(), command)
        {
            self.wants.push(command.copy())?;
        }
        Ok(only(Sequence::new(alloc)))
    }
}
