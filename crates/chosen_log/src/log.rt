//! Learnt places.

ghost use Rattle.std.specs.Prelude.{◌≡◌, ℕ, ◌+◌, ◌≤◌, ◌<◌, ◌==◌, [], List, length, take, drop, slice_get, unwrap_or};
ghost use Rattle.std.specs.Prelude.{if◌then◌else◌, Some, None, OnOk, OnErr, is_some};
ghost use Rattle.std.specs.Ordering.{nat_cmp};
ghost use Rattle.std.specs.BTreeMap.{BTreeMap, get};
ghost use Rattle.petal_command.specs.declared.command.Command.{Command};
ghost use Rattle.chosen_log.specs.Log.{learnt, with_learnt, IsLongestRun};

use petal_base::{NoMemory, Rev};
use petal_command::Command;
use std::alloc::Global;
use std::collections::BTreeMap;
use std::marker::Model;

/// The chosen commands that were learnt, by place. Contracts see the learnt places with their commands, by rising place.
#[derive(Drop)]
pub struct ChosenLog {
    places: BTreeMap<u64, Command>,
    run: Vec<Command>,
}

impl Model for ChosenLog {
    ghost use Rattle.std.specs.Prelude.{List, ℕ};
    ghost use Rattle.petal_command.specs.declared.command.Command.{Command};
    ghost use Rattle.chosen_log.specs.Log.{IsLongestRun};

    ghost Value = { List (ℕ × Command) };

    ghost view = { λ a. a.places.entries };

    ghost invariant = { λ a. IsLongestRun a.places.entries a.run.items };
}

impl ChosenLog {
    /// Nothing is learnt. It takes no memory.
    pub fn new(alloc: Global) -> ChosenLog
        ensures { result ≡ [] }
    {
        ChosenLog {
            places: BTreeMap::new(alloc),
            run: Vec::new(alloc),
        }
    }

    /// The command was chosen for the place. A place that is known stays as it is.
    pub fn learn(&mut self, place: u32, command: Command) -> Result<(), NoMemory>
        ensures ok { OnOk result (self.new ≡ with_learnt self.old place command) }
        ensures err { OnErr result (self.new ≡ self.old) }
    {
        let place = u64::from(place);
        if self.places.contains_key(&place) {
            return Ok(());
        }
        let before = self.run.len();
        if extend(&mut self.run, &self.places, place, &command).is_err()
            || self.places.insert(place, command).is_err()
        {
            self.run.truncate(before);
            return Err(NoMemory);
        }
        Ok(())
    }

    /// The commands of the longest run of learnt places from 1.
    pub fn prefix(&self) -> &[Command]
        ensures { IsLongestRun self.now result.now }
    {
        self.run.as_slice()
    }

    /// What of that run stands after its first `rev` commands.
    pub fn since(&self, rev: Rev) -> &[Command]
        ensures { (run : List Command) → IsLongestRun self.now run → result.now ≡ drop rev run }
    {
        let rev = self.run.len().min(rev as usize);
        &self.run[rev..]
    }
}

/// Lengthens the run by this place, where it is the next one, and by the learnt places that follow it.
fn extend(
    run: &mut Vec<Command>,
    places: &BTreeMap<u64, Command>,
    place: u64,
    command: &Command,
) -> Result<(), NoMemory>
    requires run { IsLongestRun places.now.entries run.old.items }
    requires new { learnt places.now.entries place ≡ None }
    ensures front { take (length run.old.items) run.new.items ≡ run.old.items }
    ensures ok { OnOk result ((k : ℕ) → k ≤ length run.new.items
        → slice_get run.new.items k ≡ (if k + 1 == place then Some command.now else learnt places.now.entries (k + 1))) }
{
    if run.len() as u64 + 1 != place {
        return Ok(());
    }
    run.push(command.copy())?;
    while let Some(next) = places.get(&(run.len() as u64 + 1)) {
        run.push(next.copy())?;
    }
    Ok(())
}
