//! Entries of the log that are known, and that are applied.

ghost use Rattle.std.specs.Prelude.{◌≡◌, ◌≤◌, ◌+◌, ◌++◌, ◌∷◌, [], length, option_map, IfOk, IfSome, OnOk, OnErr};
ghost use Rattle.spec_rules.specs.Entries as rules;
ghost use Rattle.spec_rules.specs.Log.{Log, known, next_place};
ghost use Rattle.server_log.specs.Entered.{IsNext, entry_of};
ghost use Rattle.server_log.specs.Part.{log_of, sender_of, state_of};
ghost use Rattle.server_log.specs.Said.{IsBy};

use crate::memory::done::{LogDone, only};
use crate::memory::side::LogSide;
use crate::memory::wants::but;
use global_state::GlobalState;
use paxos_core::StateStore;
use petal_base::{NoMemory, Rev, Sequence};
use petal_command::Command;
use petal_disk::Disk;
use spec_paxos::Phase;
use std::alloc::Global;

/// The next entry, and the state with it.
#[derive(Drop)]
pub struct Next {
    pub entry: Command,
    pub state: GlobalState,
}

/// An entry that was applied, and the state before it.
#[derive(Drop)]
pub struct Entered {
    pub entry: Command,
    pub before: GlobalState,
}

/// One entry more: the state with it, and it among those applied. Gives it, with the state before.
fn enter(
    state: &mut GlobalState,
    applied: &mut Sequence<Command>,
    next: Next,
) -> Result<Entered, NoMemory>
    ensures entry { IfOk result (λ entered. entered.entry ≡ next.entry) }
    ensures before { IfOk result (λ entered. entered.before ≡ state.old) }
    ensures state { OnOk result (state.new ≡ next.state) }
    ensures applied { OnOk result (applied.new ≡ applied.old ++ next.entry ∷ []) }
    ensures err { OnErr result ((state.new ≡ state.old) × (applied.new ≡ applied.old)) }
{
    applied.push(next.entry.copy())?;
    Ok(Entered {
        entry: next.entry,
        before: std::mem::replace(state, next.state),
    })
}

/// The commands known for the places after this revision, up to the first that is not known, and so many at most.
///
/// # Errors
/// Out of memory.
pub fn known_run<D: Disk>(
    alloc: Global,
    state: &StateStore<D>,
    rev: Rev,
    most: u32,
) -> Result<Sequence<Command>, NoMemory>
    ensures run { (log : Log) → log.records ≡ state.now.records → IfOk result (λ run. run ≡ rules.known_run log (rev + 1) most) }
    ensures few { IfOk result (λ run. length run ≤ most) }
{
    let mut run = Sequence::new(alloc);
    for told in 0..most {
        let Some(command) = state.chosen(rev as u64 + 1 + told as u64) else {
            return Ok(run);
        };
        run.push(command)?;
    }
    Ok(run)
}

impl LogSide {
    /// The next entry, where it is known, with the state that it makes.
    ///
    /// # Errors
    /// Out of memory.
    pub fn next_entry<D: Disk>(
        &self,
        alloc: Global,
        state: &StateStore<D>,
    ) -> Result<Option<Next>, NoMemory>
        ensures { IfOk result (IsNext self.now state.now.records) }
    {
        match state.chosen(self.next_place()) {
            Some(entry) => {
                let state = self.state.next(alloc, &entry)?;
                Ok(Some(Next { entry, state }))
            }
            None => Ok(None),
        }
    }

    /// The next entry is applied, as `next_entry` told it. Gives it too, with the state before it.
    ///
    /// # Errors
    /// Out of memory. Nothing changed.
    #[tactic(auto, using(crate::proofs::AppliedJobs::later_jobs), unfolding(spec_rules::specs::Entries::applies))]
    pub fn apply<D: Disk>(
        &mut self,
        alloc: Global,
        state: &StateStore<D>,
        found: Option<Next>,
    ) -> Result<(LogDone, Option<Entered>), NoMemory>
        requires next { IsNext self.old state.now.records found }
        ensures done { IfOk result (λ out. IsBy (sender_of self.old) (log_of self.new state.now.records) out.0
            (rules.applies (log_of self.old state.now.records))) }
        ensures voter { self.new.voter ≡ self.old.voter }
        ensures entry { IfOk result (λ out. option_map entry_of out.1
            ≡ known (log_of self.old state.now.records) (next_place (log_of self.old state.now.records))) }
        ensures before { IfOk result (λ out. IfSome out.1 (λ entered. entered.before ≡ state_of self.old)) }
        ensures err { OnErr result (self.new ≡ self.old) }
    {
        let Some(found) = found else {
            return Ok((only(Sequence::new(alloc)), None));
        };
        let next = self.next_place() + 1;
        let entered = enter(&mut self.state, &mut self.applied, found)?;
        self.proposer.phase = Phase::Idle;
        self.refused = 0;
        let wants = std::mem::replace(&mut self.wants, Sequence::new(alloc));
        self.wants = but(&entered.entry, wants);
        let done = LogDone {
            letters: Sequence::new(alloc),
            apply: state.chosen(next).is_some(),
            again: None,
        };
        Ok((done, Some(entered)))
    }
}
