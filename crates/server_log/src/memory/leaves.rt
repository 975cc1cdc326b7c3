//! Leaves of incarnations that have stopped, which are wanted before the commands of clients.

ghost use Rattle.std.specs.Prelude.{◌≡◌, ◌++◌, List, fold, filter, slice_get, IfOk};
ghost use Rattle.spec_paxos.specs.declared.record.StateRecord.{StateRecord};
ghost use Rattle.spec_rules.specs.Ballots as rules;
ghost use Rattle.spec_state.specs.State.{inc_of};
ghost use Rattle.server_log.specs.Said.{IsLogSaid};
ghost use Rattle.server_log.specs.Part.{log_of, state_of};

use crate::memory::done::{LogDone, only};
use crate::memory::side::LogSide;
use crate::memory::wants::is_same_command;
use global_state::GlobalState;
use paxos_core::StateError;
use petal_base::{Inc, NoMemory, Sequence};
use petal_command::{Command, ServerNumber};
use std::alloc::{AllocError, Global};

fn is_due(state: &GlobalState, command: &Command) -> bool
    ensures { result ≡ rules.is_due state.now command.now }
{
    match command {
        Command::Leave { server, inc } => match state.inc_in(server.get()) {
            Some(present) => present == *inc,
            None => false,
        },
        _ => false,
    }
}

/// Its own Leave, where the incarnation of it that is In is an earlier one.
fn own_leave(
    alloc: Global,
    me: ServerNumber,
    inc: Inc,
    present: Option<Inc>,
) -> Result<Sequence<Command>, NoMemory>
    ensures { IfOk result (λ leaves. leaves ≡ rules.own_leave me inc present) }
{
    match present {
        Some(earlier) if earlier < inc => Sequence::one(
            alloc,
            Command::Leave {
                server: me,
                inc: earlier,
            },
        ),
        _ => Ok(Sequence::new(alloc)),
    }
}

fn is_leave_before(leave: &Command, other: &Command) -> bool
    ensures { result ≡ rules.leave_before leave.now other.now }
{
    match (leave, other) {
        (
            Command::Leave { server, inc },
            Command::Leave {
                server: other,
                inc: later,
            },
        ) => server.get() < other.get() || server.get() == other.get() && *inc < *later,
        _ => false,
    }
}

/// What stands before, and after it the rest of a list with this Leave in its place, once.
fn with_leave_after(
    prefix: Sequence<Command>,
    rest: &[Command],
    leave: &Command,
) -> Result<Sequence<Command>, NoMemory>
    ensures { IfOk result (λ all. all ≡ prefix ++ rules.with_leave rest.now leave.now) }
{
    let mut all = prefix;
    match rest.split_first() {
        None => {
            all.push(leave.copy())?;
            Ok(all)
        }
        Some((first, more)) => {
            if is_same_command(first, leave) {
                return with_all(all, rest);
            }
            if is_leave_before(leave, first) {
                all.push(leave.copy())?;
                return with_all(all, rest);
            }
            all.push(first.copy())?;
            with_leave_after(all, more, leave)
        }
    }
}

/// These commands after others.
fn with_all(prefix: Sequence<Command>, commands: &[Command]) -> Result<Sequence<Command>, NoMemory>
    ensures { IfOk result (λ all. all ≡ prefix ++ commands.now) }
{
    let mut all = prefix;
    match commands.split_first() {
        None => Ok(all),
        Some((first, more)) => {
            all.push(first.copy())?;
            with_all(all, more)
        }
    }
}

/// The list with this Leave in its place, once.
fn with_leave(
    alloc: Global,
    leaves: &[Command],
    leave: &Command,
) -> Result<Sequence<Command>, NoMemory>
    ensures { IfOk result (λ all. all ≡ rules.with_leave leaves.now leave.now) }
{
    with_leave_after(Sequence::new(alloc), leaves, leave)
}

/// Those that are due.
fn due(alloc: Global, state: &GlobalState, leaves: &[Command]) -> Result<Vec<Command>, AllocError>
    ensures { IfOk result (λ due. due.items ≡ filter (rules.is_due state.now) leaves.now) }
{
    leaves
        .iter()
        .filter(|leave| is_due(state, leave))
        .map(|leave| leave.copy())
        .collect(alloc)
}

/// The list with these Leaves in their places.
fn with_leaves(
    alloc: Global,
    prefix: Sequence<Command>,
    leaves: &[Command],
) -> Result<Sequence<Command>, NoMemory>
    ensures { IfOk result (λ all. all ≡ fold rules.with_leave prefix leaves.now) }
{
    match leaves.split_first() {
        None => Ok(prefix),
        Some((first, more)) => {
            let next = with_leave(alloc, prefix.as_slice(), first)?;
            with_leaves(alloc, next, more)
        }
    }
}

/// The first command of three lists, one after the other.
fn first_of(leaves: &[Command], returning: &[Command], wants: &[Command]) -> Option<Command>
    ensures { result ≡ slice_get (leaves.now ++ returning.now ++ wants.now) 0 }
{
    match (leaves.first(), returning.first(), wants.first()) {
        (Some(first), _, _) => Some(first.copy()),
        (None, Some(first), _) => Some(first.copy()),
        (None, None, Some(first)) => Some(first.copy()),
        (None, None, None) => None,
    }
}

impl LogSide {
    /// An incarnation has stopped.
    ///
    /// # Errors
    /// Out of memory, which changed nothing.
    #[tactic(auto, unfolding(spec_rules::specs::Ballots::on_down))]
    pub fn on_down(
        &mut self,
        alloc: Global,
        server: ServerNumber,
        inc: Inc,
    ) -> Result<LogDone, StateError>
        ensures { (records : List StateRecord) → IsLogSaid self.old self.new records result (rules.on_down (log_of self.old records) server inc) }
    {
        self.leaves = with_leave(
            alloc,
            self.leaves.as_slice(),
            &Command::Leave { server, inc },
        )?;
        Ok(only(Sequence::new(alloc)))
    }

    /// The Leaves that are wanted.
    fn wanted_leaves(&self, alloc: Global) -> Result<Sequence<Command>, NoMemory>
        ensures { IfOk result (λ leaves. leaves ≡ fold rules.with_leave (filter (rules.is_due (state_of self.now)) self.now.leaves)
            (rules.own_leave self.now.voter.me self.now.voter.inc (inc_of (state_of self.now) self.now.voter.me))) }
    {
        let me = self.proposer.me;
        let own = own_leave(alloc, me, self.inc, self.state.inc_in(me.get()))?;
        let due = due(alloc, &self.state, self.leaves.as_slice())?;
        with_leaves(alloc, Sequence::of(due), own.as_slice())
    }

    /// The most urgent of what is wanted: a Leave, or the first of what the server wants so that it returns, or the first command
    /// of a client.
    ///
    /// # Errors
    /// Out of memory.
    pub(crate) fn most_urgent(
        &self,
        alloc: Global,
        returning: &[Command],
    ) -> Result<Option<Command>, NoMemory>
        ensures { IfOk result (λ first. (records : List StateRecord)
            → first ≡ slice_get (rules.wanted self.now.voter (log_of self.now records) returning.now) 0) }
    {
        let leaves = self.wanted_leaves(alloc)?;
        Ok(first_of(leaves.as_slice(), returning, self.wants.as_slice()))
    }
}
