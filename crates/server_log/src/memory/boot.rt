//! A server that runs again: what its state device knows to be chosen is applied.

ghost use Rattle.std.specs.Prelude.{◌≡◌, ◌<◌, ◌^◌, length, IfOk};
ghost use Rattle.spec_rules.specs.Entries.{known_run};
ghost use Rattle.spec_rules.specs.Log.{Log};
ghost use Rattle.spec_state.specs.Command.{state_after};
ghost use Rattle.server_log.specs.Part.{new_part};

use crate::memory::entries::known_run;
use crate::memory::side::LogSide;
use global_state::GlobalState;
use paxos_core::{Proposer, ServerCount, StateStore};
use petal_base::{Inc, NoMemory, Sequence};
use petal_command::{Command, ServerNumber};
use petal_disk::Disk;
use std::alloc::Global;

/// The global state, as these entries make it.
fn state_after(alloc: Global, servers: u8, entries: &[Command]) -> Result<GlobalState, NoMemory>
    requires { length entries.now < 2 ^ 32 }
    ensures { IfOk result (λ state. state ≡ state_after servers entries.now) }
{
    let mut state = GlobalState::new(alloc, servers)?;
    for entry in entries {
        state = state.next(alloc, entry)?;
    }
    Ok(state)
}

impl LogSide {
    /// An incarnation of one of so many servers, which has applied the entries that its state device knows to be chosen, up to
    /// the first that it does not know.
    ///
    /// # Errors
    /// Out of memory.
    pub fn boot<D: Disk>(
        alloc: Global,
        me: ServerNumber,
        inc: Inc,
        servers: ServerCount,
        state: &StateStore<D>,
    ) -> Result<LogSide, NoMemory>
        ensures { (log : Log) → log.records ≡ state.now.records → IfOk result (λ side. side
            ≡ record (new_part (record { me = me; inc = inc; servers = servers })) { applied = known_run log 1 state.now.region.count }) }
    {
        let applied = known_run(alloc, state, 0, state.records())?;
        Ok(LogSide {
            inc,
            state: state_after(alloc, servers.get(), applied.as_slice())?,
            applied,
            proposer: Proposer::new(me, servers),
            refused: 0,
            leaves: Sequence::new(alloc),
            wants: Sequence::new(alloc),
            asks: 0,
        })
    }
}
