//! A running server does the first job of its queue.

ghost use Rattle.std.specs.Prelude.{◌≡◌, true, false, IfOk};
ghost use Rattle.kept_chains.specs.Kept.{store_of};
ghost use Rattle.server_core.specs.ServerView.{is_spent};
ghost use Rattle.pair_memory.specs.PairMemory.{HasTicketsAt};
ghost use Rattle.memory_server.specs.Booted.{Ended, Worked};
ghost use Rattle.memory_server.specs.Server.{Stands};

use crate::attempt::Attempt;
use crate::recovery::reopen;
use petal_base::Sequence;
use petal_disk::Disk;
use server_core::{ServerCore, WorkError};
use server_host::HostError;
use server_store::Store;
use state_store::StateStore;
use std::alloc::Global;

/// Does the first job of the queue. A server of which a device has no room for the commit stops, and so does one of which a device
/// fails: then both stores are opened again, and tell whether the commit was made.
///
/// # Errors
/// Out of memory; `Unexpected` where a device fails twice while it is opened again.
pub fn work_first<D: Disk>(
    alloc: Global,
    core: &mut ServerCore,
    store: &mut Store<D>,
    state: &mut StateStore<D>,
) -> Result<Attempt, HostError>
    requires runs { core.old.running ≡ true }
    requires goes_on { is_spent core.old (store_of store.old) ≡ false }
    requires tickets { HasTicketsAt core.old.side store.old }
    ensures ended { IfOk result (λ attempt. Ended D.Disk (record { core = core.old; store = store.old; state = state.old })
        (record { core = core.new; store = store.new; state = state.new }) attempt.end) }
    ensures worked { IfOk result (λ attempt. D.observable → Stands D.Disk (record { core = core.old; store = store.old; state = state.old })
        → Worked D.Disk (record { core = core.old; store = store.old; state = state.old })
        (record { core = core.new; store = store.new; state = state.new }) attempt.end attempt.letters) }
{
    let before = state.records();
    match core.work(alloc, store, state) {
        Ok(Some(letters)) => Ok(Attempt::done(letters)),
        Ok(None) => Ok(Attempt::done(Sequence::new(alloc))),
        Err(WorkError::NoRoom) => Ok(Attempt::done(core.stop(alloc))),
        Err(WorkError::Failed) => {
            let letters = core.stop(alloc);
            let end = reopen(alloc, store, state, before)?;
            Ok(Attempt::failed(letters, end))
        }
        Err(WorkError::NoMemory) => Err(HostError::NoMemory),
        Err(WorkError::Exhausted) => Err(HostError::Exhausted),
    }
}
