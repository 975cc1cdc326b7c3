//! A stopped server boots.

ghost use Rattle.std.specs.Prelude.{◌≡◌, ◌<◌, ◌≤◌, [], false, is_some, None, IfOk, IfSome, OnErr};
ghost use Rattle.server_log.specs.Done as logs;
ghost use Rattle.pair_memory.specs.JobResult.{HoldsAt};
ghost use Rattle.spec_paxos.specs.Kept.{inc_of};
ghost use Rattle.spec_rules.specs.World.{greatest_u32};
ghost use Rattle.server_store.specs.Slots.{slot_start};
ghost use Rattle.memory_server.specs.Booted.{Booted, BootedBlank, Ended, EndedBlank, core_at};
ghost use Rattle.memory_server.specs.Server.{store_at, store_on};

use crate::attempt::Attempt;
use crate::failing::of_store;
use crate::recovery::{reopen, reread};
use petal_base::Sequence;
use petal_disk::Disk;
use server_core::{ServerCore, WorkError};
use server_host::HostError;
use server_store::{Store, StoreError};
use spec_rules::CommitEnd;
use state_store::StateStore;
use std::alloc::Global;

/// A stopped server's incarnation is the one that its state device tells after a boot in which that device failed.
fn raise_at(end: CommitEnd, core: &mut ServerCore)
    requires stopped { core.old.running ≡ false }
    requires raises { core.old.log.voter.inc < greatest_u32 }
    ensures { core.new ≡ core_at end core.old }
{
    match end {
        CommitEnd::Before => {}
        CommitEnd::After => core.raise(),
    }
}

/// A stopped server runs as its next incarnation. Where the journal of its state device has no room it stays stopped, and so does
/// one of which the state device fails: then both stores are opened again, and tell whether the incarnation was raised.
///
/// # Errors
/// Out of memory; `Unexpected` where a device fails twice while it is opened again.
fn boot_opened<D: Disk>(
    alloc: Global,
    core: &mut ServerCore,
    store: &mut Store<D>,
    state: &mut StateStore<D>,
) -> Result<Attempt, HostError>
    requires stopped { core.old.running ≡ false }
    requires raises { core.old.log.voter.inc < greatest_u32 }
    requires known { core.old.log.voter.inc ≡ inc_of state.old.records }
    requires opened { store.old.tickets ≡ [] }
    ensures ended { IfOk result (λ attempt. Ended D.Disk (record { core = core.old; store = store.old; state = state.old })
        (record { core = core.new; store = store.new; state = state.new }) attempt.end) }
    ensures booted { IfOk result (λ attempt. D.observable → HoldsAt D.Disk store.old → logs.HoldsAt D.Disk state.old
        → Booted D.Disk (record { core = core.old; store = store.old; state = state.old })
        (record { core = core.new; store = store.new; state = state.new }) attempt.end attempt.letters) }
{
    let before = state.records();
    match core.boot(alloc, state) {
        Ok(letters) => Ok(Attempt::done(letters)),
        Err(WorkError::NoRoom) => Ok(Attempt::done(Sequence::new(alloc))),
        Err(WorkError::Failed) => {
            let end = reopen(alloc, store, state, before)?;
            raise_at(end, core);
            Ok(Attempt::failed(Sequence::new(alloc), end))
        }
        Err(WorkError::NoMemory) => Err(HostError::NoMemory),
        Err(WorkError::Exhausted) => Err(HostError::Exhausted),
    }
}

/// A stopped server boots: both of its stores are opened again, and it runs as its next incarnation, or stays stopped as the
/// devices tell.
///
/// # Errors
/// Out of memory; `Unexpected` where a device fails twice that is read, or where the state device tells another incarnation.
fn boot_again<D: Disk>(
    alloc: Global,
    core: &mut ServerCore,
    store: &mut Store<D>,
    state: &mut StateStore<D>,
) -> Result<Attempt, HostError>
    requires stopped { core.old.running ≡ false }
    requires raises { core.old.log.voter.inc < greatest_u32 }
    ensures ended { IfOk result (λ attempt. Ended D.Disk (record { core = core.old; store = store.old; state = state.old })
        (record { core = core.new; store = store.new; state = state.new }) attempt.end) }
    ensures booted { IfOk result (λ attempt. D.observable → HoldsAt D.Disk store.old → logs.HoldsAt D.Disk state.old
        → Booted D.Disk (record { core = core.old; store = store.old; state = state.old })
        (record { core = core.new; store = store.new; state = state.new }) attempt.end attempt.letters) }
{
    reread(alloc, store, state)?;
    if state.inc() != core.inc() {
        return Err(HostError::Unexpected);
    }
    let attempt = boot_opened(alloc, core, store, state)?;
    Ok(attempt)
}

/// A stopped server boots whose data device is a blank one: a store is made there, which waits to be filled, and then it boots as
/// any other. Where that device fails the server stays stopped, and the device is handed back: it is as good as blank.
///
/// # Errors
/// As of [`boot_again`].
fn boot_blank<D: Disk>(
    alloc: Global,
    core: &mut ServerCore,
    store: &mut Store<D>,
    state: &mut StateStore<D>,
    disk: D,
) -> Result<(Attempt, Option<D>), HostError>
    requires stopped { core.old.running ≡ false }
    requires raises { core.old.log.voter.inc < greatest_u32 }
    requires room { slot_start store.old.slots ≤ D.size disk }
    ensures ended { IfOk result (λ out. EndedBlank D.Disk (record { core = core.old; store = store_on disk store.old; state = state.old })
        (record { core = core.new; store = store.new; state = state.new }) out.1 out.0.end) }
    ensures booted { IfOk result (λ out. D.observable → logs.HoldsAt D.Disk state.old
        → BootedBlank D.Disk (record { core = core.old; store = store_on disk store.old; state = state.old })
        (record { core = core.new; store = store.new; state = state.new }) out.1 out.0.end out.0.letters) }
{
    match Store::format(alloc, disk, store.slots(), true) {
        Ok(made) => {
            *store = made;
            let attempt = boot_again(alloc, core, store, state)?;
            Ok((attempt, None))
        }
        Err((disk, StoreError::Failed)) => {
            let attempt = Attempt::failed(Sequence::new(alloc), CommitEnd::Before);
            Ok((attempt, Some(disk)))
        }
        Err((_, error)) => Err(of_store(error)),
    }
}

/// A stopped server boots: both of its stores are opened again, and it runs as its next incarnation, or stays stopped as the
/// devices tell. Where a blank device has taken the place of its data device, a store is made there before, which waits to be filled;
/// where that fails the server stays stopped, and the device is still as good as blank.
///
/// # Errors
/// Out of memory; `Unexpected` where a device fails twice that is read, or where the state device tells another incarnation. Then a blank
/// device is gone.
pub fn boot_stopped<D: Disk>(
    alloc: Global,
    core: &mut ServerCore,
    store: &mut Store<D>,
    state: &mut StateStore<D>,
    blank: &mut Option<D>,
) -> Result<Attempt, HostError>
    requires stopped { core.old.running ≡ false }
    requires raises { core.old.log.voter.inc < greatest_u32 }
    requires room { IfSome blank.old (λ disk. slot_start store.old.slots ≤ D.size disk) }
    ensures gone { OnErr result (blank.new ≡ None) }
    ensures ended { IfOk result (λ attempt. EndedBlank D.Disk (record { core = core.old; store = store_at blank.old store.old; state = state.old })
        (record { core = core.new; store = store.new; state = state.new }) blank.new attempt.end) }
    ensures booted { IfOk result (λ attempt. D.observable → (is_some blank.old ≡ false → HoldsAt D.Disk store.old) → logs.HoldsAt D.Disk state.old
        → BootedBlank D.Disk (record { core = core.old; store = store_at blank.old store.old; state = state.old })
        (record { core = core.new; store = store.new; state = state.new }) blank.new attempt.end attempt.letters) }
{
    match blank.take() {
        None => boot_again(alloc, core, store, state),
        Some(disk) => {
            let (attempt, back) = boot_blank(alloc, core, store, state, disk)?;
            *blank = back;
            Ok(attempt)
        }
    }
}
