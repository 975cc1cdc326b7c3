//! Two devices of which one failed in a job.

ghost use Rattle.std.specs.Prelude.{◌≡◌, ◌≤◌, ◌&&◌, ℕ, List, [], length, if◌then◌else◌, IfOk, OnOk};
ghost use Rattle.kept_chains.specs.Standing.{StandsAsEither};
ghost use Rattle.kept_chains.specs.Kept.{store_of};
ghost use Rattle.server_log.specs.Done as logs;
ghost use Rattle.pair_memory.specs.JobResult.{HoldsAt};
ghost use Rattle.server_store.specs.Holdings.{Holdings, kept_in};
ghost use Rattle.spec_paxos.specs.declared.record.StateRecord.{StateRecord};
ghost use Rattle.spec_rules.specs.declared.step.CommitEnd.TheVariants as commit_end;
ghost use Rattle.state_store.specs.Device.{StandsForEither};
ghost use Rattle.memory_server.specs.Recovery.{CommitsOnce, IsReread, Shown, Shows, shown_in};

use crate::failing::of_state;
use crate::opening::{reopen_state, reopen_store};
use petal_disk::Disk;
use server_host::HostError;
use server_store::Store;
use spec_rules::CommitEnd;
use state_store::StateStore;
use std::alloc::Global;

/// Opens both stores again, as after a crash in which no commit was under way. They are as before, but nothing is set apart.
///
/// # Errors
/// Out of memory; `Unexpected` where a device fails twice.
pub fn reread<D: Disk>(
    alloc: Global,
    store: &mut Store<D>,
    state: &mut StateStore<D>,
) -> Result<(), HostError>
    ensures again { OnOk result (D.observable → HoldsAt D.Disk store.old → logs.HoldsAt D.Disk state.old
        → IsReread D.Disk store.old store.new state.old state.new) }
    ensures tickets { OnOk result (store.new.tickets ≡ []) }
    ensures later { (D.faults store.old.disk ≤ D.faults store.new.disk) × (D.faults state.old.disk ≤ D.faults state.new.disk) }
    ensures run { D.came_to store.old.disk store.new.disk × D.came_to state.old.disk state.new.disk }
{
    let before = state.records();
    let _end = reopen(alloc, store, state, before)?;
    Ok(())
}

/// How the job ended: its commit was made, where either device has changed.
fn end_by(same_store: bool, same_records: bool) -> CommitEnd
    ensures { result ≡ (if same_store && same_records then commit_end.Before else commit_end.After) }
{
    if same_store && same_records {
        CommitEnd::Before
    } else {
        CommitEnd::After
    }
}

/// Opens both stores again, as after a crash. The answer is whether the one commit of the job before was made: it was, where the data
/// device keeps another thing than the store in memory did, or the state device has not as many records as before the job.
///
/// # Errors
/// Out of memory; `Unexpected` where a device fails twice: how the job ended is not known then.
pub fn reopen<D: Disk>(
    alloc: Global,
    store: &mut Store<D>,
    state: &mut StateStore<D>,
    before: u32,
) -> Result<CommitEnd, HostError>
    ensures ends { (was : Holdings D) (records : List StateRecord) (will : Shown) → IfOk result (λ end. D.observable
        → kept_in store.old ≡ kept_in was
        → ((c : List ℕ) → D.may_leave store.old.disk c → StandsAsEither was will.store c)
        → ((c : List ℕ) → D.may_leave state.old.disk c → StandsForEither records will.records c)
        → before ≡ length records → CommitsOnce D.Disk store.old.disk was records will
        → Shows end (shown_in was records) will (store_of store.new) state.new.records) }
    ensures holds { (was : Holdings D) (will : Shown) → OnOk result (D.observable
        → ((c : List ℕ) → D.may_leave store.old.disk c → StandsAsEither was will.store c)
        → HoldsAt D.Disk store.new) }
    ensures tickets { OnOk result (store.new.tickets ≡ []) }
    ensures state_holds { (records : List StateRecord) (will : Shown) → OnOk result (D.observable
        → ((c : List ℕ) → D.may_leave state.old.disk c → StandsForEither records will.records c)
        → logs.HoldsAt D.Disk state.new) }
    ensures later { (D.faults store.old.disk ≤ D.faults store.new.disk) × (D.faults state.old.disk ≤ D.faults state.new.disk) }
    ensures run { D.came_to store.old.disk store.new.disk × D.came_to state.old.disk state.new.disk }
{
    let same = reopen_store(alloc, store)?;
    match reopen_state(alloc, state) {
        Ok(()) => Ok(end_by(same, state.records() == before)),
        Err(error) => Err(of_state(error)),
    }
}
