//! A store whose device may fail while it is opened again.
//!
//! Such a device is asked once more, before its server gives up. A plan makes one call fail, and a disk in memory never fails of
//! itself, so that over such disks the second opening always meets none, even where a job failed by the plan of the one device and
//! the other has a plan for its next read.

ghost use Rattle.std.specs.Prelude.{◌≡◌, ◌≤◌, ◌+◌, ◌↔◌, ℕ, Bool, List, [], true, IfOk, IfErr, IsErrOf, OnOk};
ghost use Rattle.server_log.specs.Done as logs;
ghost use Rattle.spec_paxos.specs.declared.record.StateRecord.{StateRecord};
ghost use Rattle.server_store.specs.Holdings.{kept_in};
ghost use Rattle.server_store.specs.Opening.{IsReread, Reopened};
ghost use Rattle.server_store.specs.declared.reread.Reread.TheVariants as reread;
ghost use Rattle.server_store.specs.Shown.{Picture, Shows as ShowsPicture};
ghost use Rattle.state_store.specs.Device.{StandsFor};
ghost use Rattle.data_device.specs.declared.record.StoreRecord.{StoreRecord};

use crate::failing::of_store;
use petal_disk::Disk;
use server_host::HostError;
use server_store::{Reread, Store, StoreError};
use state_store::{StateError, StateStore};
use std::alloc::Global;

/// Opens a server's store again, as after a crash; once more where the device fails. The answer is whether the device shows a store,
/// and whether that keeps what was held in memory.
///
/// # Errors
/// `Failed` where the device failed both times; else as of [`Store::reopen`].
fn read_store<D: Disk>(alloc: Global, store: &mut Store<D>) -> Result<Reread, StoreError>
    ensures left { D.observable → D.may_leave store.old.disk (D.seen store.new.disk) }
    ensures same { (slots : ℕ) (fresh : Bool) (recorded : List StoreRecord) (picture : Picture)
        → IfOk result (λ found. IsReread found → D.observable → ShowsPicture (D.seen store.new.disk) slots fresh recorded picture
        → Reopened slots fresh recorded picture store.new (D.seen store.new.disk) (D.may_leave store.new.disk)) }
    ensures no_tickets { IfOk result (λ found. IsReread found → store.new.tickets ≡ []) }
    ensures observed { IfOk result (λ found. IsReread found → (found ≡ reread.Same) ↔ (kept_in store.new ≡ kept_in store.old)) }
    ensures failed { IfErr result (λ e. e ≡ StoreError.Failed → D.faults store.old.disk + 2 ≤ D.faults store.new.disk) }
    ensures later { D.faults store.old.disk ≤ D.faults store.new.disk }
    ensures run { D.came_to store.old.disk store.new.disk }
{
    match store.reopen(alloc) {
        Err(StoreError::Failed) => store.reopen(alloc),
        opened => opened,
    }
}

/// Opens a server's store again, as after a crash; once more where the device fails. The answer is whether it keeps what was held in
/// memory.
///
/// # Errors
/// Out of memory; `Unexpected` where the device failed both times, or shows no store.
pub fn reopen_store<D: Disk>(alloc: Global, store: &mut Store<D>) -> Result<bool, HostError>
    ensures left { D.observable → D.may_leave store.old.disk (D.seen store.new.disk) }
    ensures same { (slots : ℕ) (fresh : Bool) (recorded : List StoreRecord) (picture : Picture)
        → OnOk result (D.observable → ShowsPicture (D.seen store.new.disk) slots fresh recorded picture
        → Reopened slots fresh recorded picture store.new (D.seen store.new.disk) (D.may_leave store.new.disk)) }
    ensures no_tickets { OnOk result (store.new.tickets ≡ []) }
    ensures observed { IfOk result (λ same. (same ≡ true) ↔ (kept_in store.new ≡ kept_in store.old)) }
    ensures later { D.faults store.old.disk ≤ D.faults store.new.disk }
    ensures run { D.came_to store.old.disk store.new.disk }
{
    match read_store(alloc, store) {
        Ok(Reread::Same) => Ok(true),
        Ok(Reread::Changed) => Ok(false),
        Ok(Reread::Blank) => Err(HostError::Unexpected),
        Err(error) => Err(of_store(error)),
    }
}

/// The same of its state store.
///
/// # Errors
/// `Failed` where the device failed both times; else as of [`StateStore::reopen`].
pub fn reopen_state<D: Disk>(alloc: Global, state: &mut StateStore<D>) -> Result<(), StateError>
    ensures left { D.observable → D.may_leave state.old.disk (D.seen state.new.disk) }
    ensures same { (records : List StateRecord) → OnOk result (D.observable → StandsFor (D.seen state.new.disk) records → state.new.records ≡ records) }
    ensures holds { (records : List StateRecord) → OnOk result (D.observable → StandsFor (D.seen state.new.disk) records → logs.HoldsAt D.Disk state.new) }
    ensures failed { IsErrOf result StateError.Failed → D.faults state.old.disk + 2 ≤ D.faults state.new.disk }
    ensures later { D.faults state.old.disk ≤ D.faults state.new.disk }
    ensures run { D.came_to state.old.disk state.new.disk }
{
    match state.reopen(alloc) {
        Err(StateError::Failed) => state.reopen(alloc),
        opened => opened,
    }
}
