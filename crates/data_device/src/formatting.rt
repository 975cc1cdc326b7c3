//! Formatting a device.

ghost use Rattle.std.specs.Prelude.{◌≡◌, ◌≤◌, [], IfOk, IfErr, IsErrOf};
ghost use Rattle.petal_disk.specs.Disk.{LeavesOnly};
ghost use Rattle.data_device.specs.Device.{Logs};
ghost use Rattle.data_device.specs.Errors.{IsFormatError, HasFault};
ghost use Rattle.data_device.specs.Reading.{LeftByFormat};
ghost use Rattle.data_device.specs.Slots.{data_start};
ghost use Rattle.petal_base.specs.Limits.{max_slots};

use crate::error::StoreError;
use crate::header::Header;
use crate::ledger::Ledger;
use crate::record_log::RecordLog;
use petal_disk::Disk;
use std::alloc::Global;

/// Makes the device stand for no record, with a ledger of free slots.
pub fn write_format<D: Disk>(
    alloc: Global,
    disk: &mut D,
    said: Header,
) -> Result<(Ledger, RecordLog), StoreError>
    requires room { data_start ≤ D.size disk.old }
    requires few { said.slots ≤ max_slots }
    ensures ledger { IfOk result (λ out. out.0 ≡ record { entries = []; tickets = []; slots = said.slots }) }
    ensures log { IfOk result (λ out. (out.1.fresh ≡ said.fresh) × (out.1.records ≡ [])) }
    ensures logs { IfOk result (λ out. D.observable → Logs said.slots out.1 (D.seen disk.new) (D.may_leave disk.new)) }
    ensures errors { IfErr result IsFormatError }
    ensures any_moment { D.observable
        → LeavesOnly D.moment D.left_since disk.old disk.new (LeftByFormat (D.may_leave disk.old) (D.size disk.old) said.slots said.fresh) }
    ensures either { D.observable → LeftByFormat (λ file. file ≡ D.seen disk.old) (D.size disk.old) said.slots said.fresh (D.seen disk.new) }
    ensures memory { IsErrOf result StoreError.NoMemory → disk.new ≡ disk.old }
    ensures cause { HasFault (D.faults disk.old) (D.faults disk.new) result }
    ensures size { D.size disk.new ≡ D.size disk.old }
    ensures run { D.came_to disk.old disk.new }
{
    let ledger = Ledger::new(alloc, said.slots)?;
    let log = RecordLog::format(disk, said)?;
    Ok((ledger, log))
}
