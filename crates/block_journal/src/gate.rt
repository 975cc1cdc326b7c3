//! Closing a gate, writing a header with its gate last, and reading one.

ghost use Rattle.std.specs.Prelude.{◌≡◌, ◌⊎◌, ◌≤◌, ◌<◌, length, take, IfOk, OnOk};
ghost use Rattle.std.specs.Bool.{OnFalse, OnTrue};
ghost use Rattle.petal_disk.specs.Disk.{written, Only, LeavesOnly};
ghost use Rattle.device_faults.specs.Faults.{HasCause};
ghost use Rattle.petal_disk.specs.Keeping.{KeepsDevice};
ghost use Rattle.block_journal.specs.Gate.{IsShut, BeginsOpen};

use petal_disk::{Disk, Failed, write_kept};

/// A gate byte that is open, of a device or of a record.
pub const OPEN: u8 = 0xa5;

/// Reads the first bytes of a device, after a sync: then a crash leaves what a read gives.
///
/// # Errors
/// The device failed.
pub fn read_front<D: Disk>(disk: &mut D, into: &mut [u8]) -> Result<(), Failed>
    requires { length into.old ≤ D.size disk.old }
    ensures bytes { OnOk result (D.observable → into.new ≡ take (length into.old) (D.seen disk.old)) }
    ensures durable { OnOk result (D.observable → Only (D.seen disk.new) (D.may_leave disk.new)) }
    ensures device { KeepsDevice D.size D.seen D.may_leave D.moment D.left_since disk.old disk.new }
    ensures any_moment { LeavesOnly D.moment D.left_since disk.old disk.new (D.may_leave disk.old) }
    ensures cause { HasCause (D.faults disk.old) (D.faults disk.new) result }
    ensures run { D.came_to disk.old disk.new }
{
    disk.sync()?;
    disk.read(0, into)
}

// Whether the gate is open; then a crash leaves what a read gives.
fn is_open<D: Disk>(disk: &mut D) -> Result<bool, Failed>
    requires { 0 < D.size disk.old }
    ensures open { IfOk result (λ found. OnTrue found (D.observable → BeginsOpen (D.seen disk.new))) }
    ensures shut { IfOk result (λ found. OnFalse found (D.observable → IsShut (D.seen disk.new))) }
    ensures durable { OnOk result (D.observable → Only (D.seen disk.new) (D.may_leave disk.new)) }
    ensures device { KeepsDevice D.size D.seen D.may_leave D.moment D.left_since disk.old disk.new }
    ensures any_moment { LeavesOnly D.moment D.left_since disk.old disk.new (D.may_leave disk.old) }
    ensures cause { HasCause (D.faults disk.old) (D.faults disk.new) result }
    ensures run { D.came_to disk.old disk.new }
{
    let mut gate = [0];
    read_front(disk, &mut gate)?;
    Ok(gate[0] == OPEN)
}

/// Closes the gate of a device, where it is open, and syncs. A crash at any moment leaves what it might have left before, or
/// a closed gate.
///
/// # Errors
/// The device failed.
pub fn close_gate<D: Disk>(disk: &mut D) -> Result<(), Failed>
    requires { 0 < D.size disk.old }
    ensures shut { OnOk result (D.observable → IsShut (D.seen disk.new)) }
    ensures durable { OnOk result (D.observable → Only (D.seen disk.new) (D.may_leave disk.new)) }
    ensures any_moment { D.observable → LeavesOnly D.moment D.left_since disk.old disk.new (λ c. D.may_leave disk.old c ⊎ IsShut c) }
    ensures either { D.observable → (D.seen disk.new ≡ D.seen disk.old) ⊎ IsShut (D.seen disk.new) }
    ensures size { D.size disk.new ≡ D.size disk.old }
    ensures cause { HasCause (D.faults disk.old) (D.faults disk.new) result }
    ensures run { D.came_to disk.old disk.new }
{
    if !is_open(disk)? {
        return Ok(());
    }
    write_kept(disk, 0, &[0])
}

/// Writes a header over the first bytes of a device whose gate is closed: what follows its gate, and after a sync the gate
/// itself. A crash at any moment leaves a closed gate or the whole header.
///
/// # Errors
/// The device failed.
pub fn write_header<D: Disk>(disk: &mut D, header: &[u8]) -> Result<(), Failed>
    requires open { BeginsOpen header.now }
    requires room { length header.now ≤ D.size disk.old }
    ensures written { OnOk result (D.observable → D.seen disk.new ≡ written (D.seen disk.old) 0 header.now) }
    ensures durable { OnOk result (D.observable → Only (D.seen disk.new) (D.may_leave disk.new)) }
    ensures any_moment { D.observable → Only (D.seen disk.old) (D.may_leave disk.old) → IsShut (D.seen disk.old)
        → LeavesOnly D.moment D.left_since disk.old disk.new (λ c. IsShut c ⊎ (c ≡ written (D.seen disk.old) 0 header.now)) }
    ensures either { D.observable → IsShut (D.seen disk.old) → IsShut (D.seen disk.new) ⊎ (D.seen disk.new ≡ written (D.seen disk.old) 0 header.now) }
    ensures size { D.size disk.new ≡ D.size disk.old }
    ensures cause { HasCause (D.faults disk.old) (D.faults disk.new) result }
    ensures run { D.came_to disk.old disk.new }
{
    write_kept(disk, 1, &header[1..])?;
    write_kept(disk, 0, &header[..1])
}
