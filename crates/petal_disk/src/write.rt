//! A write that is on the disk when it returns.

ghost use Rattle.std.specs.Prelude.{◌≡◌, ◌≤◌, ◌+◌, length, replicate, OnOk};
ghost use Rattle.petal_disk.specs.Disk.{written, Torn, Follows, Only, LeavesOnly, LeftByWrite};
ghost use Rattle.device_faults.specs.Faults.{HasCause};

use crate::Disk;
use device_faults::Failed;

/// Writes, and syncs.
pub fn write_kept<D: Disk>(disk: &mut D, at: u64, bytes: &[u8]) -> Result<(), Failed>
    requires { at + length bytes.now ≤ D.size disk.old }
    ensures written { OnOk result (D.observable → D.seen disk.new ≡ written (D.seen disk.old) at bytes.now) }
    ensures durable { OnOk result (D.observable → Only (D.seen disk.new) (D.may_leave disk.new)) }
    ensures torn { D.observable → Torn at (length bytes.now) (D.seen disk.old) (D.seen disk.new) }
    ensures size { D.size disk.new ≡ D.size disk.old }
    ensures crash { Follows (Torn at (length bytes.now)) (D.may_leave disk.old) (D.may_leave disk.new) }
    ensures any_moment { LeavesOnly D.moment D.left_since disk.old disk.new
        (LeftByWrite at (length bytes.now) (D.may_leave disk.old)) }
    ensures cause { HasCause (D.faults disk.old) (D.faults disk.new) result }
    ensures run { D.came_to disk.old disk.new }
{
    disk.write_at(at, bytes)?;
    disk.sync()
}

/// Writes zeros over `n` bytes, and syncs.
pub fn write_zeros_kept<D: Disk>(disk: &mut D, at: u64, n: u64) -> Result<(), Failed>
    requires { at + n ≤ D.size disk.old }
    ensures written { OnOk result (D.observable → D.seen disk.new ≡ written (D.seen disk.old) at (replicate n 0)) }
    ensures durable { OnOk result (D.observable → Only (D.seen disk.new) (D.may_leave disk.new)) }
    ensures torn { D.observable → Torn at n (D.seen disk.old) (D.seen disk.new) }
    ensures size { D.size disk.new ≡ D.size disk.old }
    ensures crash { Follows (Torn at n) (D.may_leave disk.old) (D.may_leave disk.new) }
    ensures any_moment { LeavesOnly D.moment D.left_since disk.old disk.new
        (LeftByWrite at n (D.may_leave disk.old)) }
    ensures cause { HasCause (D.faults disk.old) (D.faults disk.new) result }
    ensures run { D.came_to disk.old disk.new }
{
    disk.write_zeros(at, n)?;
    disk.sync()
}
