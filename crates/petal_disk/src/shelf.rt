//! Where new disks come from.

ghost use Rattle.std.specs.Prelude.{◌≡◌, ◌<◌, ◌≤◌, ℕ, replicate, IfOk, IsErrOf};
ghost use Rattle.petal_disk.specs.Disk.{Only};
ghost use Rattle.device_faults.specs.declared.failure.DeviceError.TheVariants as error;

use crate::Disk;
use device_faults::{DeviceError, Which};
use std::alloc::Global;

/// A shelf of new disks.
pub trait Shelf: Send {
    /// The kind of disks that it gives.
    type Disk: Disk;

    /// How often the shelf has failed.
    ghost faults: { Self → ℕ };

    /// That its devices never fail.
    ghost devices_never_fail: { Type 0 };

    /// A disk of `size` zero bytes, which a crash leaves too.
    fn device(
        &mut self,
        alloc: Global,
        server: u8,
        which: Which,
        size: u64,
    ) -> Result<Self::Disk, DeviceError>
        ensures size { IfOk result (λ disk. Self.Disk.size disk ≡ size) }
        ensures bytes { IfOk result (λ disk. Self.Disk.observable → Self.Disk.seen disk ≡ replicate size 0) }
        ensures crash { IfOk result (λ disk. Self.Disk.observable → Only (replicate size 0) (Self.Disk.may_leave disk)) }
        ensures sound { IfOk result (λ disk. Self.Disk.faults disk ≡ 0) }
        ensures later { faults self.old ≤ faults self.new }
        ensures failed { IsErrOf result error.Failed → faults self.old < faults self.new };

    /// Where its devices never fail, the count of each stays 0.
    ghost sound_forever: { devices_never_fail → (disk : Self.Disk) → Self.Disk.faults disk ≡ 0 };
}
