//! A shelf of disks in memory.

ghost use Rattle.std.specs.Prelude.{◌≡◌, ◌+◌, ℕ, true, false, None, refl};
ghost use Rattle.petal_disk.specs.Plans.{as_count, calls_before};

use crate::{MemDisk, Shelf};
use device_faults::{DeviceError, Which};
use std::alloc::Global;

/// A shelf of disks in memory, which never fail. It can be made to refuse one call.
#[derive(Drop)]
pub struct MemShelf {
    // how many calls go well before the one that is refused
    refuses_after: Option<u32>,
    has_refused: bool,
}

impl MemShelf {
    /// A shelf that refuses no call.
    pub fn new() -> MemShelf
        ensures faults { ⟦<MemShelf as Shelf>⟧.faults result ≡ 0 }
        ensures refuses { result.refuses_after ≡ None }
    {
        MemShelf {
            refuses_after: None,
            has_refused: false,
        }
    }

    /// A shelf that refuses the call with this number, counted from 1, and no other.
    pub fn refusing(call: u32) -> MemShelf
        ensures faults { ⟦<MemShelf as Shelf>⟧.faults result ≡ 0 }
        ensures refuses { result.refuses_after ≡ calls_before call }
    {
        MemShelf {
            refuses_after: call.checked_sub(1),
            has_refused: false,
        }
    }
}

impl Shelf for MemShelf {
    type Disk = MemDisk;

    ghost faults = { λ shelf. as_count shelf.has_refused };

    ghost devices_never_fail = { Unit {0} };

    ghost sound_forever = { λ _ disk. refl };

    fn device(
        &mut self,
        alloc: Global,
        _server: u8,
        _which: Which,
        size: u64,
    ) -> Result<MemDisk, DeviceError> {
        if let Some(left) = self.refuses_after
            && !self.has_refused
        {
            if left == 0 {
                self.has_refused = true;
                return Err(DeviceError::Failed);
            }
            self.refuses_after = Some(left - 1);
        }
        Ok(MemDisk::new(alloc, size)?)
    }
}
