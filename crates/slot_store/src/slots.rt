//! Which slots are in use, and their contents.

ghost use Rattle.std.specs.Prelude.{◌≡◌, ◌≤◌, ◌<◌, ◌+◌, ◌↔◌, true, false, length, replicate, slice_get, slice_set, IsTrue};
ghost use Rattle.std.specs.Prelude.{IsNone, IfOk, IfSome, IfNone, OnOk, Some, ◌^◌};
ghost use Rattle.std.specs.Bool.{OnFalse, OnTrue};
ghost use Rattle.petal_base.specs.Block.{IsBlock, block_bytes};
ghost use Rattle.petal_disk.specs.Disk.{part, written, Torn, Follows, Within, Only, Elapses, LeavesOnly, LeftByWrite};
ghost use Rattle.device_faults.specs.Faults.{HasCause};
ghost use Rattle.slot_store.specs.Slots.{free_in, slot_start};

use crate::usage::Usage;
use petal_base::{BLOCK_BYTES, Block, NoMemory};
use petal_disk::{Disk, Failed, write_kept};
use std::alloc::Global;
use std::marker::Model;

/// How many bytes a slot has: those of one block.
pub const SLOT_BYTES: u64 = BLOCK_BYTES as u64;

/// The slots of a device from `base` on. Contracts see for each whether it is in use.
#[derive(Drop)]
pub struct SlotStore {
    base: u64,
    usage: Usage,
}

impl Model for SlotStore {
    ghost use Rattle.slot_store.specs.Slots.{Slots};

    ghost Value = { Slots };

    ghost view = { λ s. record { base = s.base; used = s.usage } };
}

impl SlotStore {
    /// All slots are free.
    pub fn new(alloc: Global, base: u64, slots: u32) -> Result<SlotStore, NoMemory>
        ensures { IfOk result (λ store. store ≡ record { base = base; used = replicate slots false }) }
    {
        Ok(SlotStore {
            base,
            usage: Usage::new(alloc, slots)?,
        })
    }

    /// Takes a free slot into use; None exactly where there is none.
    pub fn take(&mut self) -> Option<u32>
        ensures free { IfSome result (λ slot. slice_get self.old.used slot ≡ Some false) }
        ensures taken { IfSome result (λ slot. self.new ≡ record self.old { used = slice_set self.old.used slot true }) }
        ensures none { IsNone result ↔ (free_in self.old.used ≡ 0) }
        ensures unchanged { IfNone result (self.new ≡ self.old) }
    {
        self.usage.take()
    }

    /// Takes this slot into use; false exactly where it is in use or there is no such slot.
    pub fn take_this(&mut self, slot: u32) -> bool
        ensures taken { IsTrue result ↔ (slice_get self.old.used slot ≡ Some false) }
        ensures changed { OnTrue result (self.new ≡ record self.old { used = slice_set self.old.used slot true }) }
        ensures unchanged { OnFalse result (self.new ≡ self.old) }
    {
        self.usage.take_this(slot)
    }

    /// The slot is free again.
    pub fn give(&mut self, slot: u32)
        requires { slice_get self.old.used slot ≡ Some true }
        ensures { self.new ≡ record self.old { used = slice_set self.old.used slot false } }
    {
        self.usage.give(slot);
    }

    /// How many slots there are.
    pub fn count(&self) -> u32
        ensures { result ≡ length self.now.used }
    {
        self.usage.count()
    }

    /// How many slots are not in use.
    pub fn free(&self) -> u32
        ensures { result ≡ free_in self.now.used }
    {
        self.usage.free()
    }

    /// Writes a block into a slot, and syncs.
    ///
    /// # Errors
    /// The device failed. The slot may then have any bytes.
    pub fn write<D: Disk>(&self, disk: &mut D, slot: u32, block: &Block) -> Result<(), Failed>
        requires slot { slot < length self.now.used }
        requires room { slot_start self.now.base slot + block_bytes ≤ D.size disk.old }
        ensures written { OnOk result (D.observable → D.seen disk.new ≡ written (D.seen disk.old) (slot_start self.now.base slot) block.now) }
        ensures block { IsBlock block.now }
        ensures durable { OnOk result (D.observable → Only (D.seen disk.new) (D.may_leave disk.new)) }
        ensures torn { D.observable → Torn (slot_start self.now.base slot) block_bytes (D.seen disk.old) (D.seen disk.new) }
        ensures size { D.size disk.new ≡ D.size disk.old }
        ensures crash { Follows (Torn (slot_start self.now.base slot) block_bytes) (D.may_leave disk.old) (D.may_leave disk.new) }
        ensures any_moment { LeavesOnly D.moment D.left_since disk.old disk.new
            (LeftByWrite (slot_start self.now.base slot) block_bytes (D.may_leave disk.old)) }
        ensures cause { HasCause (D.faults disk.old) (D.faults disk.new) result }
        ensures run { D.came_to disk.old disk.new }
    {
        // a device has fewer than 2^64 bytes
        let _size = disk.len();
        let at = start(self.base, slot);
        write_kept(disk, at, block.bytes())
    }

    /// Reads the content of a slot.
    ///
    /// # Errors
    /// The device failed.
    pub fn read<D: Disk>(&self, disk: &mut D, slot: u32, into: &mut [u8]) -> Result<(), Failed>
        requires slot { slot < length self.now.used }
        requires room { slot_start self.now.base slot + block_bytes ≤ D.size disk.old }
        requires block { IsBlock into.old }
        ensures bytes { OnOk result (D.observable → into.new ≡ part (D.seen disk.old) (slot_start self.now.base slot) block_bytes) }
        ensures size { D.size disk.new ≡ D.size disk.old }
        ensures seen { D.seen disk.new ≡ D.seen disk.old }
        ensures crash { Within (D.may_leave disk.old) (D.may_leave disk.new) }
        ensures time { Elapses (D.moment disk.old) (D.moment disk.new) (D.left_since disk.old) (D.left_since disk.new) (D.may_leave disk.new) }
        ensures cause { HasCause (D.faults disk.old) (D.faults disk.new) result }
        ensures run { D.came_to disk.old disk.new }
    {
        let _size = disk.len();
        let at = start(self.base, slot);
        disk.read(at, into)
    }
}

// The first byte of a slot.
fn start(base: u64, slot: u32) -> u64
    requires { slot_start base slot < 2 ^ 64 }
    ensures { result ≡ slot_start base slot }
{
    base + SLOT_BYTES * u64::from(slot)
}
