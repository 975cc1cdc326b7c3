//! Which slots are in use.

ghost use Rattle.std.specs.Prelude.{◌≡◌, ◌<◌, ◌-◌, ◌↔◌, true, false, length, replicate, slice_get, slice_set, slice_index_or};
ghost use Rattle.std.specs.Prelude.{IsTrue, IsNone, IfOk, IfSome, IfNone, Some};
ghost use Rattle.std.specs.Bool.{OnFalse, OnTrue};
ghost use Rattle.std.specs.List.{range_with_len};
ghost use Rattle.slot_store.specs.Slots.{free_in};
ghost use Rattle.slot_store.specs.Turn.{exchanged};

use petal_base::NoMemory;
use std::alloc::{AllocError, Global};
use std::marker::Model;

/// All slots in an order in which those in use stand before those that are free, and where each one stands (a sparse set,
/// after Briggs and Torczon, 1993): so a free slot is at hand, and each call takes the same time however many slots there are.
/// Contracts see for each slot whether it is in use.
#[derive(Drop)]
pub struct Usage {
    used: Vec<bool>,
    order: Vec<u32>,
    place: Vec<u32>,
    // how many are in use
    taken: u32,
}

impl Model for Usage {
    ghost use Rattle.std.specs.Prelude.{List, Bool};
    ghost use Rattle.slot_store.specs.Turn.{IsInTurn};

    ghost Value = { List Bool };

    ghost view = { λ u. u.used.items };

    ghost invariant = { λ u. IsInTurn u.used.items u.order.items u.place.items u.taken };
}

impl Usage {
    /// All slots are free.
    pub fn new(alloc: Global, slots: u32) -> Result<Usage, NoMemory>
        ensures { IfOk result (λ usage. usage ≡ replicate slots false) }
    {
        Ok(Usage {
            used: vec![in alloc; false; slots as usize]?,
            order: numbers(alloc, slots)?,
            place: numbers(alloc, slots)?,
            taken: 0,
        })
    }

    /// Takes a free slot into use; None exactly where there is none.
    pub fn take(&mut self) -> Option<u32>
        ensures free { IfSome result (λ slot. slice_get self.old slot ≡ Some false) }
        ensures taken { IfSome result (λ slot. self.new ≡ slice_set self.old slot true) }
        ensures none { IsNone result ↔ (free_in self.old ≡ 0) }
        ensures unchanged { IfNone result (self.new ≡ self.old) }
    {
        if self.taken as usize >= self.order.len() {
            return None;
        }
        let slot = self.order[self.taken as usize];
        self.used[slot as usize] = true;
        self.taken += 1;
        Some(slot)
    }

    /// Takes this slot into use; false exactly where it is in use or there is no such slot.
    pub fn take_this(&mut self, slot: u32) -> bool
        ensures taken { IsTrue result ↔ (slice_get self.old slot ≡ Some false) }
        ensures changed { OnTrue result (self.new ≡ slice_set self.old slot true) }
        ensures unchanged { OnFalse result (self.new ≡ self.old) }
    {
        if slot as usize >= self.used.len() || self.used[slot as usize] {
            return false;
        }
        exchange(&mut self.order, &mut self.place, slot, self.taken);
        self.used[slot as usize] = true;
        self.taken += 1;
        true
    }

    /// The slot is free again.
    pub fn give(&mut self, slot: u32)
        requires { slice_get self.old slot ≡ Some true }
        ensures { self.new ≡ slice_set self.old slot false }
    {
        self.taken -= 1;
        exchange(&mut self.order, &mut self.place, slot, self.taken);
        self.used[slot as usize] = false;
    }

    /// How many slots there are.
    pub fn count(&self) -> u32
        ensures { result ≡ length self.now }
    {
        self.used.len() as u32
    }

    /// How many slots are not in use.
    pub fn free(&self) -> u32
        ensures { result ≡ free_in self.now }
    {
        self.used.len() as u32 - self.taken
    }
}

fn numbers(alloc: Global, below: u32) -> Result<Vec<u32>, AllocError>
    ensures { IfOk result (λ v. v.items ≡ range_with_len 0 below) }
{
    (0..below).collect(alloc)
}

// A slot and the one that stands at `at` exchange their places in the order.
fn exchange(order: &mut Vec<u32>, place: &mut Vec<u32>, slot: u32, at: u32)
    requires slot { slot < length place.old.items }
    requires at { at < length order.old.items }
    requires from { slice_index_or place.old.items slot 0 < length order.old.items }
    requires other { slice_index_or order.old.items at 0 < length place.old.items }
    ensures order { order.new.items ≡ exchanged order.old.items place.old.items at slot }
    ensures place { place.new.items ≡ exchanged place.old.items order.old.items slot at }
{
    let from = place[slot as usize];
    let other = order[at as usize];
    order[at as usize] = slot;
    order[from as usize] = other;
    place[slot as usize] = at;
    place[other as usize] = from;
}
