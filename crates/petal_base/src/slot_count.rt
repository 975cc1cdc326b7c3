//! How many slots a store has.

ghost use Rattle.std.specs.Prelude.{◌≡◌, ◌≤◌, ◌==◌, Some, None, nat_le, if◌then◌else◌};
ghost use Rattle.petal_base.specs.Limits.{max_slots};

use crate::MAX_SLOTS;
use std::marker::Model;

/// How many slots a store has: at most [`MAX_SLOTS`]. Contracts see the number.
#[derive(Clone, Copy, Debug, PartialEq, Eq)]
pub struct SlotCount {
    slots: u32,
}

impl Model for SlotCount {
    ghost use Rattle.std.specs.Prelude.{◌≤◌, ℕ};
    ghost use Rattle.petal_base.specs.Limits.{max_slots};

    ghost Value = { ℕ };

    ghost view = { λ s. s.slots };

    ghost invariant = { λ s. s.slots ≤ max_slots };

    ghost inverse = { λ n. record { slots = n } };
}

impl SlotCount {
    /// So many slots; None exactly where they are too many.
    pub fn new(slots: u32) -> Option<SlotCount>
        ensures { result ≡ (if nat_le slots max_slots then Some slots else None) }
    {
        if slots <= MAX_SLOTS {
            Some(SlotCount { slots })
        } else {
            None
        }
    }

    pub fn get(self) -> u32
        ensures value { result ≡ self }
        ensures few { result ≤ max_slots }
    {
        self.slots
    }
}
