//! The right to one put.

ghost use Rattle.std.specs.Prelude.{◌≡◌};
ghost use Rattle.data_device.specs.Tickets.{without};

use petal_base::Change;
use std::marker::Model;

/// A free slot that a store has set aside for one put. Contracts see the slot's number. A ticket that is dropped keeps its
/// slot.
#[derive(Drop)]
pub struct Ticket {
    slot: u32,
}

impl Model for Ticket {
    ghost use Rattle.std.specs.Prelude.{ℕ};

    ghost Value = { ℕ };

    ghost view = { λ t. t.slot };
}

impl Ticket {
    pub(crate) fn new(slot: u32) -> Ticket
        ensures { result ≡ slot }
    {
        Ticket { slot }
    }

    pub fn slot(&self) -> u32
        ensures { result ≡ self.now }
    {
        self.slot
    }
}

// A ticket is spent or handed back: of those out it is none any more.
pub(crate) struct Spent;

impl Change<Ticket> for Spent {
    ghost changed = { λ out ticket. without out ticket };
}
