//! Which slot is whose: that of an entry, of a ticket, or free.

ghost use Rattle.std.specs.Prelude.{◌≡◌, ◌≢◌, ◌≤◌, ◌<◌, ◌+◌, ◌-◌, ◌++◌, ◌∷◌, ◌↔◌, [], length, All, Contains, Ok, None, IfOk};
ghost use Rattle.std.specs.Prelude.{◌^◌, OnErr, IfSome, IfNone, Some, true, slice_get};
ghost use Rattle.std.specs.Bool.{OnTrue, OnFalse};
ghost use Rattle.physical_map.specs.Entries.{key_of, slot_of, without_key};
ghost use Rattle.physical_map.specs.Keys.{placed, newest, IsInOrder};
ghost use Rattle.data_device.specs.Accounts.{given};
ghost use Rattle.data_device.specs.Tickets.{without};
ghost use Rattle.data_device.specs.Slots.{data_start};

use crate::ticket::{Spent, Ticket};
use petal_base::{BlockNo, Epoch, GhostList, Key, MapId, NoMemory, Version};
use physical_map::{Entry, PhysicalMap};
use slot_store::SlotStore;
use std::alloc::Global;
use std::marker::Model;

/// The first byte of slot 0 on a device: the bytes before it are left to a header and a journal.
pub const DATA_START: u64 = 4_198_400;

/// The entries in the order of their keys, and the slots of the tickets out.
#[derive(Drop)]
pub struct Ledger {
    map: PhysicalMap,
    slots: SlotStore,
    tickets: GhostList<Ticket>,
    // how many tickets are out
    out: u32,
}

impl Model for Ledger {
    ghost use Rattle.std.specs.Prelude.{◌≡◌, length};
    ghost use Rattle.data_device.specs.Accounts.{Book, Sound};
    ghost use Rattle.data_device.specs.Slots.{data_start};

    ghost Value = { Book };

    ghost view = { λ l. record { entries = l.map.entries; tickets = l.tickets.items; slots = length l.slots.used } };

    ghost invariant = { λ l. Sound l.map.entries l.tickets.items l.slots.used l.map.spare l.out × (l.slots.base ≡ data_start) };
}

impl Ledger {
    /// All slots are free.
    pub fn new(alloc: Global, slots: u32) -> Result<Ledger, NoMemory>
        ensures { IfOk result (λ ledger. ledger ≡ record { entries = []; tickets = []; slots = slots }) }
    {
        Ok(Ledger {
            map: PhysicalMap::new(alloc),
            slots: SlotStore::new(alloc, DATA_START, slots)?,
            tickets: GhostList::new(),
            out: 0,
        })
    }

    /// The entries.
    pub fn map(&self) -> &PhysicalMap
        ensures { result.now.entries ≡ self.now.entries }
    {
        &self.map
    }

    /// The slots. No entry has that of a ticket.
    pub fn slots(&self) -> &SlotStore
        ensures base { result.now.base ≡ data_start }
        ensures count { length result.now.used ≡ self.now.slots }
        ensures tickets { All (λ slot. slot < self.now.slots) self.now.tickets }
        ensures apart { All (λ slot. All (λ e. e.slot ≢ slot) self.now.entries) self.now.tickets }
        ensures entries { All (λ e. e.slot < self.now.slots) self.now.entries }
    {
        &self.slots
    }

    /// How many slots there are: no fewer than entries and tickets.
    pub fn count(&self) -> u32
        ensures value { result ≡ self.now.slots }
        ensures enough { length self.now.entries + length self.now.tickets ≤ self.now.slots }
    {
        self.slots.count()
    }

    /// How many slots are neither in use nor promised.
    pub fn free(&self) -> u32
        ensures value { result ≡ self.now.slots - (length self.now.entries + length self.now.tickets) }
        ensures order { IsInOrder key_of self.now.entries }
        ensures few { length self.now.entries < 2 ^ 32 }
    {
        self.slots.free()
    }

    /// How many tickets are out.
    pub fn out(&self) -> u32
        ensures { result ≡ length self.now.tickets }
    {
        self.out
    }

    /// Sets a free slot aside, and makes room for its entry; None, and nothing changed, exactly where no slot is free.
    pub fn reserve(&mut self) -> Result<Option<Ticket>, NoMemory>
        ensures ok { IfOk result (λ out. IfSome out (λ ticket. self.new ≡ record self.old { tickets = self.old.tickets ++ ticket ∷ [] })) }
        ensures other { IfOk result (λ out. IfSome out (λ ticket. ¬ Contains self.old.tickets ticket)) }
        ensures none { IfOk result (λ out. IfNone out (self.new ≡ self.old)) }
        ensures err { OnErr result (self.new ≡ self.old) }
        ensures no_space { (result ≡ Ok None) ↔ (self.old.slots - (length self.old.entries + length self.old.tickets) ≡ 0) }
    {
        if self.slots.free() == 0 {
            return Ok(None);
        }
        self.map.reserve(self.out + 1)?;
        match self.slots.take() {
            Some(slot) => {
                let ticket = Ticket::new(slot);
                self.tickets = self.tickets.with(&ticket);
                self.out += 1;
                Ok(Some(ticket))
            }
            None => Ok(None),
        }
    }

    /// The slot of a ticket is free again.
    pub fn give_back(&mut self, ticket: Ticket)
        requires { Contains self.old.tickets ticket }
        ensures { self.new ≡ record self.old { tickets = without self.old.tickets ticket } }
    {
        self.slots.give(ticket.slot());
        self.tickets = self.tickets.changed::<Spent>(&ticket);
        self.out -= 1;
    }

    /// The slot of a ticket becomes that of an entry. The slot of the entry that it replaces is free.
    pub fn settle(&mut self, ticket: Ticket, key: Key, version: Version)
        requires { Contains self.old.tickets ticket }
        ensures { self.new ≡ record self.old {
          entries = placed key_of self.old.entries (record { key = key; slot = ticket; version = version });
          tickets = without self.old.tickets ticket;
        } }
    {
        let slot = ticket.slot();
        let replaced = self.map.put(Entry { key, slot, version });
        give_if_any(&mut self.slots, replaced);
        self.tickets = self.tickets.changed::<Spent>(&ticket);
        self.out -= 1;
    }

    /// Puts an entry whose slot is free; false, and nothing changed, where it is in use or there is no such slot. No ticket is
    /// out.
    pub fn replay(&mut self, entry: Entry) -> Result<bool, NoMemory>
        requires { self.old.tickets ≡ [] }
        ensures put { IfOk result (λ done. OnTrue done (self.new ≡ record self.old { entries = placed key_of self.old.entries entry })) }
        ensures fits { IfOk result (λ done. OnTrue done ((entry.slot < self.old.slots) × All (λ e. e.slot ≢ entry.slot) self.old.entries)) }
        ensures taken { IfOk result (λ done. OnFalse done (entry.slot < self.old.slots → All (λ e. e.slot ≢ entry.slot) self.old.entries → ⊥)) }
    {
        self.map.reserve(1)?;
        if !self.slots.take_this(entry.slot) {
            return Ok(false);
        }
        let replaced = self.map.put(entry);
        give_if_any(&mut self.slots, replaced);
        Ok(true)
    }

    /// The entry of a key is gone, and its slot is free.
    pub fn drop_key(&mut self, key: Key)
        ensures { self.new ≡ record self.old { entries = without_key self.old.entries key } }
    {
        let dropped = self.map.drop_key(key);
        give_if_any(&mut self.slots, dropped);
    }

    /// The entry of the greatest epoch not above.
    pub fn lookup(&self, map: MapId, block: BlockNo, epoch: Epoch) -> Option<Entry>
        ensures found { result ≡ newest key_of (record { map = map; block = block; epoch = epoch }) self.now.entries }
        ensures in_range { IfSome result (λ e. e.slot < self.now.slots) }
    {
        let _ = &self.slots;
        self.map.lookup(map, block, epoch)
    }
}

// A slot that was in use is free again.
fn give_if_any(slots: &mut SlotStore, slot: Option<u32>)
    requires { IfSome slot (λ s. slice_get slots.old.used s ≡ Some true) }
    ensures { slots.new ≡ record slots.old { used = given slots.old.used slot } }
{
    if let Some(slot) = slot {
        slots.give(slot);
    }
}
