//! The map from keys to entries.

ghost use Rattle.std.specs.Prelude.{◌≡◌, ◌≤◌, ◌<◌, ◌+◌, ◌⊎◌, [], vec_len, vec_capacity, is_some, if◌then◌else◌, insert, remove, slice_get, OnOk, IfOk, IsSome};
ghost use Rattle.physical_map.specs.Entries.{key_of, slot_of, without_key, chain_of, map_entries, top_of, version_of, next_block_of, next_map_of};
ghost use Rattle.physical_map.specs.Keys.{placed, newest, IsInOrder};
ghost use Rattle.physical_map.specs.Replaced.{entry_of, slot_in, version_in};

use crate::Entry;
use crate::search::{self, is_same, rank_of, top_after};
use petal_base::{BlockNo, Cell, Epoch, Key, MapId, NoMemory, Sequence, Version};
use std::alloc::Global;
use std::marker::Model;

/// Entries with distinct keys, sorted by key (map, then block, then epoch). Contracts see the list, and for how many new keys
/// there is room.
#[derive(Drop)]
pub struct PhysicalMap {
    entries: Vec<Entry>,
    // the greatest version of all entries, so that it is told without a walk
    top: Version,
}

impl Model for PhysicalMap {
    ghost use Rattle.std.specs.Prelude.{◌-◌, vec_len, vec_capacity};
    ghost use Rattle.physical_map.specs.Entries.{Table};
    ghost use Rattle.physical_map.specs.Replaced.{IsSound};

    ghost Value = { Table };

    ghost view = { λ m. record { entries = m.entries.items; spare = vec_capacity m.entries - vec_len m.entries } };

    ghost invariant = { λ m. IsSound m.entries.items m.top };
}

impl PhysicalMap {
    /// No entries. It takes no memory.
    pub fn new(alloc: Global) -> PhysicalMap
        ensures { result.entries ≡ [] }
    {
        PhysicalMap {
            entries: Vec::new(alloc),
            top: 0,
        }
    }

    /// Makes room for so many new keys.
    ///
    /// # Errors
    /// There was no memory, and nothing changed.
    pub fn reserve(&mut self, room: u32) -> Result<(), NoMemory>
        ensures room { OnOk result (room ≤ self.new.spare) }
        ensures entries { self.new.entries ≡ self.old.entries }
        ensures spare { self.old.spare ≤ self.new.spare }
    {
        self.entries.reserve(room as usize)?;
        Ok(())
    }

    /// Puts an entry at its key, in the place of the one that is there, whose slot it gives. It takes no memory.
    pub fn put(&mut self, entry: Entry) -> Option<u32>
        requires { (0 < self.old.spare) ⊎ (IsSome (slot_of self.old.entries entry.key)) }
        ensures entries { self.new.entries ≡ placed key_of self.old.entries entry }
        ensures replaced { result ≡ slot_of self.old.entries entry.key }
        ensures spare { self.new.spare + (if is_some result then 0 else 1) ≡ self.old.spare }
    {
        let replaced = place(&mut self.entries, entry);
        self.top = top_after(&self.entries, self.top, version_in(replaced), entry.version);
        slot_in(replaced)
    }

    /// Drops the entry that has the key, and gives its slot; None exactly where there is none.
    pub fn drop_key(&mut self, key: Key) -> Option<u32>
        ensures entries { self.new.entries ≡ without_key self.old.entries key }
        ensures dropped { result ≡ slot_of self.old.entries key }
        ensures spare { self.old.spare ≤ self.new.spare }
    {
        let dropped = take_out(&mut self.entries, &key);
        self.top = top_after(&self.entries, self.top, version_in(dropped), 0);
        slot_in(dropped)
    }

    /// The slot of the entry that has the key; None exactly where there is none.
    pub fn slot(&self, key: Key) -> Option<u32>
        ensures { result ≡ slot_of self.now.entries key }
    {
        search::slot(&self.entries, &key)
    }

    /// The entry of the greatest epoch not above.
    pub fn lookup(&self, map: MapId, block: BlockNo, epoch: Epoch) -> Option<Entry>
        ensures { result ≡ newest key_of (record { map = map; block = block; epoch = epoch }) self.now.entries }
    {
        search::newest_of(&self.entries, &Key { map, block, epoch })
    }

    /// The entries of a cell by rising epoch.
    pub fn chain(&self, alloc: Global, cell: Cell) -> Result<Sequence<Entry>, NoMemory>
        ensures { IfOk result (λ chain. chain ≡ chain_of cell self.now.entries) }
    {
        Ok(Sequence::of(search::chain(&self.entries, &cell).to_vec(alloc)?))
    }

    /// All entries in the order of their keys.
    pub fn entries(&self) -> &[Entry]
        ensures { result.now ≡ self.now.entries }
    {
        &self.entries
    }

    /// The entries of a cell by rising epoch, as they stand.
    pub fn chain_at(&self, cell: Cell) -> &[Entry]
        ensures { result.now ≡ chain_of cell self.now.entries }
    {
        search::chain(&self.entries, &cell)
    }

    /// A map's entries of the blocks above `after`, as they stand.
    pub fn of_map(&self, map: MapId, after: Option<BlockNo>) -> &[Entry]
        ensures { result.now ≡ map_entries map after self.now.entries }
    {
        search::of_map(&self.entries, map, after)
    }

    /// The entry of a cell at this place of its chain, counted from 0.
    pub fn nth(&self, cell: Cell, place: usize) -> Option<Entry>
        ensures { result ≡ slice_get (chain_of cell self.now.entries) place }
    {
        search::chain(&self.entries, &cell).get(place).copied()
    }

    /// The greatest version of a cell's entries, 0 without one.
    pub fn version(&self, cell: Cell) -> Version
        ensures { result ≡ version_of cell self.now.entries }
    {
        search::version(&self.entries, &cell)
    }

    /// The greatest version of all entries, 0 without one.
    pub fn top(&self) -> Version
        ensures { result ≡ top_of self.now.entries }
    {
        self.top
    }

    /// The least block of the map above `after` with an entry.
    pub fn next_block(&self, map: MapId, after: Option<BlockNo>) -> Option<BlockNo>
        ensures { result ≡ next_block_of map after self.now.entries }
    {
        search::next_block(&self.entries, map, after)
    }

    /// The least map above `after` with an entry.
    pub fn next_map(&self, after: Option<MapId>) -> Option<MapId>
        ensures { result ≡ next_map_of after self.now.entries }
    {
        search::next_map(&self.entries, after)
    }
}

fn slot_in(entry: Option<Entry>) -> Option<u32>
    ensures { result ≡ slot_in entry }
{
    match entry {
        Some(entry) => Some(entry.slot),
        None => None,
    }
}

// The version of an entry, 0 without one.
fn version_in(entry: Option<Entry>) -> Version
    ensures { result ≡ version_in entry }
{
    match entry {
        Some(entry) => entry.version,
        None => 0,
    }
}

// Puts an entry in its place, and gives the one that it replaces.
fn place(entries: &mut Vec<Entry>, entry: Entry) -> Option<Entry>
    requires order { IsInOrder key_of entries.old.items }
    requires room { (vec_len entries.old < vec_capacity entries.old) ⊎ (IsSome (slot_of entries.old.items entry.key)) }
    ensures items { entries.new.items ≡ placed key_of entries.old.items entry }
    ensures order { IsInOrder key_of entries.new.items }
    ensures replaced { result ≡ entry_of entries.old.items entry.key }
    ensures capacity { vec_capacity entries.new ≡ vec_capacity entries.old }
    ensures length { vec_len entries.new ≡ vec_len entries.old + (if is_some result then 0 else 1) }
{
    let at = rank_of(entries, &entry.key);
    if at < entries.len() {
        let old = entries[at];
        if is_same(&old.key, &entry.key) {
            entries[at] = entry;
            return Some(old);
        }
    }
    insert_reserved(entries, at, entry);
    None
}

// An insertion for which there is room.
fn insert_reserved(entries: &mut Vec<Entry>, at: usize, entry: Entry)
    requires at { at ≤ vec_len entries.old }
    requires room { vec_len entries.old < vec_capacity entries.old }
    ensures items { entries.new.items ≡ insert entries.old.items at entry }
    ensures length { vec_len entries.new ≡ vec_len entries.old + 1 }
    ensures capacity { vec_capacity entries.new ≡ vec_capacity entries.old }
{
    let _ = entries.insert(at, entry);
}

// Takes out the entry that has the key.
fn take_out(entries: &mut Vec<Entry>, key: &Key) -> Option<Entry>
    requires { IsInOrder key_of entries.old.items }
    ensures items { entries.new.items ≡ without_key entries.old.items key.now }
    ensures order { IsInOrder key_of entries.new.items }
    ensures dropped { result ≡ entry_of entries.old.items key.now }
    ensures capacity { vec_capacity entries.new ≡ vec_capacity entries.old }
    ensures length { vec_len entries.new ≤ vec_len entries.old }
{
    let at = rank_of(entries, key);
    if at >= entries.len() {
        return None;
    }
    let old = entries[at];
    if !is_same(&old.key, key) {
        return None;
    }
    entries.remove(at);
    Some(old)
}
