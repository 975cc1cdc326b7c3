//! What is found in a list of entries in the order of their keys.

ghost use Rattle.std.specs.Prelude.{◌≡◌, ◌≤◌, ℕ, Some, not, max, length};
ghost use Rattle.std.specs.List.{prefix_len};
ghost use Rattle.physical_map.specs.Entries.{key_of, slot_of, in_cell, chain_of, top_of, version_of, above, map_entries, next_block_of, next_map_of};
ghost use Rattle.physical_map.specs.Keys.{key_below, same_key, sees, newest, IsInOrder};
ghost use Rattle.physical_map.specs.Next.{before_blocks};

use crate::Entry;
use petal_base::{Cell, Key};

/// Whether `a` stands before `b`: by map, then block, then epoch.
pub fn is_below(a: &Key, b: &Key) -> bool
    ensures { result ≡ key_below a.now b.now }
{
    a.map < b.map
        || (a.map == b.map && (a.block < b.block || (a.block == b.block && a.epoch < b.epoch)))
}

/// Whether both are the same key.
pub fn is_same(a: &Key, b: &Key) -> bool
    ensures { result ≡ same_key a.now b.now }
{
    a.map == b.map && a.block == b.block && a.epoch == b.epoch
}

/// How many entries stand before a key, by binary search.
pub fn rank_of(entries: &[Entry], key: &Key) -> usize
    requires { IsInOrder key_of entries.now }
    ensures rank { result ≡ prefix_len (λ e. key_below e.key key.now) entries.now }
    ensures within { result ≤ length entries.now }
{
    entries.partition_point(|e| is_below(&e.key, key))
}

fn is_seen(at: &Key, key: &Key) -> bool
    ensures { result ≡ sees at.now key.now }
{
    key.map == at.map && key.block == at.block && key.epoch <= at.epoch
}

/// The slot of the entry that has the key.
pub fn slot(entries: &[Entry], key: &Key) -> Option<u32>
    requires { IsInOrder key_of entries.now }
    ensures { result ≡ slot_of entries.now key.now }
{
    let at = rank_of(entries, key);
    if at < entries.len() && is_same(&entries[at].key, key) {
        Some(entries[at].slot)
    } else {
        None
    }
}

/// How many entries stand at a key or before it, by binary search.
fn rank_after(entries: &[Entry], key: &Key) -> usize
    requires { IsInOrder key_of entries.now }
    ensures rank { result ≡ prefix_len (λ e. not (key_below key.now e.key)) entries.now }
    ensures within { result ≤ length entries.now }
{
    entries.partition_point(|e| !is_below(key, &e.key))
}

/// What a read at a key finds.
pub fn newest_of(entries: &[Entry], at: &Key) -> Option<Entry>
    requires { IsInOrder key_of entries.now }
    ensures { result ≡ newest key_of at.now entries.now }
{
    let following = rank_after(entries, at);
    if following == 0 {
        return None;
    }
    let entry = entries[following - 1];
    if is_seen(at, &entry.key) {
        Some(entry)
    } else {
        None
    }
}

fn is_in_cell(cell: &Cell, key: &Key) -> bool
    ensures { result ≡ in_cell cell.now key.now }
{
    key.map == cell.map && key.block == cell.block
}

// How many entries at the front are the cell's.
fn cell_prefix(entries: &[Entry], cell: &Cell) -> usize
    ensures { result ≡ prefix_len (λ e. in_cell cell.now e.key) entries.now }
{
    entries
        .iter()
        .take_while(|e| is_in_cell(cell, &e.key))
        .count()
}

/// The entries of a cell, which stand together, in the order of their epochs.
pub fn chain<'a>(entries: &'a [Entry], cell: &Cell) -> &'a [Entry]
    requires { IsInOrder key_of entries.now }
    ensures { result.now ≡ chain_of cell.now entries.now }
{
    let first = Key {
        map: cell.map,
        block: cell.block,
        epoch: 0,
    };
    let rest = &entries[rank_of(entries, &first)..];
    &rest[..cell_prefix(rest, cell)]
}

/// A map's entries of the blocks above `after`, which stand together.
pub fn of_map<'a>(entries: &'a [Entry], map: u32, after: Option<u64>) -> &'a [Entry]
    requires { IsInOrder key_of entries.now }
    ensures { result.now ≡ map_entries map after entries.now }
{
    let rest = &entries[rank_of_block(entries, map, after)..];
    &rest[..rank_of_map(rest, Some(map))]
}

/// The greatest version of a cell's entries.
pub fn version(entries: &[Entry], cell: &Cell) -> u64
    requires { IsInOrder key_of entries.now }
    ensures { result ≡ version_of cell.now entries.now }
{
    top(chain(entries, cell))
}

/// The greatest version of all entries.
pub fn top(entries: &[Entry]) -> u64
    ensures { result ≡ top_of entries.now }
{
    let mut most = 0;
    for entry in entries {
        most = most.max(entry.version);
    }
    most
}

/// The greatest version of entries of which one with the version `gone` is gone and one with the version `came` is new, 0
/// for none. `before` is what it was. It walks only where the greatest may be gone.
pub fn top_after(entries: &[Entry], before: u64, gone: u64, came: u64) -> u64
    ensures { (rest : ℕ) → before ≡ max gone rest → top_of entries.now ≡ max came rest → result ≡ top_of entries.now }
{
    if before <= came {
        came
    } else if gone < before {
        before
    } else {
        top(entries)
    }
}

fn is_block_above(after: Option<u64>, block: u64) -> bool
    ensures { result ≡ above after block }
{
    match after {
        None => true,
        Some(after) => after < block,
    }
}

fn is_map_above(after: Option<u32>, map: u32) -> bool
    ensures { result ≡ above after map }
{
    match after {
        None => true,
        Some(after) => after < map,
    }
}

// Whether a key stands before all of the map's blocks above `after`.
fn is_before_blocks(map: u32, after: Option<u64>, key: &Key) -> bool
    ensures { result ≡ before_blocks map after key.now }
{
    key.map < map || (key.map == map && !is_block_above(after, key.block))
}

// How many entries stand before those of the map's blocks above `after`, by binary search.
fn rank_of_block(entries: &[Entry], map: u32, after: Option<u64>) -> usize
    requires { IsInOrder key_of entries.now }
    ensures rank { result ≡ prefix_len (λ e. before_blocks map after e.key) entries.now }
    ensures within { result ≤ length entries.now }
{
    entries.partition_point(|e| is_before_blocks(map, after, &e.key))
}

/// The least block of a map above `after` with an entry.
pub fn next_block(entries: &[Entry], map: u32, after: Option<u64>) -> Option<u64>
    requires { IsInOrder key_of entries.now }
    ensures { result ≡ next_block_of map after entries.now }
{
    let at = rank_of_block(entries, map, after);
    if at < entries.len() && entries[at].key.map == map {
        Some(entries[at].key.block)
    } else {
        None
    }
}

// How many entries stand before those of the maps above `after`, by binary search.
fn rank_of_map(entries: &[Entry], after: Option<u32>) -> usize
    requires { IsInOrder key_of entries.now }
    ensures rank { result ≡ prefix_len (λ e. not (above after e.key.map)) entries.now }
    ensures within { result ≤ length entries.now }
{
    entries.partition_point(|e| !is_map_above(after, e.key.map))
}

/// The least map above `after` with an entry.
pub fn next_map(entries: &[Entry], after: Option<u32>) -> Option<u32>
    requires { IsInOrder key_of entries.now }
    ensures { result ≡ next_map_of after entries.now }
{
    let at = rank_of_map(entries, after);
    if at < entries.len() {
        Some(entries[at].key.map)
    } else {
        None
    }
}
