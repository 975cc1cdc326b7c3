//! The next entry of a link that goes to the new map: by block, and of one block by falling epoch.

ghost use Rattle.std.specs.Prelude.{◌≡◌};
ghost use Rattle.spec_rules.specs.Fills as fills;
ghost use Rattle.spec_rules.specs.Fills.{region_to_move};
ghost use Rattle.kept_chains.specs.Kept.{store_of};
ghost use Rattle.pair_memory.specs.PairMemory.{own_of};
ghost use Rattle.redistribute.specs.Next.{first_left, is_left, last_left, left_after, next_after, none_below};

use crate::region::{last_filled, region_to_move};
use chain_place::region;
use global_state::LinkRow;
use pair_memory::{JobContext, PairMemory};
use petal_base::{BlockNo, Key};
use petal_disk::Disk;
use server_store::{Entry, Store};

fn comes_before(one: &Key, other: &Key) -> bool
    ensures { result ≡ fills.comes_before one.now other.now }
{
    one.block < other.block || (one.block == other.block && other.epoch < one.epoch)
}

/// Whether the key comes after the last one of its region that the new map is known to have.
fn comes_next(moved: u8, last: &Option<Key>, key: &Key) -> bool
    ensures { result ≡ fills.comes_next moved last.now key.now }
{
    match last {
        Some(last) => region(last.block) != moved || comes_before(last, key),
        None => true,
    }
}

/// Whether the entry is one of the link and the region that is still to go.
fn is_left(here: &JobContext, row: &LinkRow, moved: u8, last: &Option<Key>, key: &Key) -> bool
    ensures { result ≡ is_left here.now.state row.now moved last.now key.now }
{
    here.state().is_on(row, key.cell())
        && region(key.block) == moved
        && comes_next(moved, last, key)
}

/// No block up to this one has an entry that is still to go, where there is such a block.
fn none_below(moved: u8, last: &Option<Key>) -> Option<BlockNo>
    ensures { result ≡ none_below moved last.now }
{
    match last {
        Some(last) if region(last.block) == moved => last.block.checked_sub(1),
        _ => None,
    }
}

/// The first entry that is still to go; its block is the next one.
fn first_left(
    here: &JobContext,
    row: &LinkRow,
    moved: u8,
    last: &Option<Key>,
    entries: &[Entry],
) -> Option<Key>
    ensures { result ≡ first_left here.now.state row.now moved last.now entries.now }
{
    match entries
        .iter()
        .find(|entry| is_left(here, row, moved, last, &entry.key))
    {
        Some(entry) => Some(entry.key),
        None => None,
    }
}

/// Of a block's entries by rising epoch, the last one that is still to go.
fn last_left(moved: u8, last: &Option<Key>, chain: &[Entry]) -> Option<Key>
    ensures { result ≡ last_left moved last.now chain.now }
{
    match chain.split_first() {
        None => None,
        Some((entry, later)) => match last_left(moved, last, later) {
            Some(key) => Some(key),
            None => {
                if comes_next(moved, last, &entry.key) {
                    Some(entry.key)
                } else {
                    None
                }
            }
        },
    }
}

/// The next key of the link in the region after the last one that the new map is known to have.
fn next_after<D: Disk>(
    here: &JobContext,
    store: &Store<D>,
    row: &LinkRow,
    moved: u8,
    last: &Option<Key>,
) -> Option<Key>
    ensures { result ≡ next_after here.now.state row.now moved last.now (store_of store.now).chains }
{
    // What `free` promises tells the proof that the entries are in order.
    let _ = store.free();
    let entries = store.of_map(row.map, none_below(moved, last));
    match first_left(here, row, moved, last, entries) {
        Some(first) => last_left(moved, last, store.chain_at(first.cell())),
        None => None,
    }
}

/// What is left of the link after this key, where this server is to move it.
pub fn left_after<D: Disk>(
    here: &JobContext,
    store: &Store<D>,
    row: &LinkRow,
    last: &Option<Key>,
) -> Option<Key>
    ensures { result ≡ left_after here.now.state row.now (region_to_move here.now.state here.now.me row.now) last.now (store_of store.now).chains }
{
    match region_to_move(here, row) {
        Some(moved) => next_after(here, store, row, moved.get(), last),
        None => None,
    }
}

/// What is left of the link, where this server is to move it.
pub fn fill_of<D: Disk>(
    here: &JobContext,
    side: &PairMemory,
    store: &Store<D>,
    row: &LinkRow,
) -> Option<Key>
    ensures { result ≡ fills.fill_of here.now.state here.now.me row.now (own_of side.now store.now) }
{
    left_after(here, store, row, &last_filled(side, row))
}
