//! What is found of cells that are live no longer. Maps of which each cell is live are passed by binary search.

ghost use Rattle.std.specs.Prelude.{◌≡◌, ◌≤◌, ◌∷◌, None, nat_le, drop, length};
ghost use Rattle.std.specs.List.{prefix_len};
ghost use Rattle.busy_marks.specs.Marks.{next_marked};
ghost use Rattle.spec_rules.specs.Sweeping.{retired_mark};
ghost use Rattle.physical_map.specs.Entries.{key_of};
ghost use Rattle.physical_map.specs.Keys.{IsInOrder};
ghost use Rattle.redistribute.specs.Swept.{retired_marks, first_retired, first_kind, first_marked};

use busy_marks::MarkKind;
use global_state::GlobalState;
use petal_base::{BlockNo, Cell, Key, MapId};
use petal_disk::Disk;
use petal_msg::Retired;
use server_store::{Entry, Store};

/// The entries of the maps above this one, found by binary search.
fn above_map(entries: &[Entry], map: MapId) -> &[Entry]
    requires { IsInOrder key_of entries.now }
    ensures { result.now ≡ drop (prefix_len (λ e. nat_le e.key.map map) entries.now) entries.now }
{
    &entries[entries.partition_point(|entry| entry.key.map <= map)..]
}

/// Of the entries after one, those among which the first of a cell that is live no longer is found: none of the same map, where
/// each cell of that map is live.
fn rest_after<'a>(state: &GlobalState, entry: &Entry, later: &'a [Entry]) -> &'a [Entry]
    requires { IsInOrder key_of (entry.now ∷ later.now) }
    ensures first { first_retired state.now result.now ≡ first_retired state.now later.now }
    ensures order { IsInOrder key_of result.now }
    ensures shorter { length result.now ≤ length later.now }
{
    if state.is_live_map(entry.key.map) {
        above_map(later, entry.key.map)
    } else {
        later
    }
}

/// The first entry of a cell that is live no longer.
pub fn retired_entry(state: &GlobalState, entries: &[Entry]) -> Option<Key>
    requires { IsInOrder key_of entries.now }
    ensures { result ≡ first_retired state.now entries.now }
{
    let mut rest = entries;
    while let Some((entry, later)) = rest.split_first() {
        if !state.live(entry.key.cell()) {
            return Some(entry.key);
        }
        rest = rest_after(state, entry, later);
    }
    None
}

/// The first marked block of the map whose cell is live no longer.
fn retired_block<D: Disk>(state: &GlobalState, store: &Store<D>, map: MapId) -> Option<BlockNo>
    ensures { result ≡ next_marked map None (retired_marks state.now store.now.marks) }
{
    if state.is_live_map(map) {
        return None;
    }
    let mut after = None;
    while let Some(block) = store.next_mark(map, after) {
        if !state.live(Cell { map, block }) {
            return Some(block);
        }
        after = Some(block);
    }
    None
}

/// The first marked cell that is live no longer, by map and then by block.
fn retired_cell<D: Disk>(state: &GlobalState, store: &Store<D>) -> Option<Cell>
    ensures { result ≡ first_marked (retired_marks state.now store.now.marks) }
{
    let mut after = None;
    while let Some(map) = store.next_marked_map(after) {
        if let Some(block) = retired_block(state, store, map) {
            return Some(Cell { map, block });
        }
        after = Some(map);
    }
    None
}

/// The first kind of mark on a cell that is marked.
fn first_kind<D: Disk>(store: &Store<D>, cell: Cell) -> MarkKind
    ensures { result ≡ first_kind store.now.marks cell }
{
    if store.has(MarkKind::Busy, cell) {
        MarkKind::Busy
    } else {
        MarkKind::Stale
    }
}

/// The first mark of a cell that is live no longer.
pub fn retired_mark<D: Disk>(state: &GlobalState, store: &Store<D>) -> Option<Retired>
    ensures { result ≡ retired_mark state.now store.now.marks }
{
    // What `next_mark` promises tells the proof that the marks are in order.
    let _ = store.next_mark(0, None);
    match retired_cell(state, store) {
        Some(cell) => Some(Retired::Mark(first_kind(store, cell), cell)),
        None => None,
    }
}
