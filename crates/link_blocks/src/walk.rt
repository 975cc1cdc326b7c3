//! The blocks of a link that are marked here, or that have an entry here, one after the other.

ghost use Rattle.std.specs.Prelude.{◌≡◌, ◌<◌, ◌≤◌, ◌^◌, filter, take};
ghost use Rattle.busy_marks.specs.Marks.{above};
ghost use Rattle.spec_rules.specs.Copies as copies;
ghost use Rattle.spec_rules.specs.Copies.{least};
ghost use Rattle.pair_memory.specs.Kept.{chains_of};
ghost use Rattle.pair_memory.specs.PairMemory.{own_of};
ghost use Rattle.link_blocks.specs.Walks.{idle_on, marked_on, on_link, stored_on};

use busy_marks::MarkKind;
use global_state::LinkRow;
use pair_memory::{JobContext, PairMemory, Store, next_marked, next_stored};
use petal_base::{BlockNo, Cell};
use petal_disk::Disk;

/// A cell of the link.
pub fn cell_at(row: &LinkRow, block: BlockNo) -> Cell
    ensures { result ≡ copies.cell_at row.now block }
{
    Cell {
        map: row.map,
        block,
    }
}

/// Whether the block lies on the link, and its cell is live.
fn is_kept(here: &JobContext, row: &LinkRow, block: BlockNo) -> bool
    ensures value { result ≡ on_link here.now.state row.now block }
    ensures fits { block < 2 ^ 64 }
{
    let cell = cell_at(row, block);
    here.state().is_on(row, cell) && here.state().live(cell)
}

/// The least live block of the link above `after` that is marked here, of either kind.
pub fn marked_above<D: Disk>(
    here: &JobContext,
    store: &Store<D>,
    row: &LinkRow,
    after: Option<BlockNo>,
) -> Option<BlockNo>
    ensures { result ≡ least (filter (above after) (marked_on here.now.state row.now store.now.marks)) }
{
    let mut after = after;
    while let Some(block) = next_marked(store, row.map, after) {
        if is_kept(here, row, block) {
            return Some(block);
        }
        after = Some(block);
    }
    None
}

/// The least live block of the link above `after` that has an entry here.
pub fn stored_above<D: Disk>(
    here: &JobContext,
    store: &Store<D>,
    row: &LinkRow,
    after: Option<BlockNo>,
) -> Option<BlockNo>
    ensures { result ≡ least (filter (above after) (stored_on here.now.state row.now (chains_of store.now.entries))) }
{
    let mut after = after;
    while let Some(block) = next_stored(store, row.map, after) {
        if is_kept(here, row, block) {
            return Some(block);
        }
        after = Some(block);
    }
    None
}

/// Whether the block lies on the link, its cell is live, and it has a mark of this kind without anything under way.
fn is_idle<D: Disk>(
    here: &JobContext,
    side: &PairMemory,
    store: &Store<D>,
    row: &LinkRow,
    kind: MarkKind,
    block: BlockNo,
) -> bool
    ensures value { result ≡ idle_on here.now.state row.now (own_of side.now store.now) kind block }
    ensures fits { block < 2 ^ 64 }
{
    let cell = cell_at(row, block);
    is_kept(here, row, block) && store.has(kind, cell) && !side.is_under_way(cell)
}

/// The least live block of the link above `after` that has a mark of this kind without anything under way: one that a write or an
/// earlier life left.
pub fn next_idle<D: Disk>(
    here: &JobContext,
    side: &PairMemory,
    store: &Store<D>,
    row: &LinkRow,
    kind: MarkKind,
    after: Option<BlockNo>,
) -> Option<BlockNo>
    ensures { result ≡ copies.next_idle here.now.state row.now (own_of side.now store.now) kind after }
{
    let mut after = after;
    while let Some(block) = next_marked(store, row.map, after) {
        if is_idle(here, side, store, row, kind, block) {
            return Some(block);
        }
        after = Some(block);
    }
    None
}

/// How many old marks one job takes away: a commit has no more records.
pub const UNMARKS_LIMIT: usize = 64;

/// Puts the cells of the link that have an old mark of this kind at the head of `into`, by block and as many as one job takes, and
/// answers how many they are.
pub fn idle_marks<D: Disk>(
    here: &JobContext,
    side: &PairMemory,
    store: &Store<D>,
    row: &LinkRow,
    kind: MarkKind,
    into: &mut [Cell; UNMARKS_LIMIT],
) -> usize
    ensures cells { take result into.new ≡ copies.idle_cells here.now.state row.now (own_of side.now store.now) kind }
    ensures few { result ≤ copies.unmarks_limit }
{
    let mut after = None;
    for count in 0..UNMARKS_LIMIT {
        let Some(block) = next_idle(here, side, store, row, kind, after) else {
            return count;
        };
        into[count] = cell_at(row, block);
        after = Some(block);
    }
    UNMARKS_LIMIT
}
