//! What is next of a link that is held alone, while its other server is In.

ghost use Rattle.std.specs.Prelude.{◌≡◌};
ghost use Rattle.std.specs.List.{list_any};
ghost use Rattle.busy_marks.specs.Marks.{lesser};
ghost use Rattle.spec_rules.specs.Copies as copies;
ghost use Rattle.spec_rules.specs.Copies.{least};
ghost use Rattle.spec_rules.specs.State.{is_on};
ghost use Rattle.spec_rules.specs.Store.{Store as Stored};
ghost use Rattle.pair_memory.specs.Kept.{chains_of};
ghost use Rattle.pair_memory.specs.PairMemory.{own_of};
ghost use Rattle.link_blocks.specs.Walks.{left_on, side_own};

use crate::roles::needs_full_copy;
use crate::walk::{cell_at, marked_above, stored_above};
use global_state::LinkRow;
use pair_lock::PairLock;
use pair_memory::{Copies, JobContext, PairMemory, Store, link_id};
use petal_base::BlockNo;
use petal_disk::Disk;
use petal_msg::NextCopy;

fn lesser_block(a: Option<BlockNo>, b: Option<BlockNo>) -> Option<BlockNo>
    ensures { result ≡ lesser a b }
{
    match (a, b) {
        (Some(a), Some(b)) if b < a => Some(b),
        (Some(a), _) => Some(a),
        (None, b) => b,
    }
}

/// The least block that is left to copy.
fn block_left<D: Disk>(
    here: &JobContext,
    store: &Store<D>,
    row: &LinkRow,
    copied: Option<BlockNo>,
) -> Option<BlockNo>
    ensures { result ≡ least (left_on here.now.state row.now store.now.marks (chains_of store.now.entries) copied) }
{
    let marked = marked_above(here, store, row, None);
    if !needs_full_copy(row.state) {
        return marked;
    }
    lesser_block(marked, stored_above(here, store, row, copied))
}

fn any_pending(here: &JobContext, locks: &PairLock, row: &LinkRow) -> bool
    ensures { result ≡ list_any (λ op. is_on here.now.state row.now op.0) locks.now }
{
    locks.iter().any(|op| here.state().is_on(row, *op.0))
}

fn any_copied(here: &JobContext, noted: &Copies, row: &LinkRow) -> bool
    ensures { result ≡ list_any (λ copy. is_on here.now.state row.now copy.0) noted.now.pending }
{
    noted.iter().any(|copy| here.state().is_on(row, *copy.0))
}

/// Whether an operation or a copy is under way on the link.
fn is_link_under_way(here: &JobContext, side: &PairMemory, row: &LinkRow) -> bool
    ensures { (store : Stored) → result ≡ copies.is_link_under_way here.now.state row.now (side_own side.now store) }
{
    any_pending(here, &side.locks, row) || any_copied(here, &side.copies, row)
}

/// Where no page is left: the least block that is left, or what is waited for.
fn next_block<D: Disk>(
    here: &JobContext,
    side: &PairMemory,
    store: &Store<D>,
    row: &LinkRow,
    found: Option<BlockNo>,
) -> NextCopy
    ensures { result ≡ copies.next_block here.now.state row.now (own_of side.now store.now) found }
{
    let _ = store;
    match found {
        None => {
            if is_link_under_way(here, side, row) {
                NextCopy::Wait
            } else {
                NextCopy::Nothing
            }
        }
        Some(block) => {
            let cell = cell_at(row, block);
            if side.is_under_way(cell) {
                NextCopy::Wait
            } else {
                NextCopy::Block(cell)
            }
        }
    }
}

/// What is next of a link that this server holds alone, and whose other server is In.
#[tactic(auto, unfolding(spec_rules::specs::Copies::next_copy))]
pub fn next_copy<D: Disk>(
    here: &JobContext,
    side: &PairMemory,
    store: &Store<D>,
    row: &LinkRow,
) -> NextCopy
    ensures { result ≡ copies.next_copy here.now.state row.now (own_of side.now store.now) }
{
    let progress = side.copies.progress_on(link_id(row));
    if !progress.paged {
        return NextCopy::Ask;
    }
    let found = block_left(here, store, row, progress.copied);
    next_block(here, side, store, row, found)
}
