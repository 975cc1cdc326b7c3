//! Pages: the holder of a link asks for the other server's marks, block by block, and makes them its own.

ghost use Rattle.std.specs.Prelude.{◌≡◌, Some, None};
ghost use Rattle.spec_rules.specs.Copies as copies;
ghost use Rattle.spec_rules.specs.Store.{Store as Stored};
ghost use Rattle.pair_memory.specs.PairMemory.{own_of, HasTicketsAt};
ghost use Rattle.pair_memory.specs.JobResult.{IsDone, IsSaid, held};
ghost use Rattle.link_blocks.specs.Walks.{side_own};

use busy_marks::MarkKind;
use global_state::{LinkRow, holder_of};
use kept_chains::mark;
use link_blocks::{cell_at, followed, marked_above, other_in};
use pair_memory::{
    FollowUp, JobContext, JobResult, PairMemory, WorkError, link_id, say_to, silent,
};
use petal_base::BlockNo;
use petal_disk::Disk;
use petal_msg::{Body, LinkId, Progress};
use server_store::Store;

/// The other server answers its least marked block above this one, or that there is none.
///
/// # Errors
/// Out of memory, which changed nothing.
#[tactic(auto, unfolding(spec_rules::specs::Copies::on_hello_ask))]
pub fn on_hello_ask<D: Disk>(
    here: &JobContext,
    side: &PairMemory,
    store: &Store<D>,
    link: LinkId,
    after: Option<BlockNo>,
) -> Result<JobResult, WorkError>
    requires { HasTicketsAt side.now store.now }
    ensures { IsSaid here.now side.now side.now store.now store.now result (copies.on_hello_ask here.now (own_of side.now store.now) link after) }
{
    match here.state().link_row(link.map, link.link) {
        None => silent(here, side, store),
        Some(row) => {
            let body = Body::Hello {
                map: row.map,
                link: row.link,
                after,
                block: marked_above(here, store, row, after),
            };
            say_to(here, side, store, holder_of(here.me(), row), body)
        }
    }
}

/// The page above the last block that was answered.
pub fn page_wanted(side: &PairMemory, row: &LinkRow) -> Body
    ensures { (store : Stored) → result ≡ copies.page_wanted (side_own side.now store) row.now }
{
    let progress = side.copies.progress_on(link_id(row));
    Body::HelloAsk {
        map: row.map,
        link: row.link,
        after: progress.after,
    }
}

fn is_same_block(a: Option<BlockNo>, b: Option<BlockNo>) -> bool
    ensures { result ≡ copies.same_block a b }
{
    match (a, b) {
        (None, None) => true,
        (Some(a), Some(b)) => a == b,
        (None, Some(_)) | (Some(_), None) => false,
    }
}

/// The pages are done.
fn end_pages<D: Disk>(
    here: &JobContext,
    side: &mut PairMemory,
    store: &Store<D>,
    row: &LinkRow,
    before: Progress,
) -> Result<JobResult, WorkError>
    requires { HasTicketsAt side.old store.now }
    ensures { IsSaid here.now side.old side.new store.now store.now result
        (copies.turns_page (own_of side.old store.now) row.now before None) }
{
    let _ = store;
    let link = link_id(row);
    side.copies.set_progress(
        link,
        Progress {
            paged: true,
            ..before
        },
    )?;
    Ok(followed(here, Some(FollowUp::Repair(link))))
}

/// The block of the page is marked stale here. Where that is refused the link is as far as before.
fn mark_page<D: Disk>(
    here: &JobContext,
    side: &mut PairMemory,
    store: &mut Store<D>,
    row: &LinkRow,
    before: Progress,
    block: BlockNo,
) -> Result<JobResult, WorkError>
    requires { HasTicketsAt side.old store.old }
    ensures { IsDone D.Disk here.now (held side.old store.old) (held side.new store.new) result
        (copies.turns_page (own_of side.old store.old) row.now before (Some block)) }
{
    let link = link_id(row);
    let found = side.copies.found_progress(link);
    side.copies.set_progress(
        link,
        Progress {
            after: Some(block),
            ..before
        },
    )?;
    match mark(store, MarkKind::Stale, cell_at(row, block)) {
        Ok(()) => Ok(followed(here, Some(FollowUp::Repair(link)))),
        Err(error) => {
            side.copies.restore_progress(link, found);
            Err(WorkError::from(error))
        }
    }
}

fn turn_page<D: Disk>(
    here: &JobContext,
    side: &mut PairMemory,
    store: &mut Store<D>,
    row: &LinkRow,
    before: Progress,
    block: Option<BlockNo>,
) -> Result<JobResult, WorkError>
    requires { HasTicketsAt side.old store.old }
    ensures { IsDone D.Disk here.now (held side.old store.old) (held side.new store.new) result
        (copies.turns_page (own_of side.old store.old) row.now before block) }
{
    match block {
        None => end_pages(here, side, store, row, before),
        Some(block) => mark_page(here, side, store, row, before, block),
    }
}

/// A page counts where it is the one that is waited for.
fn hear_page<D: Disk>(
    here: &JobContext,
    side: &mut PairMemory,
    store: &mut Store<D>,
    row: &LinkRow,
    after: Option<BlockNo>,
    block: Option<BlockNo>,
) -> Result<JobResult, WorkError>
    requires { HasTicketsAt side.old store.old }
    ensures { IsDone D.Disk here.now (held side.old store.old) (held side.new store.new) result
        (copies.hears_hello here.now (own_of side.old store.old) after block (Some row.now)) }
{
    if other_in(here, row).is_none() {
        return silent(here, side, store);
    }
    let before = side.copies.progress_on(link_id(row));
    if !before.paged && is_same_block(after, before.after) {
        turn_page(here, side, store, row, before, block)
    } else {
        silent(here, side, store)
    }
}

/// The holder makes the mark that a page tells its own; with the page that has none the pages are done.
///
/// # Errors
/// `NoMemory`, and then nothing changed; `Failed` where the device failed, and `NoRoom` only where marks and rows of the store
/// were as many as there may be: the entries are as they were, and the server is to be stopped.
#[tactic(auto, unfolding(spec_rules::specs::Copies::on_hello))]
pub fn on_hello<D: Disk>(
    here: &JobContext,
    side: &mut PairMemory,
    store: &mut Store<D>,
    link: LinkId,
    after: Option<BlockNo>,
    block: Option<BlockNo>,
) -> Result<JobResult, WorkError>
    requires { HasTicketsAt side.old store.old }
    ensures { IsDone D.Disk here.now (held side.old store.old) (held side.new store.new) result
        (copies.on_hello here.now (own_of side.old store.old) link after block) }
{
    match here.state().link_row(link.map, link.link) {
        None => silent(here, side, store),
        Some(row) => hear_page(here, side, store, row, after, block),
    }
}
