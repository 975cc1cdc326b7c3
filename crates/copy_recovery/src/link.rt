//! What a job for a link does: the next page, the next copy, or old marks.

ghost use Rattle.std.specs.Prelude.{◌≡◌, ◌<◌, ◌≤◌, filter, length, map, Err, IfOk};
ghost use Rattle.busy_marks.specs.declared.marks.MarkKind.TheVariants as mark;
ghost use Rattle.spec_rules.specs.Copies as copies;
ghost use Rattle.spec_rules.specs.World.{greatest_u64};
ghost use Rattle.spec_rules.specs.State.{id_of, other_in};
ghost use Rattle.spec_rules.specs.declared.job.Job.TheVariants as job;
ghost use Rattle.pair_memory.specs.declared.error.WorkError.TheVariants as error;
ghost use Rattle.pair_memory.specs.PairMemory.{own_of, HasTicketsAt};
ghost use Rattle.pair_memory.specs.JobResult.{IsDone, IsSaid, held};
ghost use Rattle.copy_recovery.specs.Tidying.{takes_all};

use crate::page::page_wanted;
use busy_marks::MarkKind;
use copy_transfer::{
    UNMARKS_LIMIT, begin_copy, cell_at, followed, idle_marks, next_copy, next_idle, other_in,
};
use global_state::{LinkRow, LinkState};
use kept_chains::unmark_all;
use pair_memory::{
    FollowUp, JobContext, JobResult, PairMemory, WorkError, link_id, say_to, silent,
};
use petal_base::{Cell, NoMemory, ServerId};
use petal_disk::Disk;
use petal_msg::{LinkId, NextCopy};
use server_store::Store;
use spec_rules::Job;
use std::alloc::{AllocError, Global};

/// What is next of the link.
fn go_for<D: Disk>(
    here: &JobContext,
    side: &mut PairMemory,
    store: &Store<D>,
    row: &LinkRow,
    other: ServerId,
    next: NextCopy,
) -> Result<JobResult, WorkError>
    requires { HasTicketsAt side.old store.now }
    ensures said { ¬ (result ≡ Err error.Exhausted) → IsSaid here.now side.old side.new store.now store.now result
        (copies.goes_for here.now (own_of side.old store.now) row.now other next) }
    ensures spent { result ≡ Err error.Exhausted → (side.new ≡ side.old)
        × (greatest_u64 < (copies.goes_for here.now (own_of side.old store.now) row.now other next).own.pairs.next) }
{
    match next {
        NextCopy::Ask => say_to(here, side, store, Some(other), page_wanted(side, row)),
        NextCopy::Block(cell) => begin_copy(here, side, store, cell),
        NextCopy::Wait | NextCopy::Nothing => silent(here, side, store),
    }
}

/// Of a link that the server holds alone the next page is asked for, or the next copy begins.
fn catch_up<D: Disk>(
    here: &JobContext,
    side: &mut PairMemory,
    store: &Store<D>,
    row: &LinkRow,
) -> Result<JobResult, WorkError>
    requires { HasTicketsAt side.old store.now }
    ensures said { ¬ (result ≡ Err error.Exhausted) → IsSaid here.now side.old side.new store.now store.now result
        (copies.catches_up here.now (own_of side.old store.now) row.now (other_in here.now.state here.now.me row.now)) }
    ensures spent { result ≡ Err error.Exhausted → (side.new ≡ side.old) × (greatest_u64
        < (copies.catches_up here.now (own_of side.old store.now) row.now (other_in here.now.state here.now.me row.now)).own.pairs.next) }
{
    match other_in(here, row) {
        None => silent(here, side, store),
        Some(other) => {
            let next = next_copy(here, side, store, row);
            go_for(here, side, store, row, other, next)
        }
    }
}

/// The marks of this kind are taken away from these cells together, and the link goes on.
fn take_all<D: Disk>(
    here: &JobContext,
    side: &PairMemory,
    store: &mut Store<D>,
    row: &LinkRow,
    kind: MarkKind,
    cells: &[Cell],
) -> Result<JobResult, WorkError>
    requires tickets { HasTicketsAt side.now store.old }
    requires few { length cells.now ≤ copies.unmarks_limit }
    ensures { IsDone D.Disk here.now (held side.now store.old) (held side.now store.new) result
        (takes_all (own_of side.now store.old) row.now kind cells.now) }
{
    unmark_all(store, kind, cells)?;
    Ok(followed(here, Some(FollowUp::Repair(link_id(row)))))
}

/// The marks of this kind are taken away from these cells together; where there is no cell nothing is done.
fn take_marks<D: Disk>(
    here: &JobContext,
    side: &PairMemory,
    store: &mut Store<D>,
    row: &LinkRow,
    kind: MarkKind,
    cells: &[Cell],
) -> Result<JobResult, WorkError>
    requires tickets { HasTicketsAt side.now store.old }
    requires few { length cells.now ≤ copies.unmarks_limit }
    ensures { IsDone D.Disk here.now (held side.now store.old) (held side.now store.new) result
        (copies.takes_marks (own_of side.now store.old) row.now kind cells.now) }
{
    if cells.is_empty() {
        return silent(here, side, store);
    }
    take_all(here, side, store, row, kind, cells)
}

/// In Both marks that writes or an earlier life left are taken away: the busy ones first.
fn clear_old_marks<D: Disk>(
    here: &JobContext,
    side: &PairMemory,
    store: &mut Store<D>,
    row: &LinkRow,
) -> Result<JobResult, WorkError>
    requires { HasTicketsAt side.now store.old }
    ensures { IsDone D.Disk here.now (held side.now store.old) (held side.now store.new) result
        (copies.clears_old_marks here.now.state (own_of side.now store.old) row.now
        (copies.idle_cells here.now.state row.now (own_of side.now store.old) mark.Busy)) }
{
    let mut cells = [cell_at(row, 0); UNMARKS_LIMIT];
    let busy = idle_marks(here, side, store, row, MarkKind::Busy, &mut cells);
    if busy == 0 {
        let stale = idle_marks(here, side, store, row, MarkKind::Stale, &mut cells);
        return take_marks(here, side, store, row, MarkKind::Stale, &cells[..stale]);
    }
    take_marks(here, side, store, row, MarkKind::Busy, &cells[..busy])
}

fn repair_row<D: Disk>(
    here: &JobContext,
    side: &mut PairMemory,
    store: &mut Store<D>,
    row: &LinkRow,
) -> Result<JobResult, WorkError>
    requires { HasTicketsAt side.old store.old }
    ensures { IsDone D.Disk here.now (held side.old store.old) (held side.new store.new) result
        (copies.repairs_row here.now (own_of side.old store.old) row.now row.now.state) }
{
    match row.state {
        LinkState::Both => clear_old_marks(here, side, store, row),
        LinkState::Only { .. } => catch_up(here, side, store, row),
        LinkState::Lost => silent(here, side, store),
    }
}

/// One job for a link, with at most one commit to the store.
///
/// # Errors
/// As of [`copies_on`](crate::copies_on).
#[tactic(auto, unfolding(spec_rules::specs::Copies::repairs))]
pub fn repair<D: Disk>(
    here: &JobContext,
    side: &mut PairMemory,
    store: &mut Store<D>,
    link: LinkId,
) -> Result<JobResult, WorkError>
    requires { HasTicketsAt side.old store.old }
    ensures { IsDone D.Disk here.now (held side.old store.old) (held side.new store.new) result
        (copies.repairs here.now (own_of side.old store.old) link) }
{
    match here.state().link_row(link.map, link.link) {
        None => silent(here, side, store),
        Some(row) => repair_row(here, side, store, row),
    }
}

fn is_block(next: NextCopy) -> bool
    ensures { result ≡ copies.is_block next }
{
    match next {
        NextCopy::Block(_) => true,
        NextCopy::Ask | NextCopy::Wait | NextCopy::Nothing => false,
    }
}

/// Whether a copy waits to be begun, or a mark to be taken away.
fn waits_for_job<D: Disk>(
    here: &JobContext,
    side: &PairMemory,
    store: &Store<D>,
    row: &LinkRow,
) -> bool
    ensures { result ≡ copies.waits_for_job here.now (own_of side.now store.now) row.now row.now.state }
{
    match row.state {
        LinkState::Both => {
            next_idle(here, side, store, row, MarkKind::Busy, None).is_some()
                || next_idle(here, side, store, row, MarkKind::Stale, None).is_some()
        }
        LinkState::Only { .. } => {
            other_in(here, row).is_some() && is_block(next_copy(here, side, store, row))
        }
        LinkState::Lost => false,
    }
}

fn jobs_of<D: Disk>(
    alloc: Global,
    here: &JobContext,
    side: &PairMemory,
    store: &Store<D>,
    rows: &[LinkRow],
) -> Result<Vec<Job>, AllocError>
    ensures { IfOk result (λ jobs. jobs.items
        ≡ map (λ row. job.Repair (id_of row)) (filter (λ row. copies.waits_for_job here.now (own_of side.now store.now) row row.state) rows.now)) }
{
    rows.iter()
        .filter(|row| waits_for_job(here, side, store, row))
        .map(|row| Job::Repair(link_id(row)))
        .collect(alloc)
}

/// The jobs of the links that have something to mend for which no letter is waited for.
///
/// # Errors
/// Out of memory.
pub fn repair_jobs<D: Disk>(
    here: &JobContext,
    side: &PairMemory,
    store: &Store<D>,
) -> Result<Vec<Job>, NoMemory>
    ensures { IfOk result (λ jobs. jobs.items ≡ copies.repair_jobs here.now (own_of side.now store.now)) }
{
    Ok(jobs_of(here.alloc(), here, side, store, here.state().links())?)
}
