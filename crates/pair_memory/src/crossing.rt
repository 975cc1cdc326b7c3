//! What an entry of the log does to a server's part in its pairs.

ghost use Rattle.std.specs.Prelude.{◌≡◌, ◌≤◌, ◌+◌, ◌&&◌, ℕ, map, filter, find, length, IfOk, Some};
ghost use Rattle.std.specs.List.Sorted.{IsStrictlySortedBy};
ghost use Rattle.std.specs.Map.{keys_of, values_of};
ghost use Rattle.spec_state.specs.Command.{after};
ghost use Rattle.spec_state.specs.Place.{touches};
ghost use Rattle.spec_rules.specs.Crossing as rules;
ghost use Rattle.spec_rules.specs.Crossing.{touches_cell};
ghost use Rattle.spec_rules.specs.State.{id_of};
ghost use Rattle.spec_rules.specs.Store.{Store as Stored, cell_cmp};
ghost use Rattle.spec_rules.specs.declared.job.Job.TheVariants as job;
ghost use Rattle.pair_memory.specs.Ended.{cell_ends};
ghost use Rattle.pair_memory.specs.Crossed.{AreFreed, IsCrossed, IsEntered};
ghost use Rattle.pair_memory.specs.PairMemory.{HasTicketsAt, pairs_of, times};

use crate::ends::{drop_cells, ends_cell};
use crate::error::WorkError;
use crate::job_context::JobContext;
use crate::links::link_id;
use crate::side::PairMemory;
use crate::slots::give_back;
use global_state::{GlobalState, LinkRow, LinkState};
use kept_chains::{Store, Ticket, settle};
use link_table::has_server;
use pair_lock::PairLock;
use petal_base::{Cell, NoMemory, ServerId};
use petal_command::Command;
use petal_disk::Disk;
use petal_table::Table;
use spec_rules::Job;
use std::alloc::{AllocError, Global};

fn first_ended(
    here: &JobContext,
    entry: &Command,
    next: &GlobalState,
    table: &Table<Cell, Ticket>,
) -> Option<Cell>
    ensures found { result ≡ find (cell_ends here.now.state next.now entry.now) (keys_of table.now) }
    ensures sorted { IsStrictlySortedBy cell_cmp (keys_of table.now) }
{
    table
        .keys()
        .copied()
        .find(|cell| ends_cell(here, entry, next, *cell))
}

/// The slots set apart for others on the cells that end with the entry are free again.
fn free<D: Disk>(
    here: &JobContext,
    entry: &Command,
    next: &GlobalState,
    apart: &mut Table<Cell, Ticket>,
    store: &mut Store<D>,
)
    requires below { (slot : ℕ) → times slot (values_of apart.old) ≤ times slot store.old.tickets }
    ensures freed { AreFreed (cell_ends here.now.state next.now entry.now) apart.old apart.new store.old store.new }
    ensures sorted { IsStrictlySortedBy cell_cmp (keys_of apart.old) }
{
    // What `len` promises tells the proof that the rows rise by cell.
    let _ = apart.len();
    while let Some(cell) = first_ended(here, entry, next, apart) {
        give_back(apart, store, cell);
    }
}

/// What others asked of this server on the cells that end with the entry is dropped with all that is remembered of copies there,
/// and the slots set apart for others are free; what is known of fills is dropped with their map. The state is that before the
/// entry, which makes the next one. It takes no memory.
fn cross<D: Disk>(
    here: &JobContext,
    entry: &Command,
    next: &GlobalState,
    side: &mut PairMemory,
    store: &mut Store<D>,
)
    requires tickets { HasTicketsAt side.old store.old }
    requires next { next.now ≡ after here.now.state entry.now }
    ensures { IsCrossed here.now.state entry.now side.old side.new store.old store.new }
{
    free(here, entry, next, &mut side.apart, store);
    drop_cells(here, entry, next, &mut side.last);
    side.copies.cross(here, entry, next);
    side.filled.keep_live(next);
}

/// Whether the entry is this incarnation's own Join with an empty store.
fn is_blank_join(here: &JobContext, entry: &Command) -> bool
    ensures { result ≡ rules.is_blank_join entry.now here.now.me here.now.inc }
{
    match entry {
        Command::Join { server, inc, blank } => {
            *blank && server.get() == here.me() && *inc == here.inc()
        }
        _ => false,
    }
}

/// The entry does to the server's own part what it does: what it drops is dropped, and with its own Join a server that came back
/// with nothing waits for nobody any more, which is the one commit. The state is that before the entry, which makes the next one. It
/// takes no memory.
///
/// # Errors
/// `Failed`, where the device failed.
pub fn enter_all<D: Disk>(
    here: &JobContext,
    entry: &Command,
    next: &GlobalState,
    side: &mut PairMemory,
    store: &mut Store<D>,
) -> Result<(), WorkError>
    requires tickets { HasTicketsAt side.old store.old }
    requires next { next.now ≡ after here.now.state entry.now }
    ensures { IsEntered D.Disk here.now (Some entry.now) side.old side.new store.old store.new result }
{
    cross(here, entry, next, side, store);
    if !is_blank_join(here, entry) {
        return Ok(());
    }
    match settle(store) {
        Ok(()) => Ok(()),
        Err(_) => Err(WorkError::Failed),
    }
}

fn stages(
    alloc: Global,
    here: &JobContext,
    entry: &Command,
    locks: &PairLock,
) -> Result<Vec<Job>, AllocError>
    ensures { IfOk result (λ jobs. jobs.items
        ≡ map (λ row. job.Stage row.0) (filter (λ row. touches_cell here.now.state entry.now row.0) locks.now)) }
{
    locks
        .iter()
        .filter(|row| here.touches(entry, *row.0))
        .map(|row| Job::Stage(*row.0))
        .collect(alloc)
}

/// Whether the server has something to mend of the link, as this state has it.
fn is_repaired(state: &GlobalState, me: ServerId, row: &LinkRow) -> bool
    ensures { result ≡ rules.is_repaired state.now me row.now row.now.state }
{
    match row.state {
        LinkState::Both => has_server(me, row),
        LinkState::Only { .. } => state.other_in(me, row).is_some(),
        LinkState::Lost => false,
    }
}

fn jobs_to_repair(
    alloc: Global,
    here: &JobContext,
    entry: &Command,
    next: &GlobalState,
) -> Result<Vec<Job>, AllocError>
    ensures { IfOk result (λ jobs. jobs.items ≡ map (λ row. job.Repair (id_of row))
        (filter (λ row. touches here.now.state entry.now row && rules.is_repaired next.now here.now.me row row.state) next.now.links)) }
{
    next.links()
        .iter()
        .filter(|row| { here.state().touches(entry, row) && is_repaired(next, here.me(), row) })
        .map(|row| Job::Repair(link_id(row)))
        .collect(alloc)
}

/// The jobs that follow an entry, which makes this next state: by them this server's own operations go on, on the links that the
/// entry touches, and it mends these links.
///
/// # Errors
/// Out of memory.
pub fn entry_jobs(
    here: &JobContext,
    entry: &Command,
    side: &PairMemory,
    next: &GlobalState,
) -> Result<Vec<Job>, NoMemory>
    requires { next.now ≡ after here.now.state entry.now }
    ensures { (store : Stored) → IfOk result (λ jobs. jobs.items ≡ rules.jobs_by here.now.state here.now.me (Some entry.now)
        (record { pairs = pairs_of side.now; copies = side.now.copies; filled = side.now.filled; store = store })) }
{
    let mut jobs = stages(here.alloc(), here, entry, &side.locks)?;
    let mut links = jobs_to_repair(here.alloc(), here, entry, next)?;
    jobs.append(&mut links)?;
    Ok(jobs)
}
