//! Ballots for what is wanted.

ghost use Rattle.std.specs.Prelude.{◌≡◌, OnOk, OnErr, option_map};
ghost use Rattle.kept_chains.specs.Kept.{store_of};
ghost use Rattle.server_log.specs.Done as logs;
ghost use Rattle.server_log.specs.Part.{log_of};
ghost use Rattle.spec_rules.specs.Ballots.{starts_for};
ghost use Rattle.spec_rules.specs.State.{id_of};
ghost use Rattle.spec_rules.specs.declared.job.Job.TheVariants as job;
ghost use Rattle.server_jobs.specs.Ballots.{IsLeft, log_rule};
ghost use Rattle.server_jobs.specs.Noted.{found_caught, noted, row_caught};

use crate::wants::own_wants;
use global_state::GlobalState;
use pair_memory::{Copies, PairMemory, link_id};
use petal_command::Command;
use petal_disk::Disk;
use petal_msg::{LinkId, Progress};
use server_log::{LogDone, LogSide, start_ballot};
use server_store::Store;
use spec_rules::Job;
use state_store::{StateError, StateStore};
use std::alloc::Global;

/// The link whose `Caught` it is.
fn link_caught(state: &GlobalState, command: &Command) -> Option<LinkId>
    ensures { result ≡ option_map id_of (row_caught state.now command.now) }
{
    match command {
        Command::Caught { map, link, .. } => match state.link_row(*map, link.get()) {
            Some(row) => Some(link_id(row)),
            None => None,
        },
        _ => None,
    }
}

fn link_found(state: &GlobalState, found: &Option<Command>) -> Option<LinkId>
    ensures { result ≡ option_map id_of (found_caught state.now found.now) }
{
    match found {
        Some(command) => link_caught(state, command),
        None => None,
    }
}

/// Starts a ballot for this command, if any; where it is the `Caught` of this link, that is noted of the link first.
fn start_for<E: Disk>(
    alloc: Global,
    log: &mut LogSide,
    copies: &mut Copies,
    state: &mut StateStore<E>,
    link: Option<LinkId>,
    found: Option<Command>,
) -> Result<LogDone, StateError>
    ensures done { logs.IsLogDone E.Disk log.old log.new state.old state.new result
        (starts_for log.old.voter (log_of log.old state.old.records) found) }
    ensures noted { OnOk result (copies.new ≡ noted copies.old link) }
    ensures same { OnErr result (copies.new ≡ copies.old) }
{
    let Some(link) = link else {
        return start_ballot(alloc, log, state, found);
    };
    let before = copies.found_progress(link);
    let progress = copies.progress_on(link);
    copies.set_progress(
        link,
        Progress {
            caught: true,
            ..progress
        },
    )?;
    match start_ballot(alloc, log, state, found) {
        Ok(done) => Ok(done),
        Err(error) => {
            copies.restore_progress(link, before);
            Err(error)
        }
    }
}

/// Starts a ballot for the first command that is wanted. With a link's `Caught`, the link's writes are held from then on.
#[tactic(auto, unfolding(spec_rules::specs::Ballots::starts))]
fn start_wanted<D: Disk, E: Disk>(
    alloc: Global,
    log: &mut LogSide,
    side: &mut PairMemory,
    store: &Store<D>,
    state: &mut StateStore<E>,
) -> Result<LogDone, StateError>
    ensures done { logs.IsLogDone E.Disk log.old log.new state.old state.new result
        (log_rule log.old side.old (store_of store.now) state.old.records job.Start log.old.voter) }
    ensures left { OnOk result (IsLeft log.old side.old (store_of store.now) state.old.records job.Start side.new) }
    ensures same { OnErr result (side.new ≡ side.old) }
{
    let wants = own_wants(alloc, log, side, store)?;
    let found = log.next_want(alloc, wants.as_slice())?;
    let link = link_found(log.state(), &found);
    start_for(alloc, log, &mut side.copies, state, link, found)
}

/// Does a job of the agreed log. Where it starts a ballot for a link's `Caught`, that is noted of the link first.
///
/// # Errors
/// As of each job of the log.
pub fn does_log<D: Disk, E: Disk>(
    alloc: Global,
    log: &mut LogSide,
    side: &mut PairMemory,
    store: &Store<D>,
    state: &mut StateStore<E>,
    job: &Job,
) -> Result<LogDone, StateError>
    ensures done { logs.IsLogDone E.Disk log.old log.new state.old state.new result
        (log_rule log.old side.old (store_of store.now) state.old.records job.now log.old.voter) }
    ensures left { OnOk result (IsLeft log.old side.old (store_of store.now) state.old.records job.now side.new) }
    ensures same { OnErr result (side.new ≡ side.old) }
{
    match job {
        Job::Start => start_wanted(alloc, log, side, store, state),
        Job::Letter(_) | Job::Stage(_) | Job::Repair(_) | Job::Sweep | Job::Apply => {
            server_log::does(alloc, log, state, job)
        }
    }
}
