//! One job.

ghost use Rattle.std.specs.Prelude.{◌≡◌};
ghost use Rattle.spec_rules.specs.State.{is_in};
ghost use Rattle.spec_rules.specs.Jobs.{does, is_from_in, on_letter, stages};
ghost use Rattle.pair_memory.specs.PairMemory.{own_of};
ghost use Rattle.pair_memory.specs.JobResult.{IsDone, IsReady, held};

use crate::letters::{at_other_rev, handle};
use copy_recovery::{copy_on, repair, trim_on};
use global_state::GlobalState;
use pair_memory::{JobContext, JobResult, PairMemory, WorkError, silent};
use petal_base::{Cell, Inc, ServerId};
use petal_disk::Disk;
use petal_msg::{Actor, Letter};
use redistribute::sweep_one;
use server_store::Store;
use spec_rules::Job;
use write_pair::go_on;

/// Whether the server is In with this incarnation.
fn is_in(state: &GlobalState, server: ServerId, inc: Inc) -> bool
    ensures { result ≡ is_in state.now server inc }
{
    match state.inc_in(server) {
        Some(present) => present == inc,
        None => false,
    }
}

fn is_from_in(state: &GlobalState, inc: Inc, from: Actor) -> bool
    ensures { result ≡ is_from_in state.now inc from }
{
    match from {
        Actor::Server(server) => is_in(state, server, inc),
        Actor::Client(_) => true,
    }
}

/// Whether this server is In as itself.
fn is_here_in(here: &JobContext) -> bool
    ensures { result ≡ is_in here.now.state here.now.me here.now.inc }
{
    is_in(here.state(), here.me(), here.inc())
}

/// The three tests before a letter is handled.
fn on_letter<D: Disk>(
    here: &JobContext,
    side: &mut PairMemory,
    store: &mut Store<D>,
    letter: &Letter,
) -> Result<JobResult, WorkError>
    requires ready { IsReady side.old store.old }
    ensures { IsDone D.Disk here.now (held side.old store.old) (held side.new store.new) result
        (on_letter here.now (own_of side.old store.old) letter.now) }
{
    if !is_here_in(here) {
        silent(here, side, store)
    } else if letter.rev != here.rev() {
        at_other_rev(here, side, store, letter)
    } else if !is_from_in(here.state(), letter.inc, letter.from) {
        silent(here, side, store)
    } else {
        handle(here, side, store, letter)
    }
}

/// What is under way on the cell does its next stage: an operation, a copy, or the last copy of the cell to this server.
fn stages<D: Disk>(
    here: &JobContext,
    side: &mut PairMemory,
    store: &mut Store<D>,
    cell: Cell,
) -> Result<JobResult, WorkError>
    requires ready { IsReady side.old store.old }
    ensures { IsDone D.Disk here.now (held side.old store.old) (held side.new store.new) result
        (stages here.now (own_of side.old store.old) cell) }
{
    if side.locks.is_busy(cell) {
        go_on(here, side, store, cell)
    } else if side.copies.copying_on(cell).is_some() {
        copy_on(here, side, store, cell)
    } else {
        trim_on(here, side, store, cell)
    }
}

/// One job, with at most one commit.
///
/// # Errors
/// `NoMemory`, and then nothing changed; `Failed` where the device failed, and `NoRoom` only where marks and rows of the store
/// were as many as there may be: the entries are as they were, and the server is to be stopped.
#[tactic(auto, unfolding(spec_rules::specs::Jobs::does))]
pub fn does<D: Disk>(
    here: &JobContext,
    side: &mut PairMemory,
    store: &mut Store<D>,
    job: &Job,
) -> Result<JobResult, WorkError>
    requires ready { IsReady side.old store.old }
    ensures { IsDone D.Disk here.now (held side.old store.old) (held side.new store.new) result
        (does here.now (own_of side.old store.old) job.now) }
{
    match job {
        Job::Letter(letter) => on_letter(here, side, store, letter.get()),
        Job::Stage(cell) => {
            if is_here_in(here) {
                stages(here, side, store, *cell)
            } else {
                silent(here, side, store)
            }
        }
        Job::Repair(link) => {
            if is_here_in(here) {
                repair(here, side, store, *link)
            } else {
                silent(here, side, store)
            }
        }
        Job::Sweep => {
            if is_here_in(here) {
                sweep_one(here, side, store)
            } else {
                silent(here, side, store)
            }
        }
        Job::Apply | Job::Start => silent(here, side, store),
    }
}
