//! What a server wants chosen by its own part.

ghost use Rattle.std.specs.Prelude.{◌≡◌, ◌++◌, IfOk, OnOk};
ghost use Rattle.epoch_snapshot.specs.Report.{reported_as};
ghost use Rattle.kept_chains.specs.Kept.{store_of};
ghost use Rattle.server_log.specs.Part.{state_of};
ghost use Rattle.spec_rules.specs.Jobs.{own_wants};
ghost use Rattle.spec_rules.specs.State.{is_in};
ghost use Rattle.server_jobs.specs.Wants.{here_by, own_in};

use epoch_snapshot::drained;
use link_blocks::caught_links;
use pair_memory::{JobContext, PairMemory};
use petal_base::{NoMemory, Sequence};
use petal_command::Command;
use petal_disk::Disk;
use redistribute::moving;
use server_log::LogSide;
use server_store::Store;
use std::alloc::Global;

/// Whether the server is In as itself.
pub fn is_in(log: &LogSide) -> bool
    ensures { result ≡ is_in (state_of log.now) log.now.voter.me log.now.voter.inc }
{
    match log.state().inc_in(log.me()) {
        Some(present) => present == log.inc(),
        None => false,
    }
}

/// The wants so far, and the report to the fence of this number, if any.
fn with_report(wants: &mut Vec<Command>, log: &LogSide, fence: Option<u32>) -> Result<(), NoMemory>
    ensures { OnOk result (wants.new.items ≡ wants.old.items ++ reported_as log.now.voter.me log.now.voter.inc fence) }
{
    let Some(fence) = fence else {
        return Ok(());
    };
    wants.push(Command::Drained {
        server: log.number(),
        inc: log.inc(),
        fence,
    })?;
    Ok(())
}

/// What the server wants chosen by its own part: its Join alone where it is not In as itself. Else the `Caught` of each link of
/// which nothing is left to copy, so that its links return to what they were; then its report to the active fence, where that
/// awaits it and nothing that it holds is under way; then the `Moved` of each link of which nothing is left to move.
///
/// # Errors
/// Out of memory.
#[tactic(auto, using(crate::proofs::Wanting::wants_out, crate::proofs::Wanting::wants_on))]
pub fn own_wants<D: Disk>(
    alloc: Global,
    log: &LogSide,
    side: &PairMemory,
    store: &Store<D>,
) -> Result<Sequence<Command>, NoMemory>
    ensures { IfOk result (λ wants. wants ≡ own_wants (here_by log.now) (own_in side.now (store_of store.now))) }
{
    if !is_in(log) {
        return log.own_join(alloc, store.fresh());
    }
    let here = JobContext::new(alloc, log.state(), log.number(), log.inc());
    let mut wants = caught_links(&here, side, store)?;
    let fence = drained(log.state(), log.me(), &side.locks);
    with_report(&mut wants, log, fence)?;
    let mut moved = moving(&here, side, store)?;
    wants.append(&mut moved)?;
    Ok(Sequence::of(wants))
}
