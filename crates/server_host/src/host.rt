//! One server of a world.

ghost use Rattle.std.specs.Prelude.{◌≡◌, ◌<◌, ◌↔◌, ℕ, [], IfOk, IsTrue};
ghost use Rattle.spec_rules.specs.Log.{rev_of};
ghost use Rattle.server_host.specs.Desks.{IsFault, Site, acted_at, end_in, ended, is_spent_server, site_after};
ghost use Rattle.spec_rules.specs.Plans.{Armed, LeavesPlans};

use crate::{HostError, StepEnd};
use petal_base::{Inc, Rev, Sequence};
use petal_msg::Letter;
use spec_rules::Step;
use std::alloc::Global;

/// What a server's step gives.
#[derive(Drop)]
pub struct HostResult {
    /// The letters that it sends, without their stamps.
    pub letters: Sequence<Letter>,
    /// How the job or the boot ended; `Done` for any other step.
    pub end: StepEnd,
}

/// A server with its store, as a world steps it.
pub trait Host: Drop {
    /// Its number, how many servers there are, and what the rules know of it: of a server that has stopped no more than what
    /// stands on its two devices.
    ghost seen: { Self → Site };

    /// How often its devices have failed so far.
    ghost faults: { Self → ℕ };

    /// The plans that are armed at its devices and were not met.
    ghost armed: { Self → Armed };

    /// Takes a step. How a job or a boot ends is for the devices to say, whatever end the step names; the server and the letters
    /// are those of the step with the end that is given, which is a fault or a stop only where a device failed, by a plan that is then
    /// used up. After an error nothing is said of the server.
    fn step(&mut self, alloc: Global, step: &Step) -> Result<HostResult, HostError>
        ensures site { IfOk result (λ taken. seen self.new ≡ site_after (seen self.old) (ended step.now taken.end)) }
        ensures letters { IfOk result (λ taken. taken.letters ≡ (acted_at (seen self.old) (ended step.now taken.end)).letters) }
        ensures end { IfOk result (λ taken. taken.end ≡ end_in (ended step.now taken.end)) }
        ensures cause { IfOk result (λ taken. IsFault taken.end → faults self.old < faults self.new) }
        ensures plans { IfOk result (λ taken. LeavesPlans (ended step.now taken.end) (armed self.old) (armed self.new)) };

    /// Whether it runs.
    fn is_running(&self) -> bool
        ensures { result ≡ (seen self.now).server.life.running };

    /// Its incarnation.
    fn inc(&self) -> Inc
        ensures { result ≡ (seen self.now).server.life.inc };

    /// Whether no job waits.
    fn is_idle(&self) -> bool
        ensures { IsTrue result ↔ ((seen self.now).server.queue ≡ []) };

    /// Whether it runs with a number that is the greatest of its type, so that it can take no more steps.
    fn is_spent(&self) -> bool
        ensures { result ≡ is_spent_server (seen self.now).server };

    /// Its revision of the global state; 0 where it has stopped.
    fn rev(&self) -> Rev
        ensures { result ≡ rev_of (seen self.now).server.log };
}
