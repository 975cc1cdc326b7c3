//! How a job or a boot ends.

ghost use Rattle.std.specs.Prelude.{◌≡◌};
ghost use Rattle.spec_rules.specs.declared.step.WorkEnd.TheVariants.{Done, Fault};
ghost use Rattle.server_host.specs.Desks.{as_end};
ghost use Rattle.memory_server.specs.Ends.{job_end};

use petal_base::Sequence;
use petal_msg::Letter;
use server_host::{HostResult, StepEnd};
use spec_rules::{CommitEnd, WorkEnd};

/// What a job or a boot comes to that was tried.
#[derive(Drop)]
pub struct Attempt {
    /// The letters that it sends, without their stamps.
    pub letters: Sequence<Letter>,
    pub end: WorkEnd,
}

impl Attempt {
    /// No device failed.
    pub fn done(letters: Sequence<Letter>) -> Attempt
        ensures { result ≡ record { letters = letters; end = Done } }
    {
        Attempt {
            letters,
            end: WorkEnd::Done,
        }
    }

    /// A device failed.
    pub fn failed(letters: Sequence<Letter>, end: CommitEnd) -> Attempt
        ensures { result ≡ record { letters = letters; end = Fault end } }
    {
        Attempt {
            letters,
            end: WorkEnd::Fault(end),
        }
    }

    /// The job's step, in which a plan that stops the server was met, or none was.
    pub fn job_taken(self, stopped: bool) -> HostResult
        ensures { result ≡ record { letters = self.letters; end = job_end self.end stopped } }
    {
        HostResult {
            letters: self.letters,
            end: job_end(self.end, stopped),
        }
    }

    /// The boot's step.
    pub fn boot_taken(self) -> HostResult
        ensures { result ≡ record { letters = self.letters; end = as_end self.end } }
    {
        HostResult {
            letters: self.letters,
            end: boot_end(self.end),
        }
    }
}

fn job_end(end: WorkEnd, stopped: bool) -> StepEnd
    ensures { result ≡ job_end end stopped }
{
    match end {
        WorkEnd::Done => StepEnd::Done,
        WorkEnd::Fault(end) if stopped => StepEnd::StopIn(end),
        WorkEnd::Fault(end) => StepEnd::Fault(end),
    }
}

fn boot_end(end: WorkEnd) -> StepEnd
    ensures { result ≡ as_end end }
{
    match end {
        WorkEnd::Done => StepEnd::Done,
        WorkEnd::Fault(end) => StepEnd::Fault(end),
    }
}
