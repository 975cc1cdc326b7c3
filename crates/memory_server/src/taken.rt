//! What other steps give, and which devices have stopped the server.

ghost use Rattle.std.specs.Prelude.{◌≡◌};
ghost use Rattle.server_host.specs.declared.step_end.StepEnd.TheVariants as step_end;

use petal_base::Sequence;
use petal_msg::Letter;
use server_host::{HostResult, StepEnd};

/// A step that is no job and no boot.
pub fn done(letters: Sequence<Letter>) -> HostResult
    ensures { result ≡ record { letters = letters; end = step_end.Done } }
{
    HostResult {
        letters,
        end: StepEnd::Done,
    }
}

/// Which of a server's two devices have met a plan that stops the server since they were armed.
#[derive(Clone, Copy, Debug, PartialEq, Eq)]
pub struct Stops {
    /// The data device.
    pub stored: bool,
    /// The state device.
    pub kept: bool,
}
