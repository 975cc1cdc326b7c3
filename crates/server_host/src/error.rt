//! Why a server takes no step.

use petal_base::NoMemory;
use thiserror::Error;

/// Why a server did not take a step. Nothing is said of the server then.
#[derive(Clone, Copy, Debug, PartialEq, Eq, Error)]
pub enum HostError {
    /// A number that it counts up is the greatest of its type.
    #[error("a counter is at its end")]
    Exhausted,
    /// There was no memory.
    #[error("out of memory")]
    NoMemory,
    /// The rules do not allow the step here, or a device failed more often than once, so that how the step ended is not known.
    #[error("a step that is not allowed here")]
    Unexpected,
}

impl From<NoMemory> for HostError {
    ghost use Rattle.std.specs.Prelude.{◌≡◌};
    ghost use Rattle.server_host.specs.declared.error.HostError.TheVariants as error;

    ghost from_gives = { λ _ e. e ≡ error.NoMemory };

    fn from(_error: NoMemory) -> HostError {
        HostError::NoMemory
    }
}
