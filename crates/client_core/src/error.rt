//! Why a client takes no step.

use petal_base::NoMemory;
use thiserror::Error;

/// Why a client did not take a step, which left it as before.
#[derive(Clone, Copy, Debug, PartialEq, Eq, Error)]
pub enum ClientError {
    /// A number that it counts up is the greatest of its type.
    #[error("a counter is at its end")]
    Exhausted,
    /// There was no memory.
    #[error("out of memory")]
    NoMemory,
}

impl From<NoMemory> for ClientError {
    ghost use Rattle.std.specs.Prelude.{◌≡◌};
    ghost use Rattle.client_core.specs.declared.error.ClientError.TheVariants as error;

    ghost from_gives = { λ _ e. e ≡ error.NoMemory };

    fn from(_error: NoMemory) -> ClientError {
        ClientError::NoMemory
    }
}
