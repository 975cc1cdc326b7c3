//! Why a state store may not do what it is asked.

use block_journal::JournalError;
use petal_base::NoMemory;
use petal_disk::Failed;
use thiserror::Error;

/// Why a state store was not formatted or opened, or did not commit.
#[derive(Clone, Copy, Debug, PartialEq, Eq, Error)]
pub enum StateError {
    /// The device failed, and its count of faults rose. The store is to be opened again.
    #[error("the state device failed")]
    Failed,
    /// The device has no header of a state device, or the journal does not fit it.
    #[error("the state device is blank")]
    Blank,
    /// The record of this index has an open gate and no spelling.
    #[error("record {index} of the state device has no spelling")]
    BadRecord { index: u32 },
    /// A commit is needed, and all records of the journal are in use. Nothing changed.
    #[error("the journal of the state device is full")]
    JournalFull,
    /// There was no memory. Nothing changed.
    #[error("out of memory")]
    NoMemory,
    /// A record would name a place or a round beyond the greatest of its type. Nothing changed.
    #[error("a place or a round beyond the greatest")]
    Exhausted,
}

impl From<Failed> for StateError {
    ghost use Rattle.std.specs.Prelude.{◌≡◌};
    ghost use Rattle.state_store.specs.declared.error.StateError.TheVariants as error;

    ghost from_gives = { λ _ e. e ≡ error.Failed };

    fn from(_error: Failed) -> StateError {
        StateError::Failed
    }
}

impl From<NoMemory> for StateError {
    ghost use Rattle.std.specs.Prelude.{◌≡◌};
    ghost use Rattle.state_store.specs.declared.error.StateError.TheVariants as error;

    ghost from_gives = { λ _ e. e ≡ error.NoMemory };

    fn from(_error: NoMemory) -> StateError {
        StateError::NoMemory
    }
}

impl From<JournalError> for StateError {
    ghost use Rattle.std.specs.Prelude.{◌≡◌};
    ghost use Rattle.state_store.specs.Errors.{of_journal};

    ghost from_gives = { λ f e. e ≡ of_journal f };

    fn from(error: JournalError) -> StateError {
        match error {
            JournalError::Failed => StateError::Failed,
            JournalError::Full => StateError::JournalFull,
            JournalError::NoMemory => StateError::NoMemory,
        }
    }
}
