//! Why a journal may not do what it is asked.

use petal_disk::Failed;
use std::alloc::{AllocError, AllocFailed};
use thiserror::Error;

/// Why a journal was not opened or appended to.
#[derive(Clone, Copy, Debug, PartialEq, Eq, Error)]
pub enum JournalError {
    /// The disk failed, and its count of faults rose. The journal is to be opened again.
    #[error("the disk failed")]
    Failed,
    /// Each of the records counts already. Nothing changed.
    #[error("the journal is full")]
    Full,
    /// There was no memory to read the region with.
    #[error("out of memory")]
    NoMemory,
}

impl From<Failed> for JournalError {
    ghost use Rattle.std.specs.Prelude.{◌≡◌};
    ghost use Rattle.block_journal.specs.declared.error.JournalError.TheVariants as error;

    ghost from_gives = { λ _ e. e ≡ error.Failed };

    fn from(_error: Failed) -> JournalError {
        JournalError::Failed
    }
}

impl From<AllocError> for JournalError {
    ghost use Rattle.std.specs.Prelude.{◌≡◌};
    ghost use Rattle.block_journal.specs.declared.error.JournalError.TheVariants as error;

    ghost from_gives = { λ _ e. e ≡ error.NoMemory };

    fn from(_error: AllocError) -> JournalError {
        JournalError::NoMemory
    }
}

impl<T: Drop> From<AllocFailed<T>> for JournalError {
    ghost use Rattle.std.specs.Prelude.{◌≡◌};
    ghost use Rattle.block_journal.specs.declared.error.JournalError.TheVariants as error;

    ghost from_gives = { λ _ e. e ≡ error.NoMemory };

    fn from(_error: AllocFailed<T>) -> JournalError {
        JournalError::NoMemory
    }
}
