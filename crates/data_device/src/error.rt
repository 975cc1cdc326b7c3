//! Why a store refuses a call.

use block_journal::JournalError;
use petal_base::NoMemory;
use petal_disk::Failed;
use std::alloc::AllocError;
use thiserror::Error;

/// Why a call of a store did not do what it is asked.
#[derive(Clone, Copy, Debug, PartialEq, Eq, Error)]
pub enum StoreError {
    /// The device failed, and its count of faults rose. The store is to be opened again.
    #[error("the device failed")]
    Failed,
    /// Every slot holds the content of an entry or is promised to a ticket.
    #[error("no free slot")]
    NoSpace,
    /// Marks and rows are as many as there may be.
    #[error("no room for a mark or a row")]
    MarksFull,
    /// The record of this index has an open gate and no spelling, puts into a slot that is in use or not there, or gives more marks
    /// and rows than there may be.
    #[error("bad record {index}")]
    BadRecord { index: u32 },
    /// There was no memory for this call, which changed nothing.
    #[error("out of memory")]
    NoMemory,
}

impl From<NoMemory> for StoreError {
    ghost use Rattle.std.specs.Prelude.{◌≡◌};
    ghost use Rattle.data_device.specs.declared.error.StoreError.TheVariants as error;

    ghost from_gives = { λ _ e. e ≡ error.NoMemory };

    fn from(_error: NoMemory) -> StoreError {
        StoreError::NoMemory
    }
}

impl From<AllocError> for StoreError {
    ghost use Rattle.std.specs.Prelude.{◌≡◌};
    ghost use Rattle.data_device.specs.declared.error.StoreError.TheVariants as error;

    ghost from_gives = { λ _ e. e ≡ error.NoMemory };

    fn from(_error: AllocError) -> StoreError {
        StoreError::NoMemory
    }
}

impl From<Failed> for StoreError {
    ghost use Rattle.std.specs.Prelude.{◌≡◌};
    ghost use Rattle.data_device.specs.declared.error.StoreError.TheVariants as error;

    ghost from_gives = { λ _ e. e ≡ error.Failed };

    fn from(_error: Failed) -> StoreError {
        StoreError::Failed
    }
}

impl From<JournalError> for StoreError {
    ghost use Rattle.std.specs.Prelude.{◌≡◌};
    ghost use Rattle.data_device.specs.Errors.{of_journal};

    ghost from_gives = { λ f e. e ≡ of_journal f };

    fn from(error: JournalError) -> StoreError {
        match error {
            JournalError::Failed => StoreError::Failed,
            JournalError::Full => StoreError::Failed,
            JournalError::NoMemory => StoreError::NoMemory,
        }
    }
}
