//! Why a job was not done.

use kept_chains::StoreError;
use petal_base::NoMemory;
use thiserror::Error;

/// Why a job was not done.
#[derive(Clone, Copy, Debug, PartialEq, Eq, Error)]
pub enum WorkError {
    /// The data device failed, and its count of faults rose. The server is to be stopped.
    #[error("the device failed")]
    Failed,
    /// Marks and rows of the data device are as many as there may be, or the journal of the state device has all its records. The server
    /// is to be stopped.
    #[error("no room for the record of the job")]
    NoRoom,
    /// There was no memory for this job, which changed nothing.
    #[error("out of memory")]
    NoMemory,
    /// A number that the job counts up is the greatest of its type. It changed nothing.
    #[error("a counter is at its end")]
    Exhausted,
}

impl From<NoMemory> for WorkError {
    ghost use Rattle.std.specs.Prelude.{◌≡◌};
    ghost use Rattle.pair_memory.specs.declared.error.WorkError.TheVariants as error;

    ghost from_gives = { λ _ e. e ≡ error.NoMemory };

    fn from(_error: NoMemory) -> WorkError {
        WorkError::NoMemory
    }
}

impl From<StoreError> for WorkError {
    ghost use Rattle.std.specs.Prelude.{◌≡◌};
    ghost use Rattle.pair_memory.specs.Refusals.{work_error};

    ghost from_gives = { λ refusal e. e ≡ work_error refusal };

    fn from(refusal: StoreError) -> WorkError {
        match refusal {
            StoreError::MarksFull => WorkError::NoRoom,
            StoreError::NoMemory => WorkError::NoMemory,
            StoreError::Failed | StoreError::NoSpace | StoreError::BadRecord { .. } => {
                WorkError::Failed
            }
        }
    }
}
