//! Why a step is refused.

use client_core::ClientError;
use petal_base::NoMemory;
use server_host::HostError;
use thiserror::Error;

/// Why a run is given up.
#[derive(Clone, Copy, Debug, PartialEq, Eq, Error)]
pub enum GaveUp {
    /// A number that an actor counts up is the greatest of its type.
    #[error("gave up: a counter is at its end")]
    Exhausted,
    /// There was no memory.
    #[error("out of memory")]
    NoMemory,
    /// A server was given a step that is not allowed there, or a device failed more often than once in one.
    #[error("gave up: a step out of order")]
    Unexpected,
}

impl From<NoMemory> for GaveUp {
    fn from(_error: NoMemory) -> GaveUp {
        GaveUp::NoMemory
    }
}

impl From<ClientError> for GaveUp {
    fn from(error: ClientError) -> GaveUp {
        match error {
            ClientError::Exhausted => GaveUp::Exhausted,
            ClientError::NoMemory => GaveUp::NoMemory,
        }
    }
}

impl From<HostError> for GaveUp {
    fn from(error: HostError) -> GaveUp {
        match error {
            HostError::Exhausted => GaveUp::Exhausted,
            HostError::NoMemory => GaveUp::NoMemory,
            HostError::Unexpected => GaveUp::Unexpected,
        }
    }
}

/// Why the world took no step.
#[derive(Clone, Copy, Debug, PartialEq, Eq, Error)]
pub enum WorldError {
    /// The step is not one of the world's in this state, which is as before.
    #[error("the step is not allowed")]
    NotAllowed,
    /// The step did not happen. The world's records stay, and it takes no further step.
    #[error("{0}")]
    GaveUp(GaveUp),
}
