//! What the failure of a device means for its server.

use petal_disk::DeviceError;
use server_host::HostError;
use server_store::StoreError;
use state_store::StateError;

/// Why a tick was not taken.
#[derive(Clone, Copy, Debug, PartialEq, Eq)]
pub enum TickError {
    /// The data device failed, and may be asked once more.
    Failed,
    /// The server can't take it.
    Refused(HostError),
}

impl From<DeviceError> for TickError {
    fn from(error: DeviceError) -> TickError {
        match error {
            DeviceError::Failed => TickError::Failed,
            DeviceError::NoMemory => TickError::Refused(HostError::NoMemory),
        }
    }
}

/// Of a store that is not opened or made: a server can't go on with a device that fails again, or that shows no store.
pub fn of_store(error: StoreError) -> HostError {
    match error {
        StoreError::NoMemory => HostError::NoMemory,
        StoreError::Failed
        | StoreError::NoSpace
        | StoreError::MarksFull
        | StoreError::BadRecord { .. } => HostError::Unexpected,
    }
}

/// The same of its state store.
pub fn of_state(error: StateError) -> HostError {
    match error {
        StateError::NoMemory => HostError::NoMemory,
        StateError::Exhausted => HostError::Exhausted,
        StateError::Failed
        | StateError::Blank
        | StateError::BadRecord { .. }
        | StateError::JournalFull => HostError::Unexpected,
    }
}
