//! Why a call of the outside may not do what it is asked.

use petal_base::NoMemory;
use std::alloc::AllocError;
use thiserror::Error;

/// What lies outside failed in this call, and its count of faults rose.
#[derive(Clone, Copy, Debug, PartialEq, Eq, Error)]
#[error("the device or stream failed")]
pub struct Failed;

/// Why a call that needs a device, a stream or a shelf and memory of its own was not answered.
#[derive(Clone, Copy, Debug, PartialEq, Eq, Error)]
pub enum DeviceError {
    /// What lies outside failed, and its count of faults rose.
    #[error("the device or stream failed")]
    Failed,
    /// There was no memory. No byte of a device changed.
    #[error("out of memory")]
    NoMemory,
}

impl From<NoMemory> for DeviceError {
    ghost use Rattle.std.specs.Prelude.{◌≡◌};
    ghost use Rattle.device_faults.specs.declared.failure.DeviceError.TheVariants as error;

    ghost from_gives = { λ _ e. e ≡ error.NoMemory };

    fn from(_error: NoMemory) -> DeviceError {
        DeviceError::NoMemory
    }
}

impl From<AllocError> for DeviceError {
    ghost use Rattle.std.specs.Prelude.{◌≡◌};
    ghost use Rattle.device_faults.specs.declared.failure.DeviceError.TheVariants as error;

    ghost from_gives = { λ _ e. e ≡ error.NoMemory };

    fn from(_error: AllocError) -> DeviceError {
        DeviceError::NoMemory
    }
}

impl From<Failed> for DeviceError {
    ghost use Rattle.std.specs.Prelude.{◌≡◌};
    ghost use Rattle.device_faults.specs.declared.failure.DeviceError.TheVariants as error;

    ghost from_gives = { λ _ e. e ≡ error.Failed };

    fn from(_error: Failed) -> DeviceError {
        DeviceError::Failed
    }
}
