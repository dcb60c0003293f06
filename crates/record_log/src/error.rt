//! Why a log isn't opened, or a call of it failed.

ghost use Rattle.std.specs.Prelude.{◌≡◌};
ghost use Rattle.record_log.specs.declared.error.LogError.TheVariants as log_error;

use layout::Memory;
use leaf_ledger::DeviceError;
use std::alloc::{AllocError, AllocFailed};
use thiserror::Error;

/// Why a log isn't opened, or a call of it failed.
#[derive(Clone, Copy, Debug, PartialEq, Eq, Error)]
pub enum LogError {
    /// The storage failed: the log has to be opened again, and records that were being appended are there, all of them,
    /// or none is.
    #[error("the device failed")]
    Device,
    /// Memory ran out.
    #[error("out of memory")]
    Memory,
    /// An open gate stands where the file ends before the next gate.
    #[error("the log is damaged")]
    Damaged,
}

impl From<DeviceError> for LogError {
    ghost from_gives = { λ _ e. e ≡ log_error.Device };

    fn from(_: DeviceError) -> LogError {
        LogError::Device
    }
}

impl From<AllocError> for LogError {
    ghost from_gives = { λ _ e. e ≡ log_error.Memory };

    fn from(_: AllocError) -> LogError {
        LogError::Memory
    }
}

impl From<Memory> for LogError {
    ghost from_gives = { λ _ e. e ≡ log_error.Memory };

    fn from(_: Memory) -> LogError {
        LogError::Memory
    }
}

impl<T: Drop> From<AllocFailed<T>> for LogError {
    ghost from_gives = { λ _ e. e ≡ log_error.Memory };

    fn from(_: AllocFailed<T>) -> LogError {
        LogError::Memory
    }
}
