//! Why a file could not be laid.

ghost use Rattle.std.specs.Prelude.{◌≡◌};
ghost use Rattle.itable.specs.declared.error.LayError.TheVariants as lay_error;

use layout::Memory;
use std::alloc::{AllocError, AllocFailed};
use thiserror::Error;

/// Why a file could not be laid in blocks.
#[derive(Debug, Drop, Error)]
pub enum LayError {
    /// The file has more than 4,194,304 bytes.
    #[error("the file is too large")]
    TooLarge,
    /// Memory ran out.
    #[error("out of memory")]
    Memory,
}

impl From<AllocError> for LayError {
    ghost from_gives = { λ _ e. e ≡ lay_error.Memory };

    fn from(_e: AllocError) -> LayError {
        LayError::Memory
    }
}

impl<T: Drop> From<AllocFailed<T>> for LayError {
    ghost from_gives = { λ _ e. e ≡ lay_error.Memory };

    fn from(_e: AllocFailed<T>) -> LayError {
        LayError::Memory
    }
}

impl From<Memory> for LayError {
    ghost from_gives = { λ _ e. e ≡ lay_error.Memory };

    fn from(_e: Memory) -> LayError {
        LayError::Memory
    }
}
