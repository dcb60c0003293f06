//! Why a text could not be read or written.

ghost use Rattle.std.specs.Prelude.{◌≡◌};
ghost use Rattle.layout.specs.declared.error.ReadError.TheVariants as read_error;

use std::alloc::{AllocError, AllocFailed};
use thiserror::Error;

/// Memory ran out.
#[derive(Clone, Copy, Debug, Error)]
#[error("out of memory")]
pub struct Memory;

impl From<AllocError> for Memory {
    fn from(_e: AllocError) -> Memory {
        Memory
    }
}

impl<T: Drop> From<AllocFailed<T>> for Memory {
    fn from(_e: AllocFailed<T>) -> Memory {
        Memory
    }
}

/// What is wrong with a text: the first fault from the left, or that memory ran out.
#[derive(Debug, Drop, Error)]
pub enum ReadError {
    /// A field passes the end of the bytes.
    #[error("a field passes the end")]
    Short,
    /// Bytes follow the end of the text.
    #[error("bytes follow the end")]
    Trailing,
    /// The bytes of a tag are others.
    #[error("a tag is another")]
    BadTag,
    /// A key isn't above the one of the row before.
    #[error("a key is not above the one before")]
    Order,
    /// A value isn't in its range.
    #[error("a value is out of range")]
    Range,
    /// Memory ran out.
    #[error("out of memory")]
    Memory,
}

impl From<AllocError> for ReadError {
    ghost from_gives = { λ _ e. e ≡ read_error.Memory };

    fn from(_e: AllocError) -> ReadError {
        ReadError::Memory
    }
}

impl<T: Drop> From<AllocFailed<T>> for ReadError {
    ghost from_gives = { λ _ e. e ≡ read_error.Memory };

    fn from(_e: AllocFailed<T>) -> ReadError {
        ReadError::Memory
    }
}

impl From<Memory> for ReadError {
    ghost from_gives = { λ _ e. e ≡ read_error.Memory };

    fn from(_e: Memory) -> ReadError {
        ReadError::Memory
    }
}
