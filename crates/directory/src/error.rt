//! Why a name was not linked or unlinked.

ghost use Rattle.std.specs.Prelude.{◌≡◌};
ghost use Rattle.directory.specs.declared.error.DirError.TheVariants as dir_error;

use layout::Memory;
use std::alloc::{AllocError, AllocFailed};
use thiserror::Error;

/// Why a directory is as before.
#[derive(Debug, Drop, Error)]
pub enum DirError {
    /// The name stands for something.
    #[error("the name is there")]
    There,
    /// The name stands for nothing.
    #[error("the name is absent")]
    Absent,
    /// The bytes are no name.
    #[error("this is no name")]
    BadName,
    /// There are 1,024 entries.
    #[error("the directory is full")]
    Full,
    /// Memory ran out.
    #[error("out of memory")]
    Memory,
}

impl From<AllocError> for DirError {
    ghost from_gives = { λ _ e. e ≡ dir_error.Memory };

    fn from(_e: AllocError) -> DirError {
        DirError::Memory
    }
}

impl<T: Drop> From<AllocFailed<T>> for DirError {
    ghost from_gives = { λ _ e. e ≡ dir_error.Memory };

    fn from(_e: AllocFailed<T>) -> DirError {
        DirError::Memory
    }
}
