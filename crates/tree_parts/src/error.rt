//! Why changes could not be applied.

ghost use Rattle.std.specs.Prelude.{◌≡◌};
ghost use Rattle.tree_parts.specs.declared.error.ApplyError.TheVariants as apply_error;

use crate::spot::Spot;
use layout::{Digest, Memory};
use std::alloc::{AllocError, AllocFailed};
use thiserror::Error;

/// Why changes could not be applied.
#[derive(Debug, Drop, Error)]
pub enum ApplyError {
    /// No text of this digest is held that this place takes.
    #[error("a block is missing")]
    Missing(Digest, Spot),
    /// Memory ran out.
    #[error("out of memory")]
    Memory,
}

impl From<AllocError> for ApplyError {
    ghost from_gives = { λ _ e. e ≡ apply_error.Memory };

    fn from(_e: AllocError) -> ApplyError {
        ApplyError::Memory
    }
}

impl<T: Drop> From<AllocFailed<T>> for ApplyError {
    ghost from_gives = { λ _ e. e ≡ apply_error.Memory };

    fn from(_e: AllocFailed<T>) -> ApplyError {
        ApplyError::Memory
    }
}

impl From<Memory> for ApplyError {
    ghost from_gives = { λ _ e. e ≡ apply_error.Memory };

    fn from(_e: Memory) -> ApplyError {
        ApplyError::Memory
    }
}
