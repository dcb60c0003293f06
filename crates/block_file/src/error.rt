//! Why a file of blocks isn't opened, or a call of it failed.

ghost use Rattle.std.specs.Prelude.{◌≡◌};
ghost use Rattle.block_file.specs.declared.error.BlockError.TheVariants as block_error;

use layout::Memory;
use leaf_ledger::DeviceError;
use std::alloc::{AllocError, AllocFailed};
use thiserror::Error;

/// Why a file of blocks isn't opened, or a call of it failed.
#[derive(Clone, Copy, Debug, PartialEq, Eq, Error)]
pub enum BlockError {
    /// The block has more than 32,779 bytes.
    #[error("the block is too large")]
    TooLarge,
    /// The blocks would end past their room.
    #[error("the blocks have no room left")]
    Full,
    /// The storage failed.
    #[error("the device failed")]
    Device,
    /// Memory ran out.
    #[error("out of memory")]
    Memory,
}

impl From<DeviceError> for BlockError {
    ghost from_gives = { λ _ e. e ≡ block_error.Device };

    fn from(_: DeviceError) -> BlockError {
        BlockError::Device
    }
}

impl From<AllocError> for BlockError {
    ghost from_gives = { λ _ e. e ≡ block_error.Memory };

    fn from(_: AllocError) -> BlockError {
        BlockError::Memory
    }
}

impl From<Memory> for BlockError {
    ghost from_gives = { λ _ e. e ≡ block_error.Memory };

    fn from(_: Memory) -> BlockError {
        BlockError::Memory
    }
}

impl<T: Drop> From<AllocFailed<T>> for BlockError {
    ghost from_gives = { λ _ e. e ≡ block_error.Memory };

    fn from(_: AllocFailed<T>) -> BlockError {
        BlockError::Memory
    }
}
