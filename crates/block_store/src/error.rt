//! Why a block isn't stored or fetched.

ghost use Rattle.std.specs.Prelude.{◌≡◌};
ghost use Rattle.block_store.specs.declared.error.StoreError.TheVariants as store_error;

use layout::Memory;
use thiserror::Error;

/// Why a block isn't stored or fetched.
#[derive(Debug, Drop, Error, PartialEq, Eq)]
pub enum StoreError {
    /// The block has more than 32,779 bytes.
    #[error("the block is too large")]
    TooLarge,
    /// The blocks that are stored leave it no room.
    #[error("the blocks have no room left")]
    Full,
    /// Memory ran out.
    #[error("out of memory")]
    Memory,
}

impl From<Memory> for StoreError {
    ghost from_gives = { λ _ e. e ≡ store_error.Memory };

    fn from(_e: Memory) -> StoreError {
        StoreError::Memory
    }
}
