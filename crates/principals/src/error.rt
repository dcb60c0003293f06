//! Why a table was not changed.

ghost use Rattle.std.specs.Prelude.{◌≡◌};
ghost use Rattle.principals.specs.declared.error.TableError.TheVariants as table_error;

use layout::Memory;
use std::alloc::{AllocError, AllocFailed};
use thiserror::Error;

/// Why a table is as before. Of several the least is answered, Memory aside.
#[derive(Debug, Drop, Error)]
pub enum TableError {
    /// The user is listed, or is a member already.
    #[error("the user is listed already")]
    Listed,
    /// The user isn't listed.
    #[error("the user is not listed")]
    Unlisted,
    /// The principal is a user.
    #[error("the principal is no group")]
    NotGroup,
    /// The user is no member of the group now.
    #[error("the user is no member")]
    NotMember,
    /// There are 65,535 rows.
    #[error("the table is full")]
    Full,
    /// Memory ran out.
    #[error("out of memory")]
    Memory,
    /// User 0 has the key that every client knows, for good.
    #[error("user 0 has one key for good")]
    Pinned,
    /// The user has 16 keys.
    #[error("the user has no room for another key")]
    KeysFull,
    /// The user's last key didn't come before this number.
    #[error("the number is not above that of the last key")]
    TooSoon,
}

impl From<AllocError> for TableError {
    ghost from_gives = { λ _ e. e ≡ table_error.Memory };

    fn from(_e: AllocError) -> TableError {
        TableError::Memory
    }
}

impl<T: Drop> From<AllocFailed<T>> for TableError {
    ghost from_gives = { λ _ e. e ≡ table_error.Memory };

    fn from(_e: AllocFailed<T>) -> TableError {
        TableError::Memory
    }
}

impl From<Memory> for TableError {
    ghost from_gives = { λ _ e. e ≡ table_error.Memory };

    fn from(_e: Memory) -> TableError {
        TableError::Memory
    }
}
