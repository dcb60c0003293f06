//! Why a client could not go on.

ghost use Rattle.std.specs.Prelude.{◌≡◌};
ghost use Rattle.client_releases.specs.declared.error.ClientError.TheVariants as client_error;
ghost use Rattle.client_releases.specs.Errors.{of_journal, of_ledger};

use client_journal::JournalError;
use layout::Memory;
use leaf_ledger::LedgerError;
use std::alloc::{AllocError, AllocFailed};
use thiserror::Error;

/// Why a client could not go on. After each but Device the client is as before the call.
#[derive(Debug, Drop, Error)]
pub enum ClientError {
    /// Memory ran out.
    #[error("out of memory")]
    Memory,
    /// No leaf is left that can be used: each was used, or the next one of a key that was kept can't sign.
    #[error("no leaf is left")]
    NoLeaf,
    /// A device failed: the client has to be opened again, and tells then what was released.
    #[error("a device failed")]
    Device,
    /// The operation declared last has the last number.
    #[error("no number is left")]
    NoNumber,
    /// The ledger's file is no ledger of this key.
    #[error("the ledger is another key's")]
    Foreign,
    /// The journal is damaged, or tells a text that isn't this user's.
    #[error("the journal is damaged")]
    Damaged,
    /// None of the own keys is the one that the table of principals has for the signature.
    #[error("the key isn't there")]
    NoKey,
}

impl From<AllocError> for ClientError {
    ghost from_gives = { λ _ e. e ≡ client_error.Memory };

    fn from(_e: AllocError) -> ClientError {
        ClientError::Memory
    }
}

impl<T: Drop> From<AllocFailed<T>> for ClientError {
    ghost from_gives = { λ _ e. e ≡ client_error.Memory };

    fn from(_e: AllocFailed<T>) -> ClientError {
        ClientError::Memory
    }
}

impl From<Memory> for ClientError {
    ghost from_gives = { λ _ e. e ≡ client_error.Memory };

    fn from(_e: Memory) -> ClientError {
        ClientError::Memory
    }
}

impl From<LedgerError> for ClientError {
    ghost from_gives = { λ x e. e ≡ of_ledger x };

    fn from(e: LedgerError) -> ClientError {
        match e {
            LedgerError::NoLeaf => ClientError::NoLeaf,
            LedgerError::Device => ClientError::Device,
            LedgerError::Foreign => ClientError::Foreign,
        }
    }
}

impl From<JournalError> for ClientError {
    ghost from_gives = { λ x e. e ≡ of_journal x };

    fn from(e: JournalError) -> ClientError {
        match e {
            JournalError::Device => ClientError::Device,
            JournalError::Memory => ClientError::Memory,
            JournalError::Damaged => ClientError::Damaged,
        }
    }
}
