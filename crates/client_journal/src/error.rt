//! Why a journal isn't opened, or a call of it failed.

ghost use Rattle.std.specs.Prelude.{◌≡◌};
ghost use Rattle.client_journal.specs.declared.error.JournalError.TheVariants as journal_error;

use leaf_ledger::DeviceError;
use std::alloc::AllocError;
use thiserror::Error;

/// Why a journal isn't opened, or a call of it failed.
#[derive(Clone, Copy, Debug, PartialEq, Eq, Error)]
pub enum JournalError {
    /// The device failed: the journal has to be opened again, and a record that was being appended is there or isn't.
    #[error("the device failed")]
    Device,
    /// Memory ran out.
    #[error("out of memory")]
    Memory,
    /// An open gate stands before another kind, before a record out of turn, or where the file ends before the next
    /// gate.
    #[error("the journal is damaged")]
    Damaged,
}

impl From<DeviceError> for JournalError {
    ghost from_gives = { λ _ e. e ≡ journal_error.Device };

    fn from(_: DeviceError) -> JournalError {
        JournalError::Device
    }
}

impl From<AllocError> for JournalError {
    ghost from_gives = { λ _ e. e ≡ journal_error.Memory };

    fn from(_: AllocError) -> JournalError {
        JournalError::Memory
    }
}
