//! Why a ledger isn't opened, or hands out no leaf.

ghost use Rattle.std.specs.Prelude.{◌≡◌};
ghost use Rattle.leaf_ledger.specs.declared.error.LedgerError.TheVariants as ledger_error;

use crate::device::DeviceError;
use thiserror::Error;

/// Why a ledger isn't opened, or hands out no leaf.
#[derive(Clone, Copy, Debug, PartialEq, Eq, Error)]
pub enum LedgerError {
    /// All 1,024 leaves are used.
    #[error("no leaf is free")]
    NoLeaf,
    /// The device failed: the ledger has to be opened again.
    #[error("the device failed")]
    Device,
    /// The file has another length, or another key.
    #[error("the file is no ledger of this key")]
    Foreign,
}

impl From<DeviceError> for LedgerError {
    ghost from_gives = { λ _ e. e ≡ ledger_error.Device };

    fn from(_: DeviceError) -> LedgerError {
        LedgerError::Device
    }
}
