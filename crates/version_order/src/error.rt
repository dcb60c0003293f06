//! Why a vector could not be raised.

ghost use Rattle.std.specs.Prelude.{◌≡◌};
ghost use Rattle.version_order.specs.declared.error.PlanError.TheVariants as plan_error;

use layout::Memory;
use std::alloc::{AllocError, AllocFailed};
use thiserror::Error;

/// Why there is no next plan.
#[derive(Debug, Drop, Error)]
pub enum PlanError {
    /// A version would pass 4,294,967,295.
    #[error("a version is the last one")]
    Limit,
    /// Memory ran out.
    #[error("out of memory")]
    Memory,
}

impl From<AllocError> for PlanError {
    ghost from_gives = { λ _ e. e ≡ plan_error.Memory };

    fn from(_e: AllocError) -> PlanError {
        PlanError::Memory
    }
}

impl<T: Drop> From<AllocFailed<T>> for PlanError {
    ghost from_gives = { λ _ e. e ≡ plan_error.Memory };

    fn from(_e: AllocFailed<T>) -> PlanError {
        PlanError::Memory
    }
}

impl From<Memory> for PlanError {
    ghost from_gives = { λ _ e. e ≡ plan_error.Memory };

    fn from(_e: Memory) -> PlanError {
        PlanError::Memory
    }
}
