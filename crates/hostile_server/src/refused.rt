//! Why a call isn't carried out.

use layout::{Memory, ReadError};
use std::alloc::{AllocError, AllocFailed};
use thiserror::Error;
use version_order::PlanError;
use wire::Status;

/// A call that is refused, by its status, which isn't `Ok`.
#[derive(Clone, Copy, Debug, Error)]
#[error("refused by status {0:?}")]
pub struct Refused(pub Status);

impl From<Memory> for Refused {
    fn from(_e: Memory) -> Refused {
        Refused(Status::Memory)
    }
}

impl From<AllocError> for Refused {
    fn from(_e: AllocError) -> Refused {
        Refused(Status::Memory)
    }
}

impl<T: Drop> From<AllocFailed<T>> for Refused {
    fn from(_e: AllocFailed<T>) -> Refused {
        Refused(Status::Memory)
    }
}

impl From<ReadError> for Refused {
    fn from(error: ReadError) -> Refused {
        match error {
            ReadError::Memory => Refused(Status::Memory),
            _ => Refused(Status::Form),
        }
    }
}

impl From<PlanError> for Refused {
    fn from(error: PlanError) -> Refused {
        match error {
            PlanError::Limit => Refused(Status::TooLarge),
            PlanError::Memory => Refused(Status::Memory),
        }
    }
}
