//! Why a call isn't carried out.

ghost use Rattle.std.specs.Prelude.{◌≡◌};

use crate::log::LogFull;
use layout::Memory;
use std::alloc::AllocError;
use wire::Status;

/// Why a call wasn't carried out.
#[derive(Clone, Copy, Debug)]
pub(crate) enum Refusal {
    Busy,
    Memory,
}

impl From<LogFull> for Refusal {
    ghost use Rattle.consistency_server.specs.declared.refusal.Refusal.TheVariants as refusal;

    ghost from_gives = { λ _ e. e ≡ refusal.Busy };

    fn from(_e: LogFull) -> Refusal {
        Refusal::Busy
    }
}

impl From<Memory> for Refusal {
    ghost use Rattle.consistency_server.specs.declared.refusal.Refusal.TheVariants as refusal;

    ghost from_gives = { λ _ e. e ≡ refusal.Memory };

    fn from(_e: Memory) -> Refusal {
        Refusal::Memory
    }
}

impl From<AllocError> for Refusal {
    ghost use Rattle.consistency_server.specs.declared.refusal.Refusal.TheVariants as refusal;

    ghost from_gives = { λ _ e. e ≡ refusal.Memory };

    fn from(_e: AllocError) -> Refusal {
        Refusal::Memory
    }
}

impl Refusal {
    ghost use Rattle.consistency_server.specs.Serving.{status_of};

    pub(crate) fn status(self) -> Status
        ensures { result ≡ status_of self }
    {
        match self {
            Refusal::Busy => Status::Busy,
            Refusal::Memory => Status::Memory,
        }
    }
}
