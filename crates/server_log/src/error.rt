//! Why a call of a log isn't carried out again, and why a log isn't read back.

ghost use Rattle.std.specs.Prelude.{◌≡◌};
ghost use Rattle.server_log.specs.Errors.{of_log_error, of_replay_error};

use record_log::LogError;
use thiserror::Error;

/// Why a call of a log isn't carried out again.
#[derive(Clone, Copy, Debug, PartialEq, Eq, Error)]
pub enum ReplayError {
    /// It places and commits nothing after the calls before it: no order under this key has such a log.
    #[error("the log is of no order under this key")]
    Foreign,
    /// Memory ran out.
    #[error("out of memory")]
    Memory,
}

/// Why a log isn't read back.
#[derive(Clone, Copy, Debug, PartialEq, Eq, Error)]
pub enum OpenError {
    /// It begins with another key.
    #[error("the log is of another key")]
    OtherKey,
    /// Its first record is no beginning.
    #[error("the log doesn't begin with a key")]
    NoBeginning,
    /// A record after the first is neither an UPDATE nor a COMMIT.
    #[error("the log has a record that is no call")]
    NoCall,
    /// A call places and commits nothing after those before it: no order under this key has such a log.
    #[error("the log is of no order under this key")]
    Foreign,
    /// An open gate stands where the file ends before the next gate.
    #[error("the log is damaged")]
    Damaged,
    /// The storage failed.
    #[error("the device failed")]
    Device,
    /// Memory ran out.
    #[error("out of memory")]
    Memory,
}

impl From<LogError> for OpenError {
    ghost from_gives = { λ e r. r ≡ of_log_error e };

    fn from(error: LogError) -> OpenError {
        match error {
            LogError::Device => OpenError::Device,
            LogError::Memory => OpenError::Memory,
            LogError::Damaged => OpenError::Damaged,
        }
    }
}

impl From<ReplayError> for OpenError {
    ghost from_gives = { λ e r. r ≡ of_replay_error e };

    fn from(error: ReplayError) -> OpenError {
        match error {
            ReplayError::Foreign => OpenError::Foreign,
            ReplayError::Memory => OpenError::Memory,
        }
    }
}
