//! The journal of a user's signed texts: each record is in the file before its text is handed out, so that after a
//! crash the user knows what was signed last.
//!
//! The file is a chain of records, each after a gate (specs/Records.antt). A record is written after a closed gate,
//! with the next closed gate after it, and synced; then its gate is opened by one byte, and synced.
#![tactic(auto)]

mod chain;
mod error;
mod journal;
mod kind;
mod laws;
mod phase;
mod record;
mod staging;
mod state;
mod turn;

pub use error::JournalError;
pub use journal::Journal;
pub use kind::Kind;
pub use laws::{files_tell_or_are_damaged, records_stay};
pub use record::Record;
pub use state::JournalState;
