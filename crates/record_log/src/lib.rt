//! A log: records in a file. Many are appended at once, with two syncs: after a crash all of them are there or none,
//! and from Ok on they stay. A file that is opened is read back.
//!
//! The file is a chain of records, each after a gate (specs/Records.antt). Records are written after a closed gate,
//! with the gates between them open and a closed one after the last, and synced; then the first gate is opened by one
//! byte, and synced.
//!
//! A log stands on a `Storage`, of a type that tells its history or doesn't. What is said of the records is said where
//! it tells.
#![tactic(auto)]

mod chain;
mod error;
mod laws;
mod laying;
mod log;
mod putting;
mod reader;
mod record;

pub use error::LogError;
pub use laws::{files_tell_or_are_damaged, records_stay};
pub use log::RecordLog;
pub use reader::LogReader;
pub use record::Record;
