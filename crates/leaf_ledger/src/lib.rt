//! The ledger of a key's leaves: each leaf is marked in a file before it is handed out, so that none is handed out
//! twice, whatever crash comes.
//!
//! A `Device` holds the bytes of a file (specs/Device.antt says what its calls do and what a crash may leave), and a
//! `Ledger` stands on one. `MemoryDevice` is a device in memory whose calls fail and which crashes as it is told,
//! `FileDevice` one over a file of the system.
#![tactic(auto)]

mod device;
mod device_call;
mod error;
mod extent;
mod fault;
mod file;
mod followed;
mod laws;
mod ledger;
mod load;
mod marks;
mod memory;
mod moment;
mod recording;

pub use device::{Device, DeviceError, write_through};
pub use error::LedgerError;
pub use extent::Extent;
pub use file::FileDevice;
pub use laws::no_leaf_twice;
pub use ledger::Ledger;
pub use memory::{CrashError, MemoryDevice};
