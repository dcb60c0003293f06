//! Storages: what holds the bytes of a file that may be of any size, as those that a server keeps.
//!
//! A storage is a device (crate `leaf_ledger`, specs/Device.antt) of a type that tells its history or doesn't. One over
//! a device tells what that holds and held. One over a file of the system keeps nothing of it in memory, and tells
//! nothing.
#![tactic(auto)]

mod device_storage;
mod file_storage;
mod storage;

pub use device_storage::DeviceStorage;
pub use file_storage::FileStorage;
pub use storage::{Storage, write_through};
