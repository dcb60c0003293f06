//! SHA-256 (FIPS 180-4) of eight messages side by side, by vectors of eight words.
#![tactic(auto)]

mod compression;
mod hashing;
mod loading;
mod long;
mod short;
mod values;
mod words;

pub use hashing::digests_of_whole;
pub use long::{GROUP_SIZE, digest_of_groups};
pub use short::hash_short;
pub use values::Values;
