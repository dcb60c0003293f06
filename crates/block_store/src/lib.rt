//! Blocks, stored by their digests and shared by threads: each stands at its number for good and is read without a
//! lock, and the numbers are found by digest under a lock.
//!
//! A stored block has the digest that stands beside it, and at most 32,779 bytes (specs/Blocks.antt). Who stored or
//! found a block has a pass, and reads with it, in any thread, just the bytes that were put. The lock keeps numbers
//! alone, and no clause can name what it keeps: so a block that is found is compared with the digest once more. That a
//! block which was put is found, and which number it has, is shown by tests.
#![tactic(auto)]

mod block;
mod error;
mod index;
mod pass;
mod store;

pub use error::StoreError;
pub use pass::BlockPass;
pub use store::{BLOCK_LIMIT, Store};
