//! Blocks in a file, found by their digests: what a server that keeps its files stores blocks in.
//!
//! The file is a chain of blocks, each a length, a digest and a text (specs/Blocks.antt), to which is only appended. No
//! gates are needed, as a log's records have them: a block is named by its digest, so what a crash leaves behind the
//! last one that was synced adds blocks at most that nobody names. A digest that stands in the file is believed until
//! its text is read, and then compared.
//!
//! In memory is where each digest's text stands. What is fetched has the digest that was asked for, whatever the file
//! holds; and over a storage that tells its history each text that was put when a sync was answered Ok is fetched from
//! then on, whatever crash comes (`blocks_stay`).
#![tactic(auto)]

mod blocks;
mod error;
mod finding;
mod head;
mod index;
mod laws;
mod place;

pub use blocks::BlockFile;
pub use error::BlockError;
pub use finding::BLOCK_LIMIT;
pub use laws::blocks_stay;
