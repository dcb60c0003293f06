//! A principal's part of the tree: what is read of it from the blocks that are held, which blocks are asked for, what the
//! changes of a certificate make of it, and how it is stored.
#![tactic(auto)]

mod applying;
mod blocks;
mod chunks;
mod error;
mod laying;
mod opened;
mod part;
mod reading;
mod scope;
mod spot;

pub use applying::{Applied, apply, apply_within};
pub use blocks::{Blocks, holds_laid, some_reading_agrees, value_at};
pub use chunks::{chunk_of, root_of};
pub use error::ApplyError;
pub use part::{LaidPart, Part, Slot, has_digest};
pub use reading::{look_for_absent, read_directory, read_file, read_inode, read_principals};
pub use scope::Scope;
pub use spot::{Spot, is_table, size_of_block, takes_chunk, takes_root};
