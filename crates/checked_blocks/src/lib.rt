//! What a client knows of checked blocks: those of the beginning, for good; those that are held while a reply is under
//! check or a look under way; and a cache of others, the most recently used.
#![tactic(auto)]

mod cache;
mod checked;
mod digests;
mod with;

pub use checked::{CACHED_AT_FIRST, CheckedBlocks, MOST_CACHED};
pub use with::With;
