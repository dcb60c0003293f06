//! Blocks that were got or stored before, so that they need not be asked for again.
#![tactic(auto)]

mod blocks;
mod keeping;

pub use blocks::{KeptBlocks, MOST_BLOCKS, MOST_BYTES};
pub use keeping::Keeping;
