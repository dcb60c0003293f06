//! The private key of a seed: drawn over all processors, or made of what was kept of its leaves.
#![tactic(auto)]

mod drawing;
mod kept;

pub use drawing::drawn_key;
pub use kept::{LEDGER_SIZE, kept_key};
