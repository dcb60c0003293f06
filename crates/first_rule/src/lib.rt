//! The first rule on the lists of a reply that doesn't hold.
#![tactic(auto)]

mod judge;

pub use judge::broken;
