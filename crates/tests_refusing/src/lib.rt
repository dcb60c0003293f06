//! An allocator for tests, which refuses one growth, or all from some time on.
#![tactic(auto)]

mod refusing;

pub use refusing::Refusing;
