//! With an honest server that keeps its log all clients stand in one line, over its ends and starts, too. Laws for
//! callers.
#![tactic(auto)]

mod laws;

pub use laws::{runs_with_starts_are_honest_runs, what_was_told_stays};
