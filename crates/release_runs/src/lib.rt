//! Runs of what a user's client releases by its keys, with failed device calls, crashes and restarts: each leaf of a key
//! signs one text. Laws for callers: nothing here runs.
#![tactic(auto)]

mod laws;

pub use laws::each_is_used_once;
