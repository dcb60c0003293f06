//! Commands of all users, each carried out by a session, with openings and crashes between: they are a run of all
//! users' clients, and so fork consistent. Laws for callers, without code.
#![tactic(auto)]

mod laws;

pub use laws::{lives_are_runs, sessions_are_fork_consistent, sessions_tell_worlds};
