//! Accepted views agree, whatever the server did: each has a line of operations, and where two views have a structure
//! in common, their lines are the same up to it; and what honest users read of a view is what its line makes of the
//! beginning. The own operation comes after the newest record of each group that it raises. Laws for callers: nothing
//! here runs.
#![tactic(auto)]

mod laws;

pub use laws::{own_comes_after_newest, views_agree, views_are_worlds};
