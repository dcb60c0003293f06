//! Honest runs: the clients of all users, one server that keeps its order, and one store of blocks. What clients do is
//! a run of theirs, and what they are handed is what server and store give. A law for callers, and `honest_run`, which
//! carries out the steps of such a run.
#![tactic(auto)]

mod exchange;
mod laws;
mod running;
mod server;
mod step;
mod town;
mod wanted;

pub use laws::honest_runs_are_runs;
pub use running::honest_run;
pub use step::{Delivery, HonestAct, HonestStep};
