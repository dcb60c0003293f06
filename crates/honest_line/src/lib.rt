//! With an honest server all clients stand in one line, over whole runs. Laws for callers, and `honest_run`, whose
//! contract it is.
#![tactic(auto)]

mod laws;
mod running;

pub use laws::{honest_runs_are_on_one_line, nothing_is_forged};
pub use running::honest_run;
