//! Runs of all clients of all users, with failed device calls, crashes and restarts: what a client releases it releases
//! once. A law for callers; `Clients`, which take the steps of such a run; and `run`, which carries them out.
#![tactic(auto)]

mod answering;
mod armed;
mod carrying;
mod crashing;
mod laws;
mod signing;
mod slot;
mod world;

pub use carrying::{Clients, run};
pub use laws::{each_is_used_once, users_steps_are_runs};
pub use world::{Accepted, Act, Answer, World, WorldStep};
