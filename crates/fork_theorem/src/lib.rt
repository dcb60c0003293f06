//! The programs that a whole run can be tried with. `run` carries out steps of users' clients, and its contract is fork
//! consistency. `honest_run` carries steps out with one server and one store, and its contract is that all clients stand
//! in one line. `play` runs a script of clients and servers in one process: each line is a command, and prints one line;
//! nothing is proved of what it prints.
#![tactic(auto)]

mod blocks;
mod command;
mod laying;
mod operation;
mod outcome;
mod players;
mod script;
mod server;
mod task;
mod who;
mod words;
mod world;

pub use checked_blocks::CACHED_AT_FIRST;
pub use client_runs::{Accepted, Act, Answer, World, WorldStep};
pub use fork_consistency::run;
pub use honest_line::honest_run;
pub use honest_runs::{Delivery, HonestAct, HonestStep};
pub use script::{PlayError, play};
