//! Sessions: a command of a user, carried out over a client of a server that nobody trusts, and any transport to it.
#![tactic(auto)]

mod calls;
mod choosing;
mod conversation;
mod details;
mod exchanging;
mod finishing;
mod judging;
mod leaves;
mod listed;
mod looking;
mod operation;
mod planning;
mod putting;
mod renaming;
mod resumed;
mod session;
mod site;
mod stop;
mod telling;
mod texts;
mod trying;
mod turn;
mod walking;

pub use resumed::Resumed;
pub use session::{Session, refusal_of};
pub use stop::Stop;
