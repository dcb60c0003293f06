//! What the log of a server's one order tells: what the order kept, so that one who carries the calls of the log out
//! again, the first of them first, goes on where the order was.
//!
//! The log of a server that keeps its files is a log of records (crate `record_log`): the first says under which key
//! the calls were made, and the others are the calls (specs/KeptLog.antt). `open_order` reads it back.
#![tactic(auto)]

mod error;
mod kind;
mod laws;
mod opening;
mod reading;
mod replay;
mod told;

pub use error::{OpenError, ReplayError};
pub use kind::record_of;
pub use laws::log_replays;
pub use opening::open_order;
pub use replay::replay_call;
