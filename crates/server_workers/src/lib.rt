//! The server's workers: a connection each, so many at once; one order of calls under a lock; and a log of what it
//! placed and committed.
#![tactic(auto)]

mod accepted;
mod call_queue;
mod ended;
mod flusher;
mod gate;
mod locked;
mod new_queue;
mod places;
mod queue_log;
mod reply;
mod seen;
mod server;
mod serves;
mod serving;
mod shared;
mod tally;
mod worker;
mod workers;
mod writing;

pub use accepted::{Accepted, Unwatched, Watch};
pub use call_queue::{CallPass, CallQueue, ServerName};
pub use ended::Ended;
pub use flusher::Flusher;
pub use gate::{Gate, OpenGate};
pub use new_queue::empty_queue;
pub use reply::ReplyBody;
pub use seen::{SeenKey, certifier, see, seen_for};
pub use server::{Limits, Served, Unbegun, serve, serve_within};
pub use serves::Serves;
pub use serving::serve_by;
pub use shared::Shared;
pub use tally::{Counter, Tally};
pub use worker::converse;
