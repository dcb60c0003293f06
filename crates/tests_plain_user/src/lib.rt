//! A user for tests and times: whatever plan a server shows, it signs. It judges nothing, and is no client.
#![tactic(auto)]

mod caller;
mod signer;
mod user;

pub use caller::{CallError, Caller, Replied};
pub use user::{PlainUser, listing};
