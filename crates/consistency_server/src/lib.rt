//! The server of a file system whose clients don't trust it: the one order of their operations.
#![tactic(auto)]

mod call;
mod item;
mod log;
mod past;
mod payload;
mod placement;
mod refusal;
mod reply_text;
mod server;
mod signed_text;
mod signer;
mod state;
mod structures;
mod verification;

pub use call::{Answer, Call, CallKind};
pub use log::{Log, LogFull, MemoryLog};
pub use server::Ordered;
pub use signer::{Signer, signer_of};
pub use verification::Verification;
