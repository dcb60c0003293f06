//! A server that keeps what it has: its one order of calls in a log of records, and its blocks in a file of blocks.
//!
//! A call's answer goes out once all calls before it are in the log and synced, also where it repeats an answer or
//! refuses. Whoever waits and finds nobody syncing takes all that waits, syncs the blocks if there are more, and appends
//! it at once; so many calls that come together share their syncs. Where a storage fails no request is replied to any
//! more.
//!
//! Proved: each reply is one that a server may give that keeps what it has, whatever the storages do; and where the reply
//! to SYNC is made, Ok tells that the blocks are synced (`Blocks::reply_to_sync`).
//!
//! Proved of calls, over a storage that tells its history: an answer is one after a history of which each call that placed
//! or committed, its own too, is among those that the worker's receipt shows (`server_workers::converse`, at the receipts
//! of `KeptServer`). A receipt is made over a log that has what it shows, synced, in no other way (`Receipt::of`), and a
//! log keeps what it has, also where its storage fails (`Keeper`); so what was told stays told, over crashes and starts
//! (`what_was_told_stays`). Records are appended only once the blocks were synced (`Ready`). The log that is handed back in
//! the end has a beginning of what the order leaves in it, in order, each call once (`serve_kept`).
#![tactic(auto)]

mod blocks;
mod events;
mod keeper;
mod key;
mod laws;
mod order;
mod ready;
mod receipt;
mod server;
mod serving;
mod state;
mod waiting;

pub use blocks::Blocks;
pub use laws::what_was_told_stays;
pub use serving::{Kept, KeptServed, serve_kept};
