//! Replies to updates: the latest signed structure of each user, and the operations that are pending.
#![tactic(auto)]

mod groups;
mod order;
mod reply;
mod signed;

pub use groups::{groups_at, raised_groups, raises, table_version};
pub use order::{depth_of_top, digest_of_last, is_above, is_deeper, outranks, top};
pub use reply::{HasItem, MOST_ROWS, PendingItem, REPLY_SIZE, Reply};
pub use signed::{Signature, Signed};
