//! The rules of a client that speak of the lists of a reply and the table of principals alone: whether each of them
//! holds. The rule on unknown users, which needs no more than the table, and the first rule that doesn't hold stand in
//! the crate first_rule.
#![tactic(auto)]

mod entries;
mod link;
mod lists;
mod numbers;
mod records;
mod reply_lists;
mod rest;
mod rule;
mod vector;

pub use entries::entries_hold;
pub use link::link_holds;
pub use lists::lists_hold;
pub use numbers::numbers_hold;
pub use records::group_records_hold;
pub use reply_lists::{Lists, above_top};
pub use rule::Rule;
pub use vector::vector_holds;
