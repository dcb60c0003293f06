//! What a client reads of a reply from the blocks that it holds: on which handle each principal's part stands, what the
//! pending operations make of it, what the own one makes of the tree, and what stands there.
#![tactic(auto)]

mod contents;
mod genesis;
mod held;
mod lost;
mod named;
mod opened;
mod questions;
mod tables;
mod tree;
mod view;

pub use contents::{Seen, SeenKind};
pub use genesis::{first_blocks, root_digest};
pub use held::Held;
pub use named::{PendingTable, table_of};
pub use questions::{Answer, Question};
pub use tables::read_table;
pub use tree::{Outcome, Stored};
pub use view::View;
