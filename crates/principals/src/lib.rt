//! The table of principals: who is a user, since when and by which keys, and who is a member of which group.
#![tactic(auto)]

mod error;
mod laws;
mod marks;
mod reading;
mod table;

pub use error::TableError;
pub use laws::{keys, membership, open_rows};
pub use reading::read_key;
pub use table::{Listing, Renewal, Row, TABLE_SIZE, Table, key_invariant};
