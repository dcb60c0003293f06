//! Certificates of updates: what a user signs to have an operation placed, what its changes make of the tree of all users,
//! and of the table of principals.
#![tactic(auto)]

mod cert;
mod change;
mod laws;
mod tables;
mod voids;

pub use cert::{CERT_SIZE, Cert, MOST_CHANGES, cert_text};
pub use change::{Action, AnyAction, CHANGE_SIZE, Change, TableChange};
pub use laws::{table_in_trees, voids_in_turn};
pub use tables::{apply_table, table_after};
pub use voids::Voids;
