//! Vectors, plans and version structures: what a user's operation is numbered by, what the server expects of it, and
//! what the user signs. Each has one spelling.
#![tactic(auto)]

mod error;
mod order;
mod plan;
mod structure;
mod vector;

pub use error::PlanError;
pub use order::{below, depth, next_plan};
pub use plan::{Entries, Entry, PLAN_SIZE, Plan};
pub use structure::{GroupRecord, GroupRecords, STRUCTURE_SIZE, Structure};
pub use vector::{Component, Vector};
