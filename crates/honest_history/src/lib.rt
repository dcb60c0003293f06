//! Histories of a server whose clients are honest: no reply that it gives breaks a rule, the clients' calls are
//! answered with success, and the views over its replies stand in one line, that of the operations in the order in
//! which it placed them. Laws for callers: nothing here runs.
#![tactic(auto)]

mod laws;

pub use laws::{calls_are_answered, replies_are_unbroken, views_stand_in_one_line};
