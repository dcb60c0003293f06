//! What tests of clients share: clients and servers in memory, changes of their operations, what a crash makes of a
//! client, and what each answers.
#![tactic(auto)]

pub mod changes;
pub mod clients;
pub mod crashes;
pub mod servers;
