//! Honest clients of one honest server stand in one line, also where answers are lost and clients are opened again, and
//! their operations go through; and what the client of `client_verify` reads and signs is what honest clients read and
//! sign. Laws for callers: nothing here runs.
#![tactic(auto)]

mod laws;

pub use laws::{
    clients_stand_in_one_line, next_structures_are_honest, operations_go_through,
    tables_read_are_named,
};
