//! Fork consistency over every run of all users' clients, whatever servers do. The table of principals of each accepted
//! view is by user 0's certificates, the i-tables that its handles name are among the texts of the run, and what a
//! client sees of the view, and is told, is the world of its line of operations. Laws for callers, and `run`, whose
//! contract says it of the run that it carries out.
#![tactic(auto)]

mod laws;
mod running;

pub use laws::{
    handles_are_whole, looks_tell_of_one_tree, own_parts_stand, runs_are_fork_consistent,
    stolen_by_nobody, tables_are_by_certificates, views_are_signed, views_of_runs_are_worlds,
};
pub use running::run;
