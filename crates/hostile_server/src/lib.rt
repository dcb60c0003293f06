//! A server that lies as a script has it: it forks, rolls back, hides, swaps plans, cuts and flips, and else answers as
//! the honest one does. Its calls are safe and return; nothing else is promised of it, and no promise rests on it.
#![tactic(auto)]

mod editing;
mod entries;
mod lists;
mod pending;
mod refused;
mod server;
mod texts;

pub use editing::Edit;
pub use refused::Refused;
pub use server::Hostile;
