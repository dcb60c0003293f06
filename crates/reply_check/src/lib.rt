//! A reply, judged: from its bytes to the first broken rule, to the block that is wanted, or to what the own operation
//! makes.
#![tactic(auto)]

mod asked;
mod by_table;
mod checking;
mod good;
mod known;
mod lists;
mod reaching;
mod verdict;

pub use asked::Asked;
pub use checking::check;
pub use good::Good;
pub use known::Known;
pub use lists::{Admitted, Lists, with_own};
pub use reaching::{Made, Reached, Shown, Written, reach, reach_with, show, show_with, write_with};
pub use verdict::judge;
