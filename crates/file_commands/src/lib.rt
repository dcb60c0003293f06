//! The words of the command line of `sundr`, read.
#![tactic(auto)]

mod line;
mod reading;
mod splitting;
mod words;

pub use line::{Line, LineError, NewFolder, Request, Wanted};
pub use splitting::{SplitError, split_words};
