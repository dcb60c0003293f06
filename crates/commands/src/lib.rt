//! What a user asks for on a command line, and what comes of it: commands, the paths that they name, and the answers
//! that are printed.
#![tactic(auto)]

mod answer;
mod command;
mod files;
mod path;
mod place;
mod printing;
mod quoting;
mod range;
mod row;

pub use answer::{Answer, Refusal};
pub use command::Command;
pub use files::{MOST_FILES, NewFile, have_names};
pub use path::{Names, Path, path_of, place_of};
pub use place::{Course, Place, Stands};
pub use range::range_of;
pub use row::{Kind, Row};
