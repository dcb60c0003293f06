//! A directory: names, and the file or directory that each stands for.
#![tactic(auto)]

mod directory;
mod entry;
mod error;
mod name;
mod target;

pub use directory::{DIRECTORY_SIZE, Directory, MOST_ENTRIES};
pub use entry::Entry;
pub use error::DirError;
pub use name::{Name, name_text, read_name};
pub use target::Target;
