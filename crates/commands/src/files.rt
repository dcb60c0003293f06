//! Files that are written into one directory.

ghost use Rattle.std.specs.Prelude.{◌≡◌, map};
ghost use Rattle.std.specs.List.{list_all, list_any};
ghost use Rattle.std.specs.Str.{bytes_eq};
ghost use Rattle.directory.specs.Name.{is_name};
ghost use Rattle.commands.specs.Files.{are_distinct, have_names, name_of};

use crate::path::is_name;

/// How many files are written at most in one operation: each may take two of its changes.
pub const MOST_FILES: usize = 8;

/// A file that is to be written.
#[derive(Clone, Copy)]
pub struct NewFile<'a> {
    /// Its name in the directory.
    pub name: &'a str,
    /// Its bytes.
    pub content: &'a [u8],
}

/// Whether one of these files has this name.
fn is_among(name: &str, files: &[NewFile<'_>]) -> bool
    ensures { result ≡ list_any (λ file. bytes_eq name.now (name_of file)) files.now }
{
    files.iter().any(|file| name == file.name)
}

/// Whether no two of these files have one name.
fn are_distinct(files: &[NewFile<'_>]) -> bool
    ensures { result ≡ are_distinct (map name_of files.now) }
{
    match files.split_first() {
        Some((file, later)) => !is_among(file.name, later) && are_distinct(later),
        None => true,
    }
}

/// Whether each of these files has a name that an entry may have.
fn are_names(files: &[NewFile<'_>]) -> bool
    ensures { result ≡ list_all (λ file. is_name (name_of file)) files.now }
{
    files.iter().all(|file| is_name(file.name))
}

/// Whether each of these files has a name that an entry may have, and no two have one name.
pub fn have_names(files: &[NewFile<'_>]) -> bool
    ensures { result ≡ have_names files.now }
{
    are_names(files) && are_distinct(files)
}
