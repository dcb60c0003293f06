//! What stands at a path that leads to nothing of the kind that is wanted.

use crate::asking::Asks;
use commands::{Answer, Command, Refusal, path_of};
use directory::Target as Place;
use file_commands::Wanted;
use std::alloc::Global;

/// What is known of what stands at a path.
#[derive(Clone, Copy)]
pub(crate) enum Found {
    /// It wasn't looked for.
    Unasked,
    /// No directory is above it.
    NothingAbove,
    /// The directory above it hasn't its name.
    Nothing,
    /// The directory above it has its name.
    Something,
}

impl Found {
    /// Why the entries of a directory aren't shown.
    pub(crate) fn no_directory(self) -> &'static str {
        match self {
            Found::Unasked => "no such directory: nothing is there, or a file",
            Found::NothingAbove => "no such directory, and none above it",
            Found::Nothing => "no such directory",
            Found::Something => "is a file, or a name that stands for nothing",
        }
    }

    /// Why the bytes of a file aren't shown.
    pub(crate) fn no_file(self) -> &'static str {
        match self {
            Found::Unasked => "no such file: nothing is there, or a directory",
            Found::NothingAbove => "no such file, and no such directory above it",
            Found::Nothing => "no such file",
            Found::Something => "is a directory, or a name that stands for nothing",
        }
    }

    /// Why a file can't be put.
    pub(crate) fn no_place(self) -> &'static str {
        match self {
            Found::Unasked | Found::Nothing => {
                "no file can be put there: it is a directory, or no such directory above it"
            }
            Found::NothingAbove => "no file can be put there: no such directory above it",
            Found::Something =>
                "no file can be put there: it is a directory, or a name that stands for nothing",
        }
    }

    /// Why nothing is removed.
    pub(crate) fn nothing(self) -> &'static str {
        match self {
            Found::NothingAbove =>
                "nothing is there that can be removed, and no such directory above it",
            _ => "nothing is there that can be removed",
        }
    }
}

/// What stands before the last name of a path, as a path, and that name.
pub(crate) fn split_last(path: &str) -> Option<(&str, &str)> {
    let (above, name) = path.rsplit_once('/')?;
    Some((if above.is_empty() { "/" } else { above }, name))
}

/// The place at which a path begins, where it leads through no name.
pub(crate) fn start_alone(path: &str) -> Option<Place> {
    let path = path_of(path)?;
    let start = path.start();
    if path.names().is_empty() {
        Some(start)
    } else {
        None
    }
}

/// The path of which it is told what stands there.
fn shown_path<'a>(wanted: &Wanted<'a>) -> Option<&'a str> {
    match wanted {
        Wanted::Get { path, .. } | Wanted::GetTree { path, .. } => Some(*path),
        Wanted::Put { path, .. } => Some(*path),
        Wanted::Run(command) => match command {
            Command::Ls(path) | Command::Details(path) | Command::Cat(path) => Some(*path),
            Command::Rm(path) => Some(*path),
            _ => None,
        },
        _ => None,
    }
}

/// The directory above what stands at such a path, and its name there, if it has one.
fn looked_for<'a>(wanted: &Wanted<'a>) -> Option<(&'a str, &'a str)> {
    let path = shown_path(wanted)?;
    if path_of(path).is_none() || start_alone(path).is_some() {
        return None;
    }
    split_last(path)
}

/// What stands at the path of what was answered that there is no such path, in the view of the look that told so. Of the
/// directory above it the blocks are known already.
pub(crate) fn found_beside<S: Asks>(
    session: &mut S,
    wanted: &Wanted<'_>,
    answer: &Answer<Global>,
) -> Found {
    let Answer::Refused(Refusal::NoPath) = answer else {
        return Found::Unasked;
    };
    let Some((above, name)) = looked_for(wanted) else {
        return Found::Unasked;
    };
    match session.show(&Command::Ls(above)) {
        Answer::Listing(entries) => match entries.get(name.as_bytes()) {
            Some(_) => Found::Something,
            None => Found::Nothing,
        },
        Answer::Refused(Refusal::NoPath) => Found::NothingAbove,
        _ => Found::Unasked,
    }
}
