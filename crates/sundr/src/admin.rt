//! Changes of the table of principals that a file of the system has, a line each.

use crate::WORDS;
use crate::batch::{with_program, words_of};
use crate::folder::{CONTENT_SIZE, read_named};
use crate::hindrance::{FileFault, Hindrance};
use crate::printing::{refuse, tell};
use commands::Refusal;
use file_commands::Wanted;
use layout::let_go;
use update_cert::{MOST_CHANGES, TableChange};

/// What is told of a line that asks for something else.
const OTHER: &str =
    "error: a line of adduser, setkey, addmember or dropmember is wanted, one change each";

/// Tells that a line has no change: the status to end with.
fn tell_other(rt: &HostRuntime) -> u8 {
    let _ = eprintln!(rt; "{OTHER}");
    WORDS
}

/// The change that is wanted, or the status where none is, which is told.
fn change_of(rt: &HostRuntime, wanted: &Wanted<'_>) -> Result<TableChange, Hindrance> {
    let change = match wanted {
        Wanted::Run(command) => command.table_change(),
        _ => None,
    };
    match change {
        Some(change) => Ok(change),
        None => Err(Hindrance::Told(tell_other(rt))),
    }
}

/// The change that these words ask for, before which the program's name stands; or the status where they ask for none,
/// which is told.
fn change_in(rt: &HostRuntime, words: &[&str]) -> Result<TableChange, Hindrance> {
    match Wanted::read(rt.alloc(), words) {
        Ok(wanted) => change_of(rt, &wanted),
        Err(error) => {
            let status = refuse(rt, &error);
            let_go(error);
            match status {
                // Help that a line asks for is no change.
                Ok(_) => Err(Hindrance::Told(WORDS)),
                Err(error) => Err(Hindrance::Told(tell(rt, error))),
            }
        }
    }
}

/// The change of a line.
fn change_on(rt: &HostRuntime, text: &str) -> Result<TableChange, Hindrance> {
    let words = match words_of(rt, text) {
        Ok(words) if words.is_empty() => Err(tell_other(rt)),
        other => other,
    };
    match words {
        Ok(words) => {
            let words = with_program(rt.alloc(), &words)?;
            change_in(rt, &words)
        }
        Err(status) => Err(Hindrance::Told(status)),
    }
}

/// The change of the line of a number, which is told where it has none.
fn change_numbered(rt: &HostRuntime, number: usize, text: &str) -> Result<TableChange, Hindrance> {
    let change = change_on(rt, text);
    if let Err(Hindrance::Told(status)) = &change {
        let _ = eprintln!(rt; "line {number}: status {status}");
    }
    change
}

/// The changes of these lines, at most as many as an operation has.
fn changes_of(rt: &HostRuntime, text: &str) -> Result<Vec<TableChange>, Hindrance> {
    let mut changes = Vec::new(rt.alloc());
    for (place, line) in text.lines().enumerate() {
        if place == MOST_CHANGES {
            return Err(Hindrance::Refused(Refusal::TooLarge));
        }
        changes.push(change_numbered(rt, place.saturating_add(1), line)?)?;
    }
    Ok(changes)
}

/// The changes that a file of the system has: one at least.
pub(crate) fn read_changes(rt: &HostRuntime, file: &str) -> Result<Vec<TableChange>, Hindrance> {
    let content = read_named(rt, file, CONTENT_SIZE)?;
    let Ok(text) = std::str::from_utf8(&content) else {
        return Err(Hindrance::NoFile(FileFault::NoText));
    };
    let changes = changes_of(rt, text)?;
    if changes.is_empty() {
        return Err(Hindrance::NoFile(FileFault::NoChange));
    }
    Ok(changes)
}
