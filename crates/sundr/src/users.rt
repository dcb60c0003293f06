//! Who is listed, with which key, and who is a member of which group.

use crate::asking::Asks;
use crate::hindrance::Hindrance;
use crate::init::Fingerprint;
use crate::obeying::Outcome;
use commands::{Answer, Command, Refusal};
use layout::{Group, ReadError, Text, User};
use principals::Table;
use std::alloc::Global;
use std::fmt;

/// Where the table of principals is read.
const TABLE: &str = "@0:1";

/// The number after the last user's.
const USERS_END: u8 = 64;

/// The number after the last group's.
const GROUPS_END: u8 = 96;

/// Later than any number of an operation.
const NOW: u32 = u32::MAX;

/// Who is listed, as a user sees it.
#[derive(Drop)]
pub(crate) struct Listed {
    own: User,
    table: Table<Global>,
}

/// A user's line, where the user is listed: the number, and the fingerprint of the key by which the user signs last.
fn write_user<W: fmt::Write>(
    f: &mut fmt::Formatter<W>,
    table: &Table<Global>,
    number: u8,
) -> fmt::Result {
    let Some(user) = User::new(number) else {
        return Ok(());
    };
    match table.key_of(user) {
        Some(key) => write!(f, "\nuser {number} {}", Fingerprint::of(&key)),
        None => Ok(()),
    }
}

/// The members of a group, each behind a blank; before the first of them a line begins with the group's number.
fn write_members<W: fmt::Write>(
    f: &mut fmt::Formatter<W>,
    table: &Table<Global>,
    group: Group,
) -> fmt::Result {
    let mut is_begun = false;
    for number in 0..USERS_END {
        let Some(user) = User::new(number) else {
            continue;
        };
        if !table.is_member(group, user, NOW) {
            continue;
        }
        if !is_begun {
            is_begun = true;
            write!(f, "\ngroup {}", group.get())?;
        }
        write!(f, " {number}")?;
    }
    Ok(())
}

impl fmt::Display for Listed {
    fn fmt<W: fmt::Write>(&self, f: &mut fmt::Formatter<W>) -> fmt::Result {
        write!(f, "you {}", self.own.get())?;
        for number in 0..USERS_END {
            write_user(f, &self.table, number)?;
        }
        for number in USERS_END..GROUPS_END {
            if let Some(group) = Group::new(number) {
                write_members(f, &self.table, group)?;
            }
        }
        Ok(())
    }
}

/// The table that a text is. One that is none can't be shown: each view has a table.
fn outcome_of_text(alloc: Global, own: User, text: &[u8]) -> Result<Outcome, Hindrance> {
    match Table::read(alloc, text) {
        Ok(table) => Ok(Outcome::Users(Listed { own, table })),
        Err(ReadError::Memory) => Err(Hindrance::Refused(Refusal::Memory)),
        Err(_) => Err(Hindrance::Refused(Refusal::NoPath)),
    }
}

/// Who is listed in the view of a look.
pub(crate) fn list_users<S: Asks>(
    rt: &HostRuntime,
    session: &mut S,
    own: User,
) -> Result<Outcome, Hindrance> {
    match session.run(&Command::Cat(TABLE)) {
        Answer::Bytes(text) => outcome_of_text(rt.alloc(), own, &text),
        other => Ok(Outcome::Answer(other)),
    }
}
