//! Changes of a client's next operation, written as bytes.

use layout::{Group, User};
use lms_sign::{PrivateKey, PublicKey};
use std::alloc::Global;
use tests_aids::numbers::{entry, i_number, name, principal};
use tests_aids::texts::key_of;
use tests_aids::{Aided, found, given};
use tests_client_aids::changes::{Planned, lay, nothing, plan_change};
use update_cert::{Action, Change, TableChange};

/// The user of a number.
pub(crate) fn user(rt: &impl Aided, number: u8) -> User {
    found(rt, User::new(number), "a user")
}

/// The group of a number.
fn group(rt: &impl Aided, number: u8) -> Group {
    found(rt, Group::new(number), "a group")
}

/// The keys of so many users, from user 0 on.
pub(crate) fn keys(rt: &impl Aided, count: u8) -> Vec<PublicKey> {
    let mut keys = Vec::new(rt.alloc());
    for number in 0..count {
        given(rt, keys.push(key_of(rt, number).public()), "memory");
    }
    keys
}

/// How far apart the bytes are of which the identifiers of a user's keys are made.
const KEY_STEP: u8 = 64;

/// The key that a user of a run gains after so many others.
pub(crate) fn later_key(rt: &impl Aided, user: u8, before: u8) -> PrivateKey<Global> {
    let identifier = user.wrapping_add(KEY_STEP.wrapping_mul(before));
    let key = PrivateKey::from_seed(rt.alloc(), [user; 32], [identifier; 16]);
    given(rt, key, "memory")
}

/// Adds the key that a user gains first.
pub(crate) fn add_second_key(rt: &impl Aided, keys: &mut Vec<PublicKey>, user: u8) {
    let key = later_key(rt, user, 1).public();
    given(rt, keys.push(key), "memory");
}

/// The parts of a text between which this byte stands. The last one isn't empty.
pub(crate) fn split<'a>(rt: &impl Aided, text: &'a [u8], between: u8) -> Vec<&'a [u8]> {
    let mut parts = Vec::new(rt.alloc());
    let mut first = 0;
    for (place, byte) in text.iter().enumerate() {
        if *byte == between {
            let part = text.get(first..place).unwrap_or(&[]);
            given(rt, parts.push(part), "memory");
            first = place.wrapping_add(1);
        }
    }
    if first < text.len() {
        given(rt, parts.push(text.get(first..).unwrap_or(&[])), "memory");
    }
    parts
}

/// What is done at an i-number, by the letter and what follows the i-number. A file is laid out.
fn action_of(rt: &impl Aided, planned: &mut Planned, letter: u8, rest: &[u8]) -> Action<Global> {
    match (letter, rest) {
        (b'f', file) => Action::Make(lay(rt, planned, file)),
        (b'p', file) => Action::Put(lay(rt, planned, file)),
        (b'r', _) => Action::Remove,
        (b'l', [owner, number, bytes @ ..]) => {
            Action::Link(entry(rt, bytes, (*owner, u16::from(*number))))
        }
        (_, bytes) => Action::Unlink(name(rt, bytes)),
    }
}

/// The key at this place of these.
fn key_in(rt: &impl Aided, keys: &[PublicKey], place: u8) -> PublicKey {
    *found(rt, keys.get(usize::from(place)), "a key")
}

/// The change of a row, where these are the keys of the users from 0 on, and then others. A file is laid out.
fn change_of(
    rt: &impl Aided,
    planned: &mut Planned,
    keys: &[PublicKey],
    row: &[u8],
) -> Change<Global> {
    match row {
        [b'u', number] => {
            let key = key_in(rt, keys, *number);
            Change::of_table(TableChange::AddUser(user(rt, *number), key))
        }
        [b'k', number, place] => {
            let key = key_in(rt, keys, *place);
            Change::of_table(TableChange::SetKey(user(rt, *number), key))
        }
        [b'm', of, number] => {
            Change::of_table(TableChange::AddMember(group(rt, *of), user(rt, *number)))
        }
        [b'd', of, number] => {
            Change::of_table(TableChange::DropMember(group(rt, *of), user(rt, *number)))
        }
        [letter, owner, number, rest @ ..] => {
            let action = action_of(rt, planned, *letter, rest);
            let (owner, number) = (principal(rt, *owner), i_number(rt, u16::from(*number)));
            Change::new(owner, number, action)
        }
        _ => rt.fail("no change"),
    }
}

/// Changes, where these are the keys of the users from 0 on, and then others. They are told as bytes, with semicolons
/// between them, and each begins with a letter.
///
/// To the table of principals: `u` and a user, who is listed; `k`, a user and the place of a key among these, which the
/// user has from then on, too; `m`, a group and a user, who becomes a member; `d`, a group and a user, who is a member
/// no more.
///
/// At an i-number: the letter, the principal, the i-number, each in one byte; then for `f` the text of a file that is
/// made, for `p` that of one that is put; nothing for `r`, where it is removed; for `l` the target's principal and
/// i-number, and the name that links to it; for `n` the name that is unlinked.
pub(crate) fn planned_of(rt: &impl Aided, keys: &[PublicKey], changes: &[u8]) -> Planned {
    let mut planned = nothing(rt);
    for row in &split(rt, changes, b';') {
        let change = change_of(rt, &mut planned, keys, row);
        plan_change(rt, &mut planned, change);
    }
    planned
}
