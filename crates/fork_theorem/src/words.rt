//! The words of a script's lines.

use crate::who::Who;
use directory::name_text;
use itable::FILE_SIZE;
use layout::{Group, INumber, Memory, Principal, User};
use std::alloc::{AllocError, AllocFailed, Allocator};
use std::str::Split;

/// The name of a server: a small letter.
#[derive(Clone, Copy, PartialEq, Eq)]
pub(crate) struct ServerName(u8);

impl ServerName {
    /// The server that is there at the beginning.
    pub(crate) const FIRST: ServerName = ServerName(b'a');

    /// The name that a word is, if it is one.
    fn of(word: &str) -> Option<ServerName> {
        match word.as_bytes() {
            [letter] if letter.is_ascii_lowercase() => Some(ServerName(*letter)),
            _ => None,
        }
    }
}

/// Why a line isn't read as a command.
#[derive(Debug, Drop)]
pub(crate) enum Unread {
    /// It is none.
    NoCommand,
    /// Memory ran out.
    Memory,
}

impl From<AllocError> for Unread {
    fn from(_e: AllocError) -> Unread {
        Unread::Memory
    }
}

impl<T: Drop> From<AllocFailed<T>> for Unread {
    fn from(_e: AllocFailed<T>) -> Unread {
        Unread::Memory
    }
}

impl From<Memory> for Unread {
    fn from(_e: Memory) -> Unread {
        Unread::Memory
    }
}

/// Whether a word is a number: ASCII digits, of which any may be leading zeros, with no sign.
fn is_number(word: &str) -> bool {
    !word.is_empty() && word.bytes().all(|byte| byte.is_ascii_digit())
}

/// A number that is at most 65,535.
fn number_of(word: &str) -> Option<u16> {
    if !is_number(word) {
        return None;
    }
    word.parse().ok()
}

/// A number of any size: one that is greater than all that can be counted stands for the greatest.
fn any_number_of(word: &str) -> Option<u64> {
    if !is_number(word) {
        return None;
    }
    Some(word.parse().unwrap_or(u64::MAX))
}

/// A number that is at most 255.
fn byte_of(word: &str) -> Option<u8> {
    u8::try_from(number_of(word)?).ok()
}

fn user_of(word: &str) -> Option<User> {
    User::new(byte_of(word)?)
}

/// The client that a word names: `U` is the user's own, `U*` the one that has the user's stolen key.
fn client_of(word: &str) -> Option<Who> {
    match word.strip_suffix('*') {
        Some(word) => Some(Who::thief(user_of(word)?)),
        None => Some(Who::own(user_of(word)?)),
    }
}

fn group_of(word: &str) -> Option<Group> {
    Group::new(byte_of(word)?)
}

fn principal_of(word: &str) -> Option<Principal> {
    Principal::new(byte_of(word)?)
}

fn i_number_of(word: &str) -> Option<INumber> {
    INumber::new(number_of(word)?)
}

/// Whether a word can be a file's text: printable ASCII without `;`, and no more than a file has.
fn is_text(word: &str) -> bool {
    !word.is_empty()
        && word.len() <= FILE_SIZE as usize
        && word
            .bytes()
            .all(|byte| byte > b' ' && byte <= b'~' && byte != b';')
}

/// The bytes of the file that a word stands for: `-` is the empty file.
pub(crate) fn bytes_of<A: Allocator>(alloc: A, word: &str) -> Result<Vec<u8, A>, Unread> {
    if !is_text(word) {
        return Err(Unread::NoCommand);
    }
    if word == "-" {
        return Ok(Vec::new(alloc));
    }
    let bytes = Vec::from_slice(alloc, word.as_bytes())?;
    Ok(bytes)
}

// ---- the words of a line in turn

/// The next word.
pub(crate) fn next<'a>(words: &mut Split<'a, char>) -> Result<&'a str, Unread> {
    match words.next() {
        Some(word) => Ok(word),
        None => Err(Unread::NoCommand),
    }
}

/// What a word stands for, if it stands for anything.
fn known<T>(value: Option<T>) -> Result<T, Unread> {
    match value {
        Some(value) => Ok(value),
        None => Err(Unread::NoCommand),
    }
}

/// The user that the next word names.
pub(crate) fn user(words: &mut Split<'_, char>) -> Result<User, Unread> {
    known(user_of(next(words)?))
}

/// The client that the next word names.
pub(crate) fn client(words: &mut Split<'_, char>) -> Result<Who, Unread> {
    known(client_of(next(words)?))
}

/// The group that the next word names.
pub(crate) fn group(words: &mut Split<'_, char>) -> Result<Group, Unread> {
    known(group_of(next(words)?))
}

/// The principal that the next word names.
pub(crate) fn principal(words: &mut Split<'_, char>) -> Result<Principal, Unread> {
    known(principal_of(next(words)?))
}

/// The i-number that the next word is.
pub(crate) fn i_number(words: &mut Split<'_, char>) -> Result<INumber, Unread> {
    known(i_number_of(next(words)?))
}

/// The number that the next word is, of any size.
pub(crate) fn number(words: &mut Split<'_, char>) -> Result<u64, Unread> {
    known(any_number_of(next(words)?))
}

/// The server that the next word names.
pub(crate) fn server(words: &mut Split<'_, char>) -> Result<ServerName, Unread> {
    known(ServerName::of(next(words)?))
}
