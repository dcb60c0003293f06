//! The words of a line, taken one after another.

use crate::stop::Stop;
use layout::{Group, INumber, Principal, User, Version};

/// What is left of the words of a line.
#[derive(Clone, Copy)]
pub(crate) struct Words<'a> {
    rest: &'a str,
}

impl<'a> Words<'a> {
    /// The words of a text.
    pub(crate) fn of(text: &'a str) -> Words<'a> {
        Words { rest: text }
    }

    /// Whether no word is left.
    pub(crate) fn is_empty(&self) -> bool {
        self.rest.trim_start().is_empty()
    }

    /// The next word.
    pub(crate) fn word(&mut self) -> Result<&'a str, Stop> {
        let rest = self.rest.trim_start();
        let (word, rest) = rest.split_once(' ').unwrap_or((rest, ""));
        self.rest = rest;
        if word.is_empty() {
            return Err(Stop::Word);
        }
        Ok(word)
    }

    /// All that is left.
    pub(crate) fn rest(&mut self) -> &'a str {
        let rest = self.rest;
        self.rest = "";
        rest
    }

    /// What is left up to a mark that parts words, or else up to the end.
    pub(crate) fn part(&mut self) -> &'a str {
        let (part, rest) = self.rest.split_once('|').unwrap_or((self.rest, ""));
        self.rest = rest;
        part
    }

    /// The next word, a number.
    pub(crate) fn number(&mut self) -> Result<u32, Stop> {
        number(self.word()?)
    }

    /// The next word, a number of one byte.
    pub(crate) fn byte(&mut self) -> Result<u8, Stop> {
        found(u8::try_from(self.number()?).ok())
    }

    /// The next word, a number of two bytes.
    pub(crate) fn short(&mut self) -> Result<u16, Stop> {
        found(u16::try_from(self.number()?).ok())
    }

    /// The next word, a user.
    pub(crate) fn user(&mut self) -> Result<User, Stop> {
        found(User::new(self.byte()?))
    }

    /// The next word, a group.
    pub(crate) fn group(&mut self) -> Result<Group, Stop> {
        found(Group::new(self.byte()?))
    }

    /// The next word, a principal.
    pub(crate) fn principal(&mut self) -> Result<Principal, Stop> {
        found(Principal::new(self.byte()?))
    }

    /// The next word, a version.
    pub(crate) fn version(&mut self) -> Result<Version, Stop> {
        found(Version::new(self.number()?))
    }

    /// The next word, an i-number.
    pub(crate) fn i_number(&mut self) -> Result<INumber, Stop> {
        found(INumber::new(self.short()?))
    }
}

/// What was found, or the line is no case.
pub(crate) fn found<T>(value: Option<T>) -> Result<T, Stop> {
    match value {
        Some(value) => Ok(value),
        None => Err(Stop::Word),
    }
}

/// The number that a word is: decimal digits.
pub(crate) fn number(word: &str) -> Result<u32, Stop> {
    found(word.parse::<u32>().ok())
}
