//! What lasts from line to line of a file: the names of bytes, and the text `$it`, which the steps read and change.

use crate::names::{Names, push};
use crate::stop::Stop;
use crate::words::Words;
use layout::{Memory, Text, put_in};
use std::alloc::Global;
use std::fmt::Display;

/// What lasts from line to line.
#[derive(Drop)]
pub(crate) struct World {
    pub(crate) alloc: Global,
    pub(crate) names: Names,
    /// The text that was made last.
    pub(crate) it: Vec<u8>,
    /// The blocks that are held.
    pub(crate) held: Vec<Vec<u8>>,
    /// What is answered on a line, where it isn't `done`.
    pub(crate) answer: Vec<u8>,
    /// What is printed.
    pub(crate) told: Vec<u8>,
}

impl World {
    /// Nothing as yet.
    pub(crate) fn new(alloc: Global) -> World {
        World {
            alloc,
            names: Names::none(alloc),
            it: Vec::new(alloc),
            held: Vec::new(alloc),
            answer: Vec::new(alloc),
            told: Vec::new(alloc),
        }
    }

    /// Adds this to what is answered.
    pub(crate) fn say(&mut self, text: &str) -> Result<(), Stop> {
        push(&mut self.answer, text.as_bytes())
    }

    /// Adds what is shown so to what is answered.
    pub(crate) fn show<D: Display + Drop>(&mut self, value: D) -> Result<(), Stop> {
        let text = format!(in self.alloc; "{value}")?;
        self.say(&text)
    }

    /// Adds `yes` or `no`.
    pub(crate) fn say_whether(&mut self, holds: bool) -> Result<(), Stop> {
        self.say(if holds { "yes" } else { "no" })
    }

    /// Adds bytes, each of two digits.
    pub(crate) fn say_digits(&mut self, bytes: &[u8]) -> Result<(), Stop> {
        for byte in bytes {
            let digits = format!(in self.alloc; "{byte:02x}")?;
            push(&mut self.answer, digits.as_bytes())?;
        }
        Ok(())
    }

    /// Adds these numbers, or `none`.
    pub(crate) fn show_numbers(&mut self, numbers: &[u8]) -> Result<(), Stop> {
        if numbers.is_empty() {
            return self.say("none");
        }
        for number in numbers {
            let text = format!(in self.alloc; "{number};")?;
            self.say(&text)?;
        }
        Ok(())
    }

    /// The value that `$it` spells.
    pub(crate) fn read<T: Text<Global>>(&self) -> Result<T, Stop> {
        Ok(T::read(self.alloc, &self.it)?)
    }

    /// The text of a value is `$it` from now on.
    pub(crate) fn write<T: Text<Global>>(&mut self, value: &T) -> Result<(), Stop> {
        let text = value.text(self.alloc);
        self.keep(text)
    }

    /// The text is `$it` from now on.
    pub(crate) fn keep(&mut self, text: Result<Vec<u8>, Memory>) -> Result<(), Stop> {
        match text {
            Ok(text) => {
                put_in(&mut self.it, text);
                Ok(())
            }
            Err(_) => Err(Stop::Memory),
        }
    }

    /// The bytes are `$it` from now on.
    pub(crate) fn keep_bytes(&mut self, bytes: &[u8]) -> Result<(), Stop> {
        let text = Vec::from_slice(self.alloc, bytes)?;
        put_in(&mut self.it, text);
        Ok(())
    }

    /// The bytes of the words that are left.
    pub(crate) fn bytes(&self, words: &mut Words<'_>) -> Result<Vec<u8>, Stop> {
        self.names.bytes(words)
    }
}
