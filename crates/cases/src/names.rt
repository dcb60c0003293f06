//! Bytes, as words spell them: `'` before letters, pairs of hexadecimal digits, `:` before a number of four bytes and
//! `;` before one of two; and of a name that bytes have, `$` before it for the bytes, `+` for their size in two bytes,
//! and `#` for their digest. But for letters, `*` and a number after a word say how often it stands there.

use crate::stop::Stop;
use crate::words::{Words, number};
use layout::digest;
use std::alloc::Global;

/// A name of bytes.
#[derive(Drop)]
struct Named {
    name: String,
    bytes: Vec<u8>,
}

/// The names of bytes, of which the last one of a name counts.
#[derive(Drop)]
pub(crate) struct Names {
    alloc: Global,
    all: Vec<Named>,
}

impl Names {
    /// No names.
    pub(crate) fn none(alloc: Global) -> Names {
        Names {
            alloc,
            all: Vec::new(alloc),
        }
    }

    /// From now on bytes have this name.
    pub(crate) fn name(&mut self, name: &str, bytes: Vec<u8>) -> Result<(), Stop> {
        let name = String::from_str(self.alloc, name)?;
        self.all.push(Named { name, bytes })?;
        Ok(())
    }

    /// The bytes of a name.
    pub(crate) fn bytes_of(&self, name: &str) -> Result<&[u8], Stop> {
        for named in self.all.iter().rev() {
            if named.name.as_str() == name {
                return Ok(&named.bytes);
            }
        }
        Err(Stop::Word)
    }

    /// Adds what a mark makes of the bytes of a name.
    fn push_named(&self, mark: char, name: &str, text: &mut Vec<u8>) -> Result<(), Stop> {
        let bytes = self.bytes_of(name)?;
        match mark {
            '$' => text.extend_from_slice(bytes)?,
            '+' => text.extend_from_slice(&two_bytes(bytes.len())?)?,
            _ => text.extend_from_slice(digest(bytes).as_bytes())?,
        }
        Ok(())
    }

    /// Adds the bytes of a word without a count.
    fn push_once(&self, word: &str, text: &mut Vec<u8>) -> Result<(), Stop> {
        match word.chars().next() {
            Some(mark @ ('$' | '+' | '#')) => self.push_named(mark, tail(word), text),
            Some(':') => push(text, &number(tail(word))?.to_be_bytes()),
            Some(';') => {
                let [_, _, high, low] = number(tail(word))?.to_be_bytes();
                push(text, &[high, low])
            }
            _ => push_digits(word.as_bytes(), text),
        }
    }

    /// Adds the bytes of a word.
    fn push_word(&self, word: &str, text: &mut Vec<u8>) -> Result<(), Stop> {
        if let Some(letters) = word.strip_prefix('\'') {
            return push(text, letters.as_bytes());
        }
        let (word, count) = word.split_once('*').unwrap_or((word, "1"));
        let from = text.len();
        self.push_once(word, text)?;
        repeat(text, from, number(count)?)
    }

    /// The bytes of all words that are left.
    pub(crate) fn bytes(&self, words: &mut Words<'_>) -> Result<Vec<u8>, Stop> {
        let mut text = Vec::new(self.alloc);
        let pushed = self.push_all(words.rest(), &mut text);
        pushed.map(|_| text)
    }

    /// Adds the bytes of words.
    fn push_all(&self, words: &str, text: &mut Vec<u8>) -> Result<(), Stop> {
        for word in words.split(' ') {
            if !word.is_empty() {
                self.push_word(word, text)?;
            }
        }
        Ok(())
    }
}

/// A word without its mark.
fn tail(word: &str) -> &str {
    word.get(1..).unwrap_or("")
}

/// Adds bytes to a text.
pub(crate) fn push(text: &mut Vec<u8>, bytes: &[u8]) -> Result<(), Stop> {
    text.extend_from_slice(bytes)?;
    Ok(())
}

/// A size in two bytes.
pub(crate) fn two_bytes(size: usize) -> Result<[u8; 2], Stop> {
    match u16::try_from(size) {
        Ok(size) => Ok(size.to_be_bytes()),
        Err(_) => Err(Stop::Word),
    }
}

/// The number of a hexadecimal digit.
fn digit_of(letter: u8) -> Result<u8, Stop> {
    match letter {
        b'0'..=b'9' => Ok(letter - b'0'),
        b'a'..=b'f' => Ok(letter - b'a' + 10),
        _ => Err(Stop::Word),
    }
}

/// Adds the bytes of pairs of hexadecimal digits.
fn push_digits(digits: &[u8], text: &mut Vec<u8>) -> Result<(), Stop> {
    for pair in digits.chunks(2) {
        let [high, low] = pair else {
            return Err(Stop::Word);
        };
        text.push((digit_of(*high)? << 4) | digit_of(*low)?)?;
    }
    Ok(())
}

/// What stands from a place on stands there so often.
fn repeat(text: &mut Vec<u8>, from: usize, count: u32) -> Result<(), Stop> {
    if count == 0 {
        text.truncate(from);
        return Ok(());
    }
    let end = text.len();
    for _ in 1..count {
        for place in from..end {
            let byte = text.get(place).copied().unwrap_or(0);
            text.push(byte)?;
        }
    }
    Ok(())
}
