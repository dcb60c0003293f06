//! The words of a line, as a shell reads them.

ghost use Rattle.std.specs.Prelude.{◌≡◌, ℕ, List, [], IfOk, OnOk, Some, None, Err, false, map, chars, encode_utf8, string_bytes};
ghost use Rattle.file_commands.specs.Splitting.{is_blank, is_escapable, words_in};
ghost use Rattle.file_commands.specs.Gathering.{Begins, IsSound, Keeps, Reads, gathered};
ghost use Rattle.file_commands.specs.declared.splitting.Place.TheVariants.{Between, Word, Single, Double, DoubleEscaped};
ghost use Rattle.file_commands.specs.declared.splitting.SplitError.TheVariants as why;

use std::alloc::{AllocError, AllocFailed, Global};
use std::mem;
use thiserror::Error;

/// Why a line has no words.
#[derive(Clone, Copy, Debug, PartialEq, Eq, Error)]
pub enum SplitError {
    /// A quote isn't closed, or a backslash is the last character.
    #[error("a quote isn't closed")]
    Unclosed,
    /// Memory ran out.
    #[error("memory")]
    Memory,
}

impl From<AllocError> for SplitError {
    ghost from_gives = { λ _ e. e ≡ why.Memory };

    fn from(_e: AllocError) -> SplitError {
        SplitError::Memory
    }
}

impl<T: Drop> From<AllocFailed<T>> for SplitError {
    ghost from_gives = { λ _ e. e ≡ why.Memory };

    fn from(_e: AllocFailed<T>) -> SplitError {
        SplitError::Memory
    }
}

/// Where a character stands in a line.
#[derive(Clone, Copy, Debug, PartialEq, Eq)]
pub(crate) enum Place {
    /// Between words.
    Between,
    /// In a comment.
    Comment,
    /// In a word, outside of quotes.
    Word,
    /// After a backslash, outside of quotes.
    Escaped,
    /// In single quotes.
    Single,
    /// In double quotes.
    Double,
    /// After a backslash in double quotes.
    DoubleEscaped,
}

/// The words of a line up to a place, of which one may be under way.
#[derive(Drop)]
pub(crate) struct Splitting {
    place: Place,
    words: Vec<String>,
    word: String,
}

fn is_blank(c: char) -> bool
    ensures { result ≡ is_blank c }
{
    c == ' ' || c == '\t'
}

/// Whether a backslash in double quotes is left out before this character.
fn is_escapable(c: char) -> bool
    ensures { result ≡ is_escapable c }
{
    c == '"' || c == '$' || c == '\\' || c == '`'
}

impl Splitting {
    /// Nothing was read.
    fn new(alloc: Global) -> Splitting
        ensures sound { IsSound result }
        ensures words { (rest : List ℕ) → gathered result rest ≡ words_in rest }
    {
        Splitting {
            place: Place::Between,
            words: Vec::new(alloc),
            word: String::new(alloc),
        }
    }

    /// A character is of the word, and then it stands at a place.
    fn keep(&mut self, c: char, place: Place) -> Result<(), AllocError>
        ensures { OnOk result (Keeps self.old (encode_utf8 c) place self.new) }
    {
        self.word.push(c)?;
        self.place = place;
        Ok(())
    }

    /// A character outside of quotes, where a word is under way or begins.
    fn begin(&mut self, c: char) -> Result<(), AllocError>
        requires { is_blank c ≡ false }
        ensures { OnOk result (Begins self.old c self.new) }
    {
        if c == '\'' {
            self.place = Place::Single;
        } else if c == '"' {
            self.place = Place::Double;
        } else if c == '\\' {
            self.place = Place::Escaped;
        } else {
            return self.keep(c, Place::Word);
        }
        Ok(())
    }

    /// A character between words.
    fn between(&mut self, c: char) -> Result<(), AllocError>
        requires place { self.old.place ≡ Between }
        requires sound { IsSound self.old }
        ensures { OnOk result (Reads self.old c self.new) }
    {
        if is_blank(c) {
            return Ok(());
        }
        if c == '#' {
            self.place = Place::Comment;
            return Ok(());
        }
        self.begin(c)
    }

    /// A character in a word, outside of quotes.
    fn in_word(&mut self, alloc: Global, c: char) -> Result<(), AllocError>
        requires place { self.old.place ≡ Word }
        ensures { OnOk result (Reads self.old c self.new) }
    {
        if !is_blank(c) {
            return self.begin(c);
        }
        let word = mem::replace(&mut self.word, String::new(alloc));
        self.words.push(word)?;
        self.place = Place::Between;
        Ok(())
    }

    /// A character in single quotes.
    fn in_single(&mut self, c: char) -> Result<(), AllocError>
        requires place { self.old.place ≡ Single }
        ensures { OnOk result (Reads self.old c self.new) }
    {
        if c == '\'' {
            self.place = Place::Word;
            return Ok(());
        }
        self.keep(c, Place::Single)
    }

    /// A character in double quotes.
    fn in_double(&mut self, c: char) -> Result<(), AllocError>
        requires place { self.old.place ≡ Double }
        ensures { OnOk result (Reads self.old c self.new) }
    {
        if c == '"' {
            self.place = Place::Word;
        } else if c == '\\' {
            self.place = Place::DoubleEscaped;
        } else {
            return self.keep(c, Place::Double);
        }
        Ok(())
    }

    /// A character after a backslash in double quotes.
    fn after_backslash(&mut self, c: char) -> Result<(), AllocError>
        requires place { self.old.place ≡ DoubleEscaped }
        ensures { OnOk result (Reads self.old c self.new) }
    {
        if is_escapable(c) {
            return self.keep(c, Place::Double);
        }
        self.keep('\\', Place::Double)?;
        self.keep(c, Place::Double)
    }

    /// The next character.
    fn take(&mut self, alloc: Global, c: char) -> Result<(), AllocError>
        requires { IsSound self.old }
        ensures { OnOk result (Reads self.old c self.new) }
    {
        match self.place {
            Place::Comment => Ok(()),
            Place::Between => self.between(c),
            Place::Word => self.in_word(alloc, c),
            Place::Escaped => self.keep(c, Place::Word),
            Place::Single => self.in_single(c),
            Place::Double => self.in_double(c),
            Place::DoubleEscaped => self.after_backslash(c),
        }
    }

    /// The words, where the line ends here.
    fn finish(self) -> Result<Vec<String>, SplitError>
        ensures words { IfOk result (λ words. gathered self [] ≡ Some (map string_bytes words.items)) }
        ensures unclosed { result ≡ Err why.Unclosed → gathered self [] ≡ None }
    {
        let Splitting {
            place,
            mut words,
            word,
        } = self;
        match place {
            Place::Between | Place::Comment => Ok(words),
            Place::Word => {
                words.push(word)?;
                Ok(words)
            }
            _ => Err(SplitError::Unclosed),
        }
    }
}

/// The words of a line, as a shell reads them (POSIX.1-2017, Shell Command Language, section 2.2), without expansions:
/// blanks are between words, quotes and backslashes quote, and `#` at a word's beginning begins a comment.
pub fn split_words(alloc: Global, line: &str) -> Result<Vec<String>, SplitError>
    ensures words { IfOk result (λ words. words_in (chars line.now) ≡ Some (map string_bytes words.items)) }
    ensures unclosed { result ≡ Err why.Unclosed → words_in (chars line.now) ≡ None }
{
    let mut splitting = Splitting::new(alloc);
    for c in line.chars() {
        splitting.take(alloc, c)?;
    }
    splitting.finish()
}
