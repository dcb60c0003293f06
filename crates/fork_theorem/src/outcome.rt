//! What a command of a script comes to.

use crate::who::Who;
use client_verify::Rule;
use directory::Directory;
use std::alloc::Allocator;
use std::fmt;
use std::io::{self, Write};
use wire::Status;

/// What a command comes to.
#[derive(Drop)]
pub(crate) enum Outcome<A: Allocator> {
    /// The line is no command that can be carried out.
    Error,
    /// The client isn't in the phase for it.
    Busy(Who),
    /// The user declared the operation of this number.
    Begun(Who, u32),
    /// The reply was accepted, and the structure of this number signed; the changes of these numbers had no effect.
    Accepted(Who, u32, Vec<u8, A>),
    /// The reply breaks this rule first.
    Broken(Who, Rule),
    /// The server answered another status than 0.
    Declined(Who, Status),
    /// The structure was committed.
    Committed(Who),
    /// The key that is to sign has no leaf left.
    NoLeaf(Who),
    /// The user has no number left.
    NoNumber(Who),
    /// The user's client doesn't have the key that the table names.
    NoKey(Who),
    /// A device of the user's failed.
    Device(Who),
    /// A ledger of the user's is another key's.
    Foreign(Who),
    /// The user's journal is damaged.
    Damaged(Who),
    /// The user's client was opened again, and has released nothing.
    Idle(Who),
    /// It was opened again with a declared operation.
    Declared(Who),
    /// It was opened again with a signed structure.
    Signed(Who),
    /// A file of these bytes stands there.
    File(Who, Vec<u8, A>),
    /// This directory stands there.
    Directory(Who, Directory<A>),
    /// Nothing stands there.
    Nothing(Who),
    /// A second client has a user's keys.
    Stolen,
    /// A server became a copy of another.
    Forked,
    /// A plan of the server gained an entry.
    Invented,
    /// The server listed a structure.
    Forced,
}

/// ` lost` and the numbers, where there are any.
fn write_lost<W: Write>(numbers: &[u8], writer: &mut W) -> io::Result<()> {
    if numbers.is_empty() {
        return Ok(());
    }
    write!(writer, " lost")?;
    for number in numbers {
        write!(writer, " {number}")?;
    }
    Ok(())
}

/// Each entry of a directory: a blank, its name, and what it stands for.
fn write_entries<A: Allocator, W: Write>(
    directory: &Directory<A>,
    writer: &mut W,
) -> io::Result<()> {
    for entry in directory.entries() {
        let target = entry.target();
        let (principal, i_number) = (target.principal.get(), target.i_number.get());
        write!(writer, " {} {principal}:{i_number}", entry.name().as_str())?;
    }
    Ok(())
}

/// The client, and these words.
fn write_words<W: Write>(who: &Who, words: &str, writer: &mut W) -> io::Result<()> {
    write!(writer, "{who} {words}")
}

/// The client, these words and a number.
fn write_number<W: Write>(who: &Who, words: &str, number: u32, writer: &mut W) -> io::Result<()> {
    write!(writer, "{who} {words} {number}")
}

/// The file of these bytes, and the empty one as `-`.
fn write_file<W: Write>(who: &Who, bytes: &[u8], writer: &mut W) -> io::Result<()> {
    write_words(who, "file ", writer)?;
    writer.write_all(if bytes.is_empty() { b"-" } else { bytes })
}

impl<A: Allocator> Outcome<A> {
    /// Writes its text, without the end of the line. The empty file is written `-`.
    fn write_text<W: Write>(&self, writer: &mut W) -> io::Result<()> {
        match self {
            Outcome::Error => writer.write_all(b"error"),
            Outcome::Busy(who) => write_words(who, "busy", writer),
            Outcome::Begun(who, number) => write_number(who, "begin", *number, writer),
            Outcome::Accepted(who, number, lost) => {
                write_number(who, "accepted", *number, writer)?;
                write_lost(lost, writer)
            }
            Outcome::Broken(who, rule) => write_number(
                who,
                "broken",
                u32::from(rule.number()),
                writer,
            ),
            Outcome::Declined(who, status) => write_number(
                who,
                "status",
                u32::from(status.number()),
                writer,
            ),
            Outcome::Committed(who) => write_words(who, "committed", writer),
            Outcome::NoLeaf(who) => write_words(who, "no leaf", writer),
            Outcome::NoNumber(who) => write_words(who, "no number", writer),
            Outcome::NoKey(who) => write_words(who, "no key", writer),
            Outcome::Device(who) => write_words(who, "device", writer),
            Outcome::Foreign(who) => write_words(who, "foreign", writer),
            Outcome::Damaged(who) => write_words(who, "damaged", writer),
            Outcome::Idle(who) => write_words(who, "idle", writer),
            Outcome::Declared(who) => write_words(who, "declared", writer),
            Outcome::Signed(who) => write_words(who, "signed", writer),
            Outcome::File(who, bytes) => write_file(who, bytes, writer),
            Outcome::Directory(who, directory) => {
                write_words(who, "dir", writer)?;
                write_entries(directory, writer)
            }
            Outcome::Nothing(who) => write_words(who, "none", writer),
            Outcome::Stolen => writer.write_all(b"steal"),
            Outcome::Forked => writer.write_all(b"fork"),
            Outcome::Invented => writer.write_all(b"invent"),
            Outcome::Forced => writer.write_all(b"force"),
        }
    }

    /// Writes its line.
    pub(crate) fn write_line<W: Write>(&self, writer: &mut W) -> io::Result<()> {
        self.write_text(writer)?;
        writer.write_all(b"\n")
    }
}
