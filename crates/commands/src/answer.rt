//! Answers to commands.

ghost use Rattle.std.specs.Prelude.{◌≡◌};
ghost use Rattle.commands.specs.Answers.{words_of};

use crate::row::Row;
use directory::Directory;
use reply_rules::Rule;
use std::alloc::Allocator;
use std::fmt;
use thiserror::Error;
use wire::Status;

/// Why a command was refused, or stopped on its way. Of one that was stopped an operation may be declared, or even be
/// committed: the next command finishes what is left of it.
#[derive(Clone, Copy, Debug, PartialEq, Eq, Error)]
pub enum Refusal {
    /// The path is none, or leads to nothing, or to something of another kind.
    NoPath,
    /// The name that is to be given, or what is to be made, is there.
    There,
    /// The directory that is to be removed has entries.
    NotEmpty,
    /// There is no free i-number for what is to be made, or no further number for an operation.
    NoNumber,
    /// The key has no leaf left to sign with.
    NoLeaf,
    /// None of the user's keys that are there is the one that the table of principals has for the signature.
    NoKey,
    /// The content has more bytes than a file may have, or there are more changes than an operation may have.
    TooLarge,
    /// The ledger or the journal can't be read or written.
    Device,
    /// The ledger is another key's.
    Foreign,
    /// The journal isn't one that this user's client wrote.
    Damaged,
    /// The server can't be reached, or what it said was no reply.
    Cut,
    /// Memory ran out.
    Memory,
}

impl Refusal {
    /// The words that are printed of it.
    pub fn words(self) -> &'static str
        ensures { result.now ≡ words_of self }
    {
        match self {
            Refusal::NoPath => "no path",
            Refusal::There => "there",
            Refusal::NotEmpty => "not empty",
            Refusal::NoNumber => "no number",
            Refusal::NoLeaf => "no leaf",
            Refusal::NoKey => "no key",
            Refusal::TooLarge => "too large",
            Refusal::Device => "device",
            Refusal::Foreign => "foreign",
            Refusal::Damaged => "damaged",
            Refusal::Cut => "cut",
            Refusal::Memory => "memory",
        }
    }
}

impl fmt::Display for Refusal {
    fn fmt<W: fmt::Write>(&self, f: &mut fmt::Formatter<W>) -> fmt::Result {
        let words = self.words();
        write!(f, "{words}")
    }
}

/// What came of a command.
#[derive(Drop)]
pub enum Answer<A: Allocator> {
    /// All that was asked for was done.
    Done,
    /// The bytes of a file.
    Bytes(Vec<u8, A>),
    /// The entries of a directory.
    Listing(Directory<A>),
    /// The entries of a directory, with what stands at each.
    Details(Vec<Row<A>, A>),
    /// The operation took place, and the changes of these numbers, from 1 and ascending, had no effect in it.
    Lost(Vec<u8, A>),
    /// What the server said broke this rule.
    Broken(Rule),
    /// The server answered with this status.
    Declined(Status),
    /// It was refused, or stopped on its way.
    Refused(Refusal),
}
