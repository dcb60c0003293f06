//! The entries of a directory, with what stands at each.

ghost use Rattle.std.specs.Prelude.{◌≡◌};

use directory::Entry;
use std::alloc::Allocator;
use std::marker::Model;

/// Of what kind is what an entry stands for.
#[derive(Clone, Copy, Debug, PartialEq, Eq)]
pub enum Kind {
    /// Nothing stands there.
    Nothing,
    /// A file of so many bytes.
    File(u32),
    /// A directory.
    Directory,
}

/// An entry of a directory, with what stands there.
#[derive(Drop)]
pub struct Row<A: Allocator> {
    entry: Entry<A>,
    kind: Kind,
}

impl<A: Allocator> Model for Row<A> {
    ghost use Rattle.commands.specs.Rows.{Row};

    ghost Value = { Row };

    ghost view = { λ r. record { entry = r.entry; kind = r.kind } };
}

impl<A: Allocator> Row<A> {
    /// An entry, and what stands there.
    pub fn new(entry: Entry<A>, kind: Kind) -> Row<A>
        ensures { result ≡ record { entry = entry; kind = kind } }
    {
        Row { entry, kind }
    }

    /// The entry.
    pub fn entry(&self) -> &Entry<A>
        ensures { result.now ≡ self.now.entry }
    {
        &self.entry
    }

    /// What stands there.
    pub fn kind(&self) -> Kind
        ensures { result ≡ self.now.kind }
    {
        self.kind
    }
}
