//! The entries of a directory.

ghost use Rattle.std.specs.Prelude.{◌≡◌, true, Option, IfOk, OnOk};
ghost use Rattle.std.specs.Option.{option_copied};
ghost use Rattle.layout.specs.Format.{IsBytes, Reads};
ghost use Rattle.layout.specs.Ascending.{above};
ghost use Rattle.directory.specs.Name.{is_name};
ghost use Rattle.directory.specs.Directory.{by_bytes, name_of, named, target as target_format};

use crate::name::{Name, read_name};
use crate::target::{Target, read_target};
use layout::{Memory, ReadError, Reader, RowFormat, Text, Writer, are_bytes};
use std::alloc::{AllocError, Allocator};
use std::marker::Model;

/// A name, and what it stands for.
#[derive(Debug, Drop)]
pub struct Entry<A: Allocator> {
    name: Name<A>,
    target: Target,
}

impl<A: Allocator> Model for Entry<A> {
    ghost use Rattle.directory.specs.Directory.{Entry, named};

    ghost Value = { Entry };

    ghost view = { λ e. record { name = e.name; target = e.target } };

    ghost invariant = { λ e. named.Fits (record { name = e.name; target = e.target }) };
}

impl<A: Allocator> Entry<A> {
    /// An entry of the name that a text is. `name_text` tells whether bytes are one.
    pub fn new(alloc: A, text: &str, target: Target) -> Result<Entry<A>, AllocError>
        requires { is_name text.now ≡ true }
        ensures same { IfOk result (λ entry. entry ≡ record { name = text.now; target = target }) }
        ensures bytes { IsBytes text.now }
        ensures target { target_format.Fits target }
    {
        // They fit where an entry has them.
        let _range = (target.principal.get(), target.i_number.get());
        are_bytes(text.as_bytes());
        let name = Name::new(alloc, text)?;
        let _bytes = name.as_bytes();
        Ok(Entry { name, target })
    }

    /// Its name.
    pub fn name(&self) -> &Name<A>
        ensures same { result.now ≡ self.now.name }
        ensures fits { named.Fits self.now }
    {
        &self.name
    }

    /// What the name stands for.
    pub fn target(&self) -> Target
        ensures { result ≡ self.now.target }
    {
        self.target
    }
}

impl<A: Allocator + Copy> Text<A> for Entry<A> {
    ghost use Rattle.directory.specs.Directory.{named};
    ghost use Rattle.directory.specs.DirectoryLaws.{lawful_named};

    ghost format = { named };

    fn read_fields(alloc: A, reader: &mut Reader<'_>) -> Result<Entry<A>, ReadError> {
        let name = read_name(reader)?;
        let target = read_target(reader)?;
        Ok(Entry::new(alloc, name, target)?)
    }

    fn write_fields(&self, writer: &mut Writer<A>) -> Result<(), Memory> {
        self.name.write_to(writer)?;
        self.target.write_to(writer)
    }

    ghost lawful = { lawful_named };
}

fn is_above<A: Allocator>(before: Option<&Entry<A>>, name: &[u8]) -> bool
    ensures { result ≡ above by_bytes name_of (option_copied before.entry) name.now }
{
    match before {
        None => true,
        Some(before) => before.name.as_bytes().cmp(name).is_lt(),
    }
}

/// The rows of a directory.
#[derive(Clone, Copy)]
pub(crate) struct Entries;

impl<A: Allocator + Copy> RowFormat<A> for Entries {
    ghost use Rattle.directory.specs.Directory.{entry};

    type Item = Entry<A>;

    ghost format = { λ _. entry };

    fn read_fields(
        &self,
        alloc: A,
        reader: &mut Reader<'_>,
        before: Option<&Entry<A>>,
    ) -> Result<Entry<A>, ReadError> {
        let text = read_name(reader)?;
        if !is_above(before, text.as_bytes()) {
            return Err(ReadError::Order);
        }
        let target = read_target(reader)?;
        Ok(Entry::new(alloc, text, target)?)
    }

    fn write_fields(&self, writer: &mut Writer<A>, entry: &Entry<A>) -> Result<(), Memory> {
        entry.write_to(writer)
    }
}
