//! Directories that were opened, ascending by i-number, as a map.

ghost use Rattle.std.specs.Prelude.{◌≡◌, Some, None, IfOk, OnOk, OnErr, MatchResult, if◌then◌else◌};
ghost use Rattle.std.specs.Ordering.{nat_cmp};
ghost use Rattle.layout.specs.Ascending.{Ascends, Stands, IsFree, without_row};
ghost use Rattle.directory.specs.Directory.{linked, unlinked};
ghost use Rattle.update_cert.specs.World.{Directory as Listed, has_name, has_room};
ghost use Rattle.tree_parts.specs.Part.{number_of};

use directory::{DirError, Directory, Entry};
use layout::{INumber, Memory, ReadError, Text};
use std::alloc::Allocator;
use std::marker::Model;

/// The entries of a directory that an i-table's digest doesn't tell any more.
#[derive(Drop)]
pub(crate) struct Open<A: Allocator> {
    i_number: INumber,
    directory: Directory<A>,
}

impl<A: Allocator> Model for Open<A> {
    ghost use Rattle.tree_parts.specs.Part.{Open};

    ghost Value = { Open };

    ghost view = { λ o. record { i_number = o.i_number; entries = o.directory } };
}

impl<A: Allocator> Open<A> {
    /// The directory at an i-number, opened.
    pub(crate) fn new(i_number: INumber, directory: Directory<A>) -> Open<A>
        ensures { result ≡ record { i_number = i_number; entries = directory } }
    {
        Open {
            i_number,
            directory,
        }
    }

    /// Its i-number.
    pub(crate) fn i_number(&self) -> INumber
        ensures { result ≡ self.now.i_number }
    {
        self.i_number
    }

    /// The directory.
    pub(crate) fn directory(&self) -> &Directory<A>
        ensures { result.now ≡ self.now.entries }
    {
        &self.directory
    }

    /// The directory, taken out.
    pub(crate) fn into_directory(self) -> Directory<A>
        ensures { result ≡ self.entries }
    {
        self.directory
    }

    /// Takes the entry of this name out, if there is one.
    pub(crate) fn unlink(&mut self, name: &[u8]) -> bool
        ensures had { result ≡ has_name name.now (Some (Listed self.old.entries)) }
        ensures i_number { self.new.i_number ≡ self.old.i_number }
        ensures entries { self.new.entries ≡ (if result then unlinked self.old.entries name.now else self.old.entries) }
    {
        self.directory.unlink(name).is_ok()
    }
}

impl<A: Allocator + Copy> Open<A> {
    /// The same directory once more.
    pub(crate) fn copy(&self, alloc: A) -> Result<Open<A>, Memory>
        ensures { IfOk result (λ copy. copy ≡ self.now) }
    {
        // It fits its format.
        let _entries = self.directory.entries();
        let text = self.directory.text(alloc)?;
        match Directory::read(alloc, &text) {
            Ok(directory) => Ok(Open::new(self.i_number, directory)),
            Err(ReadError::Memory) => Err(Memory),
            Err(_) => unreachable!(),
        }
    }

    /// Puts this entry in, if its name is free and there is room.
    pub(crate) fn link(&mut self, entry: &Entry<A>) -> Result<bool, Memory>
        ensures room { IfOk result (λ room. room ≡ has_room entry.now.name (Some (Listed self.old.entries))) }
        ensures i_number { self.new.i_number ≡ self.old.i_number }
        ensures entries { IfOk result (λ room. self.new.entries
            ≡ (if room then linked self.old.entries entry.now else self.old.entries)) }
    {
        // There are at most 1,024 entries.
        let _entries = self.directory.entries();
        match self.directory.link(entry.name().as_bytes(), entry.target()) {
            Ok(()) => Ok(true),
            Err(DirError::Memory) => Err(Memory),
            Err(_) => Ok(false),
        }
    }
}

/// Where the directory of an i-number stands, or where it would stand.
pub(crate) fn find<A: Allocator>(opened: &[Open<A>], i_number: INumber) -> Result<usize, usize>
    requires { Ascends nat_cmp number_of None opened.now }
    ensures { MatchResult result (Stands nat_cmp number_of opened.now i_number)
        (IsFree nat_cmp number_of opened.now i_number) }
{
    opened.binary_search_by_key(&i_number.get(), |open| open.i_number().get())
}

/// Takes the directory of an i-number out, if there is one.
pub(crate) fn take_out<A: Allocator>(opened: &mut Vec<Open<A>, A>, i_number: INumber)
    requires { Ascends nat_cmp number_of None opened.old.items }
    ensures { opened.new.items ≡ without_row nat_cmp number_of opened.old.items i_number }
{
    if let Ok(place) = find(opened, i_number) {
        let _open = opened.remove(place);
    }
}

/// The same directories once more.
pub(crate) fn copies<A: Allocator + Copy>(
    alloc: A,
    opened: &[Open<A>],
) -> Result<Vec<Open<A>, A>, Memory>
    ensures { IfOk result (λ copies. copies.items ≡ opened.now) }
{
    let mut copies = Vec::new(alloc);
    for open in opened {
        copies.push(open.copy(alloc)?)?;
    }
    Ok(copies)
}
