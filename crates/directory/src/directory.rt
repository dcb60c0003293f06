//! Directories.

ghost use Rattle.std.specs.Prelude.{◌≡◌, ◌≢◌, ◌↔◌, ◌<◌, ◌≤◌, true, false, [], length, Option, IsSome, MatchResult};
ghost use Rattle.std.specs.Prelude.{IfOk, IfErr, OnErr, OnOk};
ghost use Rattle.layout.specs.Ascending.{Stands, IsFree};
ghost use Rattle.layout.specs.Format.{Reads};
ghost use Rattle.directory.specs.Name.{is_name};
ghost use Rattle.directory.specs.Directory.{by_bytes, name_of, directory, target_of, linked, unlinked, ChangesOnly};

use crate::entry::{Entries, Entry};
use crate::error::DirError;
use crate::name::name_text;
use crate::target::Target;
use layout::{Memory, ReadError, Reader, Text, Writer, read_rows, write_rows};
use std::alloc::Allocator;
use std::marker::Model;

/// How many entries a directory has at most.
pub const MOST_ENTRIES: usize = 1024;

/// How many bytes the text of a directory has at most: the tag and the count; of each entry the length of its name, the
/// name, and what it stands for.
pub const DIRECTORY_SIZE: usize = 4 + 2 + MOST_ENTRIES * (1 + 255 + 3);

/// A map from names to what each stands for: at most 1,024 entries, in the order of the names' bytes.
#[derive(Drop)]
pub struct Directory<A: Allocator> {
    entries: Vec<Entry<A>, A>,
}

impl<A: Allocator> Model for Directory<A> {
    ghost use Rattle.std.specs.Prelude.{List};
    ghost use Rattle.directory.specs.Directory.{Entry};

    ghost Value = { List Entry };

    ghost use Rattle.directory.specs.Directory.{directory};

    ghost view = { λ d. d.entries.items };

    ghost invariant = { λ d. directory.Fits d.entries.items };
}

impl<A: Allocator + Copy> Text<A> for Directory<A> {
    ghost use Rattle.directory.specs.Directory.{directory};
    ghost use Rattle.directory.specs.DirectoryLaws.{lawful_directory};

    ghost format = { directory };

    fn read_fields(alloc: A, reader: &mut Reader<'_>) -> Result<Directory<A>, ReadError> {
        reader.tag(b"SDI1")?;
        let count = reader.u16_in(0, MOST_ENTRIES as u16)?;
        let entries = read_rows(alloc, reader, &Entries, usize::from(count))?;
        Ok(Directory { entries })
    }

    fn write_fields(&self, writer: &mut Writer<A>) -> Result<(), Memory> {
        writer.tag(b"SDI1")?;
        writer.u16(self.entries.len() as u16)?;
        write_rows(writer, &Entries, &self.entries)
    }

    ghost lawful = { lawful_directory };
}

/// Where the entry of a name stands, or where it would stand.
fn find<A: Allocator>(entries: &[Entry<A>], name: &[u8]) -> Result<usize, usize>
    requires { directory.Fits entries.now }
    ensures { MatchResult result (Stands by_bytes name_of entries.now name.now)
        (IsFree by_bytes name_of entries.now name.now) }
{
    entries.binary_search_by(|entry| entry.name().as_bytes().cmp(name))
}

/// Where a new entry of this name goes, and the name as a text.
fn room_for<'a, A: Allocator>(
    entries: &[Entry<A>],
    name: &'a [u8],
) -> Result<(usize, &'a str), DirError>
    requires { directory.Fits entries.now }
    ensures room { IfOk result (λ room. IsFree by_bytes name_of entries.now name.now room.0) }
    ensures name { IfOk result (λ room. (is_name name.now ≡ true) × (room.1.now ≡ name.now)) }
    ensures few { OnOk result (length entries.now < MOST_ENTRIES) }
    ensures there { (result ≡ Err DirError.There) ↔ IsSome (target_of entries.now name.now) }
    ensures bad_name { (result ≡ Err DirError.BadName) ↔ (is_name name.now ≡ false) }
    ensures full { (result ≡ Err DirError.Full)
        ↔ ((target_of entries.now name.now ≡ None) × (is_name name.now ≡ true) × (length entries.now ≡ MOST_ENTRIES)) }
    ensures only { IfErr result (λ e. (e ≢ DirError.Absent) × (e ≢ DirError.Memory)) }
{
    let Err(place) = find(entries, name) else {
        return Err(DirError::There);
    };
    let Some(text) = name_text(name) else {
        return Err(DirError::BadName);
    };
    if entries.len() >= MOST_ENTRIES {
        return Err(DirError::Full);
    }
    Ok((place, text))
}

impl<A: Allocator + Copy> Directory<A> {
    /// Lets a name that stands for nothing stand for this: one binary search and one shift.
    pub fn link(&mut self, name: &[u8], target: Target) -> Result<(), DirError>
        ensures ok { OnOk result (self.new ≡ linked self.old (record { name = name.now; target = target })) }
        ensures change { OnOk result (ChangesOnly self.old self.new name.now (Some target)) }
        ensures there { (result ≡ Err DirError.There) ↔ IsSome (target_of self.old name.now) }
        ensures bad_name { (result ≡ Err DirError.BadName) ↔ (is_name name.now ≡ false) }
        ensures full { (result ≡ Err DirError.Full)
            ↔ ((target_of self.old name.now ≡ None) × (is_name name.now ≡ true) × (length self.old ≡ MOST_ENTRIES)) }
        ensures only { IfErr result (λ e. e ≢ DirError.Absent) }
        ensures err { OnErr result (self.new ≡ self.old) }
    {
        let (place, text) = room_for(&self.entries, name)?;
        let entry = Entry::new(*self.entries.allocator(), text, target)?;
        self.entries.insert(place, entry)?;
        Ok(())
    }
}

impl<A: Allocator> Directory<A> {
    /// No names.
    pub fn empty(alloc: A) -> Directory<A>
        ensures { result ≡ [] }
    {
        Directory {
            entries: Vec::new(alloc),
        }
    }

    /// What a name stands for, by one binary search.
    pub fn get(&self, name: &[u8]) -> Option<Target>
        ensures { result ≡ target_of self.now name.now }
    {
        match find(&self.entries, name) {
            Ok(place) => Some(self.entries[place].target()),
            Err(_) => None,
        }
    }

    /// Lets a name that stands for something stand for nothing: one binary search and one shift.
    pub fn unlink(&mut self, name: &[u8]) -> Result<(), DirError>
        ensures ok { OnOk result (self.new ≡ unlinked self.old name.now) }
        ensures change { OnOk result (ChangesOnly self.old self.new name.now None) }
        ensures absent { (result ≡ Err DirError.Absent) ↔ (target_of self.old name.now ≡ None) }
        ensures only { IfErr result (λ e. e ≡ DirError.Absent) }
        ensures err { OnErr result (self.new ≡ self.old) }
    {
        let Ok(place) = find(&self.entries, name) else {
            return Err(DirError::Absent);
        };
        let _entry = self.entries.remove(place);
        Ok(())
    }

    /// The entries, in the order of the names' bytes.
    #[tactic(auto, using(crate::specs::DirectoryLaws::size_of))]
    pub fn entries(&self) -> &[Entry<A>]
        ensures same { result.now ≡ self.now }
        ensures fits { directory.Fits self.now }
        // Its text has 6 to 265,222 bytes.
        ensures size { (6 ≤ length (directory.spell self.now)) × (length (directory.spell self.now) ≤ DIRECTORY_SIZE) }
    {
        self.entries.as_slice()
    }
}
