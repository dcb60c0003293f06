//! I-nodes.

ghost use Rattle.layout.specs.declared.error.ReadError.TheVariants as read_error;
ghost use Rattle.std.specs.Prelude.{◌≡◌, ◌≢◌, ◌≤◌, ◌++◌, Option, OnErr, IfOk, IfErr, length};
ghost use Rattle.std.specs.Int.{w8, w16, w32};
ghost use Rattle.std.specs.Option.{option_copied};
ghost use Rattle.layout.specs.Format.{Reads, IsBytes, be, raw};
ghost use Rattle.itable.specs.Inode.{kind as kind_format, size as size_format, number_of};
ghost use Rattle.itable.specs.declared.inode.Kind.TheVariants as kinds;

use crate::file::digests_of;
use layout::{Digest, Memory, ReadError, Reader, RowFormat, Text, Writer, read_rows, write_rows};
use std::alloc::Allocator;
use std::marker::Model;

/// How many bytes a block has; the last one of a file may have fewer.
pub const BLOCK_SIZE: u32 = 4096;

/// How many bytes a file has at most.
pub const FILE_SIZE: u32 = 1024 * BLOCK_SIZE;

/// How many bytes the text of a directory has at most: the tag and the count; 1,024 entries, each the length of its
/// name, the name, and what it stands for.
pub const DIRECTORY_SIZE: u32 = 6 + 1024 * (1 + 255 + 3);

/// What an i-node is of.
#[derive(Clone, Copy, Debug, PartialEq, Eq)]
pub enum Kind {
    File,
    Directory,
}

impl Kind {
    /// Its number in a text.
    fn number(self) -> u8
        ensures { result ≡ number_of self }
    {
        match self {
            Kind::File => 1,
            Kind::Directory => 2,
        }
    }
}

/// A kind: 1 is a file, 2 a directory.
pub(crate) fn read_kind(reader: &mut Reader<'_>) -> Result<Kind, ReadError>
    ensures reads { Reads result reader.new (kind_format.read reader.old) }
    ensures bytes { IsBytes reader.old }
    ensures no_memory { IfErr result (λ e. e ≢ read_error.Memory) }
    ensures err { OnErr result (reader.new ≡ reader.old) }
{
    let number = reader.u8_in(1, 2)?;
    if number == 1 {
        Ok(Kind::File)
    } else {
        Ok(Kind::Directory)
    }
}

/// The size of what is of this kind.
pub(crate) fn read_size(reader: &mut Reader<'_>, kind: Kind) -> Result<u32, ReadError>
    ensures reads { Reads result reader.new ((size_format kind).read reader.old) }
    ensures bytes { IsBytes reader.old }
    ensures no_memory { IfErr result (λ e. e ≢ read_error.Memory) }
    ensures err { OnErr result (reader.new ≡ reader.old) }
{
    match kind {
        Kind::File => reader.u32_in(0, FILE_SIZE),
        Kind::Directory => reader.u32_in(6, DIRECTORY_SIZE),
    }
}

/// The rows of the digests.
#[derive(Clone, Copy)]
struct Digests;

impl<A: Allocator + Copy> RowFormat<A> for Digests {
    type Item = Digest;

    ghost format = { λ _ _. raw 32 };

    fn read_fields(
        &self,
        _alloc: A,
        reader: &mut Reader<'_>,
        _before: Option<&Digest>,
    ) -> Result<Digest, ReadError> {
        reader.digest()
    }

    fn write_fields(&self, writer: &mut Writer<A>, row: &Digest) -> Result<(), Memory> {
        writer.digest(row)
    }
}

/// What a file or directory is, how many bytes it has, and the digests of its blocks.
#[derive(Drop)]
pub struct Inode<A: Allocator> {
    kind: Kind,
    size: u32,
    blocks: Vec<Digest, A>,
}

impl<A: Allocator> Model for Inode<A> {
    ghost use Rattle.itable.specs.Inode.{Inode, inode};

    ghost Value = { Inode };

    ghost view = { λ i. record { kind = i.kind; size = i.size; blocks = i.blocks.items } };

    ghost invariant = { λ i. inode.Fits (record { kind = i.kind; size = i.size; blocks = i.blocks.items }) };
}

impl<A: Allocator + Copy> Text<A> for Inode<A> {
    ghost use Rattle.itable.specs.Inode.{inode};
    ghost use Rattle.itable.specs.InodeLaws.{lawful_inode};

    ghost format = { inode };

    fn read_fields(alloc: A, reader: &mut Reader<'_>) -> Result<Inode<A>, ReadError> {
        reader.tag(b"SIN1")?;
        let kind = read_kind(reader)?;
        let size = read_size(reader, kind)?;
        let count = size.div_ceil(BLOCK_SIZE) as u16;
        let count = reader.u16_in(count, count)?;
        let blocks = read_rows(alloc, reader, &Digests, usize::from(count))?;
        Ok(Inode { kind, size, blocks })
    }

    fn write_fields(&self, writer: &mut Writer<A>) -> Result<(), Memory> {
        writer.tag(b"SIN1")?;
        writer.u8(self.kind.number())?;
        writer.u32(self.size)?;
        writer.u16(self.blocks.len() as u16)?;
        write_rows(writer, &Digests, &self.blocks)
    }

    ghost lawful = { lawful_inode };
}

impl<A: Allocator> Inode<A> {
    ghost use Rattle.itable.specs.Inode.{inode};
    ghost use Rattle.itable.specs.File.{inode_of, inode_over};

    /// The i-node of a file.
    pub fn of_file(alloc: A, file: &[u8]) -> Result<Inode<A>, Memory>
        requires { length file.now ≤ FILE_SIZE }
        ensures { IfOk result (λ inode. inode ≡ inode_of file.now) }
    {
        Inode::over(alloc, Kind::File, file)
    }

    /// The i-node of the text of a directory.
    pub fn of_directory(alloc: A, text: &[u8]) -> Result<Inode<A>, Memory>
        requires low { 6 ≤ length text.now }
        requires high { length text.now ≤ DIRECTORY_SIZE }
        ensures { IfOk result (λ inode. inode ≡ inode_over kinds.Directory text.now) }
    {
        Inode::over(alloc, Kind::Directory, text)
    }

    /// The i-node over bytes that are a file, or the text of a directory.
    pub(crate) fn over(alloc: A, kind: Kind, bytes: &[u8]) -> Result<Inode<A>, Memory>
        requires fits { (size_format kind).Fits (length bytes.now) }
        requires few { length bytes.now ≤ FILE_SIZE }
        ensures { IfOk result (λ inode. inode ≡ inode_over kind bytes.now) }
    {
        let size = bytes.len() as u32;
        let blocks = digests_of(alloc, bytes)?;
        Ok(Inode { kind, size, blocks })
    }

    /// Whether it is of a file or of a directory.
    pub fn kind(&self) -> Kind
        ensures same { result ≡ self.now.kind }
        ensures fits { inode.Fits self.now }
    {
        self.kind
    }

    /// How many bytes the file has, or the text of the directory.
    pub fn size(&self) -> u32
        ensures { result ≡ self.now.size }
    {
        self.size
    }

    /// The digests of the blocks, in order: one for each 4,096 bytes, and one for what is left over.
    pub fn blocks(&self) -> &[Digest]
        ensures { result.now ≡ self.now.blocks }
    {
        &self.blocks
    }
}
