//! Roots of i-tables.

ghost use Rattle.std.specs.Prelude.{◌≡◌, ◌≤◌, ◌<◌, ◌++◌, Option, Ok, OnOk, OnErr, IfOk, length};
ghost use Rattle.std.specs.Option.{option_copied};
ghost use Rattle.layout.specs.Format.{BeginsWith, Reads, Gives, whole};
ghost use Rattle.itable.specs.Root.{Root as PlainRoot, root as root_format, chunk_row};

use crate::chunk::{ChunkNumber, read_number};
use layout::{
    Digest, Memory, Principal, ReadError, Reader, RowFormat, Text, Writer, read_rows, write_rows,
};
use std::alloc::Allocator;
use std::marker::Model;

/// A chunk as a root lists it.
#[derive(Clone, Copy, Debug, PartialEq, Eq)]
pub struct ListedChunk {
    pub number: ChunkNumber,
    /// The digest of its text.
    pub digest: Digest,
}

/// The rows of the chunks.
#[derive(Clone, Copy)]
struct ChunkRows;

impl<A: Allocator + Copy> RowFormat<A> for ChunkRows {
    type Item = ListedChunk;

    ghost format = { λ _. chunk_row };

    fn read_fields(
        &self,
        _alloc: A,
        reader: &mut Reader<'_>,
        before: Option<&ListedChunk>,
    ) -> Result<ListedChunk, ReadError> {
        let number = read_number(reader)?;
        if before.is_some_and(|before| number.get() <= before.number.get()) {
            return Err(ReadError::Order);
        }
        let digest = reader.digest()?;
        Ok(ListedChunk { number, digest })
    }

    fn write_fields(&self, writer: &mut Writer<A>, row: &ListedChunk) -> Result<(), Memory> {
        writer.u8(row.number.get())?;
        writer.digest(&row.digest)
    }
}

/// Whose table it is, and its chunks.
#[derive(Drop)]
pub struct Root<A: Allocator> {
    principal: Principal,
    chunks: Vec<ListedChunk, A>,
}

impl<A: Allocator> Model for Root<A> {
    ghost use Rattle.itable.specs.Root.{Root, root};

    ghost Value = { Root };

    ghost view = { λ r. record { principal = r.principal; chunks = r.chunks.items } };

    ghost invariant = { λ r. root.Fits (record { principal = r.principal; chunks = r.chunks.items }) };
}

/// Writes the root of these chunks.
pub(crate) fn write_root<A: Allocator + Copy>(
    writer: &mut Writer<A>,
    principal: Principal,
    chunks: &[ListedChunk],
) -> Result<(), Memory>
    requires { length chunks.now < 256 }
    ensures ok { OnOk result (writer.new
        ≡ root_format.onto writer.old (record { principal = principal; chunks = chunks.now })) }
    ensures front { OnErr result (BeginsWith writer.new writer.old) }
{
    writer.tag(b"STR1")?;
    writer.principal(principal)?;
    writer.u8(chunks.len() as u8)?;
    write_rows(writer, &ChunkRows, chunks)
}

impl<A: Allocator + Copy> Text<A> for Root<A> {
    ghost use Rattle.itable.specs.Root.{root};
    ghost use Rattle.itable.specs.RootLaws.{lawful_root};

    ghost format = { root };

    fn read_fields(alloc: A, reader: &mut Reader<'_>) -> Result<Root<A>, ReadError> {
        reader.tag(b"STR1")?;
        let principal = reader.principal()?;
        let count = reader.u8_in(0, 64)?;
        let chunks = read_rows(alloc, reader, &ChunkRows, usize::from(count))?;
        Ok(Root { principal, chunks })
    }

    fn write_fields(&self, writer: &mut Writer<A>) -> Result<(), Memory> {
        write_root(writer, self.principal, &self.chunks)
    }

    ghost lawful = { lawful_root };
}

impl<A: Allocator> Root<A> {
    ghost use Rattle.itable.specs.Root.{root};

    /// Whose table it is.
    pub fn principal(&self) -> Principal
        ensures same { result ≡ self.now.principal }
        ensures fits { root.Fits self.now }
    {
        self.principal
    }

    /// The chunks that it lists, ascending by number.
    pub fn chunks(&self) -> &[ListedChunk]
        ensures { result.now ≡ self.now.chunks }
    {
        &self.chunks
    }

    /// The chunks themselves, ascending by number, with no memory taken.
    pub(crate) fn into_chunks(self) -> Vec<ListedChunk, A>
        ensures same { result.items ≡ self.chunks }
        ensures fits { root.Fits self }
    {
        self.chunks
    }
}

/// The root that the bytes spell, all of the bytes.
pub fn read_root<A: Allocator + Copy>(alloc: A, bytes: &[u8]) -> Result<Root<A>, ReadError>
    // What is read is spelled so.
    ensures found { IfOk result (λ r. root_format.Fits r × (bytes.now ≡ root_format.spell r)) }
    // What is spelled so is read, unless memory runs out.
    ensures only { (r : PlainRoot) → root_format.Fits r → bytes.now ≡ root_format.spell r
        → Gives (λ y. y) result (Ok r) }
    // Which fault it is.
    ensures exact { Gives (λ r. r) result (whole root_format bytes.now) }
{
    Root::read(alloc, bytes)
}
