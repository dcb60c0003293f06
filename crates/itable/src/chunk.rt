//! Chunks of an i-table.

ghost use Rattle.layout.specs.declared.error.ReadError.TheVariants as read_error;
ghost use Rattle.std.specs.Prelude.{◌≡◌, ◌≢◌, ◌<◌, ◌≤◌, ◌++◌, ◌/◌, Option, Ok, OnOk, OnErr, IfOk, IfErr, MatchOption};
ghost use Rattle.std.specs.Prelude.{length};
ghost use Rattle.std.specs.Int.{w8};
ghost use Rattle.std.specs.Option.{option_copied};
ghost use Rattle.layout.specs.Format.{BeginsWith, Reads, Gives, IsBytes, uint_in, whole};
ghost use Rattle.itable.specs.Chunk.{Chunk as PlainChunk, chunk as chunk_format, chunk_number, pair_row};

use layout::{
    Digest, INumber, Memory, ReadError, Reader, RowFormat, Text, Writer, read_rows, write_rows,
};
use std::alloc::Allocator;
use std::marker::Model;

/// The number of a chunk, 0 to 63: 64 i-numbers are in each, but 63 in the first.
#[derive(Clone, Copy, Debug, PartialEq, Eq, PartialOrd, Ord, Hash)]
pub struct ChunkNumber(u8);

impl Model for ChunkNumber {
    ghost use Rattle.std.specs.Prelude.{ℕ, ◌<◌};

    ghost Value = { ℕ };

    ghost view = { λ n. n.0 };

    ghost invariant = { λ n. n.0 < 64 };

    ghost inverse = { λ n. record { 0 = n } };
}

impl ChunkNumber {
    /// The chunk of this number, if there is one.
    pub fn new(number: u8) -> Option<ChunkNumber>
        ensures { MatchOption result (64 ≤ number) (λ chunk. chunk ≡ number) }
    {
        if number < 64 {
            Some(ChunkNumber(number))
        } else {
            None
        }
    }

    /// The chunk of this number.
    pub(crate) fn at(number: u8) -> ChunkNumber
        requires { number < 64 }
        ensures { result ≡ number }
    {
        ChunkNumber(number)
    }

    /// The chunk that an i-number is in.
    pub fn of(i_number: INumber) -> ChunkNumber
        ensures { result ≡ chunk_number i_number }
    {
        ChunkNumber((i_number.get() / 64) as u8)
    }

    /// Its number.
    #[tactic(auto, using(layout::specs::Laws::in_range_fits))]
    pub fn get(self) -> u8
        ensures same { result ≡ self }
        ensures range { self < 64 }
        ensures fits { (uint_in w8 0 63).Fits self }
    {
        self.0
    }
}

/// The number of a chunk, as one byte.
pub(crate) fn read_number(reader: &mut Reader<'_>) -> Result<ChunkNumber, ReadError>
    ensures reads { Reads result reader.new ((uint_in w8 0 63).read reader.old) }
    ensures bytes { IsBytes reader.old }
    ensures no_memory { IfErr result (λ e. e ≢ read_error.Memory) }
    ensures err { OnErr result (reader.new ≡ reader.old) }
{
    let number = reader.u8_in(0, 63)?;
    Ok(ChunkNumber(number))
}

/// An i-number, and the digest of its i-node.
#[derive(Clone, Copy, Debug, PartialEq, Eq)]
pub struct Pair {
    pub i_number: INumber,
    pub digest: Digest,
}

/// The rows of the chunk of this number.
#[derive(Clone, Copy)]
struct PairRows {
    number: ChunkNumber,
}

impl<A: Allocator + Copy> RowFormat<A> for PairRows {
    type Item = Pair;

    ghost format = { λ rows. pair_row rows.number };

    fn read_fields(
        &self,
        _alloc: A,
        reader: &mut Reader<'_>,
        before: Option<&Pair>,
    ) -> Result<Pair, ReadError> {
        let i_number = reader.i_number()?;
        if ChunkNumber::of(i_number) != self.number {
            return Err(ReadError::Range);
        }
        if before.is_some_and(|before| i_number.get() <= before.i_number.get()) {
            return Err(ReadError::Order);
        }
        let digest = reader.digest()?;
        Ok(Pair { i_number, digest })
    }

    fn write_fields(&self, writer: &mut Writer<A>, row: &Pair) -> Result<(), Memory> {
        writer.i_number(row.i_number)?;
        writer.digest(&row.digest)
    }
}

/// The pairs of 64 i-numbers next to each other, of those that have one.
#[derive(Drop)]
pub struct Chunk<A: Allocator> {
    number: ChunkNumber,
    pairs: Vec<Pair, A>,
}

impl<A: Allocator> Model for Chunk<A> {
    ghost use Rattle.itable.specs.Chunk.{Chunk, chunk};

    ghost Value = { Chunk };

    ghost view = { λ c. record { number = c.number; pairs = c.pairs.items } };

    ghost invariant = { λ c. chunk.Fits (record { number = c.number; pairs = c.pairs.items }) };
}

/// Writes the chunk of these pairs.
pub(crate) fn write_chunk<A: Allocator + Copy>(
    writer: &mut Writer<A>,
    number: ChunkNumber,
    pairs: &[Pair],
) -> Result<(), Memory>
    requires { length pairs.now < 256 }
    ensures ok { OnOk result (writer.new
        ≡ chunk_format.onto writer.old (record { number = number; pairs = pairs.now })) }
    ensures front { OnErr result (BeginsWith writer.new writer.old) }
{
    writer.tag(b"STC1")?;
    writer.u8(number.get())?;
    writer.u8(pairs.len() as u8)?;
    write_rows(writer, &PairRows { number }, pairs)
}

impl<A: Allocator + Copy> Text<A> for Chunk<A> {
    ghost use Rattle.itable.specs.Chunk.{chunk};
    ghost use Rattle.itable.specs.ChunkLaws.{lawful_chunk};

    ghost format = { chunk };

    fn read_fields(alloc: A, reader: &mut Reader<'_>) -> Result<Chunk<A>, ReadError> {
        reader.tag(b"STC1")?;
        let number = read_number(reader)?;
        let count = reader.u8_in(1, 64)?;
        let pairs = read_rows(alloc, reader, &PairRows { number }, usize::from(count))?;
        Ok(Chunk { number, pairs })
    }

    fn write_fields(&self, writer: &mut Writer<A>) -> Result<(), Memory> {
        write_chunk(writer, self.number, &self.pairs)
    }

    ghost lawful = { lawful_chunk };
}

impl<A: Allocator> Chunk<A> {
    ghost use Rattle.itable.specs.Chunk.{chunk};

    /// Which chunk of its table it is.
    pub fn number(&self) -> ChunkNumber
        ensures same { result ≡ self.now.number }
        ensures fits { chunk.Fits self.now }
    {
        self.number
    }

    /// The pairs, ascending by i-number: 1 to 64.
    pub fn pairs(&self) -> &[Pair]
        ensures { result.now ≡ self.now.pairs }
    {
        &self.pairs
    }
}

/// The chunk that the bytes spell, all of the bytes.
pub fn read_chunk<A: Allocator + Copy>(alloc: A, bytes: &[u8]) -> Result<Chunk<A>, ReadError>
    // What is read is spelled so.
    ensures found { IfOk result (λ c. chunk_format.Fits c × (bytes.now ≡ chunk_format.spell c)) }
    // What is spelled so is read, unless memory runs out.
    ensures only { (c : PlainChunk) → chunk_format.Fits c → bytes.now ≡ chunk_format.spell c
        → Gives (λ y. y) result (Ok c) }
    // Which fault it is.
    ensures exact { Gives (λ c. c) result (whole chunk_format bytes.now) }
{
    Chunk::read(alloc, bytes)
}
