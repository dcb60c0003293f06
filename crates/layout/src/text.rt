//! Whole texts: each has one format, and is read and written by it.

ghost use Rattle.std.specs.Prelude.{◌≡◌, ◌<◌, ◌++◌, OnOk, OnErr, IfOk, Ok, length};
ghost use Rattle.layout.specs.Format.{BeginsWith, IsBytes, Reads, Gives, whole, nested};
ghost use Rattle.layout.specs.Ranges.{size};

use crate::error::{Memory, ReadError};
use crate::reader::Reader;
use crate::writer::Writer;
use std::alloc::Allocator;

/// A text of the protocol, or a part of one that has a spelling of its own.
pub trait Text<A: Allocator + Copy>: Sized + Drop {
    ghost use Rattle.layout.specs.Format.{Format, Lawful};

    ghost format: { Format Self };

    /// Reads its fields in turn. After a refusal the reader may stand between them: `read_from` puts it back.
    fn read_fields(alloc: A, reader: &mut Reader<'_>) -> Result<Self, ReadError>
        ensures reads { Reads result reader.new (format.read reader.old) }
        ensures bytes { IsBytes reader.old };

    /// Writes its fields in turn. After a refusal the writer may hold some of them: `write_to` takes them back.
    fn write_fields(&self, writer: &mut Writer<A>) -> Result<(), Memory>
        ensures ok { OnOk result (writer.new ≡ format.onto writer.old self.now) }
        ensures front { OnErr result (BeginsWith writer.new writer.old) };

    ghost lawful: { Lawful format };

    /// Reads it from the front of what is left. After a refusal the reader stands where it stood.
    final fn read_from(alloc: A, reader: &mut Reader<'_>) -> Result<Self, ReadError>
        ensures reads { Reads result reader.new (format.read reader.old) }
        ensures bytes { IsBytes reader.old }
        ensures err { OnErr result (reader.new ≡ reader.old) }
    {
        let start = reader.left();
        let found = Self::read_fields(alloc, reader);
        if found.is_err() {
            reader.go_back(start);
        }
        found
    }

    /// Writes it at the end of a text. After a refusal the writer holds what it held.
    final fn write_to(&self, writer: &mut Writer<A>) -> Result<(), Memory>
        ensures ok { OnOk result (writer.new ≡ format.onto writer.old self.now) }
        ensures spelled { OnOk result (writer.new ≡ writer.old ++ format.spell self.now) }
        ensures err { OnErr result (writer.new ≡ writer.old) }
    {
        let held = writer.len();
        let written = self.write_fields(writer);
        if written.is_err() {
            writer.truncate(held);
        }
        written
    }

    /// The value that the bytes spell, all of the bytes, with the first fault from the left.
    final fn read_whole(alloc: A, bytes: &[u8]) -> Result<Self, ReadError>
        ensures { Gives (λ x. x) result (whole format bytes.now) }
    {
        let mut reader = Reader::new(bytes);
        let found = Self::read_from(alloc, &mut reader)?;
        if !reader.is_empty() {
            return Err(ReadError::Trailing);
        }
        Ok(found)
    }

    /// The value that the bytes spell, all of the bytes.
    final fn read(alloc: A, bytes: &[u8]) -> Result<Self, ReadError>
        // What is read is spelled so.
        ensures found { IfOk result (λ x. format.Fits x × (bytes.now ≡ format.spell x)) }
        // What is spelled so is read, unless memory runs out.
        ensures only { (x : Self) → format.Fits x → bytes.now ≡ format.spell x → Gives (λ y. y) result (Ok x) }
        // Which fault it is.
        ensures exact { Gives (λ x. x) result (whole format bytes.now) }
    {
        Self::read_whole(alloc, bytes)
    }

    /// The one spelling.
    final fn text(&self, alloc: A) -> Result<Vec<u8, A>, Memory>
        ensures { IfOk result (λ text. text.items ≡ format.spell self.now) }
    {
        let mut writer = Writer::new(alloc);
        self.write_to(&mut writer)?;
        Ok(writer.finish())
    }
}

/// A text inside another one: its size in two bytes, and in that many bytes the text and nothing else.
pub fn read_nested<A: Allocator + Copy, T: Text<A>>(
    alloc: A,
    reader: &mut Reader<'_>,
) -> Result<T, ReadError>
    ensures reads { Reads result reader.new ((nested size T.format).read reader.old) }
    ensures bytes { IsBytes reader.old }
    ensures err { OnErr result (reader.new ≡ reader.old) }
{
    let start = reader.left();
    let text = reader.sized()?;
    let found = T::read(alloc, text);
    if found.is_err() {
        reader.go_back(start);
    }
    found
}

/// Writes a text inside another one, after its size in two bytes.
pub fn write_nested<A: Allocator + Copy, T: Text<A>>(
    alloc: A,
    writer: &mut Writer<A>,
    value: &T,
) -> Result<(), Memory>
    requires few { length (T.format.spell value.now) < 65536 }
    ensures ok { OnOk result (writer.new ≡ (nested size T.format).onto writer.old value.now) }
    ensures spelled { OnOk result (writer.new ≡ writer.old ++ (nested size T.format).spell value.now) }
    ensures err { OnErr result (writer.new ≡ writer.old) }
{
    let held = writer.len();
    let text = value.text(alloc)?;
    writer.u16(text.len() as u16)?;
    let written = writer.bytes(&text);
    if written.is_err() {
        writer.truncate(held);
    }
    written
}
