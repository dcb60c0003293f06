//! The text of an i-node, read as it lies: none of its digests is copied before it is asked for.

ghost use Rattle.layout.specs.declared.error.ReadError.TheVariants as read_error;
ghost use Rattle.std.specs.Prelude.{◌≡◌, ◌≢◌, ◌*◌, ◌≤◌, IfErr, OnErr, length};
ghost use Rattle.std.specs.Result.{result_ok};
ghost use Rattle.std.specs.Simd.{first_chunks};
ghost use Rattle.layout.specs.Format.{ReadsAs, Reads, IsBytes, after_row, raw, rows, whole};
ghost use Rattle.itable.specs.Inode.{inode};

use crate::inode::{BLOCK_SIZE, Kind, read_kind, read_size};
use layout::{ReadError, Reader};
use std::marker::Model;

/// How many bytes a digest has.
const DIGEST_SIZE: usize = 32;

/// What a file or directory is, how many bytes it has, and the digests of its blocks, as they lie in the i-node's text.
#[derive(Drop)]
pub struct InodeText<'a> {
    kind: Kind,
    size: u32,
    blocks: &'a [[u8; DIGEST_SIZE]],
}

impl<'a> Model for InodeText<'a> {
    ghost use Rattle.itable.specs.Inode.{Inode, inode};

    ghost Value = { Inode };

    ghost view = { λ i. record { kind = i.kind; size = i.size; blocks = i.blocks.now } };

    ghost invariant = { λ i. inode.Fits (record { kind = i.kind; size = i.size; blocks = i.blocks.now }) };
}

/// That many digests, as they lie there.
fn read_digests<'a>(
    reader: &mut Reader<'a>,
    count: u16,
) -> Result<&'a [[u8; DIGEST_SIZE]], ReadError>
    ensures reads { ReadsAs (λ x. x.now) result reader.new ((rows (λ _. raw 32) count).read reader.old) }
    ensures bytes { IsBytes reader.old }
    ensures no_memory { IfErr result (λ e. e ≢ read_error.Memory) }
{
    match reader.bytes(usize::from(count) * DIGEST_SIZE) {
        Ok(bytes) => Ok(bytes.as_chunks().0),
        Err(fault) => Err(fault),
    }
}

impl<'a> InodeText<'a> {
    /// Reads its fields in turn.
    fn read_fields(reader: &mut Reader<'a>) -> Result<InodeText<'a>, ReadError>
        ensures reads { Reads result reader.new (inode.read reader.old) }
        ensures no_memory { IfErr result (λ e. e ≢ read_error.Memory) }
    {
        reader.tag(b"SIN1")?;
        let kind = read_kind(reader)?;
        let size = read_size(reader, kind)?;
        let count = size.div_ceil(BLOCK_SIZE) as u16;
        let count = reader.u16_in(count, count)?;
        let blocks = read_digests(reader, count)?;
        Ok(InodeText { kind, size, blocks })
    }

    /// The i-node that the bytes spell, if they spell one.
    pub fn read(bytes: &'a [u8]) -> Option<InodeText<'a>>
        ensures { result ≡ result_ok (whole inode bytes.now) }
    {
        let mut reader = Reader::new(bytes);
        match InodeText::read_fields(&mut reader) {
            Ok(text) if reader.is_empty() => Some(text),
            _ => None,
        }
    }

    /// Whether it is of a file or of a directory.
    pub fn kind(&self) -> Kind
        ensures same { result ≡ self.now.kind }
        ensures fits { inode.Fits self.now }
    {
        self.kind
    }

    /// How many bytes the file has, or the text of the directory.
    pub fn size(&self) -> u32
        ensures { result ≡ self.now.size }
    {
        self.size
    }

    /// The digests of the blocks, in order: one for each 4,096 bytes, and one for what is left over.
    pub fn blocks(&self) -> &'a [[u8; 32]]
        ensures { result.now ≡ self.now.blocks }
    {
        self.blocks
    }
}
