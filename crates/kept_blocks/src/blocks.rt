//! The blocks that are kept, and their text.

ghost use Rattle.std.specs.Prelude.{◌≡◌, [], OnErr, OnOk, find, option_map};
ghost use Rattle.std.specs.Option.{option_copied};
ghost use Rattle.kept_blocks.specs.KeptBlocks.{has_digest, kept_with, text_of};

use layout::{
    Digest, Memory, ReadError, Reader, RowFormat, Text, Writer, digest, read_rows, write_rows,
};
use std::alloc::Allocator;
use std::marker::Model;

/// How many blocks are kept at most.
pub const MOST_BLOCKS: usize = 64;

/// How many bytes a block has at most that is kept: as many as the text of the largest i-node.
pub const MOST_BYTES: usize = 32_779;

/// A text, and the digest under which it was got or stored.
#[derive(Drop)]
pub(crate) struct KeptBlock<A: Allocator> {
    digest: Digest,
    text: Vec<u8, A>,
}

impl<A: Allocator> Model for KeptBlock<A> {
    ghost use Rattle.kept_blocks.specs.KeptBlocks.{KeptBlock, block};

    ghost Value = { KeptBlock };

    ghost view = { λ b. record { digest = b.digest; text = b.text.items } };

    ghost invariant = { λ b. block.Fits (record { digest = b.digest; text = b.text.items }) };
}

impl<A: Allocator> KeptBlock<A> {
    /// Whether it is the block of a digest: it was got or stored under it, and its text has it.
    fn has_digest(&self, wanted: &[u8]) -> bool
        ensures { result ≡ has_digest wanted.now self.now }
    {
        self.digest.as_bytes().as_slice() == wanted
            && digest(&self.text).as_bytes().as_slice() == wanted
    }

    /// Its text.
    fn text(&self) -> &[u8]
        ensures { result.now ≡ self.now.text }
    {
        &self.text
    }
}

/// The rows of the text.
#[derive(Clone, Copy)]
struct Blocks;

impl<A: Allocator + Copy> RowFormat<A> for Blocks {
    ghost use Rattle.kept_blocks.specs.KeptBlocks.{row};

    type Item = KeptBlock<A>;

    ghost format = { λ _. row };

    fn read_fields(
        &self,
        alloc: A,
        reader: &mut Reader<'_>,
        _before: Option<&KeptBlock<A>>,
    ) -> Result<KeptBlock<A>, ReadError> {
        let digest = reader.digest()?;
        let text = reader.sized()?;
        Ok(KeptBlock {
            digest,
            text: Vec::from_slice(alloc, text)?,
        })
    }

    fn write_fields(&self, writer: &mut Writer<A>, block: &KeptBlock<A>) -> Result<(), Memory> {
        writer.digest(&block.digest)?;
        writer.u16(block.text.len() as u16)?;
        writer.bytes(&block.text)
    }
}

/// Blocks that were got or stored before, the newest last. Their text may come from anywhere: a block is handed out
/// only where its digest is the one that is asked for.
#[derive(Drop)]
pub struct KeptBlocks<A: Allocator> {
    blocks: Vec<KeptBlock<A>, A>,
}

impl<A: Allocator> Model for KeptBlocks<A> {
    ghost use Rattle.std.specs.Prelude.{◌≤◌, List, length};
    ghost use Rattle.kept_blocks.specs.KeptBlocks.{KeptBlock};
    ghost use Rattle.kept_blocks.specs.declared.blocks.TheConstants.{MOST_BLOCKS};

    ghost Value = { List KeptBlock };

    ghost view = { λ k. k.blocks.items };

    ghost invariant = { λ k. length k.blocks.items ≤ MOST_BLOCKS };
}

impl<A: Allocator + Copy> Text<A> for KeptBlocks<A> {
    ghost use Rattle.kept_blocks.specs.KeptBlocks.{block_list};
    ghost use Rattle.kept_blocks.specs.KeptBlocksLaws.{lawful_block_list};

    ghost format = { block_list };

    fn read_fields(alloc: A, reader: &mut Reader<'_>) -> Result<KeptBlocks<A>, ReadError> {
        reader.tag(b"SKB1")?;
        let count = reader.u16_in(0, MOST_BLOCKS as u16)?;
        let blocks = read_rows(alloc, reader, &Blocks, usize::from(count))?;
        Ok(KeptBlocks { blocks })
    }

    fn write_fields(&self, writer: &mut Writer<A>) -> Result<(), Memory> {
        writer.tag(b"SKB1")?;
        writer.u16(self.blocks.len() as u16)?;
        write_rows(writer, &Blocks, &self.blocks)
    }

    ghost lawful = { lawful_block_list };
}

/// The first block of a digest.
fn find<'a, A: Allocator>(blocks: &'a [KeptBlock<A>], digest: &[u8]) -> Option<&'a KeptBlock<A>>
    ensures { option_copied result ≡ find (has_digest digest.now) blocks.now }
{
    blocks.iter().find(|block| block.has_digest(digest))
}

impl<A: Allocator> KeptBlocks<A> {
    /// None.
    pub fn empty(alloc: A) -> KeptBlocks<A>
        ensures { result ≡ [] }
    {
        KeptBlocks {
            blocks: Vec::new(alloc),
        }
    }

    /// The text of the block of a digest, if one is kept. Each that stands under that digest is hashed, up to the first
    /// that has it.
    pub fn text_of(&self, digest: &[u8]) -> Option<&[u8]>
        ensures { option_map (λ text. text.now) result ≡ text_of digest.now self.now }
    {
        match find(&self.blocks, digest) {
            Some(block) => Some(block.text()),
            None => None,
        }
    }
}

impl<A: Allocator + Copy> KeptBlocks<A> {
    /// Where its memory comes from.
    pub(crate) fn alloc(&self) -> A {
        *self.blocks.allocator()
    }

    /// Keeps a text under this digest, and lets go of the oldest where there are too many. One of more than 32,779 bytes
    /// isn't kept.
    pub fn keep(&mut self, digest: Digest, text: &[u8]) -> Result<(), Memory>
        ensures ok { OnOk result (self.new ≡ kept_with (record { digest = digest; text = text.now }) self.old) }
        ensures err { OnErr result (self.new ≡ self.old) }
    {
        if text.len() > MOST_BYTES {
            return Ok(());
        }
        let text = Vec::from_slice(self.alloc(), text)?;
        self.blocks.push(KeptBlock { digest, text })?;
        if self.blocks.len() > MOST_BLOCKS {
            let _oldest = self.blocks.remove(0);
        }
        Ok(())
    }
}
