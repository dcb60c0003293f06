//! Blocks that a client holds.

ghost use Rattle.std.specs.Prelude.{◌≡◌, ◌++◌, ◌∷◌, [], ℕ, List, None, IsOk, IfOk, IfSome, map};
ghost use Rattle.std.specs.List.{list_all};
ghost use Rattle.std.specs.Option.{option_and_then, option_copied, option_map};
ghost use Rattle.std.specs.Result.{result_ok};
ghost use Rattle.std.specs.Vec.{vec_items};
ghost use Rattle.layout.specs.Format.{whole};
ghost use Rattle.layout.specs.Hash.{hash};
ghost use Rattle.update_cert.specs.Reading.{Reading};
ghost use Rattle.tree_parts.specs.Blocks.{Agrees, Blocks as Held, inode_at as inode_of, joined};
ghost use Rattle.tree_parts.specs.Slots.{holds as is_held};

use itable::{Inode, InodeText, Laid};
use layout::{Digest, Memory, ReadError, Text, digest};
use std::alloc::Allocator;

/// Blocks by digest: texts of i-nodes, of directories and of i-tables, and blocks of files.
pub trait Blocks {
    ghost use Rattle.tree_parts.specs.Blocks.{Blocks};

    /// The text of each digest that is held.
    ghost held: { Self → Blocks };

    /// The text of a digest, if it is held.
    fn get(&self, digest: Digest) -> Option<&[u8]>
        ensures text { option_copied result ≡ held self.now digest }
        // It has the digest.
        ensures hashed { IfSome (held self.now digest) (λ text. hash text ≡ digest) };
}

/// Whatever blocks are held, digests can stand for something that agrees with them: what is said of each such reading
/// is said of at least one.
pub fn some_reading_agrees()
    ensures { (blocks : Held) → (reads : Reading) × Agrees blocks reads }
{}

/// The value that the bytes spell, if they spell one.
pub(crate) fn spelled<A: Allocator + Copy, T: Text<A>>(
    alloc: A,
    bytes: &[u8],
) -> Result<Option<T>, Memory>
    ensures found { IfOk result (λ found. found ≡ result_ok (whole T.format bytes.now)) }
    ensures text { IfOk result (λ found. IfSome found (λ x. T.format.Fits x × (bytes.now ≡ T.format.spell x))) }
{
    match T::read(alloc, bytes) {
        Ok(found) => Ok(Some(found)),
        Err(ReadError::Memory) => Err(Memory),
        Err(_) => Ok(None),
    }
}

/// The value that the text of a digest spells, if it is held and spells one.
pub fn value_at<A: Allocator + Copy, B: Blocks, T: Text<A>>(
    alloc: A,
    blocks: &B,
    digest: Digest,
) -> Result<Option<T>, Memory>
    ensures found { IfOk result (λ found. found
        ≡ option_and_then (λ text. result_ok (whole T.format text)) (B.held blocks.now digest)) }
    // Its own text is the one that is held.
    ensures text { IfOk result (λ found. IfSome found
        (λ x. T.format.Fits x × (hash (T.format.spell x) ≡ digest))) }
    ensures no_memory { B.held blocks.now digest ≡ None → IsOk result }
{
    match blocks.get(digest) {
        Some(text) => spelled(alloc, text),
        None => Ok(None),
    }
}

/// Whether a text is held, as this very text: it isn't enough that one of its digest is.
fn holds<B: Blocks>(blocks: &B, text: &[u8]) -> bool
    ensures { result ≡ is_held (B.held blocks.now) text.now }
{
    match blocks.get(digest(text)) {
        Some(held) => held == text,
        None => false,
    }
}

/// Whether each of these texts is.
fn holds_all<A: Allocator, B: Blocks>(blocks: &B, texts: &[Vec<u8, A>]) -> bool
    ensures { result ≡ list_all (λ text. is_held (B.held blocks.now) (vec_items text)) texts.now }
{
    texts.iter().all(|text| holds(blocks, text))
}

/// Whether each text of what was laid is held, as this very text.
pub fn holds_laid<A: Allocator, B: Blocks>(blocks: &B, laid: &Laid<A>) -> bool
    ensures { result ≡ list_all (is_held (B.held blocks.now))
        (map vec_items laid.now.blocks.items ++ laid.now.inode.items ∷ []) }
{
    holds_all(blocks, &laid.blocks) && holds(blocks, &laid.inode)
}

/// The i-node of a digest, if its text is held and is one.
pub(crate) fn inode_at<A: Allocator + Copy, B: Blocks>(
    alloc: A,
    blocks: &B,
    digest: Digest,
) -> Result<Option<Inode<A>>, Memory>
    ensures found { IfOk result (λ found. found ≡ inode_of (B.held blocks.now) digest) }
    ensures no_memory { B.held blocks.now digest ≡ None → IsOk result }
{
    value_at(alloc, blocks, digest)
}

/// The same, as its text lies there.
pub(crate) fn inode_text_at<B: Blocks>(blocks: &B, digest: Digest) -> Option<InodeText<'_>>
    ensures { result ≡ inode_of (B.held blocks.now) digest }
{
    InodeText::read(blocks.get(digest)?)
}

/// The texts of these digests one after another, if all are held.
pub(crate) fn join<A: Allocator + Copy, B: Blocks>(
    alloc: A,
    blocks: &B,
    digests: &[Digest],
) -> Result<Option<Vec<u8, A>>, Memory>
    ensures { IfOk result (λ text. option_map vec_items text ≡ joined (B.held blocks.now) digests.now) }
{
    let mut all = Vec::new(alloc);
    for digest in digests {
        let Some(text) = blocks.get(*digest) else {
            return Ok(None);
        };
        all.extend_from_slice(text)?;
    }
    Ok(Some(all))
}
