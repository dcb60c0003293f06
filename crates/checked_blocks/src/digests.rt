//! The digests of many texts.

ghost use Rattle.std.specs.Prelude.{◌≡◌, ◌==◌, ◌++◌, IfOk, OnOk, length, map, true};
ghost use Rattle.std.specs.List.{flat_map, list_all};
ghost use Rattle.std.specs.Vec.{vec_items};
ghost use Rattle.layout.specs.Hash.{hash};

use itable::BLOCK_SIZE;
use layout::{Digest, Memory, digest};
use sha256_lanes::digests_of_whole;
use std::alloc::Allocator;

/// How many whole blocks are hashed side by side.
const SIDE_BY_SIDE: usize = 8;

/// Whether each text is a whole block.
fn are_whole<A: Allocator>(texts: &[Vec<u8, A>]) -> bool
    ensures { result ≡ list_all (λ text. length (vec_items text) == BLOCK_SIZE) texts.now }
{
    texts.iter().all(|text| text.len() == BLOCK_SIZE as usize)
}

/// Texts one after another.
fn joined<A: Allocator>(alloc: A, texts: &[Vec<u8, A>]) -> Result<Vec<u8, A>, Memory>
    ensures { IfOk result (λ all. all.items ≡ flat_map vec_items texts.now) }
{
    let mut all = Vec::new(alloc);
    for text in texts {
        all.extend_from_slice(text)?;
    }
    Ok(all)
}

/// Puts the digests of texts behind others, in order.
fn push_each<A: Allocator>(digests: &mut Vec<Digest, A>, texts: &[Vec<u8, A>]) -> Result<(), Memory>
    ensures { OnOk result (digests.new.items ≡ digests.old.items ++ map hash (map vec_items texts.now)) }
{
    for text in texts {
        digests.push(digest(text))?;
    }
    Ok(())
}

/// Puts the digests of eight whole blocks behind others, in order. They are computed side by side.
fn push_eight<A: Allocator>(
    alloc: A,
    digests: &mut Vec<Digest, A>,
    texts: &[Vec<u8, A>],
) -> Result<(), Memory>
    requires eight { length texts.now ≡ SIDE_BY_SIDE }
    requires whole { list_all (λ text. length (vec_items text) == BLOCK_SIZE) texts.now ≡ true }
    ensures { OnOk result (digests.new.items ≡ digests.old.items ++ map hash (map vec_items texts.now)) }
{
    let all = joined(alloc, texts)?;
    let each = digests_of_whole(&all, BLOCK_SIZE as usize);
    for number in 0..8 {
        digests.push(Digest::from_bytes(each[number]))?;
    }
    Ok(())
}

/// Puts the digests of texts behind others, in order.
fn push_digests<A: Allocator>(
    alloc: A,
    digests: &mut Vec<Digest, A>,
    texts: &[Vec<u8, A>],
) -> Result<(), Memory>
    ensures { OnOk result (digests.new.items ≡ digests.old.items ++ map hash (map vec_items texts.now)) }
{
    if texts.len() == SIDE_BY_SIDE && are_whole(texts) {
        push_eight(alloc, digests, texts)
    } else {
        push_each(digests, texts)
    }
}

/// The digests of texts, in order. Those of eight whole blocks are computed side by side.
pub(crate) fn digests_of_texts<A: Allocator + Copy>(
    alloc: A,
    texts: &[Vec<u8, A>],
) -> Result<Vec<Digest, A>, Memory>
    ensures { IfOk result (λ digests. digests.items ≡ map hash (map vec_items texts.now)) }
{
    let mut digests = Vec::new(alloc);
    for group in texts.chunks(SIDE_BY_SIDE) {
        push_digests(alloc, &mut digests, group)?;
    }
    Ok(digests)
}
