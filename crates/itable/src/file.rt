//! Files in blocks.

ghost use Rattle.std.specs.Prelude.{◌≡◌, ◌<◌, ◌≤◌, ◌++◌, ◌↔◌, IfOk, OnOk, Ok, map, length};
ghost use Rattle.std.specs.List.{concat};
ghost use Rattle.std.specs.Vec.{vec_items};
ghost use Rattle.layout.specs.Hash.{hash};
ghost use Rattle.layout.specs.Format.{whole};
ghost use Rattle.itable.specs.Inode.{inode};
ghost use Rattle.itable.specs.File.{blocks_of, inode_of, AreBlocks, IsKnown};

use crate::error::LayError;
use crate::inode::{BLOCK_SIZE, FILE_SIZE, Inode};
use layout::{Digest, Memory, Text, digest};
use sha256_lanes::digests_of_whole;
use std::alloc::Allocator;

/// How many bytes eight blocks have, whose digests are computed side by side.
const SIDE_BY_SIDE: usize = 32_768;

/// A file as it is stored: the text of its i-node, and its blocks.
#[derive(Drop)]
pub struct Laid<A: Allocator> {
    /// The text of the i-node.
    pub inode: Vec<u8, A>,
    /// The blocks, in order: 4,096 bytes each, and what is left over.
    pub blocks: Vec<Vec<u8, A>, A>,
}

/// Puts the digests of the blocks behind others, in order.
fn push_each<A: Allocator>(digests: &mut Vec<Digest, A>, bytes: &[u8]) -> Result<(), Memory>
    ensures { OnOk result (digests.new.items ≡ digests.old.items ++ map hash (blocks_of bytes.now)) }
{
    for block in bytes.chunks(BLOCK_SIZE as usize) {
        digests.push(digest(block))?;
    }
    Ok(())
}

/// Puts the digests of eight whole blocks behind others, in order. They are computed side by side.
fn push_eight<A: Allocator>(digests: &mut Vec<Digest, A>, bytes: &[u8]) -> Result<(), Memory>
    requires { length bytes.now ≡ SIDE_BY_SIDE }
    ensures { OnOk result (digests.new.items ≡ digests.old.items ++ map hash (blocks_of bytes.now)) }
{
    let all = digests_of_whole(bytes, BLOCK_SIZE as usize);
    for number in 0..8 {
        digests.push(Digest::from_bytes(all[number]))?;
    }
    Ok(())
}

/// Puts the digests of the blocks behind others, in order.
fn push_blocks<A: Allocator>(digests: &mut Vec<Digest, A>, bytes: &[u8]) -> Result<(), Memory>
    ensures { OnOk result (digests.new.items ≡ digests.old.items ++ map hash (blocks_of bytes.now)) }
{
    if bytes.len() == SIDE_BY_SIDE {
        push_eight(digests, bytes)
    } else {
        push_each(digests, bytes)
    }
}

/// The digests of the blocks, in order.
pub(crate) fn digests_of<A: Allocator>(alloc: A, bytes: &[u8]) -> Result<Vec<Digest, A>, Memory>
    ensures { IfOk result (λ digests. digests.items ≡ map hash (blocks_of bytes.now)) }
{
    let mut digests = Vec::new(alloc);
    for piece in bytes.chunks(SIDE_BY_SIDE) {
        push_blocks(&mut digests, piece)?;
    }
    Ok(digests)
}

/// The blocks of a text, in order: 4,096 bytes each, and what is left over.
pub fn blocks_of<A: Allocator + Copy>(alloc: A, bytes: &[u8]) -> Result<Vec<Vec<u8, A>, A>, Memory>
    ensures blocks { IfOk result (λ blocks. map vec_items blocks.items ≡ blocks_of bytes.now) }
    // One after another they are the text.
    ensures joined { concat (blocks_of bytes.now) ≡ bytes.now }
{
    let mut blocks = Vec::new(alloc);
    for block in bytes.chunks(BLOCK_SIZE as usize) {
        blocks.push(Vec::from_slice(alloc, block)?)?;
    }
    Ok(blocks)
}

/// The laws of a file in blocks, for the contract of what lays it.
fn laws_hold(file: &[u8])
    ensures joined { concat (blocks_of file.now) ≡ file.now }
    ensures whole_blocks { AreBlocks (blocks_of file.now) }
    ensures reads { length file.now ≤ FILE_SIZE
        → whole inode (inode.spell (inode_of file.now)) ≡ Ok (inode_of file.now) }
    ensures known { length file.now ≤ FILE_SIZE → IsKnown file.now }
{}

/// A file that is small enough, in blocks.
fn lay_small<A: Allocator + Copy>(alloc: A, file: &[u8]) -> Result<Laid<A>, Memory>
    requires { length file.now ≤ FILE_SIZE }
    ensures inode { IfOk result (λ laid. laid.inode.items ≡ inode.spell (inode_of file.now)) }
    ensures blocks { IfOk result (λ laid. map vec_items laid.blocks.items ≡ blocks_of file.now) }
{
    let inode = Inode::of_file(alloc, file)?;
    let inode = inode.text(alloc)?;
    let blocks = blocks_of(alloc, file)?;
    Ok(Laid { inode, blocks })
}

/// Lays a file in blocks of 4,096 bytes. A file has at most 4,194,304 bytes, and so 1,024 blocks.
pub fn lay_file<A: Allocator + Copy>(alloc: A, file: &[u8]) -> Result<Laid<A>, LayError>
    ensures inode { IfOk result (λ laid. laid.inode.items ≡ inode.spell (inode_of file.now)) }
    ensures blocks { IfOk result (λ laid. map vec_items laid.blocks.items ≡ blocks_of file.now) }
    ensures too_large { (result ≡ Err LayError.TooLarge) ↔ (FILE_SIZE < length file.now) }
    // The blocks joined are the file, and all are whole but the last.
    ensures joined { concat (blocks_of file.now) ≡ file.now }
    ensures whole_blocks { AreBlocks (blocks_of file.now) }
    // The i-node's text is read as the i-node, and no other file has it, unless two different blocks share a digest.
    ensures reads { OnOk result (whole inode (inode.spell (inode_of file.now)) ≡ Ok (inode_of file.now)) }
    ensures known { OnOk result (IsKnown file.now) }
{
    laws_hold(file);
    if file.len() > FILE_SIZE as usize {
        return Err(LayError::TooLarge);
    }
    let laid = lay_small(alloc, file)?;
    Ok(laid)
}
