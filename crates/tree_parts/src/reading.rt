//! I-nodes, files and directories, read from the blocks that are held.

ghost use Rattle.std.specs.Prelude.{◌≡◌, ℕ, List, None, Some, IsSomeAnd, IfOk, IfErr, IfSome, OnOk, false, length, slice_get};
ghost use Rattle.principals.specs.TableText.{table as table_format};
ghost use Rattle.update_cert.specs.World.{File};
ghost use Rattle.tree_parts.specs.Blocks.{ForEachReading, directory_over, file_over, inode_at as inode_of, joined};
ghost use Rattle.tree_parts.specs.Blocks.{principals_at, principals_over};
ghost use Rattle.tree_parts.specs.Asked.{HasBlocks, HasPrincipals, Lacks, IsInode, IsBlock, IsOfPrincipals};
ghost use Rattle.tree_parts.specs.Asked.{IsTableBlock};
ghost use Rattle.tree_parts.specs.Acts.{IsAfterHeld, IsSized, as_table};
ghost use Rattle.tree_parts.specs.Spot.{lacks};
ghost use Rattle.itable.specs.Inode.{inode as inode_format};
ghost use Rattle.itable.specs.declared.inode.Kind.TheVariants as kinds;
ghost use Rattle.tree_parts.specs.declared.spot.Spot.TheVariants as spots;

use crate::blocks::{Blocks, inode_at, inode_text_at, join, spelled};
use crate::error::ApplyError;
use crate::spot::{Spot, size_of_block, takes_inode};
use directory::Directory;
use itable::{Inode, Kind};
use layout::{Digest, INumber, Principal, User};
use principals::Table;
use std::alloc::Allocator;

/// The i-node of this digest, at an i-number of a principal. The errors are Missing of its text, where none is held
/// that its place takes, and Memory.
pub fn read_inode<A: Allocator + Copy, B: Blocks>(
    alloc: A,
    blocks: &B,
    principal: Principal,
    i_number: INumber,
    digest: Digest,
) -> Result<Inode<A>, ApplyError>
    ensures found { IfOk result (λ inode. inode_of (B.held blocks.now) digest ≡ Some inode) }
    // It is what its place takes.
    ensures taken { OnOk result (lacks (B.held blocks.now) digest (spots.Inode principal i_number) ≡ false) }
    // Missing names it, where no text of it is held that its spot takes.
    ensures missing { IfErr result (Lacks (B.held blocks.now) (IsInode principal i_number digest)) }
{
    match inode_at(alloc, blocks, digest)? {
        Some(inode) if takes_inode(principal, i_number, &inode) => Ok(inode),
        _ => Err(ApplyError::Missing(digest, Spot::Inode(principal, i_number))),
    }
}

/// Looks whether each block of what an i-node is of is held and has its size, and copies none. The error is Missing of
/// the first that isn't.
fn find_blocks<A: Allocator, B: Blocks>(
    blocks: &B,
    digest: Digest,
    inode: &Inode<A>,
) -> Result<(), ApplyError>
    requires { inode_of (B.held blocks.now) digest ≡ Some inode.now }
    ensures fits { inode_format.Fits inode.now }
    ensures whole { OnOk result (IsSomeAnd (joined (B.held blocks.now) inode.now.blocks)
        (λ text. length text ≡ inode.now.size)) }
    ensures sized { OnOk result ((k : ℕ) (block : List ℕ) → slice_get inode.now.blocks k ≡ Some block
        → IsSized (B.held blocks.now) inode.now k block) }
    ensures missing { IfErr result (Lacks (B.held blocks.now) (IsAfterHeld (B.held blocks.now) inode.now.kind digest)) }
{
    // It has a block for each 4,096 bytes.
    let kind = inode.kind();
    for (place, block) in inode.blocks().iter().enumerate() {
        let place = place as u16;
        let size = size_of_block(inode.size(), place) as usize;
        match blocks.get(*block) {
            Some(bytes) if bytes.len() == size => {}
            _ => {
                let spot = Spot::of_block(kind, digest, place);
                return Err(ApplyError::Missing(*block, spot));
            }
        }
    }
    Ok(())
}

/// The blocks of what an i-node is of, one after another: each has its size.
fn text_of<A: Allocator + Copy, B: Blocks>(
    alloc: A,
    blocks: &B,
    digest: Digest,
    inode: &Inode<A>,
) -> Result<Vec<u8, A>, ApplyError>
    requires { inode_of (B.held blocks.now) digest ≡ Some inode.now }
    ensures fits { inode_format.Fits inode.now }
    ensures joined { IfOk result (λ text. joined (B.held blocks.now) inode.now.blocks ≡ Some text.items) }
    ensures size { IfOk result (λ text. length text.items ≡ inode.now.size) }
    ensures sized { OnOk result ((k : ℕ) (block : List ℕ) → slice_get inode.now.blocks k ≡ Some block
        → IsSized (B.held blocks.now) inode.now k block) }
    ensures missing { IfErr result (Lacks (B.held blocks.now) (IsAfterHeld (B.held blocks.now) inode.now.kind digest)) }
{
    find_blocks(blocks, digest, inode)?;
    let Some(text) = join(alloc, blocks, inode.blocks())? else {
        // All of them are held.
        unreachable!()
    };
    Ok(text)
}

/// Whether a text of this digest is held.
fn is_held<B: Blocks>(blocks: &B, digest: &[u8; 32]) -> bool {
    blocks.get(Digest::from_bytes(*digest)).is_some()
}

/// A block of these that isn't held, and its place, if halving finds one. Where the first ones are held and the others
/// aren't, it is the first of those, and few are looked up for it. It finds none where all are held, and may find none
/// where they are held here and there.
fn find_absent<B: Blocks>(blocks: &B, digests: &[[u8; 32]]) -> Option<(usize, Digest)>
    ensures named { IfSome result (λ found. slice_get digests.now found.0 ≡ Some found.1) }
    ensures absent { IfSome result (λ found. B.held blocks.now found.1 ≡ None) }
{
    let place = digests.partition_point(|digest| is_held(blocks, digest));
    let digest = Digest::from_bytes(*digests.get(place)?);
    if blocks.get(digest).is_none() {
        Some((place, digest))
    } else {
        None
    }
}

/// Looks for a block that isn't held of the file that the i-node of this digest is of, if it is held. Few digests are
/// read for it: it may find none where blocks are held here and there. The error is Missing of a block.
pub fn look_for_absent<B: Blocks>(blocks: &B, digest: Digest) -> Result<(), ApplyError>
    // Missing names a block of it of which no text is held that its spot takes.
    ensures missing { IfErr result (Lacks (B.held blocks.now) (IsBlock (B.held blocks.now) kinds.File digest)) }
{
    let Some(inode) = inode_text_at(blocks, digest) else {
        return Ok(());
    };
    if inode.kind() != Kind::File {
        return Ok(());
    }
    // It has at most 1,024 blocks.
    if let Some((place, block)) = find_absent(blocks, inode.blocks()) {
        return Err(ApplyError::Missing(block, Spot::File(digest, place as u16)));
    }
    Ok(())
}

/// The bytes of the file that the i-node of this digest is of. The errors are Missing of the first block that isn't
/// held, or hasn't its size, and Memory.
pub fn read_file<A: Allocator + Copy, B: Blocks>(
    alloc: A,
    blocks: &B,
    digest: Digest,
    inode: &Inode<A>,
) -> Result<Vec<u8, A>, ApplyError>
    requires held { inode_of (B.held blocks.now) digest ≡ Some inode.now }
    requires file { inode.now.kind ≡ kinds.File }
    ensures found { IfOk result (λ bytes. file_over (B.held blocks.now) inode.now ≡ Some bytes.items) }
    // Each block is what its place takes.
    ensures taken { OnOk result (HasBlocks (B.held blocks.now) kinds.File digest) }
    // Missing names a block of it of which no text is held that its spot takes.
    ensures missing { IfErr result (Lacks (B.held blocks.now) (IsBlock (B.held blocks.now) kinds.File digest)) }
{
    text_of(alloc, blocks, digest, inode)
}

/// The directory that the i-node of this digest is of. The errors are Missing of a block, and Memory.
pub fn read_directory<A: Allocator + Copy, B: Blocks>(
    alloc: A,
    blocks: &B,
    digest: Digest,
    inode: &Inode<A>,
) -> Result<Directory<A>, ApplyError>
    requires held { inode_of (B.held blocks.now) digest ≡ Some inode.now }
    requires directory { inode.now.kind ≡ kinds.Directory }
    ensures found { IfOk result (λ entries. directory_over (B.held blocks.now) inode.now ≡ Some entries) }
    // Each block is what its place takes.
    ensures taken { OnOk result (HasBlocks (B.held blocks.now) kinds.Directory digest) }
    // Missing names a block of it of which no text is held that its spot takes.
    ensures missing { IfErr result (Lacks (B.held blocks.now) (IsBlock (B.held blocks.now) kinds.Directory digest)) }
{
    let text = text_of(alloc, blocks, digest, inode)?;
    if let Some(directory) = spelled(alloc, &text)? {
        return Ok(directory);
    }
    // It has 6 bytes or more, and so a last block.
    let _kind = inode.kind();
    let blocks = inode.blocks();
    let last = blocks.len() - 1;
    Err(ApplyError::Missing(blocks[last], Spot::Directory(digest, last as u16)))
}

/// That a block is missing, of a file that is the table of principals.
fn as_table(error: ApplyError) -> ApplyError
    ensures { result ≡ as_table error }
{
    match error {
        ApplyError::Missing(block, spot) => ApplyError::Missing(block, spot.of_table()),
        ApplyError::Memory => ApplyError::Memory,
    }
}

/// The blocks of the table of principals that an i-node is of, one after another: each has its size.
fn table_text<A: Allocator + Copy, B: Blocks>(
    alloc: A,
    blocks: &B,
    digest: Digest,
    inode: &Inode<A>,
) -> Result<Vec<u8, A>, ApplyError>
    requires held { inode_of (B.held blocks.now) digest ≡ Some inode.now }
    requires file { inode.now.kind ≡ kinds.File }
    ensures fits { inode_format.Fits inode.now }
    ensures joined { IfOk result (λ text. joined (B.held blocks.now) inode.now.blocks ≡ Some text.items) }
    ensures size { IfOk result (λ text. length text.items ≡ inode.now.size) }
    ensures sized { OnOk result ((k : ℕ) (block : List ℕ) → slice_get inode.now.blocks k ≡ Some block
        → IsSized (B.held blocks.now) inode.now k block) }
    ensures missing { IfErr result (Lacks (B.held blocks.now) (IsTableBlock (B.held blocks.now) digest)) }
{
    match text_of(alloc, blocks, digest, inode) {
        Ok(text) => Ok(text),
        Err(error) => Err(as_table(error)),
    }
}

/// The table of principals that the blocks of an i-node spell, which is of a file with bytes.
fn read_table<A: Allocator + Copy, B: Blocks>(
    alloc: A,
    blocks: &B,
    digest: Digest,
    inode: &Inode<A>,
) -> Result<Table<A>, ApplyError>
    requires held { inode_of (B.held blocks.now) digest ≡ Some inode.now }
    requires there { lacks (B.held blocks.now) digest (spots.Inode 0 1) ≡ false }
    ensures found { IfOk result (λ table. principals_over (B.held blocks.now) inode.now ≡ Some table) }
    ensures file { IfOk result (λ table. file_over (B.held blocks.now) inode.now ≡ Some (table_format.spell table)) }
    ensures fits { IfOk result table_format.Fits }
    ensures taken { OnOk result (HasPrincipals (B.held blocks.now) digest) }
    ensures missing { IfErr result (Lacks (B.held blocks.now) (IsTableBlock (B.held blocks.now) digest)) }
{
    let text = table_text(alloc, blocks, digest, inode)?;
    if let Some(table) = spelled(alloc, &text)? {
        return Ok(table);
    }
    // It has bytes, and so a last block.
    let _kind = inode.kind();
    let blocks = inode.blocks();
    let end = blocks.len() - 1;
    Err(ApplyError::Missing(blocks[end], Spot::Table(digest, end as u16)))
}

/// The table of principals that the i-node of this digest is of, which user 0's i-table has at its i-number 1. The
/// errors are Missing of the i-node or of a block, and Memory.
pub fn read_principals<A: Allocator + Copy, B: Blocks>(
    alloc: A,
    blocks: &B,
    digest: Digest,
) -> Result<Table<A>, ApplyError>
    ensures found { IfOk result (λ table. principals_at (B.held blocks.now) digest ≡ Some table) }
    // It has a text, and whatever stands for the digests of which no block tells, the file there is that text.
    ensures fits { IfOk result table_format.Fits }
    ensures reads { ForEachReading (B.held blocks.now) (λ reads.
        IfOk result (λ table. reads.content digest ≡ File (table_format.spell table))) }
    // Each block is what its place takes.
    ensures taken { OnOk result (HasPrincipals (B.held blocks.now) digest) }
    // Missing names the i-node or a block of it, and no text of it is held that its spot takes.
    ensures missing { IfErr result (Lacks (B.held blocks.now) (IsOfPrincipals (B.held blocks.now) digest)) }
{
    let superuser = Principal::from(User::superuser());
    let inode = read_inode(alloc, blocks, superuser, INumber::table(), digest)?;
    read_table(alloc, blocks, digest, &inode)
}
