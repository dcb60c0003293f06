//! Spots: the places at which blocks are asked for.

ghost use Rattle.std.specs.Prelude.{◌≡◌, ◌==◌, ◌&&◌, ◌<◌, IfOk, length};
ghost use Rattle.std.specs.List.{list_any};
ghost use Rattle.tree_parts.specs.Acts.{table_spot};
ghost use Rattle.tree_parts.specs.Spot.{completes as is_whole, is_block_of, is_of_file, size_of_block, spot_of, takes};
ghost use Rattle.tree_parts.specs.Spot.{takes_block as block_is_taken, takes_file_block as file_block_is_taken};
ghost use Rattle.tree_parts.specs.Spot.{takes_table_block as table_block_is_taken, takes_chunk as chunk_is_taken};
ghost use Rattle.tree_parts.specs.Spot.{takes_inode as inode_is_taken, takes_root as root_is_taken};

use crate::blocks::{Blocks, inode_at, inode_text_at, join, spelled};
use directory::Directory;
use itable::{BLOCK_SIZE, Chunk, ChunkNumber, Inode, InodeText, Kind, Root};
use layout::{Digest, INumber, Memory, Principal, Text};
use principals::Table;
use std::alloc::Allocator;

/// A place at which a block is asked for.
#[derive(Clone, Copy, Debug, PartialEq, Eq)]
pub enum Spot {
    /// The root of a principal's i-table.
    Root(Principal),
    /// A chunk of a principal's i-table.
    Chunk(Principal, ChunkNumber),
    /// The i-node at an i-number of a principal.
    Inode(Principal, INumber),
    /// The block of this place, from 0, of the file that the i-node of this digest is of.
    File(Digest, u16),
    /// The block of this place, from 0, of the directory that the i-node of this digest is of.
    Directory(Digest, u16),
    /// The block of this place, from 0, of the table of principals, which the i-node of this digest is of.
    Table(Digest, u16),
}

/// Whether the table of principals stands there.
pub fn is_table(principal: Principal, i_number: INumber) -> bool
    ensures { result ≡ ((principal == 0) && (i_number == 1)) }
{
    principal.get() == 0 && i_number.get() == 1
}

/// Whether the root directory stands there.
pub(crate) fn is_root(principal: Principal, i_number: INumber) -> bool
    ensures { result ≡ ((principal == 0) && (i_number == 2)) }
{
    principal.get() == 0 && i_number.get() == 2
}

/// Whether an i-node may stand there: the table of principals is a file with bytes.
pub(crate) fn takes_inode<A: Allocator>(
    principal: Principal,
    i_number: INumber,
    inode: &Inode<A>,
) -> bool
    ensures { result ≡ inode_is_taken principal i_number inode.now }
{
    !is_table(principal, i_number) || (inode.kind() == Kind::File && inode.size() > 0)
}

/// How many bytes the block of this place has, of so many bytes in all.
pub fn size_of_block(size: u32, place: u16) -> u32
    ensures { result ≡ size_of_block size place }
{
    size.saturating_sub(BLOCK_SIZE * u32::from(place))
        .min(BLOCK_SIZE)
}

/// Whether the text has the size of the block of this place of the i-node's file.
fn takes_file_block(inode: &InodeText<'_>, place: u16, text: &[u8]) -> bool
    ensures { result ≡ file_block_is_taken place text.now inode.now }
{
    inode.kind() == Kind::File
        && usize::from(place) < inode.blocks().len()
        && text.len() == size_of_block(inode.size(), place) as usize
}

/// Whether the text makes, after the blocks before this place, a text of this type of the i-node's size.
fn completes<A: Allocator + Copy, B: Blocks, T: Text<A>>(
    alloc: A,
    blocks: &B,
    inode: &Inode<A>,
    place: u16,
    text: &[u8],
) -> Result<bool, Memory>
    requires { place < length inode.now.blocks }
    ensures { IfOk result (λ whole. whole ≡ is_whole T.format (B.held blocks.now) inode.now place text.now) }
{
    let Some(mut all) = join(alloc, blocks, &inode.blocks()[..usize::from(place)])? else {
        return Ok(false);
    };
    all.extend_from_slice(text)?;
    if all.len() != inode.size() as usize {
        return Ok(false);
    }
    let found = spelled::<A, T>(alloc, &all)?;
    Ok(found.is_some())
}

/// Whether the text is the block of this place of a text of this type that the i-node is of.
fn is_block_of<A: Allocator + Copy, B: Blocks, T: Text<A>>(
    alloc: A,
    blocks: &B,
    inode: &Inode<A>,
    place: u16,
    text: &[u8],
) -> Result<bool, Memory>
    ensures { IfOk result (λ fits. fits ≡ is_block_of T.format (B.held blocks.now) place text.now inode.now) }
{
    // It has a block for each 4,096 bytes.
    let _kind = inode.kind();
    let count = inode.blocks().len();
    if usize::from(place) >= count {
        return Ok(false);
    }
    if text.len() != size_of_block(inode.size(), place) as usize {
        return Ok(false);
    }
    if usize::from(place) + 1 < count {
        return Ok(true);
    }
    completes::<A, B, T>(alloc, blocks, inode, place, text)
}

/// Whether the text is the block of this place of the i-node's directory.
fn takes_block<A: Allocator + Copy, B: Blocks>(
    alloc: A,
    blocks: &B,
    inode: &Inode<A>,
    place: u16,
    text: &[u8],
) -> Result<bool, Memory>
    ensures { IfOk result (λ fits. fits ≡ block_is_taken (B.held blocks.now) place text.now inode.now) }
{
    if inode.kind() == Kind::File {
        return Ok(false);
    }
    is_block_of::<A, B, Directory<A>>(alloc, blocks, inode, place, text)
}

/// Whether the text is the block of this place of the table of principals that the i-node is of.
fn takes_table_block<A: Allocator + Copy, B: Blocks>(
    alloc: A,
    blocks: &B,
    inode: &Inode<A>,
    place: u16,
    text: &[u8],
) -> Result<bool, Memory>
    ensures { IfOk result (λ fits. fits ≡ table_block_is_taken (B.held blocks.now) place text.now inode.now) }
{
    if inode.kind() != Kind::File {
        return Ok(false);
    }
    is_block_of::<A, B, Table<A>>(alloc, blocks, inode, place, text)
}

/// Whether chunk 0 is listed.
fn lists_first<A: Allocator>(root: &Root<A>) -> bool
    ensures { result ≡ list_any (λ c. c.number == 0) root.now.chunks }
{
    let chunks = root.chunks();
    chunks.iter().any(|chunk| chunk.number.get() == 0)
}

/// Whether i-number 1 has a digest.
fn has_first<A: Allocator>(chunk: &Chunk<A>) -> bool
    ensures { result ≡ list_any (λ x. x.i_number == 1) chunk.now.pairs }
{
    let pairs = chunk.pairs();
    pairs.iter().any(|pair| pair.i_number.get() == 1)
}

/// Whether the root is of this principal's i-table; user 0's lists chunk 0, which has the table of principals.
pub fn takes_root<A: Allocator>(principal: Principal, root: &Root<A>) -> bool
    ensures { result ≡ root_is_taken principal root.now }
{
    if root.principal() != principal {
        return false;
    }
    principal.get() != 0 || lists_first(root)
}

/// Whether the chunk has this number; user 0's chunk 0 has the table of principals.
pub fn takes_chunk<A: Allocator>(
    principal: Principal,
    number: ChunkNumber,
    chunk: &Chunk<A>,
) -> bool
    ensures { result ≡ chunk_is_taken principal number chunk.now }
{
    if chunk.number() != number {
        return false;
    }
    principal.get() != 0 || number.get() != 0 || has_first(chunk)
}

impl Spot {
    /// The place of a block of a file, where the file is the table of principals.
    pub(crate) fn of_table(self) -> Spot
        ensures { result ≡ table_spot self }
    {
        match self {
            Spot::File(inode, place) => Spot::Table(inode, place),
            other => other,
        }
    }

    /// The place of a block of what an i-node of this kind is of.
    pub(crate) fn of_block(kind: Kind, inode: Digest, place: u16) -> Spot
        ensures { result ≡ spot_of kind inode place }
    {
        match kind {
            Kind::File => Spot::File(inode, place),
            Kind::Directory => Spot::Directory(inode, place),
        }
    }

    /// Whether the text is what it asks for: a root or a chunk of the i-table; an i-node, of a file with bytes where
    /// the table of principals stands; or as many bytes as the block has, and with those before it the text of a
    /// directory, or of the table of principals, where it is the last one of such. Only want of memory is an error.
    #[tactic(auto, unfolding(crate::specs::Spot::takes))]
    pub fn takes<A: Allocator + Copy, B: Blocks>(
        &self,
        alloc: A,
        blocks: &B,
        text: &[u8],
    ) -> Result<bool, Memory>
        ensures { IfOk result (λ fits. fits ≡ takes (B.held blocks.now) self.now text.now) }
    {
        match self {
            Spot::Root(principal) => {
                let root = spelled::<A, Root<A>>(alloc, text)?;
                Ok(root.is_some_and(|root| takes_root(*principal, &root)))
            }
            Spot::Chunk(principal, number) => {
                let chunk = spelled::<A, Chunk<A>>(alloc, text)?;
                Ok(chunk.is_some_and(|chunk| takes_chunk(*principal, *number, &chunk)))
            }
            Spot::Inode(principal, i_number) => {
                let inode = spelled::<A, Inode<A>>(alloc, text)?;
                Ok(inode.is_some_and(|inode| takes_inode(*principal, *i_number, &inode)))
            }
            Spot::File(digest, place) => {
                let inode = inode_text_at(blocks, *digest);
                Ok(inode.is_some_and(|inode| takes_file_block(&inode, *place, text)))
            }
            Spot::Directory(digest, place) => match inode_at(alloc, blocks, *digest)? {
                Some(inode) => takes_block(alloc, blocks, &inode, *place, text),
                None => Ok(false),
            },
            Spot::Table(digest, place) => match inode_at(alloc, blocks, *digest)? {
                Some(inode) => takes_table_block(alloc, blocks, &inode, *place, text),
                None => Ok(false),
            },
        }
    }
}
