//! The root and the chunks of an i-table, read from the blocks that are held.

ghost use Rattle.std.specs.Prelude.{◌≡◌, Some, IfOk, IfErr, OnOk, false};
ghost use Rattle.layout.specs.Hash.{hash};
ghost use Rattle.itable.specs.Chunk.{chunk as chunk_format};
ghost use Rattle.itable.specs.Root.{root as root_format};
ghost use Rattle.tree_parts.specs.Spot.{lacks};
ghost use Rattle.tree_parts.specs.declared.spot.Spot.TheVariants as spots;
ghost use Rattle.tree_parts.specs.Blocks.{chunk_held, root_at};
ghost use Rattle.tree_parts.specs.Asked.{IsListed, IsRoot, Lacks};

use crate::blocks::{Blocks, value_at};
use crate::error::ApplyError;
use crate::spot::{Spot, takes_chunk, takes_root};
use itable::{Chunk, ListedChunk, Root};
use layout::{Digest, Principal};
use std::alloc::Allocator;

/// The root of this handle, of a principal's i-table. The errors are Missing of it, and Memory.
pub fn root_of<A: Allocator + Copy, B: Blocks>(
    alloc: A,
    blocks: &B,
    principal: Principal,
    handle: Digest,
) -> Result<Root<A>, ApplyError>
    ensures found { IfOk result (λ root. root_at (B.held blocks.now) handle ≡ Some root) }
    ensures fits { IfOk result root_format.Fits }
    ensures principal { IfOk result (λ root. root.principal ≡ principal) }
    ensures hashed { IfOk result (λ root. hash (root_format.spell root) ≡ handle) }
    ensures taken { OnOk result (lacks (B.held blocks.now) handle (spots.Root principal) ≡ false) }
    ensures missing { IfErr result (Lacks (B.held blocks.now) (IsRoot principal handle)) }
{
    match value_at::<A, B, Root<A>>(alloc, blocks, handle)? {
        Some(root) if takes_root(principal, &root) => Ok(root),
        _ => Err(ApplyError::Missing(handle, Spot::Root(principal))),
    }
}

/// A chunk that the root of a principal's i-table lists. The errors are Missing of it, and Memory.
pub fn chunk_of<A: Allocator + Copy, B: Blocks>(
    alloc: A,
    blocks: &B,
    principal: Principal,
    listed: ListedChunk,
) -> Result<Chunk<A>, ApplyError>
    ensures found { IfOk result (λ chunk. chunk_held (B.held blocks.now) listed.digest ≡ Some chunk) }
    ensures number { IfOk result (λ chunk. chunk.number ≡ listed.number) }
    ensures hashed { IfOk result (λ chunk. hash (chunk_format.spell chunk) ≡ listed.digest) }
    ensures taken { OnOk result (lacks (B.held blocks.now) listed.digest (spots.Chunk principal listed.number)
        ≡ false) }
    ensures missing { IfErr result (Lacks (B.held blocks.now) (IsListed principal listed)) }
{
    let spot = Spot::Chunk(principal, listed.number);
    match value_at::<A, B, Chunk<A>>(alloc, blocks, listed.digest)? {
        Some(chunk) if takes_chunk(principal, listed.number, &chunk) => Ok(chunk),
        _ => Err(ApplyError::Missing(listed.digest, spot)),
    }
}
