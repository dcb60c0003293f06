//! The whole i-table that a handle names.

ghost use Rattle.std.specs.Prelude.{IfOk, IfErr};
ghost use Rattle.tree_parts.specs.Asked.{Lacks};
ghost use Rattle.client_tree.specs.Tables.{IsOfTable, IsRead};

use itable::ITable;
use layout::{Digest, Principal};
use std::alloc::Allocator;
use tree_parts::{ApplyError, Blocks, chunk_of, root_of};

/// The i-table of a principal that has this handle, read from its root and all its chunks. The errors are Missing of
/// the root or of a chunk, and Memory.
pub fn read_table<A: Allocator + Copy, B: Blocks>(
    alloc: A,
    blocks: &B,
    principal: Principal,
    handle: Digest,
) -> Result<ITable<A>, ApplyError>
    ensures read { IfOk result (IsRead (B.held blocks.now) principal handle) }
    // Missing names the handle or the digest of a chunk that its root lists, and no text of it is held that is one.
    ensures missing { IfErr result (Lacks (B.held blocks.now) (IsOfTable (B.held blocks.now) principal handle)) }
{
    let root = root_of(alloc, blocks, principal, handle)?;
    let chunks = Vec::from_slice(alloc, root.chunks())?;
    let mut table = ITable::of_root(alloc, root);
    for listed in &chunks {
        let chunk = chunk_of(alloc, blocks, principal, *listed)?;
        table.load(&chunk, listed.digest)?;
    }
    // It is as its type keeps it.
    let _principal = table.principal();
    Ok(table)
}
