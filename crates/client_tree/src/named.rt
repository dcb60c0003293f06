//! The table of principals of a view: the one that user 0's handle names, and what the pending operations make of it.

ghost use Rattle.std.specs.Prelude.{◌≡◌, ◌==◌, ℕ, List, Some, IfOk, IfErr, OnOk, filter, find};
ghost use Rattle.std.specs.Option.{option_copied};
ghost use Rattle.itable.specs.ITable.{digest_in};
ghost use Rattle.itable.specs.Root.{chunk_at};
ghost use Rattle.principals.specs.Table.{Table as Principals};
ghost use Rattle.update_cert.specs.World.{Principals as Listed, Tree};
ghost use Rattle.update_cert.specs.Reading.{Reading};
ghost use Rattle.tree_parts.specs.Asked.{HasChunkFor, IsChunkFor, Lacks};
ghost use Rattle.tree_parts.specs.Blocks.{inode_told};
ghost use Rattle.client_tree.specs.View.{after_items, handle_in, is_superusers};
ghost use Rattle.client_tree.specs.Principals.{IsNamed, IsOfNamed, IsPending};

use crate::view::handle_in;
use itable::{Chunk, ChunkNumber, ListedChunk, Pair, Root};
use layout::{Digest, INumber, Memory, Principal, User};
use lms_sign::Key;
use pending_list::{PendingItem, Signed};
use principals::Table;
use std::alloc::Allocator;
use tree_parts::{ApplyError, Blocks, chunk_of, read_principals, root_of};
use update_cert::{Voids, apply_table};
use version_order::Structure;

/// The chunk of this number among those that a root lists, if it is there.
fn listed_at(number: ChunkNumber, chunks: &[ListedChunk]) -> Option<&ListedChunk>
    ensures { option_copied result ≡ find (λ c. c.number == number) chunks.now }
{
    chunks.iter().find(|listed| listed.number == number)
}

/// The pair of this i-number among those of a chunk, if it is there.
fn pair_at(i_number: INumber, pairs: &[Pair]) -> Option<&Pair>
    ensures { option_copied result ≡ find (λ p. p.i_number == i_number) pairs.now }
{
    pairs.iter().find(|pair| pair.i_number == i_number)
}

/// The chunk that the table of principals is in, as a root lists it, if it does.
fn first_chunk<A: Allocator>(root: &Root<A>) -> Option<ListedChunk>
    ensures { result ≡ chunk_at root.now 0 }
{
    let number = ChunkNumber::of(INumber::table());
    listed_at(number, root.chunks()).copied()
}

/// The i-node's digest that a chunk has at the i-number of the table of principals, if it has one.
fn inode_in<A: Allocator>(chunk: &Chunk<A>) -> Option<Digest>
    ensures { result ≡ digest_in chunk.now.pairs 1 }
{
    let pair = pair_at(INumber::table(), chunk.pairs()).copied();
    pair.map(|pair| pair.digest)
}

/// The i-node's digest at the place of the table of principals, in the i-table of user 0's that has this handle: its
/// root and chunk 0 are read, and no other chunk. The errors are Missing of one of these two, and Memory.
fn named_inode<A: Allocator + Copy, B: Blocks>(
    alloc: A,
    blocks: &B,
    handle: Digest,
) -> Result<Digest, ApplyError>
    ensures told { IfOk result (λ inode. inode_told (B.held blocks.now) 0 handle 1 ≡ Some (Some inode)) }
    ensures taken { OnOk result (HasChunkFor (B.held blocks.now) 0 handle 1) }
    ensures missing { IfErr result (Lacks (B.held blocks.now) (IsChunkFor (B.held blocks.now) 0 handle 1)) }
{
    let superuser = Principal::from(User::superuser());
    let root = root_of(alloc, blocks, superuser, handle)?;
    // User 0's root lists chunk 0, which has i-number 1.
    let Some(listed) = first_chunk(&root) else {
        unreachable!()
    };
    let chunk = chunk_of(alloc, blocks, superuser, listed)?;
    match inode_in(&chunk) {
        Some(inode) => Ok(inode),
        None => unreachable!(),
    }
}

/// The table of principals that user 0's handle names. The errors are Missing of a block, and Memory.
fn read_named<A: Allocator + Copy, B: Blocks>(
    alloc: A,
    blocks: &B,
    handle: Digest,
) -> Result<Table<A>, ApplyError>
    ensures named { IfOk result (IsNamed (B.held blocks.now) handle) }
    ensures missing { IfErr result (Lacks (B.held blocks.now) (IsOfNamed (B.held blocks.now) handle)) }
{
    let inode = named_inode(alloc, blocks, handle)?;
    read_principals(alloc, blocks, inode)
}

/// What the operations of user 0 among these make of the table, in order.
fn after_others<A: Allocator + Copy>(
    alloc: A,
    named: Table<A>,
    others: &[PendingItem<A>],
) -> Result<Table<A>, Memory>
    ensures { (reads : Reading) (t : Principals) (tree : Tree) → tree 0 1 ≡ Some (Listed named)
        → IfOk result (λ table. after_items reads t (filter is_superusers others.now) tree 0 1 ≡ Some (Listed table)) }
{
    let mut table = named;
    for item in others {
        if item.cert().user() == User::superuser() {
            let _voids = apply_table(alloc, &mut table, item.cert())?;
        }
    }
    Ok(table)
}

/// The table of principals as the pending operations leave it.
#[derive(Drop)]
pub struct PendingTable<A: Allocator> {
    /// The table.
    pub table: Table<A>,
    /// The numbers of the own changes of it that have no effect.
    pub voids: Voids<A>,
}

/// The table of principals of these lists, whose last pending operation is the own one: the table that user 0's handle
/// names, after the pending operations. The errors are Missing of a block, and Memory.
pub fn table_of<A: Allocator + Copy, B: Blocks>(
    alloc: A,
    blocks: &B,
    key: &Key,
    structures: &[Signed<Structure<A>>],
    others: &[PendingItem<A>],
    own: &PendingItem<A>,
) -> Result<PendingTable<A>, ApplyError>
    ensures table { IfOk result (λ t. (users : Principals)
        × IsNamed (B.held blocks.now) (handle_in key.now structures.now 0) users
        × IsPending users (record {
          key = key.now;
          table = t.table;
          structures = structures.now;
          others = others.now;
          own = own.now;
        }) t.voids) }
    // No other table is that of these lists by these blocks, and no other numbers are those of the own changes of it
    // that have no effect.
    ensures only { IfOk result (λ t. (users table : Principals) (numbers : List ℕ)
        → IsNamed (B.held blocks.now) (handle_in key.now structures.now 0) users
        → IsPending users (record {
          key = key.now;
          table = table;
          structures = structures.now;
          others = others.now;
          own = own.now;
        }) numbers
        → (table ≡ t.table) × (numbers ≡ t.voids)) }
    // Missing names a digest that is asked for to read the table, and no text of it is held that its spot takes.
    ensures missing { IfErr result
        (Lacks (B.held blocks.now) (IsOfNamed (B.held blocks.now) (handle_in key.now structures.now 0))) }
{
    let superuser = Principal::from(User::superuser());
    let handle = handle_in(alloc, key, structures, superuser)?;
    let named = read_named(alloc, blocks, handle)?;
    let mut table = after_others(alloc, named, others)?;
    let voids = apply_table(alloc, &mut table, own.cert())?;
    Ok(PendingTable { table, voids })
}
