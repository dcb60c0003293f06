//! What stands at an i-number, read from the blocks that are held.

ghost use Rattle.std.specs.Prelude.{◌≡◌, ℕ, List, Some, IfOk, IfErr, OnOk, false};
ghost use Rattle.layout.specs.Types.{Digest as DigestBytes};
ghost use Rattle.tree_parts.specs.Blocks.{ForEachReading};
ghost use Rattle.tree_parts.specs.Asked.{Lacks};
ghost use Rattle.tree_parts.specs.Spot.{lacks};
ghost use Rattle.tree_parts.specs.declared.spot.Spot.{Spot};
ghost use Rattle.client_tree.specs.Opened.{IsOfInode};
ghost use Rattle.client_tree.specs.Seen.{content_seen};

use directory::Directory;
use itable::{Inode, Kind};
use layout::{Digest, INumber, Principal};
use std::alloc::Allocator;
use tree_parts::{ApplyError, Blocks, look_for_absent, read_directory, read_file, read_inode};

/// What stands at an i-number.
#[derive(Drop)]
pub enum Seen<A: Allocator> {
    /// Nothing.
    Nothing,
    /// A file of these bytes.
    File(Vec<u8, A>),
    /// This directory.
    Directory(Directory<A>),
}

/// Of what kind and size is what stands at an i-number.
#[derive(Clone, Copy, Debug, PartialEq, Eq)]
pub enum SeenKind {
    /// Nothing stands there.
    Nothing,
    /// A file of so many bytes.
    File(u32),
    /// A directory whose text has so many bytes: 6 where it is empty, else more.
    Directory(u32),
}

impl SeenKind {
    ghost use Rattle.client_tree.specs.Questions.{kind_in};

    /// What an i-node tells.
    pub(crate) fn of<A: Allocator>(inode: &Inode<A>) -> SeenKind
        ensures { result ≡ kind_in inode.now }
    {
        match inode.kind() {
            Kind::File => SeenKind::File(inode.size()),
            Kind::Directory => SeenKind::Directory(inode.size()),
        }
    }
}

/// What the i-node of this digest is of, at an i-number of a principal.
pub(crate) fn read_content<A: Allocator + Copy, B: Blocks>(
    alloc: A,
    blocks: &B,
    principal: Principal,
    i_number: INumber,
    digest: Digest,
) -> Result<Seen<A>, ApplyError>
    ensures seen { ForEachReading (B.held blocks.now) (λ reads.
        IfOk result (λ s. content_seen s ≡ Some (reads.content digest))) }
    // Each of its blocks is what its place takes.
    ensures taken { OnOk result ((block : DigestBytes) (s : Spot)
        → IsOfInode (B.held blocks.now) principal i_number digest block s → lacks (B.held blocks.now) block s ≡ false) }
    ensures missing { IfErr result
        (Lacks (B.held blocks.now) (IsOfInode (B.held blocks.now) principal i_number digest)) }
{
    // Where halving finds a block of a file that is missing, its i-node isn't read as a whole.
    look_for_absent(blocks, digest)?;
    let inode = read_inode(alloc, blocks, principal, i_number, digest)?;
    match inode.kind() {
        Kind::File => {
            let bytes = read_file(alloc, blocks, digest, &inode)?;
            Ok(Seen::File(bytes))
        }
        Kind::Directory => {
            let directory = read_directory(alloc, blocks, digest, &inode)?;
            Ok(Seen::Directory(directory))
        }
    }
}
