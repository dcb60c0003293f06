//! Directories as they are stored.

ghost use Rattle.std.specs.Prelude.{◌≡◌, map, IfOk, OnOk};
ghost use Rattle.std.specs.Vec.{vec_items};
ghost use Rattle.itable.specs.File.{blocks_of};
ghost use Rattle.itable.specs.Inode.{inode};
ghost use Rattle.directory.specs.Directory.{directory as directory_format};
ghost use Rattle.tree_parts.specs.Slots.{IsReadBack, directory_inode};

use directory::Directory;
use itable::{Inode, Laid, blocks_of};
use layout::{Memory, Text};
use std::alloc::Allocator;

/// A directory in blocks.
pub(crate) fn lay_directory<A: Allocator + Copy>(
    alloc: A,
    directory: &Directory<A>,
) -> Result<Laid<A>, Memory>
    ensures inode { IfOk result (λ laid. laid.inode.items ≡ inode.spell (directory_inode directory.now)) }
    ensures blocks { IfOk result (λ laid. map vec_items laid.blocks.items
        ≡ blocks_of (directory_format.spell directory.now)) }
    ensures read_back { OnOk result (IsReadBack directory.now) }
{
    // Its text is of a size that an i-node has.
    let _entries = directory.entries();
    let text = directory.text(alloc)?;
    let inode = Inode::of_directory(alloc, &text)?;
    // It is one that has a text.
    let _kind = inode.kind();
    let inode = inode.text(alloc)?;
    let blocks = blocks_of(alloc, &text)?;
    Ok(Laid { inode, blocks })
}
