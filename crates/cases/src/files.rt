//! Files that are laid out in blocks, and i-nodes.

use crate::stop::Stop;
use crate::words::Words;
use crate::world::World;
use itable::{DIRECTORY_SIZE, Inode, Kind, lay_file};
use layout::let_go;
use std::alloc::Global;

/// How many bytes the text of a directory has at least.
const LEAST_DIRECTORY: usize = 6;

/// How many blocks a file has; the last one is `$last`, and the text is that of the i-node.
fn lay(world: &mut World, words: &mut Words<'_>) -> Result<(), Stop> {
    let file = world.bytes(words)?;
    let laid = lay_file(world.alloc, &file)?;
    let count = laid.blocks.len();
    let last = match laid.blocks.last() {
        Some(block) => Vec::from_slice(world.alloc, block),
        None => Ok(Vec::new(world.alloc)),
    };
    let inode = Vec::from_slice(world.alloc, &laid.inode);
    let_go(laid);
    world.names.name("last", last?)?;
    world.keep(Ok(inode?))?;
    world.show(count)
}

/// The text is that of the i-node of a directory.
fn lay_directory(world: &mut World, words: &mut Words<'_>) -> Result<(), Stop> {
    let text = world.bytes(words)?;
    if text.len() < LEAST_DIRECTORY || text.len() > DIRECTORY_SIZE as usize {
        return Err(Stop::Word);
    }
    let inode = Inode::of_directory(world.alloc, &text)?;
    let written = world.write(&inode);
    let_go(inode);
    written
}

/// What the i-node says: the kind, the size, and how many blocks there are.
fn said(world: &mut World) -> Result<(), Stop> {
    let inode: Inode<Global> = world.read()?;
    let kind = if inode.kind() == Kind::File {
        "file"
    } else {
        "directory"
    };
    let (size, count) = (inode.size(), inode.blocks().len());
    let_go(inode);
    world.show(format_args!("{kind} {size} {count}"))
}

/// A line of files.
pub(crate) fn file(world: &mut World, words: &mut Words<'_>) -> Result<(), Stop> {
    match words.word()? {
        "lay" => lay(world, words),
        "directory" => lay_directory(world, words),
        "said" => said(world),
        _ => Err(Stop::Word),
    }
}
