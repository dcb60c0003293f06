//! The texts of what is put or made, and the changes that name it.

ghost use Rattle.std.specs.Prelude.{◌≡◌, ◌∷◌, IfOk, map, true};
ghost use Rattle.std.specs.Vec.{vec_items};
ghost use Rattle.directory.specs.Name.{is_name};
ghost use Rattle.update_cert.specs.World.{File};
ghost use Rattle.file_session.specs.Declaring.{content_digest, texts_of_content};
ghost use Rattle.file_session.specs.Parts.{IsSmall, bytes_of, content_of};
ghost use Rattle.update_cert.specs.Change.{Link as links, Unlink as unlinks, action_of};

use client_tree::root_digest;
use directory::{Entry, Name, Target};
use itable::{Laid, lay_file};
use layout::{Digest, Memory, digest};
use std::alloc::Allocator;
use update_cert::{Action, Change};

/// What is put or made.
#[derive(Clone, Copy)]
pub(crate) enum New<'a> {
    /// A file of these bytes.
    File(&'a [u8]),
    /// An empty directory.
    Directory,
}

/// What is put or made, laid out.
#[derive(Drop)]
pub(crate) struct Prepared<A: Allocator> {
    /// The digest of its i-node.
    pub(crate) inode: Digest,
    /// The texts that are stored for it.
    pub(crate) texts: Vec<Vec<u8, A>, A>,
}

/// The texts of a file in one list.
fn together<A: Allocator + Copy>(alloc: A, laid: Laid<A>) -> Result<Vec<Vec<u8, A>, A>, Memory>
    ensures { IfOk result (λ texts. map vec_items texts.items ≡ laid.inode.items ∷ map vec_items laid.blocks.items) }
{
    let Laid { inode, mut blocks } = laid;
    let mut texts = Vec::new(alloc);
    texts.push(inode)?;
    texts.append(&mut blocks)?;
    Ok(texts)
}

/// A file of these bytes, laid out.
fn prepare_file<A: Allocator + Copy>(alloc: A, bytes: &[u8]) -> Result<Prepared<A>, Memory>
    requires { IsSmall bytes.now }
    ensures inode { IfOk result (λ new. new.inode ≡ content_digest (File bytes.now)) }
    ensures texts { IfOk result (λ new. map vec_items new.texts.items ≡ texts_of_content (File bytes.now)) }
{
    let Ok(laid) = lay_file(alloc, bytes) else {
        return Err(Memory);
    };
    let inode = digest(&laid.inode);
    let texts = together(alloc, laid)?;
    Ok(Prepared { inode, texts })
}

/// What is put or made, laid out.
pub(crate) fn prepare<A: Allocator + Copy>(alloc: A, new: New<'_>) -> Result<Prepared<A>, Memory>
    requires { IsSmall (bytes_of new) }
    ensures inode { IfOk result (λ prepared. prepared.inode ≡ content_digest (content_of new.entry)) }
    ensures texts { IfOk result
        (λ prepared. map vec_items prepared.texts.items ≡ texts_of_content (content_of new.entry)) }
{
    match new {
        New::File(bytes) => prepare_file(alloc, bytes),
        New::Directory => Ok(Prepared {
            inode: root_digest(alloc)?,
            texts: Vec::new(alloc),
        }),
    }
}

/// A change at an i-number.
pub(crate) fn at<A: Allocator>(target: Target, action: Action<A>) -> Change<A>
    ensures { result ≡ record { principal = target.principal; i_number = target.i_number; action = action_of action } }
{
    Change::new(target.principal, target.i_number, action)
}

/// A directory gets a name for a target.
pub(crate) fn link<A: Allocator + Copy>(
    alloc: A,
    directory: Target,
    name: &str,
    target: Target,
) -> Result<Change<A>, Memory>
    requires { is_name name.now ≡ true }
    ensures { IfOk result (λ change. change ≡ record {
      principal = directory.principal;
      i_number = directory.i_number;
      action = links (record { name = name.now; target = target });
    }) }
{
    let entry = Entry::new(alloc, name, target)?;
    Ok(at(directory, Action::Link(entry)))
}

/// A directory loses a name.
pub(crate) fn unlink<A: Allocator + Copy>(
    alloc: A,
    directory: Target,
    name: &str,
) -> Result<Change<A>, Memory>
    requires { is_name name.now ≡ true }
    ensures { IfOk result (λ change. change ≡ record {
      principal = directory.principal;
      i_number = directory.i_number;
      action = unlinks name.now;
    }) }
{
    let name = Name::new(alloc, name)?;
    Ok(at(directory, Action::Unlink(name)))
}
