//! What has to be laid out before an operation is declared.

ghost use Rattle.std.specs.Prelude.{◌≡◌, ◌≤◌, IfOk, length, map};
ghost use Rattle.std.specs.List.{list_all};
ghost use Rattle.std.specs.Vec.{vec_items};
ghost use Rattle.layout.specs.Hash.{hash};
ghost use Rattle.itable.specs.declared.inode.TheConstants.{FILE_SIZE};
ghost use Rattle.update_cert.specs.Change.{action_of};
ghost use Rattle.tree_parts.specs.Spot.{size_of_block};
ghost use Rattle.client_tree.specs.Genesis.{inode_digest, root_inode};
ghost use Rattle.client_verify.specs.Laid.{are_blocks_laid, are_laid, has_text, is_file_laid, is_laid, is_whole_file};
ghost use Rattle.client_verify.specs.Laid.{IsLaidAnywhere};

use client_tree::root_digest;
use itable::{Inode, Kind};
use layout::{Digest, Memory, ReadError, Text, digest};
use std::alloc::Allocator;
use std::marker::Model;
use tree_parts::size_of_block;
use update_cert::{Action, AnyAction, Change, TableChange};

/// A text that is laid out, and its digest, so that it is hashed once.
#[derive(Drop)]
struct LaidText<'a> {
    text: &'a [u8],
    digest: Digest,
}

impl<'a> Model for LaidText<'a> {
    ghost use Rattle.std.specs.Prelude.{◌≡◌, List, ℕ};
    ghost use Rattle.layout.specs.Hash.{hash};

    ghost Value = { List ℕ };

    ghost view = { λ laid. laid.text.now };

    ghost invariant = { λ laid. laid.digest ≡ hash laid.text.now };
}

impl<'a> LaidText<'a> {
    /// A text, hashed.
    fn new(text: &'a [u8]) -> LaidText<'a>
        ensures { result ≡ text.now }
    {
        LaidText {
            text,
            digest: digest(text),
        }
    }

    /// The text.
    fn text(&self) -> &'a [u8]
        ensures { result.now ≡ self.now }
    {
        self.text
    }

    /// How many bytes it has.
    fn size(&self) -> usize
        ensures { result ≡ length self.now }
    {
        self.text.len()
    }

    /// Its digest.
    fn digest(&self) -> Digest
        ensures { result ≡ hash self.now }
    {
        self.digest
    }
}

/// Whether a text of this digest and size is there.
fn has_text(laid: &[LaidText<'_>], digest: Digest, size: u32) -> bool
    ensures { result ≡ has_text laid.now digest size }
{
    laid.iter().any(|text| text.digest() == digest && text.size() == size as usize)
}

/// Whether the block of this place is there, and has its size.
fn has_block(laid: &[LaidText<'_>], size: u32, place: u16, digest: Digest) -> bool
    ensures { result ≡ has_text laid.now digest (size_of_block size place) }
{
    has_text(laid, digest, size_of_block(size, place))
}

/// Whether all blocks of an i-node are there, each of its size.
fn has_blocks<A: Allocator>(laid: &[LaidText<'_>], inode: &Inode<A>) -> bool
    ensures { result ≡ are_blocks_laid laid.now inode.now.size 0 inode.now.blocks }
{
    // It has at most 1,024 blocks.
    let _kind = inode.kind();
    for (place, digest) in inode.blocks().iter().enumerate() {
        if !has_block(laid, inode.size(), place as u16, *digest) {
            return false;
        }
    }
    true
}

/// Whether a text is a file's i-node, and all blocks of the file are there.
fn is_whole_file<A: Allocator + Copy>(
    alloc: A,
    laid: &[LaidText<'_>],
    text: &[u8],
) -> Result<bool, Memory>
    ensures { IfOk result (λ is. is ≡ is_whole_file laid.now text.now) }
{
    match Inode::read(alloc, text) {
        Ok(inode) => Ok(inode.kind() == Kind::File && has_blocks(laid, &inode)),
        Err(ReadError::Memory) => Err(Memory),
        Err(_) => Ok(false),
    }
}

/// Whether a file with all its blocks is there, whose i-node has this digest.
fn is_file_laid<A: Allocator + Copy>(
    alloc: A,
    laid: &[LaidText<'_>],
    digest: Digest,
) -> Result<bool, Memory>
    ensures { IfOk result (λ is. is ≡ is_file_laid laid.now digest) }
{
    for text in laid {
        if text.digest() == digest && is_whole_file(alloc, laid, text.text())? {
            return Ok(true);
        }
    }
    Ok(false)
}

/// Whether what an action names was laid out.
fn is_laid<A: Allocator + Copy>(
    alloc: A,
    laid: &[LaidText<'_>],
    action: &Action<A>,
) -> Result<bool, Memory>
    ensures { IfOk result (λ is. is ≡ is_laid laid.now (action_of action.now)) }
{
    match action {
        Action::Make(inode) => {
            Ok(is_file_laid(alloc, laid, *inode)? || *inode == root_digest(alloc)?)
        }
        Action::Put(inode) => is_file_laid(alloc, laid, *inode),
        Action::Remove | Action::Link(_) | Action::Unlink(_) => Ok(true),
    }
}

/// Whether what a change names was laid out: one of the table of principals names nothing.
fn is_change_laid<A: Allocator + Copy>(
    alloc: A,
    laid: &[LaidText<'_>],
    change: &Change<A>,
) -> Result<bool, Memory>
    ensures { IfOk result (λ is. is ≡ is_laid laid.now change.now.action) }
{
    match change.action() {
        AnyAction::At(action) => is_laid(alloc, laid, action),
        AnyAction::OfTable(change) => match change {
            TableChange::AddUser(_, _)
            | TableChange::AddMember(_, _)
            | TableChange::DropMember(_, _)
            | TableChange::SetKey(_, _) => Ok(true),
        },
    }
}

/// Whether all that these changes name was laid out.
fn all_laid<A: Allocator + Copy>(
    alloc: A,
    laid: &[LaidText<'_>],
    changes: &[Change<A>],
) -> Result<bool, Memory>
    ensures { IfOk result (λ all. all ≡ list_all (λ c. is_laid laid.now c.action) changes.now) }
{
    for change in changes {
        if !is_change_laid(alloc, laid, change)? {
            return Ok(false);
        }
    }
    Ok(true)
}

/// These texts, each hashed once.
fn hashed<A: Allocator + Copy>(
    alloc: A,
    texts: &[Vec<u8, A>],
) -> Result<Vec<LaidText<'_>, A>, Memory>
    ensures { IfOk result (λ laid. laid.items ≡ map vec_items texts.now) }
{
    let mut laid = Vec::new(alloc);
    for text in texts {
        laid.push(LaidText::new(text))?;
    }
    Ok(laid)
}

/// Whether each i-node that a make or a put names is that of a file that stands with all its blocks among these texts,
/// or, of a make, that of the empty directory.
#[tactic(auto, unfolding(crate::specs::Laid::are_laid))]
pub fn are_laid<A: Allocator + Copy>(
    alloc: A,
    laid: &[Vec<u8, A>],
    changes: &[Change<A>],
) -> Result<bool, Memory>
    ensures { IfOk result (λ all. all ≡ are_laid (map vec_items laid.now) changes.now) }
{
    let texts = hashed(alloc, laid)?;
    all_laid(alloc, &texts, changes)
}

/// What `itable::lay_file` gives of a file is laid out wherever it stands among texts, whatever stands beside it.
pub fn laid_file_is_laid(file: &[u8])
    ensures { length file.now ≤ FILE_SIZE → IsLaidAnywhere file.now }
{}
