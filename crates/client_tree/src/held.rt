//! The blocks that a client holds.

ghost use Rattle.std.specs.Prelude.{◌≡◌, ◌+◌, ◌<◌, ◌≤◌, None, [], IsOk, IfOk, OnOk, OnErr, MatchResult, map, vec_len};
ghost use Rattle.std.specs.Prelude.{vec_capacity};
ghost use Rattle.std.specs.Vec.{vec_items};
ghost use Rattle.layout.specs.Ascending.{Ascends, Stands, IsFree};
ghost use Rattle.layout.specs.Hash.{hash};
ghost use Rattle.client_tree.specs.Held.{AreHeld, by_bytes, digest_of, keeping, keeping_all};

use layout::{Digest, Memory, digest};
use std::alloc::Allocator;
use std::marker::Model;
use tree_parts::Blocks;

/// A text, and its digest.
#[derive(Drop)]
struct Block<A: Allocator> {
    digest: Digest,
    text: Vec<u8, A>,
}

impl<A: Allocator> Model for Block<A> {
    ghost use Rattle.client_tree.specs.Held.{Block};

    ghost Value = { Block };

    ghost view = { λ b. record { digest = b.digest; text = b.text.items } };
}

impl<A: Allocator> Block<A> {
    fn digest(&self) -> &Digest
        ensures { result.now ≡ self.now.digest }
    {
        &self.digest
    }

    fn text(&self) -> &[u8]
        ensures { result.now ≡ self.now.text }
    {
        &self.text
    }
}

/// The blocks that a client holds, by digest: one binary search, and one shift for a new one.
#[derive(Drop)]
pub struct Held<A: Allocator> {
    blocks: Vec<Block<A>, A>,
}

impl<A: Allocator> Model for Held<A> {
    ghost use Rattle.std.specs.Prelude.{List};
    ghost use Rattle.client_tree.specs.Held.{Block, AreHeld};

    ghost Value = { List Block };

    ghost view = { λ h. h.blocks.items };

    ghost invariant = { λ h. AreHeld h.blocks.items };
}

/// Where the block of a digest stands, or where it would stand.
fn find<A: Allocator>(blocks: &[Block<A>], digest: Digest) -> Result<usize, usize>
    requires { Ascends by_bytes digest_of None blocks.now }
    ensures { MatchResult result (Stands by_bytes digest_of blocks.now digest)
        (IsFree by_bytes digest_of blocks.now digest) }
{
    let digest = digest.as_bytes().as_slice();
    blocks.binary_search_by(|block| block.digest().as_bytes().as_slice().cmp(digest))
}

/// Puts a text among blocks, under its digest that was computed, where it isn't held already.
fn put<A: Allocator>(
    blocks: &mut Vec<Block<A>, A>,
    digest: Digest,
    text: Vec<u8, A>,
) -> Result<(), Memory>
    requires held { AreHeld blocks.old.items }
    requires hashed { digest ≡ hash text.items }
    ensures kept { OnOk result (blocks.new.items ≡ keeping blocks.old.items text.items) }
    ensures held { AreHeld blocks.new.items }
    ensures err { OnErr result (blocks.new.items ≡ blocks.old.items) }
    // Where there is room for one more it takes no memory.
    ensures succeeds { vec_len blocks.old < vec_capacity blocks.old → IsOk result }
    ensures grows { vec_len blocks.new ≤ vec_len blocks.old + 1 }
    ensures room { vec_capacity blocks.old ≤ vec_capacity blocks.new }
{
    match find(blocks, digest) {
        Ok(_) => Ok(()),
        Err(place) => {
            blocks.insert(place, Block { digest, text })?;
            Ok(())
        }
    }
}

impl<A: Allocator> Blocks for Held<A> {
    ghost use Rattle.client_tree.specs.Held.{held};

    ghost held = { held };

    fn get(&self, digest: Digest) -> Option<&[u8]> {
        match find(&self.blocks, digest) {
            Ok(place) => Some(self.blocks[place].text()),
            Err(_) => None,
        }
    }
}

impl<A: Allocator> Held<A> {
    /// No blocks.
    pub fn empty(alloc: A) -> Held<A>
        ensures { result ≡ [] }
    {
        Held {
            blocks: Vec::new(alloc),
        }
    }

    /// What is true of them at all times. For the proofs of callers: it does nothing.
    pub fn type_invariant(&self)
        ensures { AreHeld self.now }
    {
        let _blocks = &self.blocks;
    }

    /// Keeps a text, and gives its digest. After an error the blocks are as before.
    pub fn keep(&mut self, text: Vec<u8, A>) -> Result<Digest, Memory>
        ensures digest { IfOk result (λ digest. digest ≡ hash text.items) }
        ensures kept { OnOk result (self.new ≡ keeping self.old text.items) }
        ensures err { OnErr result (self.new ≡ self.old) }
    {
        let digest = digest(&text);
        self.keep_as(digest, text)?;
        Ok(digest)
    }

    /// Keeps a text whose digest was computed. After an error the blocks are as before.
    pub fn keep_as(&mut self, digest: Digest, text: Vec<u8, A>) -> Result<(), Memory>
        requires { digest ≡ hash text.items }
        ensures kept { OnOk result (self.new ≡ keeping self.old text.items) }
        ensures err { OnErr result (self.new ≡ self.old) }
    {
        put(&mut self.blocks, digest, text)
    }

    /// Keeps all these texts. After an error the blocks are as before.
    pub fn keep_all(&mut self, texts: Vec<Vec<u8, A>, A>) -> Result<(), Memory>
        ensures kept { OnOk result (self.new ≡ keeping_all self.old (map vec_items texts.items)) }
        ensures err { OnErr result (self.new ≡ self.old) }
    {
        self.blocks.reserve(texts.len())?;
        for text in texts {
            // There is room for each, so that none fails.
            put(&mut self.blocks, digest(&text), text)?;
        }
        Ok(())
    }
}
