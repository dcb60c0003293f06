//! What is stored of a block, and the rule that it keeps.

ghost use Rattle.std.specs.Prelude.{◌≡◌};
ghost use Rattle.block_store.specs.Blocks.{IsOwn};

use boxcar::Keeps;
use layout::Digest;
use std::alloc::Allocator;
use std::marker::Model;

/// Bytes, and the digest under which they are stored.
#[derive(Drop)]
pub(crate) struct Block<A: Allocator> {
    digest: Digest,
    text: Vec<u8, A>,
}

impl<A: Allocator> Model for Block<A> {
    ghost use Rattle.block_store.specs.Blocks.{Stored, stored_coded};

    ghost Value = { Stored };

    ghost coded = { stored_coded };

    ghost view = { λ b. record { digest = b.digest; text = b.text.items } };
}

impl<A: Allocator> Block<A> {
    pub(crate) fn new(digest: Digest, text: Vec<u8, A>) -> Block<A>
        ensures { (result.digest ≡ digest) × (result.text ≡ text.items) }
    {
        Block { digest, text }
    }

    pub(crate) fn digest(&self) -> Digest
        ensures { result ≡ self.now.digest }
    {
        self.digest
    }

    pub(crate) fn text(&self) -> &[u8]
        ensures { result.now ≡ self.now.text }
    {
        &self.text
    }
}

/// The rule: a stored block has its digest, and no more bytes than a block may have.
pub(crate) struct Own;

impl<A: Allocator> Keeps<Block<A>> for Own {
    ghost holds = { λ _ _ block. IsOwn block };
}
