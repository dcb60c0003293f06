//! What who stored or found a block is given.

ghost use Rattle.std.specs.Prelude.{◌≡◌};
ghost use Rattle.layout.specs.Hash.{hash};
ghost use Rattle.block_store.specs.Blocks.{IsOwn};

use crate::block::{Block, Own};
use boxcar::Pushed;
use layout::Digest;
use std::alloc::Allocator;
use std::marker::Model;

/// That a block is stored. Contracts see its number, its digest and its bytes, and of which store it is.
#[derive(Drop)]
pub struct BlockPass<A: Allocator> {
    pub(crate) digest: Digest,
    pub(crate) place: Pushed<Block<A>, A, Own>,
    ghost own: { IsOwn place.value },
    ghost same: { digest ≡ place.value.digest },
}

impl<A: Allocator> Model for BlockPass<A> {
    ghost use Rattle.boxcar.specs.Table.{Where, where_coded};
    ghost use Rattle.block_store.specs.Blocks.{Stored, stored_coded};

    ghost Value = { Where Stored };

    ghost coded = { where_coded stored_coded };

    ghost view = { λ p. p.place };
}

impl<A: Allocator> BlockPass<A> {
    /// The number of the block in its store. The first one that is put has number 0.
    pub fn index(&self) -> usize
        ensures { result ≡ self.now.index }
    {
        self.place.index()
    }

    /// The digest of the block.
    pub fn digest(&self) -> Digest
        ensures digest { result ≡ self.now.value.digest }
        ensures own { result ≡ hash self.now.value.text }
    {
        self.digest
    }
}
