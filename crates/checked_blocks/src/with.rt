//! The blocks that a client knows, and one more that isn't held yet.

ghost use Rattle.std.specs.Prelude.{◌≡◌};
ghost use Rattle.layout.specs.Hash.{hash};
ghost use Rattle.checked_blocks.specs.CheckedBlocks.{holding};

use crate::checked::CheckedBlocks;
use layout::Digest;
use std::alloc::Allocator;
use std::marker::Model;
use tree_parts::Blocks;

/// The blocks that a client knows, and one more that isn't held yet.
#[derive(Drop)]
pub struct With<'a, A: Allocator> {
    known: &'a CheckedBlocks<A>,
    digest: Digest,
    text: &'a [u8],
}

impl<'a, A: Allocator> Model for With<'a, A> {
    ghost use Rattle.std.specs.Prelude.{◌≡◌};
    ghost use Rattle.layout.specs.Hash.{hash};
    ghost use Rattle.checked_blocks.specs.CheckedBlocks.{CheckedBlocks, holding};

    ghost Value = { CheckedBlocks };

    ghost view = { λ w. holding w.known.now w.text.now };

    ghost invariant = { λ w. w.digest ≡ hash w.text.now };
}

impl<'a, A: Allocator> With<'a, A> {
    /// The blocks that are known, and this one, whose digest was computed.
    pub fn new(known: &'a CheckedBlocks<A>, digest: Digest, text: &'a [u8]) -> With<'a, A>
        requires { digest ≡ hash text.now }
        ensures { result ≡ holding known.now text.now }
    {
        With {
            known,
            digest,
            text,
        }
    }
}

impl<'a, A: Allocator> Blocks for With<'a, A> {
    ghost use Rattle.checked_blocks.specs.CheckedBlocks.{known_blocks};

    ghost held = { known_blocks };

    fn get(&self, digest: Digest) -> Option<&[u8]> {
        match self.known.get(digest) {
            Some(text) => Some(text),
            None if digest == self.digest => Some(self.text),
            None => None,
        }
    }
}
