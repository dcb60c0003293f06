//! What a client holds of blocks: one that was checked is held, all are let go once nothing is under way, and what was
//! laid out goes into the cache.

ghost use Rattle.std.specs.Prelude.{◌≡◌, ◌<◌, ◌≤◌, OnErr, OnOk, map};
ghost use Rattle.std.specs.Vec.{vec_items};
ghost use Rattle.layout.specs.Hash.{hash};
ghost use Rattle.checked_blocks.specs.CheckedBlocks.{TakesUp, holding};
ghost use Rattle.client_verify.specs.Holding.{HoldsMeanwhile, LaysOut, is_under_way as under_way, with_cache};
ghost use Rattle.client_verify.specs.State.{over};

use crate::client::Client;
use checked_blocks::{CheckedBlocks, MOST_CACHED};
use layout::{Digest, Memory};
use leaf_ledger::Device;
use std::alloc::Allocator;

/// Holds a copy of a text whose digest was computed, and the blocks of the cache that were read. After an error the
/// blocks are as before.
pub(crate) fn hold<A: Allocator + Copy>(
    alloc: A,
    blocks: &mut CheckedBlocks<A>,
    digest: Digest,
    text: &[u8],
) -> Result<(), Memory>
    requires { digest ≡ hash text.now }
    ensures taken { OnOk result (TakesUp (holding blocks.old text.now) blocks.new) }
    ensures err { OnErr result (blocks.new ≡ blocks.old) }
{
    let copy = Vec::from_slice(alloc, text)?;
    blocks.hold(digest, copy)
}

impl<L: Device, J: Device, A: Allocator + Copy> Client<L, J, A> {
    /// Whether a reply is under check or a look under way.
    fn is_under_way(&self) -> bool
        ensures { result ≡ under_way self.now }
    {
        if self.wants() {
            return true;
        }
        self.looking()
    }

    /// Lets the blocks go that are held, where nothing is under way.
    pub(crate) fn let_blocks_go(&mut self)
        ensures over { self.new ≡ over self.new.blocks self.old }
        ensures held { HoldsMeanwhile self.old.blocks self.new }
    {
        if self.is_under_way() {
            return;
        }
        self.blocks.let_go();
    }

    /// Puts copies of texts that were laid out into the cache, but not while something is under way. One that memory
    /// refuses is left out.
    pub(crate) fn lay_out(&mut self, laid: &[Vec<u8, A>])
        ensures over { self.new ≡ over self.new.blocks self.old }
        ensures kept { LaysOut self.old (map vec_items laid.now) self.new.blocks }
    {
        if self.is_under_way() {
            return;
        }
        self.blocks.keep(laid);
    }

    /// Changes how many blocks the cache may have, at first 1,024: 1 to 4,096. The most recently used stay, as many as
    /// fit; while a reply is under check or a look under way, all stay until that ends. It can't fail.
    pub fn cache(&mut self, capacity: usize)
        requires some { 0 < capacity }
        requires fits { capacity ≤ MOST_CACHED }
        ensures { self.new ≡ with_cache capacity self.old }
    {
        if self.is_under_way() {
            self.blocks.cache_later(capacity);
            return;
        }
        self.blocks.cache(capacity);
    }
}
