//! The blocks that a client knows.

ghost use Rattle.std.specs.Prelude.{◌≡◌, ◌<◌, ◌≤◌, ◌^◌, [], true, None, IfOk, IsOk, OnOk, OnErr, IsOkAnd, is_some};
ghost use Rattle.std.specs.Prelude.{length, map, vec_len};
ghost use Rattle.std.specs.Option.{option_copied};
ghost use Rattle.std.specs.Vec.{vec_items};
ghost use Rattle.layout.specs.Hash.{hash};
ghost use Rattle.checked_blocks.specs.CheckedBlocks.{AreChecked, Keeps, LetsGo, TakesUp, at_first, holding};
ghost use Rattle.checked_blocks.specs.CheckedBlocks.{known_blocks, knowing, text_at, with_capacity};
ghost use Rattle.checked_blocks.specs.CheckedBlocks.{with_capacity_later};

use crate::cache::{
    Cache, HeldBlocks, digests_read, hold_and_move, move_all, put_all_back, put_copies,
};
use client_tree::Held;
use indexmap::IndexMap;
use layout::{Digest, Memory};
use lru::LruCache;
use std::alloc::Allocator;
use std::cell::Cell;
use std::marker::Model;
use std::num::NonZeroUsize;
use tree_parts::Blocks;

/// How many blocks a cache may have at the most.
pub const MOST_CACHED: usize = 4_096;

/// How many blocks the cache may have at first.
pub const CACHED_AT_FIRST: usize = 1_024;

/// The blocks that a client knows: those of the beginning, for good; those that are held while a reply is under check
/// or a look under way; and in a cache the most recently used of those that were checked before. Each text is looked up
/// by its digest.
#[derive(Drop)]
pub struct CheckedBlocks<A: Allocator> {
    first: Held<A>,
    held: HeldBlocks<A>,
    cache: Cache<A>,
    // How many blocks the cache may have once no block is held.
    capacity: NonZeroUsize,
    // Whether a block of the cache may have been read since the last `take_up`.
    was_read: Cell<bool>,
}

impl<A: Allocator> Model for CheckedBlocks<A> {
    ghost use Rattle.std.specs.NonZero.{non_zero_usize_get};
    ghost use Rattle.checked_blocks.specs.CheckedBlocks.{AreChecked, CheckedBlocks, checked_blocks};

    ghost Value = { CheckedBlocks };

    ghost view = { λ k. checked_blocks k.first k.held.entries k.cache.entries (non_zero_usize_get k.capacity) };

    ghost invariant = { λ k. AreChecked (checked_blocks k.first k.held.entries k.cache.entries
        (non_zero_usize_get k.capacity)) };
}

impl<A: Allocator> Blocks for CheckedBlocks<A> {
    ghost use Rattle.checked_blocks.specs.CheckedBlocks.{known_blocks};

    ghost held = { known_blocks };

    fn get(&self, digest: Digest) -> Option<&[u8]> {
        match self.first.get(digest) {
            Some(text) => Some(text),
            None => match self.held.get(&digest) {
                Some(text) => Some(text.text()),
                None => self.read(digest),
            },
        }
    }
}

impl<A: Allocator> CheckedBlocks<A> {
    /// The text of a digest in the cache, if it is there. It counts as read.
    fn read(&self, digest: Digest) -> Option<&[u8]>
        ensures { option_copied result ≡ text_at self.now.cached digest }
    {
        match self.cache.peek(&digest) {
            Some(text) => {
                text.mark_read();
                self.was_read.set(true);
                Some(text.text())
            }
            None => None,
        }
    }
}

impl<A: Allocator + Copy> CheckedBlocks<A> {
    /// The blocks of the beginning, and an empty cache for 1,024 blocks, which takes no room before it is needed.
    pub fn new(alloc: A, first: Held<A>) -> Result<CheckedBlocks<A>, Memory>
        ensures { IfOk result (λ k. k ≡ at_first first) }
    {
        first.type_invariant();
        let Some(capacity) = NonZeroUsize::new(CACHED_AT_FIRST) else {
            unreachable!()
        };
        let cache = LruCache::sparse(alloc, capacity)?;
        Ok(CheckedBlocks {
            first,
            held: IndexMap::new(alloc),
            cache,
            capacity,
            was_read: Cell::new(false),
        })
    }

    /// How many blocks are held.
    pub fn held_len(&self) -> usize
        ensures len { result ≡ length self.now.held }
        ensures small { result < 2 ^ 63 }
    {
        self.held.len()
    }

    /// How many blocks the cache has.
    pub fn cached_len(&self) -> usize
        ensures { result ≡ length self.now.cached }
    {
        self.cache.len()
    }

    /// How many blocks the cache may have once no block is held.
    pub fn capacity(&self) -> usize
        ensures capacity { result ≡ self.now.capacity }
        ensures some { 0 < result }
    {
        self.capacity.get()
    }

    /// What is true of them at all times. For the proofs of callers: it does nothing.
    pub fn type_invariant(&self)
        ensures { AreChecked self.now }
    {
        let _blocks = &self.first;
    }

    /// Whether a text of the digest is known. It counts as read.
    fn knows(&self, digest: Digest) -> bool
        ensures { result ≡ is_some (known_blocks self.now digest) }
    {
        self.get(digest).is_some()
    }

    /// The digests of the blocks of the cache that were read since the last time, the least recently used first.
    fn digests_read(&self) -> Result<Vec<Digest, A>, Memory>
        ensures none { self.now.cached ≡ [] → IsOkAnd result (λ digests. vec_len digests ≡ 0) }
    {
        let alloc = *self.cache.allocator();
        if self.cache.is_empty() || !self.was_read.get() {
            return Ok(Vec::new(alloc));
        }
        digests_read(alloc, &self.cache)
    }

    /// Holds a text that was checked, whose digest was computed, until the held blocks are let go, and as `take_up`
    /// does the blocks of the cache that were read since. Where its digest is known, the text that is known stays, and
    /// counts as read. After an error all is as before.
    pub fn hold(&mut self, digest: Digest, text: Vec<u8, A>) -> Result<(), Memory>
        requires { digest ≡ hash text.items }
        ensures taken { OnOk result (TakesUp (holding self.old text.items) self.new) }
        ensures known { OnOk result (known_blocks self.new ≡ knowing (known_blocks self.old) text.items) }
        // A text that wasn't known is one more that is held.
        ensures more { known_blocks self.old digest ≡ None → OnOk result (length self.old.held < length self.new.held) }
        // It takes no memory where the text is known, and the cache has none that could have been read.
        ensures as_it_is { is_some (known_blocks self.old digest) ≡ true → self.old.cached ≡ [] → IsOk result }
        ensures err { OnErr result (self.new ≡ self.old) }
    {
        let is_known = self.knows(digest);
        let digests = self.digests_read()?;
        self.held.reserve(digests.len() + usize::from(!is_known))?;
        hold_and_move(
            &mut self.held,
            &mut self.cache,
            is_known,
            digest,
            text,
            digests,
        );
        self.was_read.set(false);
        Ok(())
    }

    /// Holds the blocks of the cache too that were read since the last time, so that nothing drops them before the held
    /// ones are let go. After an error all is as before, and they still count as read.
    pub fn take_up(&mut self) -> Result<(), Memory>
        ensures taken { OnOk result (TakesUp self.old self.new) }
        // It takes no memory where the cache has none that could have been read.
        ensures as_it_is { self.old.cached ≡ [] → IsOk result }
        ensures err { OnErr result (self.new ≡ self.old) }
    {
        let digests = self.digests_read()?;
        self.held.reserve(digests.len())?;
        move_all(&mut self.held, &mut self.cache, digests);
        self.was_read.set(false);
        Ok(())
    }

    /// Puts the held blocks into the cache, the newest as the most recently used, after it took up those that were read
    /// since. One that memory refuses is left out.
    pub fn let_go(&mut self)
        ensures { LetsGo self.old self.new }
    {
        // Where memory refuses it, the blocks that were read since keep their places.
        let _refused = self.take_up();
        self.cache.resize(self.capacity);
        put_all_back(&mut self.held, &mut self.cache);
    }

    /// Puts copies of texts into the cache, the last as the most recently used. One that memory refuses is left out.
    pub fn keep(&mut self, texts: &[Vec<u8, A>])
        ensures { Keeps self.old (map vec_items texts.now) self.new }
    {
        self.cache.resize(self.capacity);
        put_copies(&mut self.cache, texts);
    }

    /// Changes how many blocks the cache may have: 1 to 4,096. The most recently used stay, as many as fit. It can't
    /// fail.
    pub fn cache(&mut self, capacity: usize)
        requires some { 0 < capacity }
        requires fits { capacity ≤ MOST_CACHED }
        ensures { self.new ≡ with_capacity capacity self.old }
    {
        let Some(capacity) = NonZeroUsize::new(capacity) else {
            unreachable!()
        };
        self.capacity = capacity;
        self.cache.resize(capacity);
    }

    /// Changes how many blocks the cache may have from the moment on when the held ones are let go: 1 to 4,096. Nothing
    /// is forgotten before. It can't fail.
    pub fn cache_later(&mut self, capacity: usize)
        requires some { 0 < capacity }
        requires fits { capacity ≤ MOST_CACHED }
        ensures { self.new ≡ with_capacity_later capacity self.old }
    {
        let Some(capacity) = NonZeroUsize::new(capacity) else {
            unreachable!()
        };
        self.capacity = capacity;
    }
}
