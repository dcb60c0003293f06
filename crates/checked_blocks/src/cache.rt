//! A cache of blocks by digest, and what goes from there among the held blocks and back.

ghost use Rattle.std.specs.Prelude.{◌≡◌, ◌⊎◌, ◌+◌, ◌<◌, ◌≤◌, [], if◌then◌else◌, length, map, vec_len};
ghost use Rattle.std.specs.Vec.{vec_items};
ghost use Rattle.layout.specs.Hash.{hash};
ghost use Rattle.indexmap.specs.IndexMap.{spare};
ghost use Rattle.checked_blocks.specs.CheckedBlocks.{AreCopied, ArePut, IsPut, with_digest};
ghost use Rattle.checked_blocks.specs.Moves.{AreOfTexts, IsPart, Moved, with_last};

use crate::digests::digests_of_texts;
use indexmap::IndexMap;
use layout::{Digest, Memory};
use lru::{DefaultHasher, LruCache};
use std::alloc::Allocator;
use std::cell::Cell;
use std::marker::Model;
use std::mem;

/// A text, and whether it was read since it went into the cache. A clause sees the text alone.
#[derive(Drop)]
pub(crate) struct MarkedText<A: Allocator> {
    text: Vec<u8, A>,
    was_read: Cell<bool>,
}

impl<A: Allocator> Model for MarkedText<A> {
    ghost use Rattle.layout.specs.Types.{Bytes};

    ghost Value = { Bytes };

    ghost view = { λ t. t.text.items };
}

impl<A: Allocator> MarkedText<A> {
    /// A text that wasn't read yet.
    pub(crate) fn new(text: Vec<u8, A>) -> MarkedText<A>
        ensures { result ≡ text.items }
    {
        MarkedText {
            text,
            was_read: Cell::new(false),
        }
    }

    /// The same text, as one that wasn't read yet.
    fn unread(self) -> MarkedText<A>
        ensures { result ≡ self }
    {
        self.was_read.set(false);
        self
    }

    /// From now on it was read.
    pub(crate) fn mark_read(&self) {
        self.was_read.set(true);
    }

    fn was_read(&self) -> bool {
        self.was_read.get()
    }

    /// The text.
    pub(crate) fn text(&self) -> &[u8]
        ensures { result.now ≡ self.now }
    {
        &self.text
    }
}

/// The blocks that are held, the newest last.
pub(crate) type HeldBlocks<A> = IndexMap<Digest, MarkedText<A>, DefaultHasher, A>;

/// The blocks that were checked before, the most recently used first.
pub(crate) type Cache<A> = LruCache<Digest, MarkedText<A>, DefaultHasher, A>;

/// The digests of the blocks that were read, the least recently used first.
pub(crate) fn digests_read<A: Allocator + Copy>(
    alloc: A,
    cache: &Cache<A>,
) -> Result<Vec<Digest, A>, Memory> {
    let mut digests = Vec::new(alloc);
    for (digest, text) in cache.iter().rev() {
        if text.was_read() {
            digests.push(*digest)?;
        }
    }
    Ok(digests)
}

/// Holds a block behind the others where its digest isn't among them. There is room for it.
fn push<A: Allocator>(held: &mut HeldBlocks<A>, digest: Digest, text: MarkedText<A>)
    requires { 0 < spare held.old }
    ensures held { held.new.entries ≡ with_last held.old.entries digest text }
    ensures room { spare held.old ≤ spare held.new + 1 }
{
    if held.contains_key(&digest) {
        return;
    }
    match held.insert(digest, text) {
        Ok(_) => {}
        Err(_) => unreachable!(),
    }
}

/// Moves the block of a digest from the cache behind the held ones, if it is there. There is room for it.
fn move_one<A: Allocator>(held: &mut HeldBlocks<A>, cache: &mut Cache<A>, digest: Digest)
    requires { 0 < spare held.old }
    ensures moved { Moved held.old.entries cache.old.entries held.new.entries cache.new.entries }
    ensures capacity { cache.new.cap ≡ cache.old.cap }
    ensures room { spare held.old ≤ spare held.new + 1 }
{
    match cache.pop_entry(&digest) {
        Some((digest, text)) => push(held, digest, text),
        None => {}
    }
}

/// Moves the blocks of these digests from the cache behind the held ones, each if it is there. There is room for them.
pub(crate) fn move_all<A: Allocator>(
    held: &mut HeldBlocks<A>,
    cache: &mut Cache<A>,
    digests: Vec<Digest, A>,
)
    requires { vec_len digests ≤ spare held.old }
    ensures moved { Moved held.old.entries cache.old.entries held.new.entries cache.new.entries }
    ensures capacity { cache.new.cap ≡ cache.old.cap }
{
    for digest in digests {
        move_one(held, cache, digest);
    }
}

/// Holds a text behind the others, but where it is known, and moves the blocks of these digests from the cache behind
/// it. There is room for them.
pub(crate) fn hold_and_move<A: Allocator>(
    held: &mut HeldBlocks<A>,
    cache: &mut Cache<A>,
    is_known: bool,
    digest: Digest,
    text: Vec<u8, A>,
    digests: Vec<Digest, A>,
)
    requires { vec_len digests + (if is_known then 0 else 1) ≤ spare held.old }
    ensures moved { Moved (if is_known then held.old.entries else with_last held.old.entries digest text.items)
        cache.old.entries held.new.entries cache.new.entries }
    ensures capacity { cache.new.cap ≡ cache.old.cap }
{
    if is_known {
        move_all(held, cache, digests);
        return;
    }
    push(held, digest, MarkedText::new(text));
    move_all(held, cache, digests);
}

/// Puts a block into the cache as one that wasn't read, or lets it go where memory refuses it.
fn put<A: Allocator + Clone>(cache: &mut Cache<A>, digest: Digest, text: MarkedText<A>)
    ensures put { IsPut cache.old.cap cache.old.entries (digest, text) cache.new.entries }
    ensures capacity { cache.new.cap ≡ cache.old.cap }
{
    match cache.put(digest, text.unread()) {
        Ok(_) => {}
        Err(_) => {}
    }
}

/// Puts blocks into the cache, the last as the most recently used. One that memory refuses is left out.
fn put_back<A: Allocator + Copy>(cache: &mut Cache<A>, held: HeldBlocks<A>)
    ensures put { ArePut cache.old.cap held.entries cache.old.entries cache.new.entries }
    ensures part { IsPart held.entries cache.old.entries cache.new.entries }
    ensures capacity { cache.new.cap ≡ cache.old.cap }
{
    for block in held {
        let (digest, text) = block;
        put(cache, digest, text);
    }
}

/// Puts all held blocks into the cache, the last as the most recently used. One that memory refuses is left out.
pub(crate) fn put_all_back<A: Allocator + Copy>(held: &mut HeldBlocks<A>, cache: &mut Cache<A>)
    ensures put { ArePut cache.old.cap held.old.entries cache.old.entries cache.new.entries }
    ensures part { IsPart held.old.entries cache.old.entries cache.new.entries }
    ensures empty { held.new.entries ≡ [] }
    ensures capacity { cache.new.cap ≡ cache.old.cap }
    ensures few { length cache.new.entries ≤ cache.old.cap }
{
    let alloc = *cache.allocator();
    let left = mem::replace(held, IndexMap::new(alloc));
    put_back(cache, left);
    // No more than it may have.
    let _size = cache.len();
}

/// Puts a copy of a text, whose digest was computed, into the cache, or leaves it out where memory refuses it.
fn put_copy<A: Allocator + Copy>(cache: &mut Cache<A>, digest: Digest, text: &[u8])
    requires { digest ≡ hash text.now }
    ensures put { (cache.new.entries ≡ cache.old.entries)
        ⊎ IsPut cache.old.cap cache.old.entries (with_digest text.now) cache.new.entries }
    ensures capacity { cache.new.cap ≡ cache.old.cap }
{
    let alloc = *cache.allocator();
    match Vec::from_slice(alloc, text) {
        Ok(copy) => put(cache, digest, MarkedText::new(copy)),
        Err(_) => {}
    }
}

/// Puts copies of texts into the cache, the last as the most recently used. One that memory refuses is left out, and
/// all are where it refuses their digests.
pub(crate) fn put_copies<A: Allocator + Copy>(cache: &mut Cache<A>, texts: &[Vec<u8, A>])
    ensures put { AreCopied cache.old.cap (map vec_items texts.now) cache.old.entries cache.new.entries }
    ensures of_texts { AreOfTexts (map vec_items texts.now) cache.old.entries cache.new.entries }
    ensures capacity { cache.new.cap ≡ cache.old.cap }
    ensures few { length cache.new.entries ≤ cache.old.cap }
{
    // No more than it may have.
    let _size = cache.len();
    let alloc = *cache.allocator();
    let Ok(digests) = digests_of_texts(alloc, texts) else {
        return;
    };
    for place in 0..texts.len() {
        put_copy(cache, digests[place], &texts[place]);
    }
    let _size = cache.len();
}
