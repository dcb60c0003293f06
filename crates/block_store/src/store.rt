//! Blocks that threads share.

ghost use Rattle.std.specs.Prelude.{◌≡◌, ◌≢◌, ◌≤◌, ◌<◌, length, Err, IfOk, IfErr, IfSome};
ghost use Rattle.layout.specs.Hash.{hash};
ghost use Rattle.block_store.specs.Blocks.{IsOwn, IsOf, IsStoredAs};
ghost use Rattle.block_store.specs.declared.error.StoreError.TheVariants as store_error;

use crate::block::{Block, Own};
use crate::error::StoreError;
use crate::index::{Index, room_of};
use crate::pass::BlockPass;
use boxcar::tag::Tag;
use layout::{Digest, Memory, digest};
use std::alloc::Allocator;
use std::marker::Model;
use std::sync::{Mutex, Wait};

/// The most bytes that a stored block has: the i-node of a largest file.
pub const BLOCK_LIMIT: usize = 32_779;

/// Blocks, each at its number for good, and their numbers by digest. A put and a search take a lock, a read doesn't.
#[derive(Drop)]
pub struct Store<A: Allocator> {
    alloc: A,
    blocks: boxcar::Vec<Block<A>, A, Own>,
    index: Mutex<Index<A>>,
}

impl<A: Allocator> Model for Store<A> {
    ghost use Rattle.boxcar.specs.Table.{Shelves, shelves_coded};

    ghost Value = { Shelves };

    ghost coded = { shelves_coded };

    ghost view = { λ s. s.blocks };
}

impl<A: Allocator + Copy> Store<A> {
    /// No blocks, and room for as many as memory has.
    pub fn new(alloc: A) -> Result<Store<A>, Memory> {
        Store::with_room(alloc, u64::MAX)
    }

    /// No blocks, and so many bytes of room for them. A block takes its bytes and 256 more.
    pub fn with_room(alloc: A, room: u64) -> Result<Store<A>, Memory> {
        Ok(Store {
            alloc,
            blocks: boxcar::Vec::with_rule(alloc, Tag::empty())?,
            index: Mutex::new(Index::new(alloc, room)),
        })
    }

    /// Stores a block of at most 32,779 bytes, and gives its pass. Of one that is stored already the pass is that of
    /// the stored one. After Full and Memory the store is as before.
    pub fn put<R: Wait>(&self, rt: &R, bytes: &[u8]) -> Result<BlockPass<A>, StoreError>
        ensures of { IfOk result (λ pass. IsOf self.now pass) }
        ensures text { IfOk result (λ pass. pass.value.text ≡ bytes.now) }
        ensures digest { IfOk result (λ pass. pass.value.digest ≡ hash bytes.now) }
        ensures too_large { BLOCK_LIMIT < length bytes.now → result ≡ Err store_error.TooLarge }
        ensures only { IfErr result (λ e. e ≡ store_error.TooLarge → BLOCK_LIMIT < length bytes.now) }
    {
        if bytes.len() > BLOCK_LIMIT {
            return Err(StoreError::TooLarge);
        }
        self.put_under(rt, digest(bytes), bytes)
    }

    /// The pass of the stored block of a digest. None where no block of it is stored.
    pub fn find<R: Wait>(&self, rt: &R, digest: Digest) -> Option<BlockPass<A>>
        ensures of { IfSome result (λ pass. IsOf self.now pass) }
        ensures digest { IfSome result (λ pass. pass.value.digest ≡ digest) }
        ensures own { IfSome result (λ pass. hash pass.value.text ≡ digest) }
        ensures small { IfSome result (λ pass. length pass.value.text ≤ BLOCK_LIMIT) }
    {
        let number = self.index.lock(rt).number_of(digest)?;
        let pass = self.pass_at(number)?;
        if pass.digest() == digest {
            Some(pass)
        } else {
            None
        }
    }

    /// A copy of the stored block of a digest. None where no block of it is stored.
    pub fn fetch<R: Wait>(&self, rt: &R, digest: Digest) -> Result<Option<Vec<u8, A>>, StoreError>
        ensures own { IfOk result (λ found. IfSome found (λ block. hash block.items ≡ digest)) }
        ensures small { IfOk result (λ found. IfSome found (λ block. length block.items ≤ BLOCK_LIMIT)) }
        // Memory is wanted for a copy alone.
        ensures memory { IfErr result (λ e. (e ≡ store_error.Memory) × IsStoredAs self.now digest) }
    {
        let Some(pass) = self.find(rt, digest) else {
            return Ok(None);
        };
        match Vec::from_slice(self.alloc, self.get_by_pass(&pass)) {
            Ok(copy) => Ok(Some(copy)),
            Err(_) => Err(StoreError::Memory),
        }
    }

    /// The bytes of the block of a pass.
    pub fn get_by_pass<'a>(&'a self, pass: &BlockPass<A>) -> &'a [u8]
        requires { IsOf self.now pass.now }
        ensures { result.now ≡ pass.now.value.text }
    {
        self.blocks.value(&pass.place).text()
    }

    /// The pass of the block of a number. None where no block has it.
    pub fn pass_at(&self, number: usize) -> Option<BlockPass<A>>
        ensures of { IfSome result (λ pass. IsOf self.now pass) }
        ensures index { IfSome result (λ pass. pass.index ≡ number) }
        ensures own { IfSome result (λ pass. hash pass.value.text ≡ pass.value.digest) }
        ensures small { IfSome result (λ pass. length pass.value.text ≤ BLOCK_LIMIT) }
    {
        let place = self.blocks.witness(number)?;
        let block = self.blocks.get_seen(number, &place)?;
        Some(BlockPass {
            digest: block.digest(),
            place,
        })
    }

    /// The bytes of the block of a number, and its pass. None where no block has it.
    pub fn get_at(&self, index: usize) -> Option<(BlockPass<A>, &[u8])>
        ensures of { IfSome result (λ found. IsOf self.now found.0) }
        ensures index { IfSome result (λ found. found.0.index ≡ index) }
        ensures bytes { IfSome result (λ found. found.1.now ≡ found.0.value.text) }
        ensures own { IfSome result (λ found. hash found.1.now ≡ found.0.value.digest) }
        ensures small { IfSome result (λ found. length found.1.now ≤ BLOCK_LIMIT) }
    {
        let pass = self.pass_at(index)?;
        let bytes = self.get_by_pass(&pass);
        Some((pass, bytes))
    }

    /// A law: two passes of one number are of one block. The call does nothing.
    pub fn agree(&self, a: &BlockPass<A>, b: &BlockPass<A>)
        requires { IsOf self.now a.now × IsOf self.now b.now × (a.now.index ≡ b.now.index) }
        ensures { a.now.value ≡ b.now.value }
    {
        self.blocks.agrees(&a.place, &b.place);
    }

    /// Stores a block under its digest, unless it is stored already.
    fn put_under<R: Wait>(
        &self,
        rt: &R,
        digest: Digest,
        bytes: &[u8],
    ) -> Result<BlockPass<A>, StoreError>
        requires own { IsOwn (record { digest = digest; text = bytes.now }) }
        ensures of { IfOk result (λ pass. IsOf self.now pass) }
        ensures text { IfOk result (λ pass. pass.value.text ≡ bytes.now) }
        ensures digest { IfOk result (λ pass. pass.value.digest ≡ digest) }
        ensures only { IfErr result (λ e. e ≢ store_error.TooLarge) }
    {
        let mut guard = self.index.lock(rt);
        let index = &mut *guard;
        if let Some(number) = index.number_of(digest)
            && let Some(pass) = self.pass_with(number, bytes)
        {
            return Ok(pass);
        }
        let room = room_of(bytes.len());
        index.reserve(digest, room)?;
        match self.push(rt, digest, bytes) {
            Ok(pass) => {
                index.settle(digest, pass.index(), room);
                Ok(pass)
            }
            Err(error) => {
                index.withdraw(digest);
                Err(StoreError::from(error))
            }
        }
    }

    /// Stores a copy of a block after the others.
    fn push<R: Wait>(&self, rt: &R, digest: Digest, bytes: &[u8]) -> Result<BlockPass<A>, Memory>
        requires { IsOwn (record { digest = digest; text = bytes.now }) }
        ensures of { IfOk result (λ pass. IsOf self.now pass) }
        ensures text { IfOk result (λ pass. pass.value.text ≡ bytes.now) }
        ensures digest { IfOk result (λ pass. pass.value.digest ≡ digest) }
    {
        let text = Vec::from_slice(self.alloc, bytes)?;
        match self.blocks.push_shown(rt, Block::new(digest, text)) {
            Ok(place) => Ok(BlockPass { digest, place }),
            Err(_) => Err(Memory),
        }
    }

    /// The pass of the block of a number, where it has these bytes.
    fn pass_with(&self, number: usize, bytes: &[u8]) -> Option<BlockPass<A>>
        ensures { IfSome result (λ pass. IsOf self.now pass × IsOwn pass.value × (pass.value.text ≡ bytes.now)) }
    {
        let pass = self.pass_at(number)?;
        if self.get_by_pass(&pass) == bytes {
            Some(pass)
        } else {
            None
        }
    }
}
