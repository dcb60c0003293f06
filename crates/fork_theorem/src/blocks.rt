//! The stored blocks of a script.

use block_store::{Store, StoreError};
use layout::{Digest, Memory};
use std::alloc::Allocator;
use std::sync::Wait;

/// The store of blocks, which each server of a script and each client uses.
#[derive(Drop)]
pub(crate) struct StoredBlocks<'a, R: Wait, A: Allocator> {
    rt: &'a R,
    store: Store<A>,
}

impl<'a, R: Wait, A: Allocator + Copy> StoredBlocks<'a, R, A> {
    /// No blocks.
    pub(crate) fn new(rt: &'a R, alloc: A) -> Result<StoredBlocks<'a, R, A>, Memory> {
        let store = Store::new(alloc)?;
        Ok(StoredBlocks { rt, store })
    }

    /// Stores these texts, up to one that is larger than a block may be: whether there is none.
    pub(crate) fn put_all(&self, texts: &[Vec<u8, A>]) -> Result<bool, Memory> {
        for text in texts {
            match self.store.put(self.rt, text) {
                Ok(_) => {}
                Err(StoreError::TooLarge) => return Ok(false),
                Err(StoreError::Full | StoreError::Memory) => return Err(Memory),
            }
        }
        Ok(true)
    }

    /// The stored block of a digest.
    pub(crate) fn get(&self, digest: Digest) -> Option<&[u8]> {
        let pass = self.store.find(self.rt, digest)?;
        Some(self.store.get_by_pass(&pass))
    }
}
