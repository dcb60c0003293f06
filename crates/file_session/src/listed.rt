//! The blocks that a look is likely to ask for next. A hint: no contract rests on it.

use itable::Inode;
use layout::{Digest, Text, put_in};
use std::alloc::Allocator;

/// The blocks that the last i-node lists, of which those up to the one that was asked for last are passed.
#[derive(Drop)]
pub(crate) struct Listed<A: Allocator> {
    inode: Option<Inode<A>>,
    passed: usize,
}

impl<A: Allocator + Copy> Listed<A> {
    /// None is listed.
    pub(crate) fn new() -> Listed<A> {
        Listed {
            inode: None,
            passed: 0,
        }
    }

    /// Those that are listed after this one, which is passed then.
    pub(crate) fn after(&mut self, digest: &[u8; 32]) -> &[Digest] {
        let Some(inode) = &self.inode else {
            return &[];
        };
        let left = inode.blocks().get(self.passed..).unwrap_or_default();
        let Some(place) = left.iter().position(|block| block.as_bytes() == digest) else {
            return &[];
        };
        self.passed = self.passed.saturating_add(place).saturating_add(1);
        left.get(place.saturating_add(1)..).unwrap_or_default()
    }

    /// A block came. Where it is an i-node, the blocks that it lists come next.
    pub(crate) fn hear(&mut self, alloc: A, block: Option<&[u8]>) {
        if let Some(text) = block
            && let Ok(inode) = Inode::read(alloc, text)
        {
            put_in(&mut self.inode, Some(inode));
            self.passed = 0;
        }
    }
}
