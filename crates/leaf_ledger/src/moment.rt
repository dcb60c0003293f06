//! What a text is after a call.

use crate::extent::Extent;
use std::alloc::Allocator;

/// What a text is after a call, and what the call wrote: nothing, where it was a sync.
#[derive(Drop)]
pub(crate) struct Moment<A: Allocator> {
    pub(crate) text: Vec<u8, A>,
    pub(crate) written: Option<Extent>,
}
