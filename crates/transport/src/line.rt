//! Requests that were sent ahead of the reply that is waited for.

ghost use Rattle.std.specs.Prelude.{◌≡◌, IfSome};
ghost use Rattle.wire.specs.Frame.{frame, request as body_of};

use crate::transport::Request;
use std::alloc::Allocator;
use std::collections::VecDeque;
use wire::request_frame;

/// How many requests are sent ahead at most, and how many bytes their frames have together: a mebibyte of blocks with
/// what comes before each. The replies to those that have a block, and the requests for blocks, are few bytes: so no
/// server waits for its replies to be taken while it is still written to.
pub(crate) const MOST_AHEAD: usize = 256;

const MOST_BYTES: usize = 1_056_768;

/// The frames of requests that were sent ahead, in order.
#[derive(Drop)]
pub(crate) struct Line<A: Allocator> {
    frames: VecDeque<Vec<u8, A>, A>,
    bytes: usize,
}

impl<A: Allocator + Copy> Line<A> {
    /// Nothing was sent ahead.
    pub(crate) fn new(alloc: A) -> Line<A> {
        Line {
            frames: VecDeque::new(alloc),
            bytes: 0,
        }
    }

    /// How many there are.
    pub(crate) fn len(&self) -> usize {
        self.frames.len()
    }

    /// Takes the first one.
    pub(crate) fn pop(&mut self) -> Option<Vec<u8, A>> {
        let first = self.frames.pop_front()?;
        self.bytes = self.bytes.saturating_sub(first.len());
        Some(first)
    }

    /// A request comes last, where there is room and memory for it: its frame.
    pub(crate) fn push(&mut self, request: &Request<'_>) -> Option<&[u8]>
        ensures { IfSome result (λ bytes. bytes.now ≡ frame.spell (body_of request.now.kind request.now.payload)) }
    {
        let payload = request.payload();
        let room = MOST_BYTES.saturating_sub(self.bytes);
        if self.frames.len() >= MOST_AHEAD || payload.len() >= room {
            return None;
        }
        self.frames.reserve(1).ok()?;
        let frame = request_frame(*self.frames.allocator(), request.kind(), payload).ok()?;
        self.bytes = self.bytes.saturating_add(frame.len());
        self.frames.push_back_reserved(frame);
        Some(self.frames.back()?)
    }
}
