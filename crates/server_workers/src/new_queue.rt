//! A queue for the commit log.

ghost use Rattle.std.specs.Prelude.{◌≡◌, [], true, IfOk};
ghost use Rattle.crossbeam_queue.specs.Passes.{IsPassOf, ruled_capacity};
ghost use Rattle.server_workers.specs.Hands.{hand, hand_of};

use crate::call_queue::{CallPass, CallQueue, QUEUE_ROOM};
use layout::Memory;
use std::alloc::Allocator;

/// A queue with nothing in it, and its pass, which may push and pop.
pub fn empty_queue<A: Allocator + Copy>(alloc: A) -> Result<(CallQueue<A>, CallPass<A>), Memory>
    ensures { IfOk result (λ made. IsPassOf made.0 made.1 × (ruled_capacity made.0 ≡ QUEUE_ROOM)
        × (hand_of made.1 ≡ hand true true [] [])) }
{
    let (queue, pass) = CallQueue::<A>::ruled(alloc, QUEUE_ROOM)?;
    Ok((queue, pass))
}
