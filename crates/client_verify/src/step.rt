//! What a client asks for next.

use layout::Digest;
use reply_rules::Rule;
use std::alloc::Allocator;

/// What a client asks for, having judged what was handed in.
#[derive(Drop)]
pub enum Step<A: Allocator> {
    /// The block of this digest.
    Need(Digest),
    /// That these new blocks be stored: the reply breaks no rule.
    Store(Vec<Vec<u8, A>, A>),
    /// Nothing: this rule is the first that the reply, or the block that was handed in, breaks.
    Broken(Rule),
}
