//! What a client sees.

use client_tree::SeenKind;
use directory::Directory;
use layout::{Digest, INumber};
use reply_rules::Rule;
use std::alloc::Allocator;

/// What a client is told of its accepted view, or what it asks for to tell it.
#[derive(Drop)]
pub enum Look<A: Allocator> {
    /// The block of this digest is asked for.
    Need(Digest),
    /// A file of these bytes.
    File(Vec<u8, A>),
    /// This directory.
    Dir(Directory<A>),
    /// Nothing stands there.
    None,
    /// Of this kind and size is what stands there.
    Kind(SeenKind),
    /// Nothing stands at this i-number, which is the least of those that were asked about, or something at each of
    /// them.
    Free(Option<INumber>),
    /// The block that was handed in breaks this rule.
    Broken(Rule),
}
