//! A transport in front of which blocks are kept.

ghost use Rattle.std.specs.Prelude.{◌≡◌, ◌==◌, IfOk, IsSome, OnErr, Some, None, length, option_map, if◌then◌else◌};
ghost use Rattle.std.specs.Vec.{vec_items};
ghost use Rattle.wire.specs.Frame.{reply_body, reply_of};
ghost use Rattle.wire.specs.declared.kinds.Status.TheVariants.{Ok as Fine};
ghost use Rattle.kept_blocks.specs.Keeping.{MayKeep, block_told, block_under, text_for};

use crate::blocks::KeptBlocks;
use layout::{Digest, Memory};
use std::alloc::Allocator;
use transport::{Ahead, Request, Transport, TransportError};
use wire::{RequestKind, Status, reply_of};

/// How many requests may come ahead of a reply where its block is kept. Of a large file's blocks only the last are.
const MOST_AHEAD: usize = 16;

/// A transport, and blocks that were got or stored over it or before. A block that is kept isn't asked for again.
#[derive(Drop)]
pub struct Keeping<T, A: Allocator> {
    transport: T,
    kept: KeptBlocks<A>,
}

impl<T, A: Allocator> Keeping<T, A> {
    /// This transport, with these blocks in front of it.
    pub fn new(transport: T, kept: KeptBlocks<A>) -> Keeping<T, A>
        ensures transport { result.transport ≡ transport }
        ensures kept { result.kept ≡ kept }
    {
        Keeping { transport, kept }
    }

    /// Its transport, and the blocks that are kept by now.
    pub fn into_parts(self) -> (T, KeptBlocks<A>)
        ensures { result ≡ (self.transport, self.kept) }
    {
        let Keeping { transport, kept } = self;
        (transport, kept)
    }
}

/// The digest that 32 bytes are.
fn digest_of(bytes: &[u8]) -> Option<Digest>
    ensures { result ≡ (if length bytes.now == 32 then Some bytes.now else None) }
{
    if bytes.len() != 32 {
        return None;
    }
    let mut copy = [0; 32];
    copy.copy_from_slice(bytes);
    Some(Digest::from_bytes(copy))
}

/// The body of the reply that has this text.
fn reply_with<A: Allocator>(alloc: A, text: &[u8]) -> Result<Vec<u8, A>, Memory>
    ensures { IfOk result (λ body. body.items ≡ reply_body Fine text.now) }
{
    let mut body = Vec::with_capacity(alloc, text.len().saturating_add(1))?;
    body.push(Status::Ok.number())?;
    body.extend_from_slice(text)?;
    Ok(body)
}

/// The text that a request asks for, if it is kept.
fn text_for<'a, A: Allocator>(kept: &'a KeptBlocks<A>, request: &Request<'_>) -> Option<&'a [u8]>
    ensures { option_map (λ text. text.now) result ≡ text_for request.now.kind request.now.payload kept.now }
{
    match request.kind() {
        RequestKind::Get => kept.text_of(request.payload()),
        RequestKind::Update | RequestKind::Commit | RequestKind::Put | RequestKind::Sync => None,
    }
}

/// The reply to a request for a block that is kept.
fn kept_reply<A: Allocator + Copy>(
    kept: &KeptBlocks<A>,
    request: &Request<'_>,
) -> Result<Option<Vec<u8, A>>, Memory>
    ensures ok { IfOk result (λ found. option_map vec_items found
        ≡ option_map (reply_body Fine) (text_for request.now.kind request.now.payload kept.now)) }
    ensures err { OnErr result (IsSome (text_for request.now.kind request.now.payload kept.now)) }
{
    match text_for(kept, request) {
        Some(text) => Ok(Some(reply_with(kept.alloc(), text)?)),
        None => Ok(None),
    }
}

/// Keeps a text under a digest, if that is one and there is memory for it.
fn keep<A: Allocator + Copy>(kept: &mut KeptBlocks<A>, digest: &[u8], text: &[u8])
    ensures { MayKeep (block_under digest.now text.now) kept.old kept.new }
{
    if let Some(digest) = digest_of(digest) {
        let _ = kept.keep(digest, text);
    }
}

/// Keeps the block of which a reply tells, if it tells of one.
fn keep_told<A: Allocator + Copy>(kept: &mut KeptBlocks<A>, request: &Request<'_>, body: &[u8])
    ensures { MayKeep (block_told request.now.kind request.now.payload (reply_of body.now)) kept.old kept.new }
{
    let Some((Status::Ok, payload)) = reply_of(body) else {
        return;
    };
    match request.kind() {
        RequestKind::Get => keep(kept, request.payload(), payload),
        RequestKind::Put => keep(kept, payload, request.payload()),
        RequestKind::Update | RequestKind::Commit | RequestKind::Sync => (),
    }
}

/// Whether a request is one of many.
fn is_one_of_many<A: Allocator>(ahead: &Ahead<'_, A>) -> bool {
    match ahead {
        Ahead::Nothing => false,
        Ahead::Puts(texts) => texts.len() > MOST_AHEAD,
        Ahead::Gets(digests) => digests.len() > MOST_AHEAD,
    }
}

impl<T: Transport<A>, A: Allocator + Copy> Transport<A> for Keeping<T, A> {
    ghost use Rattle.kept_blocks.specs.Keeping.{IsAnswered};
    ghost use Rattle.kept_blocks.specs.KeepingLaws.{never_less, fault_rises};

    ghost answers = { λ before asked result now.
        IsAnswered T.answers asked result before.transport now.transport before.kept now.kept };

    ghost fault_count = { λ k. T.fault_count k.transport };

    fn exchange(&mut self, request: &Request<'_>) -> Result<Vec<u8, A>, TransportError> {
        self.exchange_ahead(request, &Ahead::Nothing)
    }

    fn exchange_ahead(
        &mut self,
        request: &Request<'_>,
        ahead: &Ahead<'_, A>,
    ) -> Result<Vec<u8, A>, TransportError> {
        if let Some(body) = kept_reply(&self.kept, request)? {
            return Ok(body);
        }
        let body = self.transport.exchange_ahead(request, ahead)?;
        if !is_one_of_many(ahead) {
            keep_told(&mut self.kept, request, &body);
        }
        Ok(body)
    }

    fn faults(&self) -> u64 {
        self.transport.faults()
    }

    ghost later = { λ t r x u did. never_less T.answers T.fault_count T.later t.transport r x u.transport t.kept u.kept
        did };

    ghost rose = { λ t r u did. fault_rises T.answers T.fault_count T.rose t.transport r u.transport t.kept u.kept did };
}
