//! Blocks that are kept in front of a transport, over replies in memory.

use connection::MemoryConnection;
use kept_blocks::{Keeping, KeptBlocks, MOST_BLOCKS, MOST_BYTES};
use layout::{Digest, Text};
use std::alloc::Global;
use std::process::Abort;
use transport::{Ahead, Framed, Request, Transport};
use wire::RequestKind;

/// The digest of `abc`, as FIPS 180-4 has it.
const ABC: [u8; 32] = [
    0xba, 0x78, 0x16, 0xbf, 0x8f, 0x01, 0xcf, 0xea, 0x41, 0x41, 0x40, 0xde, 0x5d, 0xae, 0x22, 0x23,
    0xb0, 0x03, 0x61, 0xa3, 0x96, 0x17, 0x7a, 0x9c, 0xb4, 0x10, 0xff, 0x61, 0xf2, 0x00, 0x15, 0xad,
];

/// The digest of no bytes.
const NO_BYTES: [u8; 32] = [
    0xe3, 0xb0, 0xc4, 0x42, 0x98, 0xfc, 0x1c, 0x14, 0x9a, 0xfb, 0xf4, 0xc8, 0x99, 0x6f, 0xb9, 0x24,
    0x27, 0xae, 0x41, 0xe4, 0x64, 0x9b, 0x93, 0x4c, 0xa4, 0x95, 0x99, 0x1b, 0x78, 0x52, 0xb8, 0x55,
];

/// The reply that has `abc`.
static ABC_REPLY: &[u8] = b"\0\0\0\x04\0abc";

/// The body of that reply.
static ABC_BODY: &[u8] = b"\0abc";

/// A digest that is none of a text here.
fn digest_at(place: u8) -> Digest {
    Digest::from_bytes([place; 32])
}

/// What a request comes to over a transport: the body of its reply, or nothing.
fn asked<T: Transport<Global>>(
    transport: &mut T,
    kind: RequestKind,
    payload: &[u8],
    ahead: &Ahead<'_, Global>,
) -> Option<Vec<u8>> {
    transport
        .exchange_ahead(&Request::new(kind, payload), ahead)
        .ok()
}

/// Whether the block of `abc` is had over a transport whose server answers so many times.
fn has_abc<T: Transport<Global>>(transport: &mut T) -> bool {
    match asked(transport, RequestKind::Get, &ABC, &Ahead::Nothing) {
        Some(body) => body.as_slice() == ABC_BODY,
        None => false,
    }
}

#[test]
fn the_text_of_kept_blocks(rt: HostRuntime) {
    let mut kept = KeptBlocks::empty(rt.alloc());
    let none = kept.text(rt.alloc()).expect(&rt, "memory");
    assert!(rt; none.as_slice() == b"SKB1\0\0".as_slice(), "no blocks");
    kept.keep(Digest::from_bytes(ABC), b"abc")
        .expect(&rt, "memory");
    let text = kept.text(rt.alloc()).expect(&rt, "memory");
    let tag = text.get(..6).expect(&rt, "a tag and a count");
    let digest = text.get(6..38).expect(&rt, "a digest");
    let bytes = text.get(38..).expect(&rt, "a size and bytes");
    assert!(rt; tag == b"SKB1\0\x01".as_slice(), "the tag and the count");
    assert!(rt; digest == ABC.as_slice(), "the digest");
    assert!(rt; bytes == b"\0\x03abc".as_slice(), "the size and the bytes");
    let again: KeptBlocks<Global> = KeptBlocks::read(rt.alloc(), &text).expect(&rt, "its text");
    assert!(rt; again.text_of(&ABC) == Some(b"abc".as_slice()), "the block");
    assert!(rt; again.text_of(&NO_BYTES).is_none(), "another one");
}

/// What stands under a digest that it hasn't is never handed out, and doesn't hide what has it.
#[test]
fn what_has_another_digest_is_not_found(rt: HostRuntime) {
    let mut kept = KeptBlocks::empty(rt.alloc());
    kept.keep(Digest::from_bytes(ABC), b"abd")
        .expect(&rt, "memory");
    assert!(rt; kept.text_of(&ABC).is_none(), "a text that was changed");
    kept.keep(digest_at(1), b"abc").expect(&rt, "memory");
    assert!(rt; kept.text_of(&ABC).is_none(), "a digest that was changed");
    kept.keep(Digest::from_bytes(ABC), b"abc")
        .expect(&rt, "memory");
    assert!(rt; kept.text_of(&ABC) == Some(b"abc".as_slice()), "the block");
}

/// Of more than 64 blocks the oldest goes, and one of more than 32,779 bytes isn't kept.
#[test]
fn the_newest_are_kept(rt: HostRuntime) {
    let mut kept = KeptBlocks::empty(rt.alloc());
    kept.keep(Digest::from_bytes(ABC), b"abc")
        .expect(&rt, "memory");
    for place in 1..MOST_BLOCKS {
        kept.keep(digest_at(place as u8), b"").expect(&rt, "memory");
    }
    let long = Vec::from_elem(rt.alloc(), 0, MOST_BYTES + 1).expect(&rt, "memory");
    kept.keep(digest_at(0xff), &long).expect(&rt, "memory");
    assert!(rt; kept.text_of(&ABC).is_some(), "the first of 64");
    kept.keep(Digest::from_bytes(NO_BYTES), b"")
        .expect(&rt, "memory");
    assert!(rt; kept.text_of(&ABC).is_none(), "the first of 65");
    assert!(rt; kept.text_of(&NO_BYTES).is_some(), "the last");
}

/// How many bytes are sent to a server that answers so, where `abc` is stored, if a text is ahead of which there are
/// these, and its block is asked for then.
fn sent(
    rt: &(impl Abort + Alloc<A = Global>),
    replies: &[u8],
    ahead: Option<&Ahead<'_, Global>>,
) -> usize {
    let mut output = Vec::new(rt.alloc());
    let connection = MemoryConnection::new(replies, 64, &mut output);
    let framed = Framed::new(rt.alloc(), connection).expect(rt, "memory");
    let mut keeping = Keeping::new(framed, KeptBlocks::empty(rt.alloc()));
    if let Some(ahead) = ahead {
        let stored = asked(&mut keeping, RequestKind::Put, b"abc", ahead);
        assert!(rt; stored.is_some(), "it is stored");
    }
    assert!(rt; has_abc(&mut keeping), "it is had");
    assert!(rt; has_abc(&mut keeping), "it is had again");
    let (framed, kept) = keeping.into_parts();
    assert!(rt; framed.faults() == 0, "the faults");
    let _connection = framed.into_connection();
    assert!(rt; kept.text_of(&ABC).is_some(), "it is kept");
    output.len()
}

/// The frames of a request that stores `abc`, and of one that asks for its block.
const PUT_SIZE: usize = 4 + 1 + 3;

const GET_SIZE: usize = 4 + 1 + 32;

/// A block that was got or stored isn't asked for again; one that was stored as one of many is asked for once.
#[test]
fn a_block_is_asked_for_once(rt: HostRuntime) {
    let mut replies = Vec::from_slice(rt.alloc(), b"\0\0\0\x21\0").expect(&rt, "memory");
    replies.extend_from_slice(&ABC).expect(&rt, "memory");
    replies.extend_from_slice(ABC_REPLY).expect(&rt, "memory");
    let mut many: Vec<Vec<u8>> = Vec::new(rt.alloc());
    for _ in 0..17 {
        many.push(Vec::new(rt.alloc())).expect(&rt, "memory");
    }
    let got = sent(&rt, ABC_REPLY, None);
    assert!(rt; got == GET_SIZE, "got");
    let stored = sent(&rt, &replies, Some(&Ahead::Nothing));
    assert!(rt; stored == PUT_SIZE, "stored");
    let sixteen = many.get(..16).expect(&rt, "so many texts");
    let few = sent(&rt, &replies, Some(&Ahead::Puts(sixteen)));
    assert!(rt; few == PUT_SIZE, "one of a few");
    let one_of_many = sent(&rt, &replies, Some(&Ahead::Puts(&many)));
    assert!(rt; one_of_many == PUT_SIZE + GET_SIZE, "one of many");
}
