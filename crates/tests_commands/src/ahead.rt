//! Requests that go ahead of replies, over a connection that doesn't tell its bytes.

use connection::{Connection, ConnectionFault, MemoryConnection};
use std::alloc::Global;
use std::process::Abort;
use transport::{Ahead, Framed, Request, Transport, TransportError};
use wire::RequestKind;

/// A connection in memory that doesn't tell its bytes.
#[derive(Drop)]
struct Quiet<'a> {
    inner: MemoryConnection<'a>,
}

impl<'a> Connection for Quiet<'a> {
    ghost use Rattle.std.specs.Prelude.{None, length, nat_eq};

    ghost told = { λ _. None };

    ghost is_at_end = { λ q. nat_eq q.inner.given (length q.inner.input.now) };

    ghost fault_count = { λ q. q.inner.faults };

    fn read(&mut self, buffer: &mut [u8]) -> Result<usize, ConnectionFault> {
        self.inner.read(buffer)
    }

    fn write(&mut self, bytes: &[u8]) -> Result<(), ConnectionFault> {
        self.inner.write(bytes)
    }

    fn faults(&self) -> u64 {
        self.inner.faults()
    }
}

/// A letter that is no text: that what was stored is to be kept.
const SYNC: u8 = b'.';

/// How many replies come, the exchanges, and what was sent, in order. Reply k is the digit k, and each text one letter.
/// Of an exchange: the reply that it is answered with, or `!` where that is no frame, what is asked for, and the texts
/// that are known to be put next, after which what was stored is to be kept.
static CASES: [(usize, &[&[u8]], &[u8]); 7] = [
    // The first exchange sends all, and no later one sends any of them again.
    (1, &[b"1abc"], b"abc."),
    (4, &[b"1abc", b"2bc", b"3c", b"4."], b"abc."),
    // The reply to what isn't asked for is no other request's.
    (5, &[b"1abc", b"5d"], b"abc.d."),
    (3, &[b"1abc", b"3c"], b"abc."),
    (4, &[b"1abc", b"4."], b"abc."),
    // Where one text more comes than was known, what went ahead is sent once more.
    (5, &[b"1ab", b"2bc", b"5c"], b"ab..c."),
    // After a reply that is missing nothing is sent.
    (1, &[b"1ab", b"!b", b"!d"], b"ab."),
];

/// The frames of so many replies.
const REPLIES: &[u8] = b"\0\0\0\x011\0\0\0\x012\0\0\0\x013\0\0\0\x014\0\0\0\x015";

/// Texts of a letter each.
fn texts_of<R: Abort + Alloc<A = Global>>(rt: &R, letters: &[u8]) -> Vec<Vec<u8>> {
    let mut texts = Vec::new(rt.alloc());
    for letter in letters {
        let text = Vec::from_slice(rt.alloc(), &[*letter]).expect(rt, "memory");
        texts.push(text).expect(rt, "memory");
    }
    texts
}

/// An exchange comes to what it says.
fn exchanges<R: Abort + Alloc<A = Global>, C: Connection>(
    rt: &R,
    framed: &mut Framed<C, Global>,
    exchange: &[u8],
) {
    let (wanted, letters) = exchange.split_first().expect(rt, "what comes");
    let texts = texts_of(rt, letters);
    let (text, later) = texts.split_first().expect(rt, "a text");
    let (request, ahead) = if letters == [SYNC].as_slice() {
        (Request::new(RequestKind::Sync, &[]), Ahead::Nothing)
    } else {
        (Request::new(RequestKind::Put, text), Ahead::Puts(later))
    };
    let is_wanted = match framed.exchange_ahead(&request, &ahead) {
        Ok(body) => body.as_slice() == [*wanted].as_slice(),
        Err(error) => error == TransportError::NoFrame && *wanted == b'!',
    };
    assert!(rt; is_wanted, "the reply to {}", char::from(*wanted));
}

/// What is written are the frames that put these texts of a letter, and ask that they are kept.
fn sends<R: Abort + Alloc<A = Global>>(rt: &R, written: &[u8], letters: &[u8]) {
    let mut frames: Vec<u8> = Vec::new(rt.alloc());
    for letter in letters {
        let framed = if *letter == SYNC {
            frames.extend_from_slice(b"\0\0\0\x01\x06")
        } else {
            frames.extend_from_slice(&[0, 0, 0, 2, 3, *letter])
        };
        framed.expect(rt, "memory");
    }
    assert!(rt; written == frames.as_slice(), "sent once, and in order");
}

#[test]
fn requests_go_ahead(rt: HostRuntime) {
    for (count, steps, letters) in &CASES {
        let mut output = Vec::new(rt.alloc());
        let inner = MemoryConnection::new(&REPLIES[..5 * *count.min(&5)], 7, &mut output);
        let mut framed = Framed::going_ahead(rt.alloc(), Quiet { inner }, true).expect(
            &rt, "memory",
        );
        for step in *steps {
            exchanges(&rt, &mut framed, step);
        }
        let _connection = framed.into_connection();
        sends(&rt, &output, letters);
    }
}

/// At most 256 requests are ahead of the reply that is waited for.
#[test]
fn few_go_ahead(rt: HostRuntime) {
    let letters = [b'x'; 300];
    let texts = texts_of(&rt, &letters);
    let mut output = Vec::new(rt.alloc());
    let inner = MemoryConnection::new(REPLIES, 7, &mut output);
    let mut framed = Framed::going_ahead(rt.alloc(), Quiet { inner }, true).expect(&rt, "memory");
    let request = Request::new(RequestKind::Put, b"a");
    assert!(rt;
        framed
            .exchange_ahead(&request, &Ahead::Puts(&texts))
            .is_ok()
    );
    let _connection = framed.into_connection();
    assert_eq!(rt; output.len(), 6 * 257);
}

/// A connection that tells its bytes takes one request after another.
#[test]
fn none_goes_ahead_where_bytes_are_told(rt: HostRuntime) {
    let mut output = Vec::new(rt.alloc());
    let connection = MemoryConnection::new(REPLIES, 7, &mut output);
    let mut framed = Framed::new(rt.alloc(), connection).expect(&rt, "memory");
    exchanges(&rt, &mut framed, b"1abc");
    let _connection = framed.into_connection();
    sends(&rt, &output, b"a");
}
