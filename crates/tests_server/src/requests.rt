//! Requests over memory, each stream cut in pieces of several sizes, and more connections than are served.

ghost use Rattle.std.specs.Iterator.{at_most};

use crate::serving::{Host, Left, key, serve_all};
use connection::MemoryConnection;
use lms_sign::PublicKey;
use server_workers::OpenGate;
use std::alloc::Global;
use std::io::Write;
use std::process::Abort;
use std::slice::IterMut;

/// Puts these pieces after others.
pub(crate) fn append(rt: &(impl Alloc<A = Global> + Abort), bytes: &mut Vec<u8>, pieces: &[&[u8]]) {
    for piece in pieces {
        bytes.extend_from_slice(piece).expect(rt, "memory");
    }
}

/// The pieces, one after another.
pub(crate) fn joined(rt: &(impl Alloc<A = Global> + Abort), pieces: &[&[u8]]) -> Vec<u8> {
    let mut bytes = Vec::new(rt.alloc());
    append(rt, &mut bytes, pieces);
    bytes
}

/// Puts the frame of this kind or status, and what comes with it, after others.
pub(crate) fn put_frame(
    rt: &(impl Alloc<A = Global> + Abort),
    frames: &mut Vec<u8>,
    head: u8,
    payload: &[u8],
) {
    let [.., a, b, c, d] = payload.len().wrapping_add(1).to_be_bytes();
    append(rt, frames, &[&[a, b, c, d, head], payload]);
}

/// The SHA-256 of no bytes (FIPS 180-4's own vector).
pub(crate) const EMPTY: [u8; 32] =
    *b"\xe3\xb0\xc4\x42\x98\xfc\x1c\x14\x9a\xfb\xf4\xc8\x99\x6f\xb9\x24\
    \x27\xae\x41\xe4\x64\x9b\x93\x4c\xa4\x95\x99\x1b\x78\x52\xb8\x55";

/// No such kind; a digest of 31 bytes; the empty block put, and got; a digest that no block has.
pub(crate) const REQUESTS: &[u8] = b"\0\0\0\x01\x05\
    \0\0\0\x20\x04\0\0\0\0\0\0\0\0\0\0\0\0\0\0\0\0\0\0\0\0\0\0\0\0\0\0\0\0\0\0\0\
    \0\0\0\x01\x03\
    \0\0\0\x21\x04\xe3\xb0\xc4\x42\x98\xfc\x1c\x14\x9a\xfb\xf4\xc8\x99\x6f\xb9\x24\
    \x27\xae\x41\xe4\x64\x9b\x93\x4c\xa4\x95\x99\x1b\x78\x52\xb8\x55\
    \0\0\0\x21\x04\0\0\0\0\0\0\0\0\0\0\0\0\0\0\0\0\0\0\0\0\0\0\0\0\0\0\0\0\0\0\0\0";

/// What they are replied.
pub(crate) const REPLIES: &[u8] = b"\0\0\0\x01\x01\0\0\0\x01\x01\
    \0\0\0\x21\0\xe3\xb0\xc4\x42\x98\xfc\x1c\x14\x9a\xfb\xf4\xc8\x99\x6f\xb9\x24\
    \x27\xae\x41\xe4\x64\x9b\x93\x4c\xa4\x95\x99\x1b\x78\x52\xb8\x55\
    \0\0\0\x01\0\0\0\0\x01\x08";

/// Connections that come one by one, each of the same bytes in pieces of one size and with an output of its own, and
/// how many came.
#[derive(Drop)]
struct Offered<'a> {
    input: &'a [u8],
    /// The size of the pieces, or 0 for that of 1.
    piece: usize,
    outputs: IterMut<'a, Vec<u8>>,
    left: u32,
    taken: &'a mut u32,
}

impl<'a> Offered<'a> {
    /// At most a hundred, of which none came yet.
    fn new(
        input: &'a [u8],
        piece: usize,
        outputs: &'a mut Vec<Vec<u8>>,
        taken: &'a mut u32,
    ) -> Offered<'a> {
        Offered {
            input,
            piece,
            outputs: outputs.iter_mut(),
            left: 100,
            taken,
        }
    }
}

impl<'a> Iterator for Offered<'a> {
    type Item = MemoryConnection<'a>;

    ghost remaining = { λ s. at_most s.left };

    fn next(&mut self) -> Option<MemoryConnection<'a>> {
        if self.left == 0 {
            return None;
        }
        self.left -= 1;
        *self.taken = self.taken.saturating_add(1);
        let output = self.outputs.next()?;
        Some(MemoryConnection::new(self.input, self.piece.max(1), output))
    }
}

/// Offers connections of the same bytes in such pieces, one for each output, to a server of at most so many: what is
/// left of it, and how many it took.
pub(crate) fn offer<R: Host, W: Write + Drop + Send>(
    rt: &R,
    input: &[u8],
    piece: usize,
    outputs: &mut Vec<Vec<u8>>,
    most: u32,
    pinned: PublicKey,
    writer: W,
) -> (Left<W>, u32) {
    let mut taken = 0;
    let connections = Offered::new(input, piece, outputs, &mut taken);
    let served = serve_all(rt, &OpenGate, connections, most, pinned, writer);
    (served, taken)
}

/// So many empty outputs.
pub(crate) fn outputs<R: Host>(rt: &R, count: usize) -> Vec<Vec<u8>> {
    let mut outputs = Vec::new(rt.alloc());
    for _number in 0..count {
        outputs.push(Vec::new(rt.alloc())).expect(rt, "memory");
    }
    outputs
}

/// How many connections come, how many are served at most, and how often one is taken.
type Counts = (usize, u32, u32);

/// One connection, which is served.
const ONE: Counts = (1, 1, 1);

/// Connections of these bytes in such pieces: those that are served are replied this, and the others nothing. Of their
/// requests so many are calls, and nothing is logged.
fn are_replied<R: Host>(
    rt: &R,
    (count, most, wanted_taken): Counts,
    input: &[u8],
    piece: usize,
    wanted: &[u8],
    calls: u64,
) {
    let mut outputs = outputs(rt, count);
    let log = Vec::new(rt.alloc());
    let (served, taken) = offer(rt, input, piece, &mut outputs, most, key(rt), log);
    assert_eq!(rt; taken, wanted_taken);
    assert_eq!(rt; (served.answered, served.unserved), (calls, 0));
    assert_eq!(rt; served.calls as u64, calls);
    assert!(rt;
        served.flushed && served.log.is_empty(),
        "nothing was logged"
    );
    for (number, output) in outputs.iter().enumerate() {
        let wanted: &[u8] = if number < most as usize { wanted } else { b"" };
        assert!(rt;
            output.as_slice() == wanted,
            "connection {number} of {count}, {most} at most, pieces of {piece}"
        );
    }
}

#[test]
fn requests_over_memory(rt: HostRuntime) {
    for piece in [1usize, 5, 36, 1000] {
        are_replied(&rt, ONE, REQUESTS, piece, REPLIES, 0);
    }
}

/// After a request that no text follows, a length of 0, and of 2,097,153, ends the conversation: a request after it
/// isn't read any more.
#[test]
fn a_length_at_fault_ends_it(rt: HostRuntime) {
    for length in [b"\0\0\0\0", b"\0\x20\0\x01"] {
        let input = joined(&rt, &[b"\0\0\0\x01\x01", length, b"\0\0\0\x01\x03"]);
        are_replied(&rt, ONE, &input, 1000, b"\0\0\0\x01\x01", 1);
    }
}

/// A request of a digest that no block has: cut at any byte it gets no reply.
#[test]
fn a_cut_request_gets_no_reply(rt: HostRuntime) {
    let input = joined(&rt, &[b"\0\0\0\x21\x04", &[0; 32]]);
    for cut in 0..input.len() {
        are_replied(&rt, ONE, &input[..cut], 3, b"", 0);
    }
    are_replied(&rt, ONE, &input, 3, b"\0\0\0\x01\x08", 0);
}

static COUNTS: [Counts; 6] = [
    (3, 2, 2),
    (3, 0, 0),
    (8, 8, 8),
    (9, 8, 8),
    (8, 1, 1),
    (20, 20, 20),
];

/// The empty block is put over each connection.
#[test]
fn connections_past_the_most_stay(rt: HostRuntime) {
    let wanted = joined(&rt, &[b"\0\0\0\x21\0", &EMPTY]);
    for counts in &COUNTS {
        are_replied(&rt, *counts, b"\0\0\0\x01\x03", 7, &wanted, 0);
    }
    // The third time none came.
    are_replied(&rt, (2, 5, 3), b"\0\0\0\x01\x05", 7, b"\0\0\0\x01\x01", 0);
}
