//! A server that is put together by hand: a conversation over memory, and its log.

ghost use Rattle.std.specs.Prelude.{◌≡◌, [], true};
ghost use Rattle.crossbeam_queue.specs.Passes.{IsPassOf, ruled_capacity};
ghost use Rattle.server_workers.specs.Hands.{hand, hand_of};

use crate::requests::{REPLIES, REQUESTS, append, joined, put_frame};
use crate::serving::key;
use block_store::Store;
use connection::{Connection, MemoryConnection};
use layout::{digest, let_go};
use lms_sign::PublicKey;
use server_workers::{
    CallPass, CallQueue, Ended, Flusher, Gate, OpenGate, ServerName, Shared, converse, empty_queue,
};
use std::alloc::Global;
use std::io::Write;
use std::marker::Brand;
use std::process::Abort;
use std::sync::Wait;
use std::sync::atomic::{AtomicU64, Ordering};
use std::sync::ledger::{Blank, Ledger};

/// What these tests run in.
pub(crate) trait Host: Alloc<A = Global> + Abort + Wait {}

impl<R: Alloc<A = Global> + Abort + Wait> Host for R {}

/// A conversation over an empty queue, and a second one where the first comes to its end, each with a flush after it.
fn converse_twice<G: Gate, C: Connection, W: Write + Drop, B: ServerName, L: Ledger, R: Wait>(
    rt: &R,
    alloc: Global,
    gate: &G,
    queue: &CallQueue<Global>,
    pass: CallPass<Global>,
    blank: Blank,
    store: &Store<Global>,
    pinned: PublicKey,
    connection: &mut C,
    second: &mut C,
    writer: W,
) -> (Ended, u64, W)
    requires queue { IsPassOf queue.now pass × (pass.table_id ≡ B.queue) × (ruled_capacity queue.now ≡ 1024) }
    requires first { hand_of pass ≡ hand true true [] [] }
    requires server { (W.contents writer ≡ B.before) × (pinned ≡ B.pinned) }
    requires name { blank.name ≡ L.name }
    requires parts { (blank.parts ≡ L.parts) × (blank.parts ≡ 1) }
{
    let (shared, mut tally, popping) = Shared::<'_, Global, B, L, R>::new(
        rt, alloc, queue, pass, blank, store, pinned,
    );
    let mut flusher = Flusher::<'_, Global, B, R, W>::new(rt, queue, popping, writer);
    let mut ended = converse(rt, connection, &shared, gate, &mut tally, &mut ());
    flusher.flush();
    if ended == Ended::End {
        ended = converse(rt, second, &shared, gate, &mut tally, &mut ());
        flusher.flush();
    }
    (ended, tally.answered(), flusher.into_writer())
}

/// The same over a queue of its own: how the last conversation ends, how many calls are answered, and the log.
pub(crate) fn conversed<G: Gate, C: Connection, W: Write + Drop, R: Host>(
    rt: &R,
    gate: &G,
    pinned: PublicKey,
    connection: &mut C,
    second: &mut C,
    writer: W,
) -> (Ended, u64, W) {
    let alloc = rt.alloc();
    let store = Store::new(alloc).expect(rt, "memory");
    let (queue, pass) = empty_queue(alloc).expect(rt, "memory");
    let blank = Blank::new(1);
    converse_twice::<G, C, W, Brand, Brand, R>(
        rt, alloc, gate, &queue, pass, blank, &store, pinned, connection, second, writer,
    )
}

/// A conversation over these bytes, of which five come at a time, through a gate is replied this, ends like this, and
/// has so many calls answered. Nothing is logged.
fn converses_through<G: Gate, R: Host>(
    rt: &R,
    gate: &G,
    input: &[u8],
    wanted: &[u8],
    how: Ended,
    calls: u64,
) {
    let input = joined(rt, &[input]);
    let (mut output, mut rest) = (Vec::new(rt.alloc()), Vec::new(rt.alloc()));
    let mut connection = MemoryConnection::new(&input, 5, &mut output);
    let mut empty = MemoryConnection::new(&[], 5, &mut rest);
    let log = Vec::new(rt.alloc());
    let (ended, answered, log) = conversed(rt, gate, key(rt), &mut connection, &mut empty, log);
    let_go((connection, empty));
    assert_eq!(rt; (ended, answered), (how, calls));
    assert!(rt; log.is_empty(), "nothing was logged");
    assert!(rt; output.as_slice() == wanted, "the replies");
}

/// The same where no call is held up.
fn converses<R: Host>(rt: &R, input: &[u8], wanted: &[u8], how: Ended, calls: u64) {
    converses_through(rt, &OpenGate, input, wanted, how, calls);
}

/// After two requests that no text follows this comes, and the conversation ends so.
fn ends<R: Host>(rt: &R, rest: &[u8], how: Ended) {
    let input = joined(rt, &[b"\0\0\0\x01\x01\0\0\0\x01\x02", rest]);
    converses(rt, &input, b"\0\0\0\x01\x01\0\0\0\x01\x01", how, 2);
}

#[test]
fn a_conversation_by_hand(rt: HostRuntime) {
    ends(&rt, b"", Ended::End);
    ends(&rt, b"\0\0\0", Ended::End);
    ends(&rt, b"\0\0\0\0", Ended::Length);
    // 2,097,153 bytes, and a request that isn't read any more.
    ends(&rt, b"\0\x20\0\x01\0\0\0\x01\x03", Ended::Length);
    converses(&rt, b"", b"", Ended::End, 0);
    converses(&rt, b"\0\0\0\0", b"", Ended::Length, 0);
    // Blocks that are put and got, and a length at fault behind them.
    converses(&rt, REQUESTS, REPLIES, Ended::End, 0);
    let input = joined(&rt, &[REQUESTS, &[0; 4]]);
    converses(&rt, &input, REPLIES, Ended::Length, 0);
}

/// The sizes at which blocks of the file system begin or end, and those beside them.
static SIZES: [usize; 8] = [1, 999, 1_000, 4_095, 4_096, 4_097, 32_778, 32_779];

/// Sizes of blocks that are too large, up to that of the largest frame.
static TOO_LARGE: [usize; 3] = [32_780, 65_536, 2_097_151];

/// Puts of blocks of these sizes, and the replies to them, which are the digests, or that a block is too large. Behind
/// them gets of all, and their replies, which are the blocks, or that there is none.
fn are_put_and_got<R: Host>(rt: &R, sizes: &[usize], are_taken: bool) {
    let alloc = rt.alloc();
    let (mut input, mut wanted) = (Vec::new(alloc), Vec::new(alloc));
    let (mut gets, mut blocks) = (Vec::new(alloc), Vec::new(alloc));
    for size in sizes {
        let block = Vec::from_elem(alloc, 0x5a_u8, *size).expect(rt, "memory");
        let digest = digest(&block);
        put_frame(rt, &mut input, 3, &block);
        put_frame(rt, &mut gets, 4, digest.as_bytes());
        if are_taken {
            put_frame(rt, &mut wanted, 0, digest.as_bytes());
            put_frame(rt, &mut blocks, 0, &block);
        } else {
            put_frame(rt, &mut wanted, 7, b"");
            put_frame(rt, &mut blocks, 8, b"");
        }
    }
    append(rt, &mut input, &[&gets]);
    append(rt, &mut wanted, &[&blocks]);
    converses(rt, &input, &wanted, Ended::End, 0);
}

/// Blocks of all sizes are put, and then got. Larger ones are refused, and not stored.
#[test]
fn blocks_of_all_sizes_by_hand(rt: HostRuntime) {
    are_put_and_got(&rt, &SIZES, true);
    are_put_and_got(&rt, &TOO_LARGE, false);
}

/// A gate that notes the calls which pass it: their numbers are the digits of what it notes.
#[derive(Drop)]
struct Noting {
    calls: AtomicU64,
}

impl Gate for Noting {
    fn pass(&self, call: u64) {
        let before = self.calls.load(Ordering::SeqCst);
        let noted = before.wrapping_mul(10).wrapping_add(call);
        self.calls.store(noted, Ordering::SeqCst);
    }
}

/// Each UPDATE and each COMMIT passes the gate, under the next number, and no other request does.
#[test]
fn calls_pass_the_gate_in_turn(rt: HostRuntime) {
    let (mut input, mut wanted) = (Vec::new(rt.alloc()), Vec::new(rt.alloc()));
    put_frame(&rt, &mut input, 3, b"");
    put_frame(&rt, &mut wanted, 0, digest(&[]).as_bytes());
    for kind in b"\x01\x04\x01\x05\x02\0\x02\x01" {
        put_frame(&rt, &mut input, *kind, b"");
        put_frame(&rt, &mut wanted, 1, b"");
    }
    let gate = Noting {
        calls: AtomicU64::new(0),
    };
    converses_through(&rt, &gate, &input, &wanted, Ended::End, 5);
    let noted = gate.calls.load(Ordering::SeqCst);
    assert!(rt; noted == 12_345, "the numbers");
}
