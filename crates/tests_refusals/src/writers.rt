//! The log of user 0's first certificate and structure, whose writer fails after each number of bytes.

ghost use Rattle.std.specs.Prelude.{◌≡◌, [], true};
ghost use Rattle.crossbeam_queue.specs.Passes.{IsPassOf, ruled_capacity};
ghost use Rattle.server_workers.specs.Hands.{hand, hand_of};

use crate::here::Here;
use crate::served::{COMMIT, UPDATE, first_calls, log_of};
use crate::stored::Host;
use block_store::Store;
use connection::MemoryConnection;
use lms_sign::PublicKey;
use server_workers::{
    CallPass, CallQueue, Ended, Flusher, OpenGate, ServerName, Shared, converse, empty_queue,
};
use std::alloc::Global;
use std::io::{self, ErrorKind, Write};
use std::marker::Brand;
use std::sync::ledger::{Blank, Ledger};
use tests_aids::check;
use tests_aids::texts::{joined, key_of};

/// A writer that fails once, where it was given so many bytes. From then on it takes whatever comes.
#[derive(Drop)]
struct Failing {
    bytes: Vec<u8>,
    left: usize,
}

impl Write for Failing {
    fn write(&mut self, bytes: &[u8]) -> io::Result<usize> {
        if self.left == 0 {
            self.left = usize::MAX;
            return Err(ErrorKind::StorageFull.into());
        }
        let count = bytes.len().min(self.left);
        self.left -= count;
        self.bytes.extend_from_slice(&bytes[..count])?;
        Ok(count)
    }

    fn flush(&mut self) -> io::Result<()> {
        Ok(())
    }
}

/// Has these requests answered over an empty queue, and flushes its log to this writer, twice.
fn flush_to<B: ServerName, L: Ledger, W: Write + Drop, R: Host>(
    rt: &R,
    queue: &CallQueue<Global>,
    pass: CallPass<Global>,
    blank: Blank,
    store: &Store<Global>,
    pinned: PublicKey,
    requests: &[u8],
    writer: W,
) -> (Ended, W)
    requires queue { IsPassOf queue.now pass × (pass.table_id ≡ B.queue) × (ruled_capacity queue.now ≡ 1024) }
    requires first { hand_of pass ≡ hand true true [] [] }
    requires server { (W.contents writer ≡ B.before) × (pinned ≡ B.pinned) }
    requires name { blank.name ≡ L.name }
    requires parts { (blank.parts ≡ L.parts) × (blank.parts ≡ 1) }
{
    let alloc = rt.alloc();
    let (shared, mut tally, popping) = Shared::<'_, Global, B, L, R>::new(
        rt, alloc, queue, pass, blank, store, pinned,
    );
    let mut flusher = Flusher::<'_, Global, B, R, W>::new(rt, queue, popping, writer);
    let mut replies = Vec::new(alloc);
    let mut connection = MemoryConnection::new(requests, 4096, &mut replies);
    let ended = converse(rt, &mut connection, &shared, &OpenGate, &mut tally, &mut ());
    flusher.flush();
    flusher.flush();
    (ended, flusher.into_writer())
}

/// The same over a queue of its own.
fn flushed<W: Write + Drop, R: Host>(
    rt: &R,
    pinned: PublicKey,
    requests: &[u8],
    writer: W,
) -> (Ended, W) {
    let alloc = rt.alloc();
    let store = Store::new(alloc).expect(rt, "memory");
    let (queue, pass) = empty_queue(alloc).expect(rt, "memory");
    let blank = Blank::new(1);
    flush_to::<Brand, Brand, W, R>(rt, &queue, pass, blank, &store, pinned, requests, writer)
}

/// What is written of the log where the writer fails after so many bytes.
fn written<R: Host>(rt: &R, pinned: PublicKey, requests: &[u8], left: usize) -> Vec<u8> {
    let bytes = Vec::new(rt.alloc());
    let (ended, writer) = flushed(rt, pinned, requests, Failing { bytes, left });
    check(&(rt, Here), ended == Ended::End, "all of it is answered");
    let Failing { bytes, .. } = writer;
    bytes
}

/// The log of the two calls has 5,155 bytes: of each its kind, the size of its text, and the text.
#[test]
fn a_writer_fails_after_each_number_of_bytes(rt: HostRuntime) {
    let host = &(&rt, Here);
    let (update, commit) = first_calls(host);
    let log = log_of(host, &update, &commit);
    check(host, log.len() == 5_155, "the size of the log");
    let requests = joined(host, &[UPDATE, &update, COMMIT, &commit]);
    let pinned = key_of(host, 0).public();
    for left in 0..=log.len() {
        let bytes = written(&rt, pinned, &requests, left);
        let wanted = log.get(..left) == Some(bytes.as_slice());
        check(host, wanted, "the first bytes of the log");
    }
}
