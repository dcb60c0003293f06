//! The log as it is written: the records of long texts, and writers that fail.

ghost use Rattle.std.specs.Prelude.{◌≤◌, length};

use crate::requests::{append, joined, offer, outputs};
use crate::serving::Host;
use crate::talks::{Talk, serve_talks};
use crate::texts::{Taken, operations};
use crate::users::with_users;
use lms_sign::PublicKey;
use server_workers::OpenGate;
use std::alloc::Global;
use std::io::{self, ErrorKind, Write};
use std::net::{Net, TcpListener, TcpStream};
use std::sync::atomic::AtomicBool;

/// A writer that takes a few bytes at a time, each time after it was interrupted, and fails once: where it holds so
/// many bytes. From then on it takes whatever comes.
#[derive(Drop)]
struct Failing {
    bytes: Vec<u8>,
    left: usize,
    has_failed: bool,
    is_interrupted: bool,
}

impl Write for Failing {
    fn write(&mut self, bytes: &[u8]) -> io::Result<usize> {
        self.is_interrupted = !self.is_interrupted;
        if self.is_interrupted {
            return Err(ErrorKind::Interrupted.into());
        }
        let mut count = bytes.len().min(700);
        if !self.has_failed {
            count = count.min(self.left);
            self.left -= count;
            if count == 0 {
                self.has_failed = true;
                return Err(ErrorKind::StorageFull.into());
            }
        }
        self.bytes.extend_from_slice(&bytes[..count])?;
        Ok(count)
    }

    fn flush(&mut self) -> io::Result<()> {
        Ok(())
    }
}

/// Sixteen users are listed.
fn sixteen_users<R: Host>(rt: &R) -> Vec<u8> {
    let mut changes = joined(rt, &[&[16]]);
    for user in 1..=16u8 {
        let row: [&[u8]; 2] = [&[6, user, 0, 0, 0, 6, 0, 0, 0, 3], &[user; 48]];
        append(rt, &mut changes, &row);
    }
    changes
}

/// Sixteen names of 255 bytes are linked.
fn sixteen_names<R: Host>(rt: &R) -> Vec<u8> {
    let mut changes = joined(rt, &[&[16]]);
    for letter in b'a'..=b'p' {
        let row: [&[u8]; 3] = [&[4, 0, 0, 2, 255], &[letter; 255], &[0, 0, 3]];
        append(rt, &mut changes, &row);
    }
    changes
}

/// Serves the four texts of these requests once more, with a log whose writer fails at so many bytes: what was written
/// of the log, and whether all of it was.
fn written<R: Host>(rt: &R, requests: &[u8], pinned: PublicKey, left: usize) -> (Vec<u8>, bool) {
    let writer = Failing {
        bytes: Vec::new(rt.alloc()),
        left,
        has_failed: false,
        is_interrupted: false,
    };
    let mut outputs = outputs(rt, 1);
    let (served, _taken) = offer(rt, requests, 1000, &mut outputs, 1, pinned, writer);
    assert_eq!(rt; (served.answered, served.unserved), (4, 0));
    (served.log.bytes, served.flushed)
}

/// How many bytes the writer takes before it fails.
static FAILING_AT: [usize; 11] = [
    0, 1, 5, 6, 3_482, 3_483, 3_484, 6_000, 6_083, 12_840, 15_445,
];

/// A beginning of the log is written up to where the writer fails, and nothing afterwards, though it would take it.
fn log_ends_at_the_fault<R: Host>(rt: &R, requests: &[u8], pinned: PublicKey, log: &[u8]) {
    for left in &FAILING_AT {
        let (bytes, is_whole) = written(rt, requests, pinned, *left);
        assert!(rt; !is_whole, "failed at {left}");
        assert!(rt;
            Some(bytes.as_slice()) == log.get(..*left),
            "what was written up to {left}"
        );
    }
    let (bytes, is_whole) = written(rt, requests, pinned, log.len());
    assert!(rt; is_whole, "it never failed");
    assert!(rt; bytes.as_slice() == log, "the whole log");
}

/// Where the log has a record, and how this begins: its kind, and the size of the text, which are 3,478, 2,595, 6,758
/// and 2,595 bytes.
static RECORDS: [(usize, &[u8; 5]); 4] = [
    (0, b"\x01\0\0\x0d\x96"),
    (3_483, b"\x02\0\0\x0a\x23"),
    (6_083, b"\x01\0\0\x1a\x66"),
    (12_846, b"\x02\0\0\x0a\x23"),
];

/// The log has the records of four texts of these sizes.
fn has_records<R: Host>(rt: &R, log: &[u8]) {
    for (place, head) in &RECORDS {
        let found = log.get(*place..place.saturating_add(5));
        assert!(rt; found == Some(head.as_slice()), "the record at {place}");
    }
    assert_eq!(rt; log.len(), 15_446);
}

/// These calls come over TCP, and their records are the log. Then they come over memory, with writers that fail.
fn are_logged<R: Host + Net<Listener = TcpListener, Stream = TcpStream>>(
    rt: &R,
    pinned: PublicKey,
    taken: &Taken,
) {
    has_records(rt, &taken.log);
    let talk = Talk {
        requests: &taken.requests,
        replies: &taken.replies,
        answered: &AtomicBool::new(false),
    };
    let served = serve_talks(rt, &OpenGate, 1, pinned, talk);
    assert!(rt; served.flushed, "flushed");
    assert!(rt; served.log == taken.log, "the log");
    log_ends_at_the_fault(rt, &taken.requests, pinned, &taken.log);
}

/// A user lists sixteen users, and then links sixteen names.
#[test]
fn long_records_and_writers_that_fail(rt: HostRuntime) {
    with_users(&rt, 0, |user, _| {
        let (users, names) = (sixteen_users(&rt), sixteen_names(&rt));
        let taken = operations(&rt, user, &[&users, &names], 2);
        are_logged(&rt, user.public(), &taken);
    });
}
