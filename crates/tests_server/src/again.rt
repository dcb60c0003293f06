//! One user's operation over a connection, call by call, each of which comes again.

use crate::requests::joined;
use crate::serving::Host;
use crate::talks::{Talk, serve_talks};
use crate::texts::{Taken, operations};
use crate::users::with_users;
use lms_sign::PublicKey;
use server_workers::OpenGate;
use std::net::{Net, TcpListener, TcpStream};
use std::sync::atomic::AtomicBool;

/// How many bytes the frame of a certificate without changes has, and that of the lists which are replied.
const UPDATE: usize = 5 + 2_550;

const LISTS: usize = 5 + 2_608;

/// The log has the event of each but once: 01, 2,550 and so many bytes, 02, 2,595 and so many.
fn has_each_once<R: Host>(rt: &R, log: &[u8]) {
    assert_eq!(rt; log.len(), 5155);
    assert!(rt; log.starts_with(b"\x01\0\0\x09\xf6SUC1"), "the certificate");
    let rest = log.get(2555..).expect(rt, "so many bytes");
    assert!(rt; rest.starts_with(b"\x02\0\0\x0a\x23SVS1"), "the structure");
}

/// The UPDATE of an operation comes three times, and its COMMIT twice: each time the same is replied.
fn come_again<R: Host + Net<Listener = TcpListener, Stream = TcpStream>>(
    rt: &R,
    pinned: PublicKey,
    taken: &Taken,
) {
    let (update, commit) = taken.requests.split_at_checked(UPDATE).expect(rt, "two");
    let (lists, nothing) = taken.replies.split_at_checked(LISTS).expect(rt, "two");
    assert!(rt; nothing == b"\0\0\0\x01\0".as_slice(), "committed");
    let requests = joined(rt, &[update, update, update, commit, commit]);
    let replies = joined(rt, &[lists, lists, lists, nothing, nothing]);
    let talk = Talk {
        requests: &requests,
        replies: &replies,
        answered: &AtomicBool::new(false),
    };
    let served = serve_talks(rt, &OpenGate, 1, pinned, talk);
    assert_eq!(rt; served.answered, 5);
    assert!(rt; served.flushed, "flushed");
    has_each_once(rt, &served.log);
}

#[test]
fn calls_that_come_again(rt: HostRuntime) {
    with_users(&rt, 0, |user, _| {
        let taken = operations(&rt, user, &[], 1);
        come_again(&rt, user.public(), &taken);
    });
}
