//! A log that nobody empties, until it is full, and once it is emptied.

use crate::by_hand::{Host, conversed};
use crate::operations::records;
use crate::requests::{append, put_frame};
use crate::texts::{Taken, operations};
use crate::users::with_users;
use connection::MemoryConnection;
use layout::let_go;
use lms_sign::PublicKey;
use server_workers::{Ended, OpenGate};
use tests_plain_user::{PlainUser, listing};
use wire::{Status, body_of, reply_of};

/// How many operations fill the log, which has room for 1,024 calls. They take all leaves of a key, too.
const FILLING: usize = 512;

/// The number of an UPDATE.
const UPDATE: u8 = 1;

/// The status of the reply in this frame.
fn status_of<R: Host>(rt: &R, frame: &[u8]) -> Status {
    let body = body_of(frame).expect(rt, "one frame");
    let (status, _payload) = reply_of(body).expect(rt, "a reply");
    status
}

/// The calls that fill the log are replied as a server in memory does. Behind them a call of another user, the UPDATE
/// of this text, is answered Busy, twice, and once the log is emptied it isn't.
fn is_busy_while_full<R: Host>(rt: &R, pinned: PublicKey, filling: &mut Taken, update: &[u8]) {
    let mut again = Vec::new(rt.alloc());
    put_frame(rt, &mut again, UPDATE, update);
    append(rt, &mut filling.requests, &[&again, &again]);
    for _time in 0..2u8 {
        put_frame(rt, &mut filling.replies, Status::Busy.number(), b"");
    }
    let (mut output, mut last) = (Vec::new(rt.alloc()), Vec::new(rt.alloc()));
    let mut first = MemoryConnection::new(&filling.requests, 4096, &mut output);
    let mut second = MemoryConnection::new(&again, 4096, &mut last);
    let log = Vec::new(rt.alloc());
    let (ended, carried_out, log) = conversed(rt, &OpenGate, pinned, &mut first, &mut second, log);
    let_go((first, second));
    assert!(rt; ended == Ended::End, "{ended:?}");
    assert!(rt; output == filling.replies, "until it is full, and then");
    assert!(rt; status_of(rt, &last) == Status::Ok, "once it is emptied");
    assert_eq!(rt; (carried_out, records(&log)), (1025, 1025));
}

/// The same where user 0 fills the log, and lists these others first, of whom one calls then.
fn fills_a_log<R: Host>(rt: &R, superuser: &mut PlainUser, others: Vec<PlainUser>) {
    let mut others = others;
    let changes = listing(rt.alloc(), &others).expect(rt, "memory");
    let mut filling = operations(rt, superuser, &[&changes], FILLING);
    let other = others.first_mut().expect(rt, "user 1");
    let update = other.certificate(b"\0").expect(rt, "a certificate");
    is_busy_while_full(rt, superuser.public(), &mut filling, &update);
}

/// A log has room for 1,024 calls, and as soon as it is emptied for more.
#[test]
fn a_full_log_is_busy_until_it_is_emptied(rt: HostRuntime) {
    with_users(&rt, 1, |superuser, others| {
        fills_a_log(&rt, superuser, others)
    });
}
