//! A connection whose user got another key: its calls are verified once each from the second one on, as those of a
//! connection that began afterwards. Both take little longer than their verifications alone.

use crate::requests::{joined, put_frame};
use crate::serving::{Host, serve_beside};
use crate::users::with_users;
use layout::let_go;
use lms_sign::{Leaf, PrivateKey, PublicKey, sign, verify};
use server_workers::OpenGate;
use std::alloc::Global;
use std::io::{Read, Write};
use std::net::TcpStream;
use std::time::{Duration, Instant};
use tests_plain_user::{Caller, PlainUser};
use wire::Status;

/// How many calls are sent at once, and how often that is over each connection at the least and at the most.
const CALLS: usize = 40;

const LEAST_ROUNDS: u32 = 40;

const MOST_ROUNDS: u32 = 500;

/// User 1's certificate of number 7, which is none of its next ones, without changes.
const CERTIFICATE: &[u8] = b"SUC1\x01\0\0\0\x07\
    \0\0\0\0\0\0\0\0\0\0\0\0\0\0\0\0\0\0\0\0\0\0\0\0\0\0\0\0\0\0\0\0\0";

/// The reply to it: the number is wrong.
const WRONG_NUMBER: &[u8] = b"\0\0\0\x01\x04";

/// The key whose seed and identifier have this byte everywhere.
fn key_of<R: Host>(rt: &R, byte: u8) -> PrivateKey<Global> {
    PrivateKey::from_seed(rt.alloc(), [byte; 32], [byte; 16]).expect(rt, "memory")
}

/// The signature of the certificate by the first leaf of a key.
fn signature_by<R: Host>(rt: &R, key: &PrivateKey<Global>) -> Vec<u8> {
    assert!(rt; key.has_leaf(0), "the leaf");
    let (signature, spent) = sign(key, Leaf::issue(&key.public(), 0), CERTIFICATE);
    spent.end();
    joined(rt, &[&signature])
}

/// So many frames of the certificate with this signature.
fn frames<R: Host>(rt: &R, signature: &[u8], count: usize) -> Vec<u8> {
    let text = joined(rt, &[CERTIFICATE, signature]);
    let mut frames = Vec::new(rt.alloc());
    for _call in 0..count {
        put_frame(rt, &mut frames, 1, &text);
    }
    frames
}

/// How long it takes to verify the signature as often as calls are sent at once.
fn verifying_time<R: Host>(rt: &R, key: &PublicKey, signature: &[u8]) -> Duration {
    let start = Instant::now(rt).expect(rt, "the time");
    for _call in 0..CALLS {
        assert!(rt; verify(key, CERTIFICATE, signature), "it is valid");
    }
    start.elapsed(rt).expect(rt, "the time")
}

/// The frames are sent at once, and each is replied that its number is wrong.
fn are_refused<R: Host>(rt: &R, stream: &mut TcpStream, frames: &[u8], count: usize) {
    assert!(rt; stream.write_all(frames).is_ok(), "sent");
    for _call in 0..count {
        let mut reply = [0; 5];
        assert!(rt; stream.read_exact(&mut reply).is_ok(), "a reply");
        assert!(rt; reply.as_slice() == WRONG_NUMBER, "the status");
    }
}

/// How long that takes.
fn time_of<R: Host>(rt: &R, stream: &mut TcpStream, frames: &[u8]) -> Duration {
    let start = Instant::now(rt).expect(rt, "the time");
    are_refused(rt, stream, frames, CALLS);
    start.elapsed(rt).expect(rt, "the time")
}

/// User 0 makes an operation of these changes.
fn operate<R: Host>(
    rt: &R,
    caller: &mut Caller<TcpStream>,
    superuser: &mut PlainUser,
    changes: &[u8],
) {
    let statuses = superuser
        .operate(caller, changes)
        .expect(rt, "an operation");
    assert!(rt; statuses == (Status::Ok, Status::Ok), "{statuses:?}");
}

/// One change, after the count of changes: its kind, a user and a key.
fn change<R: Host>(rt: &R, kind_and_user: [u8; 2], key: &PublicKey) -> Vec<u8> {
    joined(rt, &[&[1], &kind_and_user, key.as_bytes()])
}

/// Times that the calls take over two connections, and that their verifications take alone.
#[derive(Clone, Copy, Debug)]
struct Times {
    first: Duration,
    second: Duration,
    alone: Duration,
}

impl Times {
    /// Whether the calls over each connection take less than seven quarters of what their verifications alone take.
    /// What is verified twice takes eight quarters.
    fn are_once(self) -> bool {
        let most = self.alone.saturating_mul(7);
        self.first.saturating_mul(4) < most && self.second.saturating_mul(4) < most
    }
}

/// The least of these times, in rounds that alternate. What else the machine does slows a round down, and may slow one
/// of them down for long: so there are more rounds until each was alone.
fn least_times<R: Host>(
    rt: &R,
    first: &mut TcpStream,
    second: &mut TcpStream,
    (key, signature): (&PublicKey, &[u8]),
) -> Times {
    let frames = frames(rt, signature, CALLS);
    let mut least = Times {
        first: Duration::MAX,
        second: Duration::MAX,
        alone: Duration::MAX,
    };
    for round in 0..MOST_ROUNDS {
        if LEAST_ROUNDS <= round && least.are_once() {
            break;
        }
        least.first = least.first.min(time_of(rt, first, &frames));
        least.second = least.second.min(time_of(rt, second, &frames));
        least.alone = least.alone.min(verifying_time(rt, key, signature));
    }
    least
}

/// User 0 lists user 1 with a key, by which a call is refused over a connection.
fn is_listed<R: Host>(
    rt: &R,
    stream: &mut TcpStream,
    caller: &mut Caller<TcpStream>,
    superuser: &mut PlainUser,
    key: &PrivateKey<Global>,
) {
    let listing = change(rt, [6, 1], &key.public());
    operate(rt, caller, superuser, &listing);
    are_refused(rt, stream, &frames(rt, &signature_by(rt, key), 1), 1);
}

/// User 0 gives user 1 another key: a signature by it.
fn renewed<R: Host>(
    rt: &R,
    caller: &mut Caller<TcpStream>,
    superuser: &mut PlainUser,
    key: &PrivateKey<Global>,
) -> Vec<u8> {
    let renewal = change(rt, [9, 1], &key.public());
    operate(rt, caller, superuser, &renewal);
    signature_by(rt, key)
}

/// The first connection has user 1's old key before user 0 gives user 1 another one; the second one begins afterwards.
/// Were each of its calls verified under both keys, or twice under one, they would take twice as long.
fn are_verified_once<R: Host>(
    rt: &R,
    old: &mut TcpStream,
    new: &mut TcpStream,
    caller: &mut Caller<TcpStream>,
    superuser: &mut PlainUser,
) {
    let (first, second) = (key_of(rt, 1), key_of(rt, 2));
    is_listed(rt, old, caller, superuser, &first);
    let by_second = renewed(rt, caller, superuser, &second);
    let newest = second.public();
    let_go((first, second));
    are_refused(rt, old, &frames(rt, &by_second, 1), 1);
    are_refused(rt, new, &frames(rt, &by_second, 1), 1);
    let times = least_times(rt, old, new, (&newest, &by_second));
    assert!(rt; times.are_once(), "{times:?}");
}

/// Three connections of a server that user 0 and user 1 use.
fn talk<R: Host>(rt: &R, streams: Vec<TcpStream>, superuser: &mut PlainUser) {
    let mut streams = streams;
    let mut old = streams.pop().expect(rt, "a connection");
    let mut new = streams.pop().expect(rt, "a connection");
    let mut caller = Caller::new(rt.alloc(), streams.pop().expect(rt, "a connection"));
    are_verified_once(rt, &mut old, &mut new, &mut caller, superuser);
}

#[test]
fn verified_once_after_renewal(rt: HostRuntime) {
    with_users(&rt, 0, |superuser, _| {
        let pinned = superuser.public();
        let served = serve_beside(&rt, &OpenGate, 3, pinned, |streams| {
            talk(&rt, streams, superuser)
        });
        assert_eq!(rt; served.unserved, 0);
    });
}
