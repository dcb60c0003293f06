//! Users that operate over TCP, many at once, and beside clients that say nothing.

use crate::serving::{Host, serve_beside};
use crate::users::with_users;
use server_workers::OpenGate;
use std::alloc::Global;
use std::io::Write;
use std::net::{Net, TcpListener, TcpStream};
use std::thread;
use tests_plain_user::{Caller, PlainUser, listing};
use wire::Status;

/// In its first so many operations no call may be answered Busy. The log has room for 1,024 events, and in the test
/// with the most of them user 0 makes 2, this user 2 an operation, and the other user 600.
const IN_ROOM: u32 = 210;

/// A user makes so many operations of the same changes, each of which is committed. While the log has room no call of
/// them may be answered Busy.
fn operate<R: Host>(
    rt: &R,
    caller: &mut Caller<TcpStream>,
    user: &mut PlainUser,
    changes: &[u8],
    count: u32,
) {
    for number in 1..=count {
        let statuses = user.operate(caller, changes).expect(rt, "an operation");
        assert!(rt;
            statuses == (Status::Ok, Status::Ok),
            "operation {number}: {statuses:?}"
        );
        let in_time = number > IN_ROOM || user.busy() == 0;
        assert!(rt; in_time, "operation {number}: Busy");
    }
}

/// A user does so over a connection of its own.
fn operate_over<R: Host>(
    rt: &R,
    stream: TcpStream,
    user: &mut PlainUser,
    changes: &[u8],
    count: u32,
) {
    let mut caller = Caller::new(rt.alloc(), stream);
    operate(rt, &mut caller, user, changes, count);
}

/// How many records a log has.
pub(crate) fn records(log: &[u8]) -> u32 {
    let mut rest = log;
    let mut count = 0u32;
    for _record in 0..log.len() {
        let [1 | 2, a, b, c, d, after @ ..] = rest else {
            break;
        };
        let size = u32::from_be_bytes([*a, *b, *c, *d]) as usize;
        let Some(after) = after.get(size..) else {
            break;
        };
        rest = after;
        count = count.saturating_add(1);
    }
    if rest.is_empty() { count } else { 0 }
}

/// Who comes to a server.
#[derive(Clone, Copy)]
struct Coming {
    /// The users beside user 0, and how many operations each of them makes, without changes.
    others: u8,
    each: u32,
    /// How many operations user 0 makes before them: the others are listed by it.
    first: u32,
    /// How many clients say nothing, and how many of them send half a frame first.
    silent: u32,
    halves: usize,
}

/// The length of a frame of 4,097 bytes, the kind of a put, and the first bytes of its block.
const HALF: [u8; 9] = *b"\0\0\x10\x01\x03half";

/// So many clients send half a frame.
fn send_halves<R: Host>(rt: &R, streams: &mut [TcpStream], halves: usize) {
    for stream in streams.iter_mut().take(halves) {
        assert!(rt; stream.write_all(&HALF).is_ok(), "half a frame");
    }
}

/// A user makes so many operations without changes over its stream, which ends then.
fn operate_alone<R: Host>(rt: &R, stream: TcpStream, user: PlainUser, count: u32) {
    let mut user = user;
    operate_over(rt, stream, &mut user, b"\0", count);
}

/// Each of these users makes so many operations over a stream of its own, all at once. The other streams end then.
fn each_operates<R: Host>(rt: &R, streams: Vec<TcpStream>, users: Vec<PlainUser>, count: u32) {
    thread::scope(thread::scope_env(), rt, |scope| {
        for (user, stream) in users.into_iter().zip(streams) {
            let spawned = scope.spawn(move || operate_alone(rt, stream, user, count));
            assert!(rt; spawned.is_ok(), "a thread");
        }
    });
}

/// Halves of frames are sent, and user 0 operates over the last stream, before the others do.
fn all_operate<R: Host>(
    rt: &R,
    streams: Vec<TcpStream>,
    superuser: &mut PlainUser,
    others: Vec<PlainUser>,
    coming: Coming,
) {
    let mut streams = streams;
    let changes = listing(rt.alloc(), &others).expect(rt, "memory");
    let last = streams.pop().expect(rt, "the last connection");
    send_halves(rt, &mut streams, coming.halves);
    operate_over(rt, last, superuser, &changes, coming.first);
    each_operates(rt, streams, others, coming.each);
}

/// These are served: so many calls are answered, and the log has the records of all.
fn all_are_served<R: Host + Net<Listener = TcpListener, Stream = TcpStream>>(
    rt: &R,
    superuser: &mut PlainUser,
    others: Vec<PlainUser>,
    coming: Coming,
    calls: u32,
) {
    let most = u32::from(coming.others).saturating_add(coming.silent);
    let most = most.saturating_add(1);
    let pinned = superuser.public();
    let served = serve_beside(rt, &OpenGate, most, pinned, |streams| {
        all_operate(rt, streams, superuser, others, coming)
    });
    assert!(rt; served.flushed && served.unserved == 0, "served to the end");
    assert_eq!(rt;
        (served.calls, served.answered),
        (calls as usize, u64::from(calls))
    );
    assert_eq!(rt; records(&served.log), calls);
}

/// The same with users of its own.
fn are_served<R: Host + Net<Listener = TcpListener, Stream = TcpStream>>(
    rt: &R,
    coming: Coming,
    calls: u32,
) {
    with_users(rt, coming.others, |superuser, others| {
        all_are_served(rt, superuser, others, coming, calls)
    });
}

/// User 0, who lists so many others in one operation, and these.
fn so_many(others: u8, each: u32) -> Coming {
    Coming {
        others,
        each,
        first: 1,
        silent: 0,
        halves: 0,
    }
}

/// Two clients over a connection each.
#[test]
fn operations_over_loopback(rt: HostRuntime) {
    are_served(&rt, so_many(1, 1), 4);
}

/// Four users make 25 operations each, over a connection of their own.
#[test]
fn hundred_operations(rt: HostRuntime) {
    are_served(&rt, so_many(4, 25), 202);
}

/// Two users bring more records than the log has room for: to the writer, while the workers run.
#[test]
fn flusher_beside(rt: HostRuntime) {
    are_served(&rt, so_many(2, 300), 1202);
}

/// Each call is answered while the others are silent: else the test would wait for them.
#[test]
fn silent_clients_hold_up_nobody(rt: HostRuntime) {
    let coming = Coming {
        others: 0,
        each: 0,
        first: 2,
        silent: 7,
        halves: 4,
    };
    are_served(&rt, coming, 4);
}
