//! The whole server, to which all requests come over one connection, and then once more over another one.

use crate::here::Here;
use crate::meter::{Heap, MOST, Meter, Swept};
use block_store::Store;
use connection::MemoryConnection;
use layout::let_go;
use lms_sign::PublicKey;
use server_workers::{Limits, OpenGate, Served, Unbegun, serve_within};
use std::alloc::Global;
use std::process::Abort;
use std::sync::Wait;
use std::thread::Threads;
use std::time::Clock;
use tests_aids::texts::{
    FIRST_HANDLE, certificate, first_reply, joined, key_of, plan_of, signed, structure,
};
use tests_aids::{Aided, check, check_text, found, given};
use tests_refusing::Refusing;
use wire::{Frames, Status};

/// What a server runs in.
pub(crate) trait ThreadHost: Alloc<A = Global> + Abort + Clock + Threads + Wait + Sync {}

impl<R: Alloc<A = Global> + Abort + Clock + Threads + Wait + Sync> ThreadHost for R {}

/// User 0's first certificate and structure, made by hand.
pub(crate) fn first_calls(rt: &impl Aided) -> (Vec<u8>, Vec<u8>) {
    let key = key_of(rt, 0);
    let update = signed(rt, &key, 0, &certificate(rt, 0, 1, &[0; 32]));
    let plan = plan_of(rt, 1, &update);
    let commit = signed(rt, &key, 1, &structure(rt, &plan, &FIRST_HANDLE));
    (update, commit)
}

/// What stands before the certificate in its frame.
pub(crate) const UPDATE: &[u8] = b"\0\0\x09\xf7\x01";

/// What stands before the structure in its frame.
pub(crate) const COMMIT: &[u8] = b"\0\0\x0a\x24\x02";

/// What stands before each of them in the log: its kind and its size.
const UPDATE_LOGGED: &[u8] = b"\x01\0\0\x09\xf6";

const COMMIT_LOGGED: &[u8] = b"\x02\0\0\x0a\x23";

/// The log of the two calls.
pub(crate) fn log_of(rt: &impl Aided, update: &[u8], commit: &[u8]) -> Vec<u8> {
    joined(rt, &[UPDATE_LOGGED, update, COMMIT_LOGGED, commit])
}

/// How many bytes the body of the reply to the certificate has, and how it begins: with status 0.
pub(crate) const REPLY_SIZE: usize = 0xa31;

const REPLY_BEGINS: &[u8] = b"\0SRL1";

/// The frame of a PUT without bytes.
const PUT_EMPTY: &[u8] = b"\0\0\0\x01\x03";

/// The SHA-256 of no bytes (FIPS 180-4's own vector).
const OF_EMPTY: &[u8] = b"\
    \xe3\xb0\xc4\x42\x98\xfc\x1c\x14\x9a\xfb\xf4\xc8\x99\x6f\xb9\x24\
    \x27\xae\x41\xe4\x64\x9b\x93\x4c\xa4\x95\x99\x1b\x78\x52\xb8\x55";

/// What stands before it in the frame of a GET.
const GET: &[u8] = b"\0\0\0\x21\x04";

/// The bodies of frames.
fn bodies(rt: &impl Aided, bytes: &[u8]) -> Vec<Vec<u8>> {
    let mut frames = Frames::new(rt.alloc());
    given(rt, frames.feed(bytes), "memory");
    let mut all = Vec::new(rt.alloc());
    for _frame in 0..1000u32 {
        match frames.next_frame() {
            Ok(Some(body)) => given(rt, all.push(body), "memory"),
            Ok(None) => return all,
            Err(error) => rt.fail(error),
        }
    }
    rt.fail("too many frames")
}

/// What is replied over the first connection, and over the second one, and what is written of the log.
#[derive(Drop)]
struct Replied {
    first: Vec<Vec<u8>>,
    second: Vec<Vec<u8>>,
    log: Vec<u8>,
}

/// How often it was told by a status that memory ran out, how often a conversation ended, and how often the server
/// wasn't begun.
#[derive(Clone, Copy, Debug, PartialEq, Eq)]
pub(crate) struct Kinds {
    pub(crate) statuses: u32,
    pub(crate) ends: u32,
    pub(crate) unbegun: u32,
}

impl Kinds {
    /// None was told yet.
    const NONE: Kinds = Kinds {
        statuses: 0,
        ends: 0,
        unbegun: 0,
    };

    /// So many were told in each way.
    pub(crate) fn are(self, rt: &impl Aided, statuses: u32, ends: u32, unbegun: u32) {
        let expected = Kinds {
            statuses,
            ends,
            unbegun,
        };
        if self != expected {
            rt.fail(format_args!("{self:?}"));
        }
    }
}

/// What a server wrote of its log, which served all. None where it wasn't begun.
fn log_written<I: Drop>(
    rt: &impl Aided,
    served: Result<Served<Vec<u8>, Heap<'_>>, Unbegun<I, Vec<u8>>>,
) -> Option<Vec<u8>> {
    match served {
        Ok(served) => {
            let is_whole = served.flushed && served.unserved == 0;
            check(rt, is_whole, "all of it is served");
            let log = joined(rt, &[&served.writer]);
            let_go(served);
            Some(log)
        }
        Err(unbegun) => {
            let_go(unbegun);
            None
        }
    }
}

/// The second connection is taken once the first one has ended.
const ONE_BY_ONE: Limits = Limits {
    most: 2,
    at_once: 1,
};

/// All that is replied to these requests, and to them once more, where the growth of a number is refused. None where
/// the server isn't begun.
fn replies<R: ThreadHost>(
    rt: &R,
    heap: Heap<'_>,
    pinned: PublicKey,
    requests: &[u8],
    number: u64,
) -> Option<Replied> {
    let host = &(rt, Here);
    let (mut first, mut second) = (Vec::new(rt.alloc()), Vec::new(rt.alloc()));
    let mut connections = Vec::new(rt.alloc());
    let connection = MemoryConnection::new(requests, 1000, &mut first);
    given(host, connections.push(connection), "memory");
    let connection = MemoryConnection::new(requests, 1000, &mut second);
    given(host, connections.push(connection), "memory");
    let connections = connections.into_iter();
    let log = Vec::new(rt.alloc());
    let store = given(host, Store::new(heap), "memory");
    heap.refuse(number);
    let served = serve_within(
        rt,
        heap,
        &OpenGate,
        connections,
        ONE_BY_ONE,
        &store,
        pinned,
        log,
    );
    let Some(log) = log_written(host, served) else {
        check(
            host,
            first.is_empty() && second.is_empty(),
            "it never began",
        );
        return None;
    };
    let (first, second) = (bodies(host, &first), bodies(host, &second));
    Some(Replied { first, second, log })
}

/// How many of these replies tell that memory ran out in the place of what is always replied. The others are these.
fn lacks(rt: &impl Aided, replies: &[Vec<u8>], always: &[Vec<u8>]) -> u32 {
    let mut count = 0u32;
    for (reply, right) in replies.iter().zip(always) {
        if reply.as_slice() == [Status::Memory.number()].as_slice() {
            count = count.wrapping_add(1);
        } else {
            check_text(rt, reply, right);
        }
    }
    count
}

/// Whether both are the same replies.
fn are_same(replies: &[Vec<u8>], others: &[Vec<u8>]) -> bool {
    let mut pairs = replies.iter().zip(others);
    replies.len() == others.len() && pairs.all(|(reply, other)| reply == other)
}

/// Notes how it was told that memory ran out, which is told once over both connections. What is asked once more after
/// the first conversation ended is replied as to who asks for the first time, or as to who asks again.
fn note(rt: &impl Aided, replies: Option<&Replied>, always: &Replied, kinds: &mut Kinds) -> bool {
    let Some(Replied { first, second, log }) = replies else {
        kinds.unbegun = kinds.unbegun.wrapping_add(1);
        return true;
    };
    check_text(rt, log, &always.log);
    let is_ended = first.len() < always.first.len();
    let is_new = is_ended && are_same(second, &always.first);
    let later = if is_new {
        &always.first
    } else {
        &always.second
    };
    let is_later_ended = second.len() < later.len();
    let told = lacks(rt, first, &always.first).wrapping_add(lacks(rt, second, later));
    let ends = u32::from(is_ended).wrapping_add(u32::from(is_later_ended));
    check(rt, told.wrapping_add(ends) <= 1, "it is told once");
    kinds.statuses = kinds.statuses.wrapping_add(told);
    kinds.ends = kinds.ends.wrapping_add(ends);
    told == 1 || ends == 1
}

/// Refuses the growth of a number: that memory ran out is told once, and what comes after it is replied as always; or
/// else the conversation ends, and all is asked over the next connection. True where no growth has this number.
fn is_over<R: ThreadHost>(
    rt: &R,
    heap: Heap<'_>,
    pinned: PublicKey,
    requests: &[u8],
    number: u64,
    always: &Replied,
    kinds: &mut Kinds,
    swept: &mut Swept,
) -> bool {
    let host = &(rt, Here);
    let replied = replies(rt, heap, pinned, requests, number);
    let mut meter = Meter::after(heap, number);
    let told = note(host, replied.as_ref(), always, kinds);
    meter.is_again(host, b'a', told);
    swept.is_over(host, &meter)
}

/// These replies are the right ones.
fn are_right(rt: &impl Aided, replies: &[Vec<u8>], right: &[Vec<u8>]) {
    check(rt, replies.len() == right.len(), "a reply to each");
    for (reply, right) in replies.iter().zip(right) {
        check_text(rt, reply, right);
    }
}

/// Where none is refused, all is as it has to be.
fn is_always<R: ThreadHost>(
    rt: &R,
    heap: Heap<'_>,
    pinned: PublicKey,
    requests: &[u8],
    always: &Replied,
) {
    let host = &(rt, Here);
    let Some(replied) = replies(rt, heap, pinned, requests, 0) else {
        host.fail("no server");
    };
    are_right(host, &replied.first, &always.first);
    are_right(host, &replied.second, &always.second);
    check_text(host, &replied.log, &always.log);
}

/// Refuses each growth of a server in turn, to which these requests come over one connection, and once more over a
/// second one. What has to be replied and written where none is refused.
fn sweep<R: ThreadHost>(rt: &R, requests: &[u8], always: &Replied) -> (Swept, Kinds) {
    let host = &(rt, Here);
    let heap = Refusing::new(rt.alloc());
    let pinned = key_of(host, 0).public();
    is_always(rt, &heap, pinned, requests, always);
    let mut kinds = Kinds::NONE;
    let mut swept = Swept::new(host);
    for number in 1..MOST {
        if is_over(
            rt, &heap, pinned, requests, number, always, &mut kinds, &mut swept,
        ) {
            return (swept, kinds);
        }
    }
    host.fail("too many growths")
}

/// Copies of these bodies.
fn copies(rt: &impl Aided, bodies: &[&[u8]]) -> Vec<Vec<u8>> {
    let mut all = Vec::new(rt.alloc());
    for body in bodies {
        given(rt, all.push(joined(rt, &[body])), "memory");
    }
    all
}

/// The empty block, put twice and got twice: what memory was lacking for is stored then.
pub(crate) fn serve_blocks<R: ThreadHost>(rt: &R) -> (Swept, Kinds) {
    let host = &(rt, Here);
    let get = joined(host, &[GET, OF_EMPTY]);
    let requests = joined(host, &[PUT_EMPTY, PUT_EMPTY, &get, &get]);
    let stored = joined(host, &[b"\0", OF_EMPTY]);
    let replied = &[&stored, &stored, b"\0".as_slice(), b"\0"];
    let always = Replied {
        first: copies(host, replied),
        second: copies(host, replied),
        log: Vec::new(rt.alloc()),
    };
    sweep(rt, &requests, &always)
}

/// The body of the reply to user 0's first certificate.
fn first_body(rt: &impl Aided, update: &[u8]) -> Vec<u8> {
    let body = joined(rt, &[b"\0", &first_reply(rt, update)]);
    let is_right = body.len() == REPLY_SIZE && body.starts_with(REPLY_BEGINS);
    check(rt, is_right, "the reply to the first certificate");
    body
}

/// One certificate three times, and then one structure twice. Once that is committed, the certificate's number is used.
pub(crate) fn serve_calls<R: ThreadHost>(rt: &R) -> (Swept, Kinds) {
    let host = &(rt, Here);
    let (update, commit) = first_calls(host);
    let update_frame = joined(host, &[UPDATE, &update]);
    let commit_frame = joined(host, &[COMMIT, &commit]);
    let requests = joined(
        host,
        &[
            &update_frame,
            &update_frame,
            &update_frame,
            &commit_frame,
            &commit_frame,
        ],
    );
    let body = first_body(host, &update);
    let always = Replied {
        first: copies(host, &[&body, &body, &body, b"\0", b"\0"]),
        second: copies(host, &[b"\x04", b"\x04", b"\x04", b"\0", b"\0"]),
        log: log_of(host, &update, &commit),
    };
    sweep(rt, &requests, &always)
}
