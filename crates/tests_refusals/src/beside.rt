//! Calls of a server for which memory runs out: it answers whoever comes next as if the call hadn't come.

use crate::meter::{Heap, MOST};
use consistency_server::{Call, CallKind, MemoryLog, Ordered};
use layout::let_go;
use lms_sign::{PrivateKey, PublicKey};
use std::alloc::Global;
use tests_aids::texts::{certificate, joined, key_of, named, signed};
use tests_aids::{Aided, check, check_text, found, given};
use tests_refusing::Refusing;
use wire::Status;

/// A leaf by which no client of a course signs.
const LAST_LEAF: u32 = 1023;

/// Where the user stands in a signed certificate.
const USER_AT: usize = 4;

/// Where the user stands in a signed structure: after what begins it, the plan's size, and what begins the plan.
const USER_OF_PLAN_AT: usize = 10;

/// A server, and its log.
#[derive(Drop)]
struct Server<'h> {
    ordered: Ordered<Heap<'h>>,
    log: MemoryLog<Heap<'h>>,
}

/// The server after these calls.
fn after_calls<'h>(
    rt: &impl Aided,
    heap: Heap<'h>,
    pinned: PublicKey,
    calls: &[Call<Global>],
) -> Server<'h> {
    let mut server = Server {
        ordered: Ordered::genesis(heap, pinned),
        log: given(rt, MemoryLog::new(heap), "memory"),
    };
    let mut told = Vec::new(rt.alloc());
    for call in calls {
        let status = answer_to(rt, &mut server, call.kind(), call.text(), &mut told);
        check(rt, status == Status::Ok, "a call of a course");
    }
    server
}

/// What a server answers to a call: its status, and behind others what comes with it.
fn answer_to(
    rt: &impl Aided,
    server: &mut Server<'_>,
    kind: CallKind,
    text: &[u8],
    told: &mut Vec<u8>,
) -> Status {
    let answer = server.ordered.answer(&mut server.log, kind, text, None);
    let status = answer.status();
    given(rt, told.push(status.number()), "memory");
    given(rt, told.extend_from_slice(answer.payload()), "memory");
    status
}

/// Whose call it is.
fn user_of(rt: &impl Aided, call: &Call<Global>) -> u8 {
    let at = match call.kind() {
        CallKind::Update => USER_AT,
        CallKind::Commit => USER_OF_PLAN_AT,
    };
    *found(rt, call.text().get(at), "a user")
}

/// A certificate of a user that is its next one after these calls, where its operation before is committed.
fn next_of(rt: &impl Aided, key: &PrivateKey<Global>, user: u8, calls: &[Call<Global>]) -> Vec<u8> {
    let (mut number, mut last) = (1u32, [0; 32]);
    for call in calls {
        if user_of(rt, call) == user {
            match call.kind() {
                CallKind::Update => number = number.wrapping_add(1),
                CallKind::Commit => last = named(call.text()),
            }
        }
    }
    signed(rt, key, LAST_LEAF, &certificate(rt, user, number, &last))
}

/// What is asked next: each user's next certificate before the last of these calls, and after it.
fn asked_next(
    rt: &impl Aided,
    keys: &[PrivateKey<Global>],
    earlier: &[Call<Global>],
    calls: &[Call<Global>],
) -> Vec<Vec<u8>> {
    let mut texts = Vec::new(rt.alloc());
    let mut user = 0u8;
    for key in keys {
        given(rt, texts.push(next_of(rt, key, user, earlier)), "memory");
        given(rt, texts.push(next_of(rt, key, user, calls)), "memory");
        user = user.wrapping_add(1);
    }
    texts
}

/// All that a server answers to these certificates, after how many calls it has, and how many its log.
fn told(rt: &impl Aided, server: &mut Server<'_>, texts: &[Vec<u8>]) -> Vec<u8> {
    let mut told = Vec::new(rt.alloc());
    for count in [server.ordered.call_count(), server.log.calls().len()] {
        given(rt, told.extend_from_slice(&count.to_be_bytes()), "memory");
    }
    for text in texts {
        let _status = answer_to(rt, server, CallKind::Update, text, &mut told);
    }
    told
}

/// What comes before a call, what is asked after it, and what is answered then where the call didn't come.
#[derive(Drop)]
struct Place<'c> {
    pinned: PublicKey,
    earlier: &'c [Call<Global>],
    call: &'c Call<Global>,
    next: Vec<Vec<u8>>,
    always: Vec<u8>,
}

/// Whether a call has a growth of this number. It is refused: the call is answered by status 9, and what is asked next as
/// if it hadn't come.
fn is_refused(rt: &impl Aided, heap: Heap<'_>, place: &Place<'_>, number: u64) -> bool {
    let mut server = after_calls(rt, heap, place.pinned, place.earlier);
    let mut payload = Vec::new(rt.alloc());
    let (kind, text) = (place.call.kind(), place.call.text());
    heap.refuse(number);
    let status = answer_to(rt, &mut server, kind, text, &mut payload);
    let is_refused = heap.asked(number) >= number;
    heap.refuse(0);
    if is_refused {
        check(rt, status == Status::Memory, "memory ran out");
        let told = told(rt, &mut server, &place.next);
        check_text(rt, &told, &place.always);
    } else {
        check(rt, status == Status::Ok, "it is answered");
    }
    let_go(server);
    is_refused
}

/// Refuses each growth of the last of these calls in turn: how many there are.
fn sweep_last(
    rt: &impl Aided,
    heap: Heap<'_>,
    keys: &[PrivateKey<Global>],
    calls: &[Call<Global>],
) -> u64 {
    let [earlier @ .., call] = calls else {
        rt.fail("no call");
    };
    let pinned = found(rt, keys.first(), "a key").public();
    let next = asked_next(rt, keys, earlier, calls);
    let mut server = after_calls(rt, heap, pinned, earlier);
    let always = told(rt, &mut server, &next);
    let place = Place {
        pinned,
        earlier,
        call,
        next,
        always,
    };
    for number in 1..MOST {
        if !is_refused(rt, heap, &place, number) {
            return number.wrapping_sub(1);
        }
    }
    rt.fail("too many growths")
}

/// The keys of so many users.
fn keys_of(rt: &impl Aided, users: u8) -> Vec<PrivateKey<Global>> {
    let mut keys = Vec::new(rt.alloc());
    for user in 0..users {
        given(rt, keys.push(key_of(rt, user)), "memory");
    }
    keys
}

/// Refuses each growth of each of these calls in turn, of so many users: how many there are.
pub(crate) fn sweep_calls(rt: &impl Aided, users: u8, calls: &[Call<Global>]) -> u64 {
    let heap = Refusing::new(rt.alloc());
    let keys = keys_of(rt, users);
    let mut growths = 0u64;
    for count in 1..=calls.len() {
        let calls = found(rt, calls.get(..count), "calls");
        growths = growths.wrapping_add(sweep_last(rt, &heap, &keys, calls));
    }
    growths
}
