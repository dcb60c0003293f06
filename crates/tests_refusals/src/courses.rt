//! Courses of clients and of their server, as words.

use crate::clients::{HeapClient, client, closed, committed, done, lost};
use crate::meter::{Heap, MOST, Meter, Swept};
use crate::plans::{Planned, nothing, number_of, plan};
use client_tree::Held;
use consistency_server::{Call, CallKind, MemoryLog, Ordered};
use layout::{let_go, put_in};
use lms_sign::{PrivateKey, PublicKey};
use std::alloc::Global;
use std::mem;
use tests_aids::texts::joined;
use tests_aids::{Aided, check, check_text, found, given};
use tests_refusing::Refusing;
use tree_parts::Blocks;
use wire::Status;

/// Moves of so many users: those before, in which no growth is refused, and those in which one is. A move is a word, of
/// a letter and a user's digit.
///
/// - `+1` plans that user 1 is listed, `j1` that it is a member of the group, and `d1` that it is dropped;
/// - `m1x` plans that the file `x` is made at user 1's place, `p1x` that it is put there, `mgx` and `pgx` at the group's;
/// - `b1`: user 1 declares an operation of what is planned;
/// - `u1`: it is placed, its reply is judged, and user 1 signs;
/// - `c1`: it is committed;
/// - `l12`: user 1 looks at user 2's place, and `l1g` at the group's.
#[derive(Clone, Copy)]
pub(crate) struct Course {
    pub(crate) users: u8,
    /// How many blocks each client's cache may have.
    pub(crate) cached: usize,
    pub(crate) before: &'static [u8],
    pub(crate) moves: &'static [u8],
    /// The numbers of lost changes, and the files that are seen, in turn.
    pub(crate) seen: &'static [u8],
}

/// What came of a course: all that was answered, and the calls in the server's log.
#[derive(Drop)]
pub(crate) struct Story {
    pub(crate) said: Vec<u8>,
    pub(crate) calls: Vec<Call<Global>>,
}

/// No cache may have more blocks.
const MOST_CACHED: usize = 4_096;

/// How many blocks are handed in at most for one reply or one look.
const BOUND: usize = 100;

/// What stands beside the clients.
#[derive(Drop)]
struct Town<'h> {
    meter: Meter<'h>,
    keys: Vec<PublicKey>,
    ordered: Ordered<Heap<'h>>,
    log: MemoryLog<Heap<'h>>,
    blocks: Held<Global>,
    planned: Planned<'h>,
    /// What each user declared or signed last.
    texts: Vec<Vec<u8>>,
    /// All that clients and the server answered.
    said: Vec<u8>,
    /// Of that the numbers of lost changes, and the files.
    seen: Vec<u8>,
}

/// Appends a text.
fn append(rt: &impl Aided, all: &mut Vec<u8>, text: &[u8]) {
    given(rt, all.extend_from_slice(text), "memory");
}

/// What a user's client answers once it was handed each block for which it asked.
fn answer<'h>(
    rt: &impl Aided,
    town: &mut Town<'h>,
    client: &mut HeapClient<'h>,
    call: u8,
    text: &[u8],
) -> Vec<Vec<u8>> {
    let Town {
        meter,
        blocks,
        planned,
        said: all,
        ..
    } = town;
    let next = if call == b'l' { b'g' } else { b'n' };
    let mut said = done(rt, meter, planned, client, call, text);
    for _block in 0..BOUND {
        let Some(digest) = said.needs else {
            for text in &said.texts {
                append(rt, all, text);
            }
            return said.texts;
        };
        let block = found(rt, blocks.get(digest), "a stored text");
        put_in(&mut said, done(rt, meter, planned, client, next, block));
    }
    rt.fail("too many blocks")
}

/// The one text that a user's client answers.
fn text<'h>(
    rt: &impl Aided,
    town: &mut Town<'h>,
    client: &mut HeapClient<'h>,
    call: u8,
    text: &[u8],
) -> Vec<u8> {
    let mut texts = answer(rt, town, client, call, text);
    found(rt, texts.pop(), "a text")
}

/// What the server answers to a certificate, `u`, or to a structure, `c`. None where memory ran out.
fn answered(rt: &impl Aided, town: &mut Town<'_>, call: u8, text: &[u8]) -> Option<Vec<u8>> {
    let kind = if call == b'u' {
        CallKind::Update
    } else {
        CallKind::Commit
    };
    let answer = town.ordered.answer(&mut town.log, kind, text, None);
    match answer.status() {
        Status::Ok => {
            let payload = Vec::from_slice(rt.alloc(), answer.payload());
            Some(given(rt, payload, "memory"))
        }
        Status::Memory => None,
        status => rt.fail(format_args!("{status:?}")),
    }
}

/// How many calls the history has, and how many the log.
fn counts(town: &Town<'_>) -> (usize, usize) {
    (town.ordered.call_count(), town.log.calls().len())
}

/// What the server answers at last. Where memory ran out first, neither its history nor its log grew.
fn ask(rt: &impl Aided, town: &mut Town<'_>, call: u8, text: &[u8]) -> Vec<u8> {
    let before = counts(town);
    let mut payload = answered(rt, town, call, text);
    if town.meter.is_again(rt, call, payload.is_none()) {
        let after = counts(town);
        check(rt, before == after, "neither the history nor the log grew");
        put_in(&mut payload, answered(rt, town, call, text));
    }
    let payload = found(rt, payload, "an answer");
    append(rt, &mut town.said, &payload);
    payload
}

/// Keeps what a user declared or signed.
fn keep_own(rt: &impl Aided, town: &mut Town<'_>, user: usize, text: Vec<u8>) {
    put_in(found(rt, town.texts.get_mut(user), "a user"), text);
}

/// What a user declared or signed last.
fn own(rt: &impl Aided, town: &Town<'_>, user: usize) -> Vec<u8> {
    let text = found(rt, town.texts.get(user), "a user");
    joined(rt, &[text])
}

/// Stores a copy of a text.
fn store(rt: &impl Aided, town: &mut Town<'_>, text: &[u8]) {
    let _digest = given(rt, town.blocks.keep(joined(rt, &[text])), "memory");
}

/// A user declares an operation of what is planned.
fn declare<'h>(rt: &impl Aided, town: &mut Town<'h>, client: &mut HeapClient<'h>, user: usize) {
    let declared = text(rt, town, client, b'b', b"");
    keep_own(rt, town, user, declared);
    let planned = mem::replace(&mut town.planned, nothing(town.meter.heap));
    for text in &planned.laid {
        store(rt, town, text);
    }
}

/// What a user declared is placed, its reply is judged, and the user signs.
fn update<'h>(rt: &impl Aided, town: &mut Town<'h>, client: &mut HeapClient<'h>, user: usize) {
    let declared = own(rt, town, user);
    let reply = ask(rt, town, b'u', &declared);
    for text in &answer(rt, town, client, b'r', &reply) {
        store(rt, town, text);
    }
    let signed = text(rt, town, client, b's', b"");
    keep_own(rt, town, user, signed);
    append(rt, &mut town.seen, &lost(rt, client));
}

/// What a user signed is committed.
fn commit<'h>(rt: &impl Aided, town: &mut Town<'h>, client: &mut HeapClient<'h>, user: usize) {
    let signed = own(rt, town, user);
    let payload = ask(rt, town, b'c', &signed);
    check(rt, payload.is_empty(), "no payload");
    committed(rt, client);
}

/// A user sees a file at a place.
fn see<'h>(rt: &impl Aided, town: &mut Town<'h>, client: &mut HeapClient<'h>, place: &[u8]) {
    let file = text(rt, town, client, b'l', place);
    append(rt, &mut town.seen, &file);
}

/// Plans a change. Its growths aren't counted.
fn plan_in(rt: &impl Aided, town: &mut Town<'_>, what: u8, rest: &[u8]) {
    let heap = town.meter.heap;
    let left = heap.pause();
    plan(rt, heap, &mut town.planned, &town.keys, what, rest);
    heap.go_on(left);
}

/// Makes a move.
fn make<'h>(rt: &impl Aided, town: &mut Town<'h>, clients: &mut [HeapClient<'h>], word: &[u8]) {
    let [what, rest @ ..] = word else {
        rt.fail("no move");
    };
    let [digit, place @ ..] = rest else {
        rt.fail("no user");
    };
    let user = usize::from(number_of(*digit));
    if !b"bucl".contains(what) {
        return plan_in(rt, town, *what, rest);
    }
    let client = found(rt, clients.get_mut(user), "a client");
    match what {
        b'b' => declare(rt, town, client, user),
        b'u' => update(rt, town, client, user),
        b'c' => commit(rt, town, client, user),
        _ => see(rt, town, client, place),
    }
}

/// Makes moves.
fn make_all<'h>(
    rt: &impl Aided,
    town: &mut Town<'h>,
    clients: &mut [HeapClient<'h>],
    words: &[u8],
) {
    for word in words.split(|byte| *byte == b' ') {
        if !word.is_empty() {
            make(rt, town, clients, word);
        }
    }
}

/// The beginning, before which these users have neither declared nor signed.
fn beginning<'h>(rt: &impl Aided, heap: Heap<'h>, keys: &[PrivateKey<Heap<'h>>]) -> Town<'h> {
    let (mut publics, mut texts) = (Vec::new(rt.alloc()), Vec::new(rt.alloc()));
    for key in keys {
        given(rt, publics.push(key.public()), "memory");
        given(rt, texts.push(Vec::new(rt.alloc())), "memory");
    }
    let pinned = *found(rt, publics.first(), "a key");
    Town {
        meter: Meter::new(heap, 0),
        keys: publics,
        ordered: Ordered::genesis(heap, pinned),
        log: given(rt, MemoryLog::new(heap), "memory"),
        blocks: Held::empty(rt.alloc()),
        planned: nothing(heap),
        texts,
        said: Vec::new(rt.alloc()),
        seen: Vec::new(rt.alloc()),
    }
}

/// A client's cache may have so many blocks.
fn set_cache(rt: &impl Aided, client: &mut HeapClient<'_>, cached: usize) {
    if cached == 0 || cached > MOST_CACHED {
        rt.fail("no such cache");
    }
    client.cache(cached);
}

/// The clients of users who have these keys, which are used up.
fn clients_of<'h>(
    rt: &impl Aided,
    town: &Town<'h>,
    keys: &mut Vec<PrivateKey<Heap<'h>>>,
    cached: usize,
) -> Vec<HeapClient<'h>> {
    let pinned = *found(rt, town.keys.first(), "a key");
    let mut clients = Vec::new(rt.alloc());
    for user in 0..64u8 {
        if keys.is_empty() {
            return clients;
        }
        let mut client = client(rt, town.meter.heap, user, keys.remove(0), pinned);
        set_cache(rt, &mut client, cached);
        given(rt, clients.push(client), "memory");
    }
    rt.fail("too many users")
}

/// The keys of so many users.
pub(crate) fn keys_of<'h>(rt: &impl Aided, heap: Heap<'h>, users: u8) -> Vec<PrivateKey<Heap<'h>>> {
    let mut keys = Vec::new(rt.alloc());
    for user in 0..users {
        let key = PrivateKey::from_seed(heap, [user; 32], [user; 16]);
        given(rt, keys.push(given(rt, key, "memory")), "memory");
    }
    keys
}

/// The clients of users who have these keys, after these moves.
pub(crate) fn after<'h>(
    rt: &impl Aided,
    heap: Heap<'h>,
    keys: &mut Vec<PrivateKey<Heap<'h>>>,
    moves: &[u8],
) -> Vec<HeapClient<'h>> {
    let mut town = beginning(rt, heap, keys);
    let mut clients = clients_of(rt, &town, keys, MOST_CACHED);
    make_all(rt, &mut town, &mut clients, moves);
    clients
}

/// Makes all moves of a course, where the growth of this number is refused: what is answered. The keys are there again
/// in the end.
fn run<'h>(
    rt: &impl Aided,
    heap: Heap<'h>,
    keys: &mut Vec<PrivateKey<Heap<'h>>>,
    course: &Course,
    number: u64,
) -> (Meter<'h>, Story) {
    let mut town = beginning(rt, heap, keys);
    let mut clients = clients_of(rt, &town, keys, course.cached);
    make_all(rt, &mut town, &mut clients, course.before);
    put_in(&mut town.meter, Meter::new(heap, number));
    make_all(rt, &mut town, &mut clients, course.moves);
    check_text(rt, &town.seen, course.seen);
    take_keys(rt, clients, keys);
    ended(rt, town)
}

/// Copies of the calls of a log.
fn copies(rt: &impl Aided, log: &MemoryLog<Heap<'_>>) -> Vec<Call<Global>> {
    let mut calls = Vec::new(rt.alloc());
    for call in log.calls() {
        let copy = Call::new(call.kind(), joined(rt, &[call.text()]));
        given(rt, calls.push(copy), "memory");
    }
    calls
}

/// What is left of a town: who counts, and what came of its course.
fn ended<'h>(rt: &impl Aided, town: Town<'h>) -> (Meter<'h>, Story) {
    let calls = copies(rt, &town.log);
    let Town {
        meter,
        keys,
        ordered,
        log,
        blocks,
        planned,
        texts,
        said,
        seen,
    } = town;
    let_go((ordered, log, blocks));
    let_go((planned, texts));
    let_go((keys, seen));
    (meter, Story { said, calls })
}

/// The keys of clients, which are closed.
fn take_keys<'h>(
    rt: &impl Aided,
    clients: Vec<HeapClient<'h>>,
    keys: &mut Vec<PrivateKey<Heap<'h>>>,
) {
    for client in clients {
        given(rt, keys.push(closed(rt, client)), "memory");
    }
}

/// The calls of a log are the right ones, in order.
fn are_right(rt: &impl Aided, calls: &[Call<Global>], right: &[Call<Global>]) {
    check(rt, calls.len() == right.len(), "as many calls");
    for (call, right) in calls.iter().zip(right) {
        check(rt, call.kind() == right.kind(), "its kind");
        check_text(rt, call.text(), right.text());
    }
}

/// Makes all moves of a course, where the growth of this number is refused: what is answered, and what is in the log, is
/// what always is. True where the run meets no refusal.
fn is_over<'h>(
    rt: &impl Aided,
    heap: Heap<'h>,
    keys: &mut Vec<PrivateKey<Heap<'h>>>,
    course: &Course,
    number: u64,
    always: &Story,
    swept: &mut Swept,
) -> bool {
    let (meter, story) = run(rt, heap, keys, course, number);
    check_text(rt, &story.said, &always.said);
    are_right(rt, &story.calls, &always.calls);
    swept.is_over(rt, &meter)
}

/// Refuses each growth of a course in turn over keys, until a run meets no refusal.
fn sweep_over<'h>(
    rt: &impl Aided,
    heap: Heap<'h>,
    keys: &mut Vec<PrivateKey<Heap<'h>>>,
    course: &Course,
) -> Swept {
    let (_meter, always) = run(rt, heap, keys, course, 0);
    let mut swept = Swept::new(rt);
    for number in 1..MOST {
        if is_over(rt, heap, keys, course, number, &always, &mut swept) {
            return swept;
        }
    }
    rt.fail("too many growths")
}

/// What comes of a course where no growth is refused.
pub(crate) fn story_of(rt: &impl Aided, course: &Course) -> Story {
    let heap = Refusing::new(rt.alloc());
    let mut keys = keys_of(rt, &heap, course.users);
    let (_meter, story) = run(rt, &heap, &mut keys, course, 0);
    story
}

/// Refuses each growth of a course in turn.
pub(crate) fn sweep(rt: &impl Aided, course: &Course) -> Swept {
    let heap = Refusing::new(rt.alloc());
    let mut keys = keys_of(rt, &heap, course.users);
    sweep_over(rt, &heap, &mut keys, course)
}
