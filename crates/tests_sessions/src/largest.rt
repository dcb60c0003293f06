//! User 0 puts a file over a whole server in memory, while a growth is refused. Then the same call with memory is done,
//! and the file is there.

ghost use Rattle.std.specs.Prelude.{◌≡◌, [], true};
ghost use Rattle.crossbeam_queue.specs.Passes.{IsPassOf, ruled_capacity};
ghost use Rattle.server_workers.specs.Hands.{hand, hand_of};

use crate::here::Here;
use crate::served::{Heap, Sent, Served, Whose};
use block_store::Store;
use client_verify::{Client, Parts};
use commands::{Answer, Command};
use file_session::Session;
use layout::{Digest, User, digest, let_go};
use leaf_ledger::MemoryDevice;
use lms_sign::{KEY_SIZE, PrivateKey, PublicKey};
use server_workers::{CallPass, CallQueue, ServerName, Shared, empty_queue};
use std::alloc::Global;
use std::marker::Brand;
use std::process::Abort;
use std::sync::Wait;
use std::sync::ledger::{Blank, Ledger};
use tests_aids::{Aided, check, check_text, found, given};
use transport::Framed;

/// What these tests run in.
pub(crate) trait Host: Alloc<A = Global> + Abort + Wait {}

impl<R: Alloc<A = Global> + Abort + Wait> Host for R {}

/// Where the file is put.
const PATH: &str = "/f";

/// What is printed where it is put, and where it has too many bytes.
pub(crate) const DONE: &[u8] = b"done\n";

pub(crate) const TOO_LARGE: &[u8] = b"too large\n";

/// In the place of a growth's number: all growths are refused.
pub(crate) const EVERY: u64 = u64::MAX;

/// A file, and the digests of its blocks.
#[derive(Drop)]
pub(crate) struct File {
    bytes: Vec<u8>,
    digests: Vec<Digest>,
}

/// A file of these bytes.
pub(crate) fn file_of(rt: &impl Aided, bytes: Vec<u8>) -> File {
    let mut digests = Vec::new(rt.alloc());
    for block in bytes.chunks(4096) {
        given(rt, digests.push(digest(block)), "memory");
    }
    File { bytes, digests }
}

/// What came of a put while a growth was refused.
#[derive(Drop)]
pub(crate) struct Went {
    /// What was printed of it.
    pub(crate) answer: Vec<u8>,
    pub(crate) whose: Whose,
    /// How many growths there were.
    pub(crate) growths: u64,
    /// What was sent meanwhile.
    pub(crate) sent: Vec<Sent>,
}

/// A client over devices that don't draw on its memory.
type HeapClient<'h> = Client<MemoryDevice<Global>, MemoryDevice<Global>, Heap<'h>>;

/// A session of it, over a connection to a server.
type HeapSession<'a, 'h, B, L, R> = Session<
    MemoryDevice<Global>,
    MemoryDevice<Global>,
    Framed<Served<'a, 'h, B, L, R>, Heap<'h>>,
    Heap<'h>,
>;

/// A device on which nothing stands.
fn device(rt: &impl Aided) -> MemoryDevice<Global> {
    let device = MemoryDevice::new(rt.alloc(), Vec::new(rt.alloc()));
    given(rt, device, "memory")
}

/// User 0's client at its beginning.
fn client_of<'h>(
    rt: &impl Aided,
    heap: Heap<'h>,
    key: PrivateKey<Heap<'h>>,
    pinned: PublicKey,
) -> HeapClient<'h> {
    let parts = Parts::of_one(heap, key, device(rt), device(rt));
    let Parts { keys, journal } = given(rt, parts, "memory");
    match Client::open(heap, User::superuser(), keys, pinned, journal) {
        Ok(client) => client,
        Err((error, _)) => rt.fail(error),
    }
}

/// The key of a client that is closed, and how many of its leaves are used.
fn closed<'h>(rt: &impl Aided, client: HeapClient<'h>) -> (PrivateKey<Heap<'h>>, usize) {
    let (key, ledger, journal) = found(rt, client.close().last(), "a key");
    let mut used = 0usize;
    for mark in ledger.text().iter().skip(KEY_SIZE) {
        if *mark != 0 {
            used = used.wrapping_add(1);
        }
    }
    let_go((ledger, journal));
    (key, used)
}

/// A session of a client over a connection.
fn session_of<'a, 'h, B: ServerName, L: Ledger, R: Wait>(
    rt: &impl Aided,
    heap: Heap<'h>,
    client: HeapClient<'h>,
    served: Served<'a, 'h, B, L, R>,
) -> HeapSession<'a, 'h, B, L, R> {
    let framed = given(rt, Framed::new(heap, served), "memory");
    Session::new(heap, client, framed)
}

/// What is printed of an answer.
fn text_of(rt: &impl Aided, answer: &Answer<Heap<'_>>) -> Vec<u8> {
    let mut text: Vec<u8> = Vec::new(rt.alloc());
    match answer.write(&mut text) {
        Ok(()) => text,
        Err(_) => rt.fail("it isn't written"),
    }
}

/// What a session answers to a command.
fn answered<'a, 'h, B: ServerName, L: Ledger, R: Wait>(
    rt: &impl Aided,
    session: &mut HeapSession<'a, 'h, B, L, R>,
    command: &Command<'_>,
) -> Vec<u8> {
    let answer = session.run(command);
    text_of(rt, &answer)
}

/// The client and the connection of a session that ends.
fn parted<'a, 'h, B: ServerName, L: Ledger, R: Wait>(
    session: HeapSession<'a, 'h, B, L, R>,
) -> (HeapClient<'h>, Served<'a, 'h, B, L, R>) {
    let (client, framed) = session.close();
    (client, framed.into_connection())
}

/// Puts a file while the growth of a number is refused: what is printed, and how many growths there are.
fn put<'a, 'h, B: ServerName, L: Ledger, R: Wait>(
    rt: &impl Aided,
    heap: Heap<'h>,
    number: u64,
    session: &mut HeapSession<'a, 'h, B, L, R>,
    content: &[u8],
) -> (Vec<u8>, u64) {
    if number == EVERY {
        heap.refuse_all();
    } else {
        heap.refuse(number);
    }
    let path = PATH;
    let answer = answered(rt, session, &Command::Put { path, content });
    let growths = heap.asked(number);
    heap.refuse(0);
    (answer, growths)
}

/// With memory a file is put that wasn't, and read.
fn is_there<'a, 'h, B: ServerName, L: Ledger, R: Wait>(
    rt: &impl Aided,
    session: &mut HeapSession<'a, 'h, B, L, R>,
    content: &[u8],
    is_done: bool,
) {
    let path = PATH;
    if !is_done {
        let answer = answered(rt, session, &Command::Put { path, content });
        check_text(rt, &answer, DONE);
    }
    let read = answered(rt, session, &Command::Cat(path));
    check(rt, read.as_slice() == content, "the same bytes");
}

/// The next session of a client has memory: a file is there in the end, unless it was told to be too large.
fn ends_well<'a, 'h, B: ServerName, L: Ledger, R: Wait>(
    rt: &impl Aided,
    heap: Heap<'h>,
    client: HeapClient<'h>,
    served: Served<'a, 'h, B, L, R>,
    content: &[u8],
    answer: &[u8],
) -> (HeapClient<'h>, Served<'a, 'h, B, L, R>) {
    let mut session = session_of(rt, heap, client, served);
    if answer != TOO_LARGE {
        is_there(rt, &mut session, content, answer == DONE);
    }
    parted(session)
}

/// Whose growth of this number was refused, of so many, where the server knows of none of its own.
fn whose_of(served: Whose, number: u64, growths: u64) -> Whose {
    if served == Whose::Nobodys && number != 0 && number <= growths {
        Whose::Asking
    } else {
        served
    }
}

/// The client is closed. No leaf is used but for a text that was sent.
fn closed_after<'a, 'h, B: ServerName, L: Ledger, R: Wait>(
    rt: &impl Aided,
    client: HeapClient<'h>,
    served: Served<'a, 'h, B, L, R>,
) -> PrivateKey<Heap<'h>> {
    let texts = served.texts();
    let_go(served);
    let (key, used) = closed(rt, client);
    check(rt, used == texts, "a leaf for each text");
    key
}

/// Puts a file while the growth of a number is refused, and has it end well with memory.
fn tried<'a, 'h, B: ServerName, L: Ledger, R: Wait>(
    rt: &impl Aided,
    heap: Heap<'h>,
    number: u64,
    client: HeapClient<'h>,
    served: Served<'a, 'h, B, L, R>,
    content: &[u8],
) -> (Went, PrivateKey<Heap<'h>>) {
    let mut session = session_of(rt, heap, client, served);
    let (answer, growths) = put(rt, heap, number, &mut session, content);
    let (client, mut served) = parted(session);
    let (whose, sent) = served.rest(rt.alloc());
    let (client, served) = ends_well(rt, heap, client, served, content, &answer);
    let key = closed_after(rt, client, served);
    let went = Went {
        answer,
        whose: whose_of(whose, number, growths),
        growths,
        sent,
    };
    (went, key)
}

/// The same over a server by this queue.
fn tried_over<'h, B: ServerName, L: Ledger, R: Host>(
    rt: &R,
    heap: Heap<'h>,
    number: u64,
    queue: &CallQueue<Heap<'h>>,
    pass: CallPass<Heap<'h>>,
    blank: Blank,
    store: &Store<Heap<'h>>,
    key: PrivateKey<Heap<'h>>,
    pinned: PublicKey,
    content: &[u8],
) -> (Went, PrivateKey<Heap<'h>>)
    requires queue { IsPassOf queue.now pass × (pass.table_id ≡ B.queue) × (ruled_capacity queue.now ≡ 1024) }
    requires first { hand_of pass ≡ hand true true [] [] }
    requires server { pinned ≡ B.pinned }
    requires name { blank.name ≡ L.name }
    requires parts { (blank.parts ≡ L.parts) × (blank.parts ≡ 1) }
{
    let (shared, tally, popping) = Shared::<'_, Heap<'h>, B, L, R>::new(
        rt, heap, queue, pass, blank, store, pinned,
    );
    let_go(popping);
    let host = &(rt, Here);
    let client = client_of(host, heap, key, pinned);
    let served = Served::new(rt, rt.alloc(), heap, number, shared, tally);
    tried(host, heap, number, client, served, content)
}

/// The store has a block of this digest.
fn has_block<R: Host>(rt: &R, store: &Store<Heap<'_>>, digest: Digest, block: &[u8]) {
    let host = &(rt, Here);
    let Some(pass) = store.find(rt, digest) else {
        host.fail("a block is missing");
    };
    check(host, store.get_by_pass(&pass) == block, "its bytes");
}

/// The store has each block of a file.
fn has_blocks<R: Host>(rt: &R, store: &Store<Heap<'_>>, file: &File) {
    let mut place = 0usize;
    for block in file.bytes.chunks(4096) {
        let digest = found(&(rt, Here), file.digests.get(place), "a digest");
        has_block(rt, store, *digest, block);
        place = place.wrapping_add(1);
    }
}

/// A new server and a new client of user 0, who has this key, which is there again in the end. A file is put while the
/// growth of a number is refused, none at 0, and then is there.
pub(crate) fn run<'h, R: Host>(
    rt: &R,
    heap: Heap<'h>,
    keys: &mut Vec<PrivateKey<Heap<'h>>>,
    file: &File,
    number: u64,
) -> Went {
    let host = &(rt, Here);
    let key = found(host, keys.pop(), "a key");
    let pinned = key.public();
    let store = given(host, Store::new(heap), "memory");
    let (queue, pass) = given(host, empty_queue(heap), "memory");
    let (went, key) = tried_over::<Brand, Brand, R>(
        rt,
        heap,
        number,
        &queue,
        pass,
        Blank::new(1),
        &store,
        key,
        pinned,
        &file.bytes,
    );
    given(host, keys.push(key), "memory");
    if went.answer.as_slice() != TOO_LARGE {
        has_blocks(rt, &store, file);
    }
    went
}
