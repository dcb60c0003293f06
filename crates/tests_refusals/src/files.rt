//! A client over files of the system, from whose memory its devices draw, too.

use crate::clients::{begun, closed, committed, heard, known, signed};
use crate::courses::keys_of;
use crate::here::Here;
use crate::meter::{Heap, MOST, Meter, Swept};
use crate::plans::{Planned, nothing, plan};
use client_verify::{Client, ClientError, Parts, Phase, Step};
use layout::{User, let_go, put_in};
use leaf_ledger::{Device, FileDevice};
use lms_sign::{PrivateKey, PublicKey};
use std::fs;
use tests_aids::texts::{first_reply, joined};
use tests_aids::{Aided, check, found, given};
use tests_refusing::Refusing;

const FOLDER: &str = "client_room_test";

const LEDGER: &str = "client_room_test/ledger";

const JOURNAL: &str = "client_room_test/journal";

type FileClient<'h> = Client<FileDevice<Heap<'h>>, FileDevice<Heap<'h>>, Heap<'h>>;

/// A device over a file, which is made where there is none.
fn device<'h>(
    rt: &impl Aided,
    files: &HostRuntime,
    heap: Heap<'h>,
    path: &str,
) -> FileDevice<Heap<'h>> {
    given(rt, FileDevice::open(files, heap, FOLDER, path), "a file")
}

type FileParts<'h> = Parts<FileDevice<Heap<'h>>, FileDevice<Heap<'h>>, Heap<'h>>;

/// A key, with the devices over the files.
fn parts<'h>(
    rt: &impl Aided,
    files: &HostRuntime,
    heap: Heap<'h>,
    key: PrivateKey<Heap<'h>>,
) -> FileParts<'h> {
    let ledger = device(rt, files, heap, LEDGER);
    let journal = device(rt, files, heap, JOURNAL);
    given(rt, Parts::of_one(heap, key, ledger, journal), "memory")
}

/// User 0's client over these, or why there is none.
fn open<'h>(
    rt: &impl Aided,
    heap: Heap<'h>,
    parts: FileParts<'h>,
    pinned: PublicKey,
) -> Result<FileClient<'h>, (ClientError, FileParts<'h>)> {
    let Parts { keys, journal } = parts;
    if keys.is_empty() {
        rt.fail("no key");
    }
    Client::open(heap, User::superuser(), keys, pinned, journal)
}

/// That client, where there is one.
fn is_open<'h>(
    rt: &impl Aided,
    client: Result<FileClient<'h>, (ClientError, FileParts<'h>)>,
) -> FileClient<'h> {
    match client {
        Ok(client) => client,
        Err((error, _)) => rt.fail(error),
    }
}

/// User 0's client over new files.
fn opened<'h>(
    rt: &impl Aided,
    files: &HostRuntime,
    heap: Heap<'h>,
    key: PrivateKey<Heap<'h>>,
) -> FileClient<'h> {
    let _ = fs::remove_dir_all(files, FOLDER);
    given(rt, fs::create_dir(files, FOLDER), "a folder");
    let pinned = key.public();
    let parts = parts(rt, files, heap, key);
    is_open(rt, open(rt, heap, parts, pinned))
}

/// The client over these at last. Where memory ran out first, it gives them back.
fn opened_at_last<'h>(
    rt: &impl Aided,
    meter: &mut Meter<'h>,
    parts: FileParts<'h>,
    pinned: PublicKey,
) -> FileClient<'h> {
    match open(rt, meter.heap, parts, pinned) {
        Ok(client) => {
            meter.is_again(rt, b'o', false);
            client
        }
        Err((error, parts)) => {
            let is_told = known(rt, Err::<(), ClientError>(error)).is_none();
            meter.is_again(rt, b'o', is_told);
            is_open(rt, open(rt, meter.heap, parts, pinned))
        }
    }
}

/// What stands in a client's files: the marks of its leaves, and its journal.
fn held(rt: &impl Aided, client: &FileClient<'_>) -> Vec<u8> {
    client.type_invariant();
    joined(rt, &[client.ledger_of(0).text(), client.journal().text()])
}

/// A client that is closed and opened anew over its files: it stands where it stood. Growths of its devices aren't
/// counted.
fn reopened<'h>(
    rt: &impl Aided,
    files: &HostRuntime,
    meter: &mut Meter<'h>,
    client: FileClient<'h>,
) -> FileClient<'h> {
    let heap = meter.heap;
    let before = held(rt, &client);
    let (phase, number) = (client.phase(), client.number());
    let key = closed(rt, client);
    let pinned = key.public();
    let left = heap.pause();
    let parts = parts(rt, files, heap, key);
    heap.go_on(left);
    let client = opened_at_last(rt, meter, parts, pinned);
    let is_same = client.phase() == phase && client.number() == number;
    check(
        rt,
        is_same && held(rt, &client) == before,
        "it stands elsewhere",
    );
    client
}

/// As many changes as an operation may have, all of the table of principals: nine users, of whom seven are members.
const MANY: &[u8] = b"+1+2+3+4+5+6+7+8+9j1j2j3j4j5j6j7";

/// These changes. Growths while they are made aren't counted.
fn many<'h>(rt: &impl Aided, heap: Heap<'h>, pinned: PublicKey) -> Planned<'h> {
    let keys = [pinned; 10];
    let mut planned = nothing(heap);
    let left = heap.pause();
    for change in MANY.chunks(2) {
        if let [what, rest @ ..] = change {
            plan(rt, heap, &mut planned, &keys, *what, rest);
        }
    }
    heap.go_on(left);
    planned
}

/// It signs its certificate once more.
fn again<'h>(
    rt: &impl Aided,
    client: &mut FileClient<'h>,
) -> Result<Vec<u8, Heap<'h>>, ClientError> {
    if client.phase() != Phase::Declared || client.key_count() == 0 {
        rt.fail("it can't sign once more");
    }
    client.resign(0)
}

/// It accepts a reply.
fn accepts(rt: &impl Aided, client: &mut FileClient<'_>, reply: &[u8]) {
    let Ok(Step::Store(texts)) = heard(rt, client, reply) else {
        rt.fail("it isn't accepted");
    };
    let_go(texts);
}

/// What a client answers to a call: `b` begins an operation without changes, `m` one with many, `a` signs its certificate
/// again, and `s` signs over its reply. None where memory ran out.
fn asked<'h>(
    rt: &impl Aided,
    heap: Heap<'h>,
    pinned: PublicKey,
    client: &mut FileClient<'h>,
    call: u8,
) -> Option<Vec<u8, Heap<'h>>> {
    let answer = match call {
        b'b' => begun(rt, heap, client, &nothing(heap)),
        b'm' => begun(rt, heap, client, &many(rt, heap, pinned)),
        b'a' => again(rt, client),
        _ => signed(rt, client),
    };
    known(rt, answer)
}

/// The bytes of a client's ledger, which has the marks of its leaves. No device has failed.
fn marks(rt: &impl Aided, client: &FileClient<'_>) -> Vec<u8> {
    client.type_invariant();
    let (ledger, journal) = (client.ledger_of(0), client.journal());
    let faults = (ledger.faults(), journal.faults());
    check(rt, faults == (0, 0), "no device failed");
    joined(rt, &[ledger.text()])
}

/// What a client answers at last, by one more leaf. Where memory ran out first, no leaf was marked.
fn done<'h>(
    rt: &impl Aided,
    meter: &mut Meter<'h>,
    pinned: PublicKey,
    client: &mut FileClient<'h>,
    call: u8,
) -> Vec<u8, Heap<'h>> {
    let heap = meter.heap;
    let before = marks(rt, client);
    let mut answer = asked(rt, heap, pinned, client, call);
    if meter.is_again(rt, call, answer.is_none()) {
        check(rt, marks(rt, client) == before, "no leaf is marked");
        put_in(&mut answer, asked(rt, heap, pinned, client, call));
    }
    check(rt, marks(rt, client) != before, "a leaf is marked");
    found(rt, answer, "an answer")
}

/// Makes a call, or of the others `h` has it accept a reply to what it released last, `c` take the answer to that, and `o`
/// opens it anew. Growths while it accepts a reply aren't counted.
fn make<'h>(
    rt: &impl Aided,
    files: &HostRuntime,
    meter: &mut Meter<'h>,
    pinned: PublicKey,
    client: FileClient<'h>,
    last: &mut Vec<u8, Heap<'h>>,
    call: u8,
) -> FileClient<'h> {
    let mut client = client;
    match call {
        b'h' => {
            let left = meter.heap.pause();
            accepts(rt, &mut client, &first_reply(rt, last));
            meter.heap.go_on(left);
        }
        b'c' => committed(rt, &mut client),
        b'o' => return reopened(rt, files, meter, client),
        _ => put_in(last, done(rt, meter, pinned, &mut client, call)),
    }
    client
}

/// A client makes these calls, where the growth of this number is refused. The key is there again in the end.
fn run<'h>(
    rt: &impl Aided,
    files: &HostRuntime,
    heap: Heap<'h>,
    key: PrivateKey<Heap<'h>>,
    calls: &[u8],
    number: u64,
) -> (Meter<'h>, PrivateKey<Heap<'h>>) {
    let pinned = key.public();
    let mut client = opened(rt, files, heap, key);
    let mut meter = Meter::new(heap, number);
    let mut last = Vec::new(heap);
    for call in calls {
        client = make(rt, files, &mut meter, pinned, client, &mut last, *call);
    }
    (meter, closed(rt, client))
}

/// Refuses each growth of these calls in turn, until a run meets no refusal.
fn sweep(rt: &impl Aided, files: &HostRuntime, heap: Heap<'_>, calls: &[u8]) -> Swept {
    let mut keys = keys_of(rt, heap, 1);
    let mut swept = Swept::new(rt);
    for number in 1..MOST {
        let key = found(rt, keys.pop(), "a key");
        let (meter, key) = run(rt, files, heap, key, calls, number);
        given(rt, keys.push(key), "memory");
        if swept.is_over(rt, &meter) {
            return swept;
        }
    }
    rt.fail("too many growths")
}

/// Each is told as want of memory, and none comes once a leaf is marked. In the first sweep the journal grows where a
/// certificate is signed again and where the next operation begins, and in the second one where a structure is signed.
/// In the end the client is opened anew over what stands in its files.
#[test]
fn each_growth_refused_over_files(rt: HostRuntime) {
    let host = &(&rt, Here);
    let heap = Refusing::new(rt.alloc());
    sweep(host, &rt, &heap, b"bahscbo").is(host, 282, 0, b"");
    let other = Refusing::new(rt.alloc());
    sweep(host, &rt, &other, b"bhso").is(host, 262, 0, b"");
    let _ = fs::remove_dir_all(&rt, FOLDER);
}

/// The same of an operation with as many changes as one may have, which is opened anew in each of its phases.
#[test]
fn each_growth_of_many_changes_refused_over_files(rt: HostRuntime) {
    let host = &(&rt, Here);
    let heap = Refusing::new(rt.alloc());
    sweep(host, &rt, &heap, b"mohso").is(host, 507, 0, b"");
    let _ = fs::remove_dir_all(&rt, FOLDER);
}
