//! Three clients of one server over TCP, with their blocks: two write at once, and the third sees both writes.

use crate::here::Here;
use block_store::Store;
use client_verify::{Look, Step};
use layout::{Digest, let_go};
use lms_sign::PublicKey;
use server_workers::{Accepted, OpenGate, serve};
use std::alloc::Global;
use std::net::{Net, SocketAddr, TcpListener, TcpStream};
use std::process::Abort;
use std::sync::Wait;
use std::thread;
use std::thread::Threads;
use std::time::Clock;
use tests_aids::texts::key_of;
use tests_aids::{Host, check, check_text};
use tests_client_aids::changes::{Planned, listing_both, making, nothing};
use tests_client_aids::clients::{
    MemoryClient, client_of, declare_changes, end, first_key, give, hand, look_at, sign, step_on,
};
use tests_plain_user::{Caller, Replied};
use wire::{RequestKind, Status};

/// How many blocks are asked for at most at one go.
const BOUND: u32 = 2000;

/// The server replies Ok, with this payload.
fn ask(rt: &impl Host, caller: &mut Caller<TcpStream>, kind: RequestKind, text: &[u8]) -> Vec<u8> {
    assert!(rt; text.len() < 2_097_152, "a text of a frame");
    let Replied { status, payload } = caller.ask(kind, text).expect(rt, "a reply");
    assert!(rt; status == Status::Ok, "{status:?} to {kind:?}");
    payload
}

/// Stores these texts, each of which the server names by its digest.
fn put(rt: &impl Host, caller: &mut Caller<TcpStream>, texts: &[Vec<u8>]) {
    for text in texts {
        let named = ask(rt, caller, RequestKind::Put, text);
        check_text(rt, &named, layout::digest(text).as_bytes());
    }
}

/// The block of this digest.
fn get(rt: &impl Host, caller: &mut Caller<TcpStream>, digest: Digest) -> Vec<u8> {
    ask(rt, caller, RequestKind::Get, digest.as_bytes())
}

/// Has an operation of these changes placed and accepted: its signed structure.
fn begin(
    rt: &impl Host,
    caller: &mut Caller<TcpStream>,
    client: &mut MemoryClient,
    planned: Planned,
) -> Vec<u8> {
    let Planned { changes, laid } = planned;
    put(rt, caller, &laid);
    let update = declare_changes(rt, client, changes, laid);
    let reply = ask(rt, caller, RequestKind::Update, &update);
    let mut step = step_on(rt, client, &reply);
    for _block in 0..BOUND {
        match step {
            Step::Need(digest) => {
                let block = get(rt, caller, digest);
                step = hand(rt, client, Some(&block));
            }
            Step::Store(texts) => {
                put(rt, caller, &texts);
                return sign(rt, client);
            }
            Step::Broken(rule) => panic!(rt; "{rule:?}"),
        }
    }
    panic!(rt; "too many blocks")
}

/// Commits the structure.
fn commit(
    rt: &impl Host,
    caller: &mut Caller<TcpStream>,
    client: &mut MemoryClient,
    structure: &[u8],
) {
    let payload = ask(rt, caller, RequestKind::Commit, structure);
    check(rt, payload.is_empty(), "no payload");
    end(rt, client, Status::Ok);
}

/// An operation from its beginning to its commit.
fn operate(
    rt: &impl Host,
    caller: &mut Caller<TcpStream>,
    client: &mut MemoryClient,
    planned: Planned,
) {
    let structure = begin(rt, caller, client, planned);
    commit(rt, caller, client, &structure);
}

/// The client sees a file of these bytes at the i-number 3 of a user.
fn sees(
    rt: &impl Host,
    caller: &mut Caller<TcpStream>,
    client: &mut MemoryClient,
    user: u8,
    bytes: &[u8],
) {
    let mut look = look_at(rt, client, user, 3);
    for _block in 0..BOUND {
        match look {
            Look::Need(digest) => {
                let block = get(rt, caller, digest);
                let next = give(rt, client, Some(&block));
                let_go(look);
                look = next;
            }
            Look::File(file) => return check_text(rt, &file, bytes),
            _ => panic!(rt; "no file"),
        }
    }
    panic!(rt; "too many blocks")
}

/// User 0 makes an operation without changes, and sees the files of both.
fn sees_both(rt: &impl Host, caller: &mut Caller<TcpStream>, superuser: &mut MemoryClient) {
    operate(rt, caller, superuser, nothing(rt));
    sees(rt, caller, superuser, 1, b"one");
    sees(rt, caller, superuser, 2, b"two");
}

/// Users 1 and 2 write at once, and user 0 looks when one of them has committed, and when both have. Their keys are
/// made before the connection, which the server ends where it waits too long.
fn write_and_look<R: Alloc<A = Global> + Abort + Net<Listener = TcpListener, Stream = TcpStream>>(
    rt: &R,
    address: SocketAddr,
) {
    let host = &(rt, Here);
    let (one, two) = (key_of(host, 1).public(), key_of(host, 2).public());
    let listing = listing_both(host, one, two);
    let mut zero = client_of(host, 0, 0);
    let mut one = client_of(host, 1, 1);
    let mut two = client_of(host, 2, 2);
    let stream = TcpStream::connect(rt, address).expect(rt, "a connection");
    let mut caller = Caller::new(rt.alloc(), stream);
    operate(host, &mut caller, &mut zero, listing);
    write_both(host, &mut caller, &mut zero, &mut one, &mut two);
    let_go(caller);
    let_go(zero);
    let_go(one);
    let_go(two);
}

/// The users do that over their connection.
fn write_both(
    rt: &impl Host,
    caller: &mut Caller<TcpStream>,
    zero: &mut MemoryClient,
    one: &mut MemoryClient,
    two: &mut MemoryClient,
) {
    let by_first = begin(rt, caller, one, making(rt, 1, 3, b"one"));
    let by_second = begin(rt, caller, two, making(rt, 2, 3, b"two"));
    commit(rt, caller, two, &by_second);
    sees_both(rt, caller, zero);
    commit(rt, caller, one, &by_first);
    sees_both(rt, caller, zero);
}

/// Serves one connection: how many calls were answered.
fn serve_one<R: Alloc<A = Global> + Abort + Clock + Threads + Wait + Sync>(
    rt: &R,
    listener: &TcpListener,
    pinned: PublicKey,
) -> u64 {
    let alloc = rt.alloc();
    let store = Store::new(alloc).expect(rt, "memory");
    let log = Vec::new(alloc);
    let mut fault = None;
    let connections = Accepted::new(rt, listener, 1, &mut fault);
    let served = serve(rt, alloc, &OpenGate, connections, 1, &store, pinned, log);
    let served = served.ok().expect(rt, "memory");
    let answered = served.answered;
    let_go(served);
    let_go(store);
    answered
}

#[test]
fn two_write_at_once(rt: HostRuntime) {
    let pinned = first_key(&(&rt, Here));
    let listener = TcpListener::bind(&rt, "127.0.0.1:0").expect(&rt, "a port");
    let address = listener.local_addr().expect(&rt, "its address");
    let (answered, ()) = thread::join(
        &rt,
        || serve_one(&rt, &listener, pinned),
        || write_and_look(&rt, address),
    );
    // Five operations, of two calls each.
    assert_eq!(rt; answered, 10);
}
