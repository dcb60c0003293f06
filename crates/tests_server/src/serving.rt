//! A server over connections of any kind, and one over TCP beside its clients.

ghost use Rattle.std.specs.Iterator.{IsFinite};

use block_store::Store;
use connection::Connection;
use layout::let_go;
use lms_sign::PublicKey;
use server_workers::{Accepted, Gate, Served, serve};
use std::alloc::Global;
use std::io::Write;
use std::net::{Net, SocketAddr, TcpListener, TcpStream};
use std::process::Abort;
use std::sync::Wait;
use std::thread;
use std::thread::Threads;
use std::time::Clock;

/// What a test of a server runs in.
pub(crate) trait Host: Alloc<A = Global> + Abort + Clock + Threads + Wait + Sync {}

impl<R: Alloc<A = Global> + Abort + Clock + Threads + Wait + Sync> Host for R {}

/// A public key of these types, whose root signs nothing here.
pub(crate) fn key(rt: &impl Abort) -> PublicKey {
    let mut bytes = [0; 56];
    bytes[3] = 6;
    bytes[7] = 3;
    PublicKey::from_bytes(bytes).expect(rt, "a key")
}

/// What is left of a server, but for the order of its calls, of which only the number is told.
#[derive(Drop)]
pub(crate) struct Left<W> {
    pub(crate) calls: usize,
    pub(crate) answered: u64,
    pub(crate) unserved: usize,
    pub(crate) flushed: bool,
    /// The writer of the log.
    pub(crate) log: W,
}

/// What is left of a server, whose order is let go.
pub(crate) fn left_of<W>(served: Served<W>) -> Left<W> {
    let Served {
        ordered,
        answered,
        unserved,
        flushed,
        writer,
    } = served;
    let calls = ordered.call_count();
    let_go(ordered);
    Left {
        calls,
        answered,
        unserved,
        flushed,
        log: writer,
    }
}

/// Serves these connections, of which there are at most so many, over this store.
fn serve_over<
    R: Host,
    G: Gate + Sync,
    C: Connection + Send,
    I: Iterator<Item = C> + Drop,
    W: Write + Drop + Send,
>(
    rt: &R,
    gate: &G,
    connections: I,
    most: u32,
    store: &Store<Global>,
    pinned: PublicKey,
    writer: W,
) -> Left<W>
    requires { I.can_next connections × IsFinite (I.remaining connections) }
{
    let served = serve(
        rt,
        rt.alloc(),
        gate,
        connections,
        most,
        store,
        pinned,
        writer,
    );
    left_of(served.ok().expect(rt, "memory"))
}

/// The same over a store of its own.
pub(crate) fn serve_all<
    R: Host,
    G: Gate + Sync,
    C: Connection + Send,
    I: Iterator<Item = C> + Drop,
    W: Write + Drop + Send,
>(rt: &R, gate: &G, connections: I, most: u32, pinned: PublicKey, writer: W) -> Left<W>
    requires { I.can_next connections × IsFinite (I.remaining connections) }
{
    let store = Store::new(rt.alloc()).expect(rt, "memory");
    serve_over(rt, gate, connections, most, &store, pinned, writer)
}

/// Serves so many connections that a listener accepts: the log stands in memory.
fn serve_accepted<R: Host, G: Gate + Sync>(
    rt: &R,
    gate: &G,
    listener: &TcpListener,
    most: u32,
    pinned: PublicKey,
) -> Left<Vec<u8>> {
    let mut fault = None;
    let connections = Accepted::new(rt, listener, most, &mut fault);
    let left = serve_all(rt, gate, connections, most, pinned, Vec::new(rt.alloc()));
    assert!(rt; fault.is_none(), "all were accepted");
    left
}

/// So many connections to this address.
fn connections<R: Host + Net<Listener = TcpListener, Stream = TcpStream>>(
    rt: &R,
    address: SocketAddr,
    count: u32,
) -> Vec<TcpStream> {
    let mut streams = Vec::new(rt.alloc());
    for _number in 0..count {
        let stream = TcpStream::connect(rt, address).expect(rt, "a connection");
        streams.push(stream).expect(rt, "memory");
    }
    streams
}

/// Serves so many connections over TCP beside clients, which are given them: what is left of the server.
pub(crate) fn serve_beside<
    R: Host + Net<Listener = TcpListener, Stream = TcpStream>,
    G: Gate + Sync,
    F: FnOnce(Vec<TcpStream>),
>(rt: &R, gate: &G, most: u32, pinned: PublicKey, clients: F) -> Left<Vec<u8>>
    requires { F.IsAlwaysCallable clients }
{
    let listener = TcpListener::bind(rt, "127.0.0.1:0").expect(rt, "a port");
    let address = listener.local_addr().expect(rt, "its address");
    let streams = connections(rt, address, most);
    let (left, ()) = thread::join(
        rt,
        || serve_accepted(rt, gate, &listener, most, pinned),
        move || clients(streams),
    );
    left
}
