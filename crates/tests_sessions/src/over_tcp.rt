//! Commands over TCP: the server's workers run beside the users' processes, which come one after another, each over a
//! connection of its own.

use crate::files::blocks_of;
use crate::here::Here;
use crate::town::{Town, town_of};
use crate::words::{is_end, row_of, run_over};
use block_store::Store;
use connection::Socket;
use layout::let_go;
use lms_sign::PublicKey;
use server_workers::{Accepted, OpenGate, serve};
use std::alloc::Global;
use std::net::{Net, SocketAddr, TcpListener, TcpStream};
use std::process::Abort;
use std::sync::Wait;
use std::thread;
use std::thread::Threads;
use std::time::Clock;
use tests_aids::given;
use tests_client_aids::clients::first_key;
use transport::Framed;

/// User 1 owns no file in user 0's directory.
const ROWS: &str = "\
0 put /f FILE < hello -> 0 done|
0 put /empty FILE -> 0 done|
0 cat /empty -> 0
0 adduser 1 KEY1 -> 0 done|
1 rm /f -> 1 lost 1 2|
1 cat /f -> 0 hello
1 ls / -> 0 empty 0:4|f 0:3|
";

/// As many processes come as there are rows, and two with large files.
const PROCESSES: u32 = 9;

/// A connection to the server.
fn connected<R: Alloc<A = Global> + Abort + Net<Listener = TcpListener, Stream = TcpStream>>(
    rt: &R,
    address: SocketAddr,
) -> Framed<Socket, Global> {
    let stream = TcpStream::connect(rt, address).expect(rt, "a stream");
    stream.set_nodelay(true).expect(rt, "no delay");
    let socket = Socket::new(stream).expect(rt, "a socket");
    Framed::going_ahead(rt.alloc(), socket, true).expect(rt, "memory")
}

/// A process carries out what these words say over a connection of its own, and ends so.
fn ends_there<R: Alloc<A = Global> + Abort + Net<Listener = TcpListener, Stream = TcpStream>>(
    rt: &R,
    address: SocketAddr,
    town: &mut Town,
    command: &str,
    content: &[u8],
    end: &str,
) {
    let host = &(rt, Here);
    let framed = connected(rt, address);
    let (outcome, framed) = run_over(host, town, command, content, framed);
    let_go(framed);
    is_end(host, &outcome, command, end);
}

/// A row ends as stands in it.
fn row_ends_there<R: Alloc<A = Global> + Abort + Net<Listener = TcpListener, Stream = TcpStream>>(
    rt: &R,
    address: SocketAddr,
    town: &mut Town,
    row: &str,
) {
    let (command, content, end) = row_of(&(rt, Here), row);
    ends_there(rt, address, town, command, content, end);
}

/// Each row ends as stands in it. Then the largest file is put, and one with a byte more is refused.
fn processes<R: Alloc<A = Global> + Abort + Net<Listener = TcpListener, Stream = TcpStream>>(
    rt: &R,
    address: SocketAddr,
    town: &mut Town,
) {
    let host = &(rt, Here);
    for row in ROWS.lines() {
        row_ends_there(rt, address, town, row);
    }
    let mut file = blocks_of(host, 1024);
    let put = "0 put /large FILE";
    ends_there(rt, address, town, put, &file, "0 done|");
    given(host, file.push(0), "memory");
    ends_there(rt, address, town, put, &file, "4 too large|");
}

/// The same in a town of its own.
fn processes_of_a_town<
    R: Alloc<A = Global> + Abort + Net<Listener = TcpListener, Stream = TcpStream>,
>(rt: &R, address: SocketAddr) {
    let mut town = town_of(&(rt, Here), 3);
    processes(rt, address, &mut town);
    let_go(town);
}

/// Serves as many processes as come over this store: whether all that was placed and committed was logged.
fn serves_over<R: Alloc<A = Global> + Abort + Clock + Threads + Wait + Sync>(
    rt: &R,
    listener: &TcpListener,
    pinned: PublicKey,
    store: &Store<Global>,
) -> bool {
    let alloc = rt.alloc();
    let log = Vec::new(alloc);
    let mut fault = None;
    let connections = Accepted::new(rt, listener, PROCESSES, &mut fault);
    let served = serve(
        rt,
        alloc,
        &OpenGate,
        connections,
        PROCESSES,
        store,
        pinned,
        log,
    );
    let served = served.ok().expect(rt, "memory");
    let flushed = served.flushed;
    let_go(served);
    flushed
}

/// The same over a store of its own.
fn serves<R: Alloc<A = Global> + Abort + Clock + Threads + Wait + Sync>(
    rt: &R,
    listener: &TcpListener,
    pinned: PublicKey,
) -> bool {
    let store = Store::new(rt.alloc()).expect(rt, "memory");
    serves_over(rt, listener, pinned, &store)
}

#[test]
fn commands_and_large_files_over_tcp(rt: HostRuntime) {
    let pinned = first_key(&(&rt, Here));
    let listener = TcpListener::bind(&rt, "127.0.0.1:0").expect(&rt, "a port");
    let address = listener.local_addr().expect(&rt, "its address");
    let (flushed, ()) = thread::join(
        &rt,
        || serves(&rt, &listener, pinned),
        || processes_of_a_town(&rt, address),
    );
    assert!(rt; flushed, "the log is written");
}
