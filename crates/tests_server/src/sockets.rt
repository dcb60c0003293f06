//! Connections over TCP: what is accepted, and the bytes of a socket both ways.

use connection::{Connection, Socket};
use layout::let_go;
use server_workers::{Accepted, Watch};
use std::io;
use std::io::{ErrorKind, Read, Write};
use std::net::{Net, Shutdown, SocketAddr, TcpListener, TcpStream};
use std::os::fd::OwnedFd;
use std::process::Abort;
use std::sync::atomic::{AtomicU32, Ordering};
use std::time::{Clock, Duration};

/// A clock that makes a client knock where it should rest. So many milliseconds go by on it whenever it is read, or it
/// tells no time.
#[derive(Drop)]
struct Knocking<'a, R: Net> {
    rt: &'a R,
    address: SocketAddr,
    stride: Option<u64>,
    reads: AtomicU32,
}

impl<'a, R: Net> Clock for Knocking<'a, R> {
    fn monotonic(&self) -> io::Result<Duration> {
        let reads = self.reads.fetch_add(1, Ordering::SeqCst);
        match self.stride {
            Some(stride) => Ok(Duration::from_millis(u64::from(reads).wrapping_mul(stride))),
            None => Err(ErrorKind::Unsupported.into()),
        }
    }

    fn since_1970(&self) -> io::Result<Duration> {
        Err(ErrorKind::Unsupported.into())
    }

    fn sleep(&self, _duration: Duration) {
        let _stream = TcpStream::connect(self.rt, self.address);
    }
}

/// Knocks: a stream, which is open as long as it is kept.
fn knock<R: Abort + Net<Listener = TcpListener, Stream = TcpStream>>(
    rt: &R,
    address: SocketAddr,
) -> TcpStream {
    TcpStream::connect(rt, address).expect(rt, "a connection")
}

/// How often somebody was told that faults begin, that they ended, and that the listener can't listen.
#[derive(Drop)]
struct Told {
    begun: AtomicU32,
    ended: AtomicU32,
    last: AtomicU32,
}

impl Told {
    fn new() -> Told {
        Told {
            begun: AtomicU32::new(0),
            ended: AtomicU32::new(0),
            last: AtomicU32::new(0),
        }
    }

    fn counts(&self) -> (u32, u32, u32) {
        (
            self.begun.load(Ordering::SeqCst),
            self.ended.load(Ordering::SeqCst),
            self.last.load(Ordering::SeqCst),
        )
    }
}

#[derive(Drop)]
struct Counting<'a> {
    told: &'a Told,
}

impl<'a> Watch for Counting<'a> {
    fn faults_begin(&self, _fault: &io::Error) {
        self.told.begun.fetch_add(1, Ordering::SeqCst);
    }

    fn faults_end(&self) {
        self.told.ended.fetch_add(1, Ordering::SeqCst);
    }

    fn ends(&self, _fault: &io::Error) {
        self.told.last.fetch_add(1, Ordering::SeqCst);
    }
}

/// Whether a further connection is accepted, which is let go.
fn comes<C: Clock>(accepted: &mut Accepted<'_, C, Counting<'_>>) -> bool {
    match accepted.next() {
        Some(socket) => {
            let_go(socket);
            true
        }
        None => false,
    }
}

/// So many are accepted where nobody knocks, then one who waits, and nobody who is late.
fn come_in_time<R: Abort + Net<Listener = TcpListener, Stream = TcpStream>>(
    rt: &R,
    accepted: &mut Accepted<'_, Knocking<'_, R>, Counting<'_>>,
    address: SocketAddr,
    many: u32,
) {
    for turn in 0..many {
        assert!(rt; comes(accepted), "{turn} of {many}");
    }
    let _waits = knock(rt, address);
    assert!(rt; comes(accepted), "who waits, after {many}");
    let _late = knock(rt, address);
    for _time in 0..2u8 {
        assert!(rt; !comes(accepted), "late, after {many}");
    }
}

/// A listener of its own that doesn't wait, and its address.
fn impatient<R: Abort + Net<Listener = TcpListener, Stream = TcpStream>>(
    rt: &R,
) -> (TcpListener, SocketAddr) {
    let listener = TcpListener::bind(rt, "127.0.0.1:0").expect(rt, "a port");
    listener.set_nonblocking(true).expect(rt, "it doesn't wait");
    let address = listener.local_addr().expect(rt, "its address");
    (listener, address)
}

/// A listener that fails while nobody knocks, since it doesn't wait, accepts as many connections as it may and one more:
/// each client but the last one knocks whenever the clock should rest upon the fault. That faults begin is told once,
/// and that they ended once one is accepted that waited: but not where the clock tells that less than ten seconds have
/// gone by since the last of them. Who knocks later isn't accepted.
fn waits_out<R: Abort + Net<Listener = TcpListener, Stream = TcpStream>>(
    rt: &R,
    (many, stride, wanted): (u32, Option<u64>, (u32, u32, u32)),
) {
    let (listener, address) = impatient(rt);
    let clock = Knocking {
        rt,
        address,
        stride,
        reads: AtomicU32::new(0),
    };
    let told = Told::new();
    let mut fault = None;
    let most = many.saturating_add(1);
    let counting = Counting { told: &told };
    let mut accepted = Accepted::new(&clock, &listener, most, &mut fault).watched(9, counting);
    come_in_time(rt, &mut accepted, address, many);
    let_go(accepted);
    assert!(rt; listener.accept().is_ok(), "who came too late still waits");
    assert!(rt; fault.is_none(), "a fault ended them, after {many}");
    assert_eq!(rt; told.counts(), wanted);
}

/// How many connections are waited for, what the clock tells, and how often faults begin and end.
const WAITS: [(u32, Option<u64>, (u32, u32, u32)); 7] = [
    (0, None, (0, 0, 0)),
    (1, None, (1, 1, 0)),
    (3, None, (1, 1, 0)),
    (0, Some(10_000), (0, 0, 0)),
    (1, Some(9_999), (1, 0, 0)),
    (1, Some(10_000), (1, 1, 0)),
    (3, Some(5_000), (1, 0, 0)),
];

#[test]
fn a_fault_that_passes_is_waited_out(rt: HostRuntime) {
    for row in WAITS {
        waits_out(&rt, row);
    }
}

/// A stream is no listener: that is told at once.
#[test]
fn a_listener_that_cannot_listen_ends_them(rt: HostRuntime) {
    let listener = TcpListener::bind(&rt, "127.0.0.1:0").expect(&rt, "a port");
    let address = listener.local_addr().expect(&rt, "its address");
    let stream = knock(&rt, address);
    let deaf = TcpListener::from(OwnedFd::from(stream));
    let told = Told::new();
    let mut fault = None;
    let counting = Counting { told: &told };
    let mut accepted = Accepted::new(&rt, &deaf, 2, &mut fault).watched(9, counting);
    assert!(rt; !comes(&mut accepted), "a connection");
    assert!(rt; !comes(&mut accepted), "another one");
    let_go(accepted);
    assert!(rt; fault.is_some(), "the fault is told");
    assert_eq!(rt; told.counts(), (0, 0, 1));
}

/// What the client writes is read.
fn brings_requests<R: Abort + Net<Listener = TcpListener, Stream = TcpStream>>(
    rt: &R,
    client: &mut TcpStream,
    socket: &mut Socket,
) {
    client.write_all(b"abc").expect(rt, "written");
    let mut buffer = [0; 8];
    assert_eq!(rt; socket.read(&mut buffer).ok(), Some(3));
    assert!(rt;
        buffer.as_slice().starts_with(b"abc"),
        "what the client wrote"
    );
}

/// What the server writes comes to the client.
fn brings_replies<R: Abort + Net<Listener = TcpListener, Stream = TcpStream>>(
    rt: &R,
    client: &mut TcpStream,
    socket: &mut Socket,
) {
    assert!(rt; socket.write(b"defg").is_ok(), "written");
    let mut read = [0; 4];
    client.read_exact(&mut read).expect(rt, "read");
    assert!(rt;
        read.as_slice() == b"defg".as_slice(),
        "what the server wrote"
    );
}

#[test]
fn a_socket_brings_bytes_both_ways(rt: HostRuntime) {
    let listener = TcpListener::bind(&rt, "127.0.0.1:0").expect(&rt, "a port");
    let address = listener.local_addr().expect(&rt, "its address");
    let mut client = knock(&rt, address);
    let limit = Some(Duration::from_secs(10));
    client.set_read_timeout(limit).expect(&rt, "a limit");
    let (stream, _) = listener.accept().expect(&rt, "who knocked");
    let mut socket = Socket::new(stream).expect(&rt, "a socket");
    brings_requests(&rt, &mut client, &mut socket);
    brings_replies(&rt, &mut client, &mut socket);
    client.shutdown(Shutdown::Write).expect(&rt, "shut down");
    assert_eq!(rt; socket.read(&mut [0; 8]).ok(), Some(0));
    assert_eq!(rt; socket.faults(), 0);
}
