//! How long the server's end of a stream over TCP waits: for a request, for the rest of it, and until a reply is taken.

use connection::{Connection, ServerSocket};
use layout::let_go;
use std::alloc::Global;
use std::io::{ErrorKind, Read, Write};
use std::net::{Net, TcpListener, TcpStream};
use std::process::Abort;
use std::sync::atomic::{AtomicU32, Ordering};
use std::time::{Clock, Duration, Instant};
use std::{io, thread};

/// A clock on which so many milliseconds go by whenever it is read.
#[derive(Drop)]
struct Striding {
    stride: u64,
    reads: AtomicU32,
}

impl Striding {
    /// A clock that wasn't read.
    fn new(stride: u64) -> Striding {
        Striding {
            stride,
            reads: AtomicU32::new(0),
        }
    }
}

impl Clock for Striding {
    fn monotonic(&self) -> io::Result<Duration> {
        let reads = self.reads.fetch_add(1, Ordering::SeqCst);
        let gone = u64::from(reads).wrapping_mul(self.stride);
        Ok(Duration::from_millis(gone))
    }

    fn since_1970(&self) -> io::Result<Duration> {
        Err(ErrorKind::Unsupported.into())
    }
}

/// The server's end of a stream, another handle of it, and the client's end.
fn ends<'a, R: Abort + Net<Listener = TcpListener, Stream = TcpStream>, C: Clock>(
    rt: &R,
    clock: &'a C,
    idle: u64,
) -> (ServerSocket<'a, C>, TcpStream, TcpStream) {
    let listener = TcpListener::bind(rt, "127.0.0.1:0").expect(rt, "a port");
    let address = listener.local_addr().expect(rt, "its address");
    let client = TcpStream::connect(rt, address).expect(rt, "a connection");
    let (stream, _) = listener.accept().expect(rt, "who knocked");
    let other = stream.try_clone().expect(rt, "another handle");
    let socket = ServerSocket::new(clock, stream, idle).expect(rt, "a socket");
    (socket, other, client)
}

/// So many milliseconds went by since then, and less than thirty seconds.
fn took<R: Abort + Clock>(rt: &R, start: Instant, least: u64) {
    let gone = start.elapsed(rt).expect(rt, "the time");
    assert!(rt; gone >= Duration::from_millis(least), "not before");
    assert!(rt; gone < Duration::from_secs(30), "not much later");
}

/// Whether so many bytes are read into this buffer, or a fault comes in their place.
fn reads<C: Clock>(
    socket: &mut ServerSocket<'_, C>,
    buffer: &mut [u8],
    count: Option<usize>,
) -> bool {
    socket.read(buffer).ok() == count
}

/// A request that takes longer than a minute from its first byte is a fault, though its bytes are there; after a reply
/// the next one has its time.
fn has_a_minute<R: Abort>(rt: &R, socket: &mut ServerSocket<'_, Striding>, client: &mut TcpStream) {
    client.write_all(b"ab").expect(rt, "written");
    let mut byte = [0];
    assert!(rt; reads(socket, &mut byte, Some(1)), "the first byte");
    assert!(rt; socket.write(b"reply").is_ok(), "written");
    assert!(rt; reads(socket, &mut byte, Some(1)), "the second byte");
    assert!(rt; reads(socket, &mut byte, None), "after a minute");
    assert!(rt; socket.write(b"reply").is_ok(), "written");
}

/// A minute and a second go by whenever the clock is read.
#[test]
fn a_request_has_a_minute(rt: HostRuntime) {
    let clock = Striding::new(61_000);
    let (mut socket, other, mut client) = ends(&rt, &clock, 600);
    for _turn in 0..2u8 {
        has_a_minute(&rt, &mut socket, &mut client);
    }
    assert_eq!(rt; socket.faults(), 2);
    let_go((other, client));
}

/// Who says nothing for a second is let go where a second is the limit.
#[test]
fn an_idle_client_is_let_go(rt: HostRuntime) {
    let (mut socket, other, client) = ends(&rt, &rt, 1);
    let start = Instant::now(&rt).expect(&rt, "the time");
    assert!(rt; reads(&mut socket, &mut [0; 8], None), "nothing was said");
    let gone = start.elapsed(&rt).expect(&rt, "the time");
    assert!(rt; gone >= Duration::from_millis(900), "not before");
    assert_eq!(rt; socket.faults(), 1);
    let_go((other, client));
}

/// A read that waits is cut where the minute of its request is over, of which a second is left.
#[test]
fn a_read_waits_as_long_as_is_left(rt: HostRuntime) {
    let clock = Striding::new(59_000);
    let (mut socket, other, mut client) = ends(&rt, &clock, 600);
    client.write_all(b"a").expect(&rt, "written");
    assert!(rt; reads(&mut socket, &mut [0; 8], Some(1)), "a byte");
    let start = Instant::now(&rt).expect(&rt, "the time");
    assert!(rt; reads(&mut socket, &mut [0; 8], None), "after a minute");
    took(&rt, start, 900);
    assert_eq!(rt; socket.faults(), 1);
    let_go((other, client));
}

/// More bytes than the system takes of a stream that nobody reads.
const MANY: usize = 64 << 20;

/// A reply of that many bytes.
fn long_reply<R: Abort + Alloc<A = Global>>(rt: &R) -> Vec<u8> {
    Vec::from_elem(rt.alloc(), 0x5a, MANY).expect(rt, "memory")
}

/// The system, once it takes no more, waits a fifth of a second before it tells how much it took: as long as it is told
/// by another handle, in the place of the minute that the server's end sets before the first reply.
fn tells_soon(rt: &impl Abort, other: &TcpStream) {
    let limit = Some(Duration::from_millis(200));
    other.set_write_timeout(limit).expect(rt, "a limit");
}

/// A reply that isn't taken is cut where its minute is over, of which two seconds are left once a part was taken.
#[test]
fn a_reply_waits_as_long_as_is_left(rt: HostRuntime) {
    let clock = Striding::new(58_000);
    let (mut socket, other, client) = ends(&rt, &clock, 600);
    tells_soon(&rt, &other);
    let reply = long_reply(&rt);
    let start = Instant::now(&rt).expect(&rt, "the time");
    assert!(rt; socket.write(&reply).is_err(), "nobody takes it");
    took(&rt, start, 2_000);
    assert_eq!(rt; socket.faults(), 1);
    let_go((other, client));
}

/// Reads so many bytes, once it has rested for a second: how many are lacking.
fn lacks_late<R: Clock>(rt: &R, client: &mut TcpStream, count: usize) -> usize {
    thread::sleep(rt, Duration::from_secs(1));
    let mut buffer = [0; 16_384];
    let mut left = count;
    for _turn in 0..count {
        match client.read(&mut buffer) {
            Ok(read) if 0 < read && read < left => left -= read,
            Ok(read) if read == left => return 0,
            Ok(_) | Err(_) => return left,
        }
    }
    left
}

/// A reply that is taken late, and in time, is whole. The one after it has its minute again.
#[test]
fn a_reply_is_taken_late(rt: HostRuntime) {
    let clock = Striding::new(1);
    let (mut socket, other, mut client) = ends(&rt, &clock, 600);
    tells_soon(&rt, &other);
    let reply = long_reply(&rt);
    let (is_written, lacking) = thread::join(
        &rt,
        move || socket.write(&reply).is_ok(),
        || lacks_late(&rt, &mut client, MANY),
    );
    assert_eq!(rt; (is_written, lacking), (true, 0));
    let limit = other.write_timeout().expect(&rt, "its limit");
    assert!(rt; limit == Some(Duration::from_secs(60)), "a minute");
}
