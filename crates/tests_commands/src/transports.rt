//! Each call once, over connections in memory and over one that fails.

use connection::{Connection, ConnectionFault, MemoryConnection};
use std::alloc::Global;
use std::process::Abort;
use transport::{Connect, Connecting, Framed, Request, Transport, TransportError};
use wire::{BODY_LIMIT, RequestKind};

/// A request with this payload comes to this body over the transport, or to this error.
fn comes_to<T: Transport<Global>, R: Abort>(
    rt: &R,
    transport: &mut T,
    payload: &[u8],
    wanted: Result<&[u8], TransportError>,
) {
    let request = Request::new(RequestKind::Put, payload);
    assert!(rt;
        request.kind() == RequestKind::Put && request.payload() == payload,
        "the request"
    );
    let is_wanted = match (&transport.exchange(&request), wanted) {
        (Ok(body), Ok(wanted)) => body.as_slice() == wanted,
        (Err(error), Err(wanted)) => *error == wanted,
        _ => false,
    };
    assert!(rt; is_wanted, "what comes");
}

/// Two replies, of which bytes of the second come with the first.
static REPLIES: &[u8] = b"\0\0\0\x02\0\x07\0\0\0\x01\x08";

/// The frames of requests that put `ab` and `c`.
static REQUESTS: &[u8] = b"\0\0\0\x03\x03ab\0\0\0\x02\x03c";

/// The frame of one that puts `c`.
static REQUEST: &[u8] = b"\0\0\0\x02\x03c";

/// A payload, and the body or the error that a request with it comes to.
type Row<'a> = (&'a [u8], Result<&'a [u8], TransportError>);

/// Over this connection two requests come to this, one after the other; behind each it has failed so many times.
fn both_come_to<C: Connection + Drop, R: Abort + Alloc<A = Global>>(
    rt: &R,
    connection: C,
    rows: (Row<'_>, Row<'_>),
    faults: u64,
) {
    let mut framed = Framed::new(rt.alloc(), connection).expect(rt, "memory");
    let ((payload, wanted), (second, wanted_then)) = rows;
    comes_to(rt, &mut framed, payload, wanted);
    assert!(rt; framed.faults() == faults, "the faults");
    comes_to(rt, &mut framed, second, wanted_then);
    assert!(rt; framed.faults() == faults, "the faults");
    let _connection = framed.into_connection();
}

#[test]
fn replies_come_in_order(rt: HostRuntime) {
    let mut output = Vec::new(rt.alloc());
    let connection = MemoryConnection::new(REPLIES, 8, &mut output);
    let rows: (Row<'_>, Row<'_>) = ((b"ab", Ok(b"\0\x07")), (b"c", Ok(b"\x08")));
    both_come_to(&rt, connection, rows, 0);
    assert!(rt; output.as_slice() == REQUESTS, "the requests");
}

/// What comes ends in mid-frame, or its next length is at fault. The request was written, and no further one is.
#[test]
fn no_frame_comes(rt: HostRuntime) {
    let no_frame = Err(TransportError::NoFrame);
    for input in &[b"\0\0\0\x02\0", b"\0\0\0\0\0"] {
        let mut output = Vec::new(rt.alloc());
        let connection = MemoryConnection::new(*input, 3, &mut output);
        both_come_to(&rt, connection, ((b"c", no_frame), (b"d", no_frame)), 0);
        assert!(rt; output.as_slice() == REQUEST, "the request");
    }
}

/// A payload that fits into no frame isn't written, and the next one is.
#[test]
fn too_large_a_payload(rt: HostRuntime) {
    let payload = Vec::from_elem(rt.alloc(), 0, BODY_LIMIT as usize).expect(&rt, "memory");
    let mut output = Vec::new(rt.alloc());
    let connection = MemoryConnection::new(REPLIES, 8, &mut output);
    let rows: (Row<'_>, Row<'_>) = (
        (&payload, Err(TransportError::NoFrame)),
        (b"c", Ok(b"\0\x07")),
    );
    both_come_to(&rt, connection, rows, 0);
    assert!(rt; output.as_slice() == REQUEST, "the request");
}

/// A connection that takes what is written, and fails at each read.
#[derive(Drop)]
struct Deaf {
    faults: u64,
}

impl Connection for Deaf {
    ghost use Rattle.std.specs.Prelude.{None, false};

    ghost told = { λ _. None };

    ghost is_at_end = { λ _. false };

    ghost fault_count = { λ c. c.faults };

    fn read(&mut self, _buffer: &mut [u8]) -> Result<usize, ConnectionFault> {
        self.faults = self.faults.saturating_add(1);
        Err(ConnectionFault)
    }

    fn write(&mut self, _bytes: &[u8]) -> Result<(), ConnectionFault> {
        Ok(())
    }

    fn faults(&self) -> u64 {
        self.faults
    }
}

#[test]
fn a_connection_that_fails(rt: HostRuntime) {
    let rows: (Row<'_>, Row<'_>) = (
        (b"ab", Err(TransportError::Fault)),
        (b"ab", Err(TransportError::NoFrame)),
    );
    both_come_to(&rt, Deaf { faults: 0 }, rows, 1);
}

/// Refuses so many connections, and then gives one.
#[derive(Drop)]
struct Offer<'a> {
    refusals: u8,
    connection: Option<MemoryConnection<'a>>,
}

impl<'a> Connect<MemoryConnection<'a>> for Offer<'a> {
    fn connect(&mut self) -> Result<MemoryConnection<'a>, ConnectionFault> {
        if self.refusals > 0 {
            self.refusals -= 1;
            return Err(ConnectionFault);
        }
        self.connection.take().ok_or(ConnectionFault)
    }
}

#[test]
fn connects_once(rt: HostRuntime) {
    let mut output = Vec::new(rt.alloc());
    let offer = Offer {
        refusals: 2,
        connection: Some(MemoryConnection::new(REPLIES, 8, &mut output)),
    };
    let mut connecting = Connecting::new(rt.alloc(), offer);
    comes_to(&rt, &mut connecting, b"ab", Err(TransportError::Fault));
    comes_to(&rt, &mut connecting, b"ab", Err(TransportError::Fault));
    comes_to(&rt, &mut connecting, b"ab", Ok(b"\0\x07"));
    comes_to(&rt, &mut connecting, b"c", Ok(b"\x08"));
    assert_eq!(rt; connecting.faults(), 2);
    assert!(rt; connecting.into_framed().is_some(), "a connection");
    assert!(rt; output.as_slice() == REQUESTS, "the requests");
}
