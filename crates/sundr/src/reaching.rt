//! The server, as it is reached.

ghost use Rattle.std.specs.Prelude.{◌≡◌, ◌≤◌, IfOk, None, length};
ghost use Rattle.leaf_ledger.specs.Device.{HasRisen};

use crate::pace::{Pace, silence};
use connection::{Connection, ConnectionFault, read_some};
use directory::Target as Place;
use std::cell::Cell;
use std::io::{self, ErrorKind, Write};
use std::net::{Net, SocketAddr, TcpStream, ToSocketAddrs};
use std::time::Duration;
use transport::Connect;

/// For how long it is tried to connect, in milliseconds: its addresses share that.
const PATIENCE: u64 = 10_000;

/// What keeps a server from being reached.
#[derive(Clone, Copy)]
pub(crate) enum Unreached {
    /// What stands for its address is none.
    NoAddress,
    /// No host has its name.
    NoHost,
    /// Nobody listens there.
    Refused,
    /// It didn't answer in time.
    Late,
    /// Memory ran out.
    Memory,
    /// Another fault of the system or of the net.
    Other,
}

impl Unreached {
    /// What a fault is in which the name of a host was looked up.
    fn by_name(fault: &io::Error) -> Unreached {
        match fault.kind() {
            ErrorKind::InvalidInput => Unreached::NoAddress,
            ErrorKind::OutOfMemory => Unreached::Memory,
            _ => Unreached::NoHost,
        }
    }

    /// What a fault is in which a host was connected with.
    fn by_host(fault: &io::Error) -> Unreached {
        match fault.kind() {
            ErrorKind::ConnectionRefused => Unreached::Refused,
            ErrorKind::TimedOut => Unreached::Late,
            ErrorKind::OutOfMemory => Unreached::Memory,
            _ => Unreached::Other,
        }
    }

    /// What is told of it, after the server's address.
    pub(crate) fn words(self) -> &'static str {
        match self {
            Unreached::NoAddress => "not an address: HOST:PORT is wanted",
            Unreached::NoHost => "no such host",
            Unreached::Refused => "connection refused: does a server listen there?",
            Unreached::Late => "connection timed out: no answer within 10 seconds",
            // Want of memory is told as that.
            Unreached::Memory | Unreached::Other => "can't be reached",
        }
    }
}

/// What broke a connection.
#[derive(Clone, Copy)]
pub(crate) enum Broken {
    /// The server ended it.
    Closed,
    /// The server said nothing, or took nothing, for a minute.
    Late,
    /// The command's time is over.
    Slow,
    /// Another fault of the system or of the net.
    Other,
}

impl Broken {
    /// What a fault is in which bytes were read or written.
    fn by(fault: &io::Error) -> Broken {
        match fault.kind() {
            ErrorKind::WouldBlock | ErrorKind::TimedOut => Broken::Late,
            ErrorKind::ConnectionReset
            | ErrorKind::ConnectionAborted
            | ErrorKind::BrokenPipe
            | ErrorKind::NotConnected
            | ErrorKind::WriteZero => Broken::Closed,
            _ => Broken::Other,
        }
    }

    /// What is told of it, after the server's address.
    pub(crate) fn words(self) -> &'static str {
        match self {
            Broken::Closed => {
                "the server closed the connection before it answered: try again, what was begun is finished first"
            }
            Broken::Late => {
                "no answer came within a minute: try again, what was begun is finished first"
            }
            Broken::Slow => {
                "too slow: a command has two minutes, and a second more for each 16 KB: try again, what was begun is finished first"
            }
            Broken::Other => "the connection failed: try again, what was begun is finished first",
        }
    }
}

/// What came of the latest try to reach the server.
#[derive(Clone, Copy)]
pub(crate) enum Reach {
    /// None was made.
    Untried,
    /// A connection, which stands.
    Joined,
    /// No connection.
    Unreached(Unreached),
    /// A connection, which broke.
    Broken(Broken),
}

impl Reach {
    /// Whether the server couldn't be reached for want of memory.
    pub(crate) fn lacks_memory(self) -> bool {
        matches!(self, Reach::Unreached(Unreached::Memory))
    }
}

/// What is known of the server while it is asked: what came of the latest try to reach it, which time the command has, and
/// about which places it is asked next.
#[derive(Drop)]
pub(crate) struct Contact<'a> {
    pub(crate) reach: Cell<Reach>,
    pub(crate) pace: Pace<'a>,
    /// Where that is known, and wasn't made use of yet.
    pub(crate) next: Cell<Option<Vec<Place>>>,
}

impl<'a> Contact<'a> {
    /// That of a command that begins now, for which the server wasn't tried to be reached.
    pub(crate) fn new(rt: &'a HostRuntime) -> Contact<'a> {
        Contact {
            reach: Cell::new(Reach::Untried),
            pace: Pace::new(rt),
            next: Cell::new(None),
        }
    }
}

/// A stream over TCP to the server, which tells what broke it. Of its bytes it tells none. That the server sends nothing
/// for a minute, or takes nothing that is sent to it, counts as a fault; so does a command whose time is over.
#[derive(Drop)]
pub(crate) struct Stream<'a> {
    stream: TcpStream,
    contact: &'a Contact<'a>,
    /// The stream's limit of reads and writes is less than a minute.
    hurried: bool,
    ended: bool,
    faults: u64,
}

/// Tells what broke a connection, and counts it.
fn break_off(contact: &Contact<'_>, faults: &mut u64, broken: Broken) -> ConnectionFault
    ensures later { faults.old ≤ faults.new }
    ensures rose { HasRisen faults.old faults.new }
{
    contact.reach.set(Reach::Broken(broken));
    *faults = faults.saturating_add(1);
    ConnectionFault
}

/// Bounds the next read or write of a stream by the time that the command has left. An error where that is over. Where the
/// bound is less than a minute, that is noted.
fn hurry(stream: &TcpStream, contact: &Contact<'_>, hurried: &mut bool) -> Result<(), Broken> {
    let Some(wait) = contact.pace.wait() else {
        return Err(Broken::Slow);
    };
    let is_short = wait < silence();
    if !is_short && !*hurried {
        return Ok(());
    }
    *hurried = is_short;
    match limit(stream, wait) {
        Ok(()) => Ok(()),
        Err(_) => Err(Broken::Other),
    }
}

/// What a fault is in which bytes were read or written: where the command has no time left, that.
fn broken_by(contact: &Contact<'_>, fault: &io::Error) -> Broken {
    match contact.pace.wait() {
        Some(_) => Broken::by(fault),
        None => Broken::Slow,
    }
}

/// Writes all bytes to a stream in the time that is left.
fn write_in_time(
    stream: &mut TcpStream,
    contact: &Contact<'_>,
    hurried: &mut bool,
    bytes: &[u8],
) -> Result<(), Broken> {
    let mut rest = bytes;
    for _turn in 0..u64::MAX {
        if rest.is_empty() {
            return Ok(());
        }
        hurry(stream, contact, hurried)?;
        match stream.write(rest) {
            Ok(0) => return Err(Broken::Closed),
            Ok(count) => {
                contact.pace.carry(count);
                rest = &rest[count..];
            }
            Err(fault) if fault.kind() == ErrorKind::Interrupted => {}
            Err(fault) => return Err(broken_by(contact, &fault)),
        }
    }
    Err(Broken::Other)
}

impl<'a> Stream<'a> {
    /// Reads bytes in the time that is left.
    fn read_in_time(&mut self, buffer: &mut [u8]) -> Result<usize, Broken>
        ensures bound { IfOk result (λ count. count ≤ length buffer.new) }
        ensures faults { self.new.faults ≡ self.old.faults }
    {
        hurry(&self.stream, self.contact, &mut self.hurried)?;
        match read_some(&mut self.stream, buffer) {
            Ok(count) => {
                self.contact.pace.carry(count);
                Ok(count)
            }
            Err(fault) => Err(broken_by(self.contact, &fault)),
        }
    }
}

impl<'a> Connection for Stream<'a> {
    ghost told = { λ _. None };

    ghost is_at_end = { λ s. s.ended };

    ghost fault_count = { λ s. s.faults };

    fn read(&mut self, buffer: &mut [u8]) -> Result<usize, ConnectionFault> {
        match self.read_in_time(buffer) {
            Ok(count) => {
                self.ended = count == 0;
                if count == 0 {
                    self.contact.reach.set(Reach::Broken(Broken::Closed));
                }
                Ok(count)
            }
            Err(broken) => Err(break_off(self.contact, &mut self.faults, broken)),
        }
    }

    fn write(&mut self, bytes: &[u8]) -> Result<(), ConnectionFault> {
        let Stream {
            stream,
            contact,
            hurried,
            ..
        } = self;
        match write_in_time(stream, *contact, hurried, bytes) {
            Ok(()) => Ok(()),
            Err(broken) => Err(break_off(self.contact, &mut self.faults, broken)),
        }
    }

    fn faults(&self) -> u64 {
        self.faults
    }
}

/// The server at an address, which is reached by a host. Each try tells what came of it.
#[derive(Drop)]
pub(crate) struct Server<'a, H> {
    pub(crate) host: &'a H,
    pub(crate) address: &'a str,
    pub(crate) contact: &'a Contact<'a>,
}

/// Bounds each read and each write of a stream.
fn limit(stream: &TcpStream, wait: Duration) -> io::Result<()> {
    stream.set_read_timeout(Some(wait))?;
    stream.set_write_timeout(Some(wait))
}

/// A stream to one of a server's addresses, if it answers within so many milliseconds. What is written is sent at once,
/// and no read or write waits longer than a minute.
fn join<H: Net<Stream = TcpStream>>(
    host: &H,
    address: SocketAddr,
    patience: u64,
) -> io::Result<TcpStream> {
    let patience = Duration::from_millis(patience);
    let stream = TcpStream::connect_timeout(host, &address, patience)?;
    stream.set_nodelay(true)?;
    limit(&stream, silence())?;
    Ok(stream)
}

/// A stream to the first of a server's addresses that can be connected with.
fn dial<H: Net<Stream = TcpStream>>(host: &H, address: &str) -> Result<TcpStream, Unreached> {
    let addresses = match address.to_socket_addrs(host) {
        Ok(addresses) => addresses,
        Err(fault) => return Err(Unreached::by_name(&fault)),
    };
    let patience = PATIENCE / addresses.len().max(1) as u64;
    let mut last = Unreached::NoHost;
    for address in addresses {
        match join(host, address, patience) {
            Ok(stream) => return Ok(stream),
            Err(fault) => last = Unreached::by_host(&fault),
        }
    }
    Err(last)
}

impl<'a, H: Net<Stream = TcpStream>> Connect<Stream<'a>> for Server<'a, H> {
    fn connect(&mut self) -> Result<Stream<'a>, ConnectionFault> {
        match dial(self.host, self.address) {
            Ok(stream) => {
                self.contact.reach.set(Reach::Joined);
                Ok(Stream {
                    stream,
                    contact: self.contact,
                    hurried: false,
                    ended: false,
                    faults: 0,
                })
            }
            Err(unreached) => {
                self.contact.reach.set(Reach::Unreached(unreached));
                Err(ConnectionFault)
            }
        }
    }

    fn may_go_ahead(&self) -> bool {
        true
    }
}
