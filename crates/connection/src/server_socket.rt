//! The server's ends of streams over TCP.

ghost use Rattle.std.specs.Prelude.{◌≡◌, ◌≤◌, None, length, IfOk};
ghost use Rattle.leaf_ledger.specs.Device.{HasRisen};

use crate::connection::{Connection, ConnectionFault, fault};
use crate::reading::read_some;
use std::io::{self, ErrorKind, Write};
use std::net::TcpStream;
use std::time::{Clock, Duration, Instant};

/// How long a request may take from its first byte, and a reply until it is taken, in seconds.
const PATIENCE: u64 = 60;

/// The server's end of a stream over TCP. It doesn't tell its bytes: no clause says what a socket holds or delivers.
/// What comes between one reply and the next has to have come a minute after its first byte, and a reply has to be
/// taken within a minute; between a reply and the first byte after it the other side may say nothing for so many
/// seconds. What takes longer counts as a fault. Where the clock can't be read, each read and write has its own time.
#[derive(Drop)]
pub struct ServerSocket<'a, R: Clock> {
    rt: &'a R,
    stream: TcpStream,
    idle: u64,
    /// When the first byte after the last reply was read.
    begun: Option<Instant>,
    /// The stream's limit of reads is what was left of a request's time.
    hurried: bool,
    ended: bool,
    faults: u64,
}

/// What is left of the time since then, all of it where the clock can't be read. An error where nothing is left.
fn time_left<R: Clock>(rt: &R, begun: Option<Instant>) -> io::Result<Duration> {
    let whole = Duration::from_secs(PATIENCE);
    let gone = match begun {
        Some(begun) => begun.elapsed(rt).unwrap_or(Duration::ZERO),
        None => Duration::ZERO,
    };
    match whole.checked_sub(gone) {
        Some(left) if !left.is_zero() => Ok(left),
        _ => Err(ErrorKind::TimedOut.into()),
    }
}

/// After a reply that took more than one write the limit of the stream is again that of a whole reply.
fn end_in_time(stream: &TcpStream, turn: u64) -> io::Result<()> {
    if turn == 0 {
        return Ok(());
    }
    stream.set_write_timeout(Some(Duration::from_secs(PATIENCE)))
}

/// Writes all bytes in the time that a reply has. The limit of the stream is that of a whole reply.
fn write_in_time<R: Clock>(rt: &R, stream: &mut TcpStream, bytes: &[u8]) -> io::Result<()> {
    let begun = Instant::now(rt).ok();
    let mut rest = bytes;
    for turn in 0..u64::MAX {
        match stream.write(rest) {
            Ok(count) if count == rest.len() => {
                return end_in_time(stream, turn);
            }
            Ok(0) => return Err(ErrorKind::WriteZero.into()),
            Ok(count) => rest = &rest[count..],
            Err(error) if error.kind() == ErrorKind::Interrupted => {}
            Err(error) => return Err(error),
        }
        stream.set_write_timeout(Some(time_left(rt, begun)?))?;
    }
    Err(ErrorKind::TimedOut.into())
}

impl<'a, R: Clock> ServerSocket<'a, R> {
    /// A stream from which nothing was read and to which nothing was written, whose other side may say nothing for so
    /// many seconds between two requests. An error where it takes no time limit, as none of no seconds.
    pub fn new(rt: &'a R, stream: TcpStream, idle: u64) -> io::Result<ServerSocket<'a, R>> {
        stream.set_read_timeout(Some(Duration::from_secs(idle)))?;
        stream.set_write_timeout(Some(Duration::from_secs(PATIENCE)))?;
        // A reply is written whole, and isn't held back until others are taken.
        stream.set_nodelay(true)?;
        Ok(ServerSocket {
            rt,
            stream,
            idle,
            begun: None,
            hurried: false,
            ended: false,
            faults: 0,
        })
    }

    /// Reads bytes in the time that is left.
    fn read_in_time(&mut self, buffer: &mut [u8]) -> io::Result<usize>
        ensures bound { IfOk result (λ count. count ≤ length buffer.new) }
        ensures faults { self.new.faults ≡ self.old.faults }
    {
        if self.begun.is_some() {
            let left = time_left(self.rt, self.begun)?;
            self.hurried = true;
            self.stream.set_read_timeout(Some(left))?;
        }
        let count = read_some(&mut self.stream, buffer)?;
        if self.begun.is_none() {
            self.begun = Instant::now(self.rt).ok();
        }
        Ok(count)
    }

    /// Writes all bytes, after which the other side may say nothing for as long as between two requests.
    fn reply(&mut self, bytes: &[u8]) -> io::Result<()>
        ensures { self.new.faults ≡ self.old.faults }
    {
        write_in_time(self.rt, &mut self.stream, bytes)?;
        self.begun = None;
        if !self.hurried {
            return Ok(());
        }
        self.hurried = false;
        self.stream
            .set_read_timeout(Some(Duration::from_secs(self.idle)))
    }
}

impl<'a, R: Clock> Connection for ServerSocket<'a, R> {
    ghost told = { λ _. None };

    ghost is_at_end = { λ s. s.ended };

    ghost fault_count = { λ s. s.faults };

    fn read(&mut self, buffer: &mut [u8]) -> Result<usize, ConnectionFault> {
        match self.read_in_time(buffer) {
            Ok(count) => {
                self.ended = count == 0;
                Ok(count)
            }
            Err(_) => Err(fault(&mut self.faults)),
        }
    }

    fn write(&mut self, bytes: &[u8]) -> Result<(), ConnectionFault> {
        match self.reply(bytes) {
            Ok(()) => Ok(()),
            Err(_) => Err(fault(&mut self.faults)),
        }
    }

    fn faults(&self) -> u64 {
        self.faults
    }
}
