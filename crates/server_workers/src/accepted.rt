//! The connections of clients over TCP, as they come.

ghost use Rattle.std.specs.Prelude.{◌≡◌, ◌+◌, MatchOption};
ghost use Rattle.std.specs.Iterator.{at_most};

use connection::ServerSocket;
use std::io::ErrorKind;
use std::net::{TcpListener, TcpStream};
use std::time::{Clock, Duration, Instant};
use std::{io, thread};

/// How long a fault of the listener is rested upon first, and how long at most, in milliseconds.
const FIRST_REST: u64 = 10;

const LONGEST_REST: u64 = 1_000;

/// How long no fault has come once faults have ended, in seconds.
const QUIET: u64 = 10;

/// How long a connection may say nothing between two requests, in seconds, unless it is said otherwise.
const IDLE: u64 = 600;

/// The system's numbers of the faults after which a listener can't listen any more: it is closed, doesn't listen, or is
/// no socket.
const CLOSED: i32 = 9;

const NOT_LISTENING: i32 = 22;

const NO_SOCKET: i32 = 88;

/// Who is told of the faults of a listener.
pub trait Watch: Drop {
    /// Faults begin, of which this is the first. Meanwhile connections wait.
    fn faults_begin(&self, fault: &io::Error);

    /// The faults have ended: a connection was accepted at once, ten seconds or more after the last one.
    fn faults_end(&self);

    /// The listener can't listen any more, by this fault. Those who were accepted are still served.
    fn ends(&self, fault: &io::Error);
}

/// Nobody is told.
#[derive(Clone, Copy, Debug)]
pub struct Unwatched;

impl Watch for Unwatched {
    fn faults_begin(&self, _fault: &io::Error) {}

    fn faults_end(&self) {}

    fn ends(&self, _fault: &io::Error) {}
}

/// Whether a listener has faults, and when it had the last one, as far as the clock could be read then.
#[derive(Drop)]
struct Trouble {
    begun: bool,
    last: Option<Instant>,
}

/// That time is as long ago as no fault may have come for faults to have ended. So it is where the clock can't be read.
fn is_long_ago<R: Clock>(rt: &R, last: Option<Instant>) -> bool {
    match last {
        Some(last) => match last.elapsed(rt) {
            Ok(gone) => gone >= Duration::from_secs(QUIET),
            Err(_) => true,
        },
        None => true,
    }
}

impl Trouble {
    /// Rests upon a fault, twice as long as the last time, and tells of the first one. The number is how long.
    fn rest<R: Clock, N: Watch>(&mut self, rt: &R, watch: &N, fault: &io::Error, last: u64) -> u64 {
        if !self.begun {
            watch.faults_begin(fault);
            self.begun = true;
        }
        let rest = last.saturating_mul(2).clamp(FIRST_REST, LONGEST_REST);
        thread::sleep(rt, Duration::from_millis(rest));
        self.last = Instant::now(rt).ok();
        rest
    }

    /// A connection was accepted at once: tells that the faults have ended, where the last one is long ago.
    fn accepted<R: Clock, N: Watch>(&mut self, rt: &R, watch: &N) {
        if self.begun && is_long_ago(rt, self.last) {
            watch.faults_end();
            self.begun = false;
        }
    }
}

/// The connections that a listener accepts, so many at most. A fault that may pass, as too many open files, is waited
/// out, however long it lasts. Where the listener can't listen any more they end: the fault is put where who made this
/// finds it, and nothing is accepted from then on.
#[derive(Drop)]
pub struct Accepted<'a, R: Clock, N: Watch = Unwatched> {
    rt: &'a R,
    listener: &'a TcpListener,
    left: u32,
    idle: u64,
    watch: N,
    trouble: Trouble,
    fault: &'a mut Option<io::Error>,
}

impl<'a, R: Clock> Accepted<'a, R, Unwatched> {
    /// Nothing is accepted yet, a connection may say nothing for ten minutes, and nobody is told of faults. What stands
    /// in `fault` stays unless the listener can't listen any more.
    pub fn new(
        rt: &'a R,
        listener: &'a TcpListener,
        most: u32,
        fault: &'a mut Option<io::Error>,
    ) -> Accepted<'a, R, Unwatched>
        ensures left { result.left ≡ most }
        ensures fault { result.fault ≡ fault.entry }
    {
        Accepted {
            rt,
            listener,
            left: most,
            idle: IDLE,
            watch: Unwatched,
            trouble: Trouble {
                begun: false,
                last: None,
            },
            fault,
        }
    }

    /// A connection may say nothing for so many seconds between two requests, one at least, and this one is told of
    /// faults.
    pub fn watched<N: Watch>(self, idle: u64, watch: N) -> Accepted<'a, R, N>
        ensures left { result.left ≡ self.entry.left }
        ensures fault { result.fault ≡ self.entry.fault }
    {
        let Accepted {
            rt,
            listener,
            left,
            idle: _,
            watch: Unwatched,
            trouble,
            fault,
        } = self;
        Accepted {
            rt,
            listener,
            left,
            idle: idle.max(1),
            watch,
            trouble,
            fault,
        }
    }
}

/// After this fault the listener can't listen any more.
fn is_last(fault: &io::Error) -> bool {
    matches!(
        fault.raw_os_error(),
        Some(CLOSED | NOT_LISTENING | NO_SOCKET)
    )
}

/// This fault is of one try alone: a signal came, or the client went away before it was accepted.
fn is_of_one_try(fault: &io::Error) -> bool {
    matches!(
        fault.kind(),
        ErrorKind::Interrupted | ErrorKind::ConnectionAborted
    )
}

/// The next stream, or the fault after which there is none.
fn accept<R: Clock, N: Watch>(
    rt: &R,
    listener: &TcpListener,
    watch: &N,
    trouble: &mut Trouble,
) -> io::Result<TcpStream> {
    let mut rest = 0;
    for _try in 0..u64::MAX {
        match listener.accept() {
            Ok((stream, _)) => {
                if rest == 0 {
                    trouble.accepted(rt, watch);
                }
                return Ok(stream);
            }
            Err(fault) if is_last(&fault) => return Err(fault),
            Err(fault) if is_of_one_try(&fault) => {}
            Err(fault) => rest = trouble.rest(rt, watch, &fault, rest),
        }
    }
    Err(ErrorKind::TimedOut.into())
}

/// The next connection, or the fault after which there is none. One that takes no time limit is let go.
fn accept_one<'a, R: Clock, N: Watch>(
    rt: &'a R,
    listener: &TcpListener,
    idle: u64,
    watch: &N,
    trouble: &mut Trouble,
) -> io::Result<ServerSocket<'a, R>> {
    for _try in 0..u64::MAX {
        let stream = accept(rt, listener, watch, trouble)?;
        if let Ok(socket) = ServerSocket::new(rt, stream, idle) {
            return Ok(socket);
        }
    }
    Err(ErrorKind::TimedOut.into())
}

impl<'a, R: Clock, N: Watch> Iterator for Accepted<'a, R, N> {
    type Item = ServerSocket<'a, R>;

    // A connection takes one from what is left. After None nothing is left.
    ghost next_gives = { λ before given after. MatchOption given (after.left ≡ 0) (λ _. after.left + 1 ≡ before.left) };

    ghost remaining = { λ s. at_most s.left };

    fn next(&mut self) -> Option<ServerSocket<'a, R>> {
        let Accepted {
            rt,
            listener,
            left,
            idle,
            watch,
            trouble,
            fault,
        } = self;
        if *left == 0 {
            return None;
        }
        match accept_one(*rt, *listener, *idle, watch, trouble) {
            Ok(socket) => {
                *left -= 1;
                Some(socket)
            }
            Err(last) => {
                watch.ends(&last);
                **fault = Some(last);
                *left = 0;
                None
            }
        }
    }
}
