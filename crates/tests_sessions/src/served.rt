//! A whole server in memory behind a connection. A worker carries each request out when it is sent, and ends with it.
//! Clients, sessions and the server draw on one memory, of which a growth is refused.

ghost use Rattle.std.specs.Prelude.{◌≡◌, ◌<◌};

use connection::{Connection, ConnectionFault, MemoryConnection};
use layout::{let_go, put_in};
use server_workers::{Ended, OpenGate, ServerName, Shared, Tally, converse};
use std::alloc::Global;
use std::mem;
use std::sync::Wait;
use std::sync::ledger::Ledger;
use tests_refusing::Refusing;
use wire::{RequestKind, body_of, request_of};

/// The memory of what is tried. Devices and what a test itself keeps lie in another one.
pub(crate) type Heap<'h> = &'h Refusing<Global>;

/// How many bytes of a request a worker is given at a time.
const PIECE: usize = 16_384;

/// A request that was sent, and how many growths there were before.
#[derive(Clone, Copy)]
pub(crate) struct Sent {
    pub(crate) kind: RequestKind,
    pub(crate) growths: u64,
}

/// Whose growth was refused.
#[derive(Clone, Copy, Debug, PartialEq, Eq)]
pub(crate) enum Whose {
    /// None was.
    Nobodys,
    /// That of a client, of its session or of its transport.
    Asking,
    /// The server's, whose worker replied all the same.
    Replying,
    /// The server's, whose worker ended without a reply.
    Ending,
}

/// What goes over a connection while the growth of a number is refused.
#[derive(Drop)]
struct Book<'h> {
    heap: Heap<'h>,
    /// 0 where none is refused.
    number: u64,
    sent: Vec<Sent>,
    whose: Whose,
    /// How many signed texts were sent, one that was sent again as one.
    texts: usize,
    last: Vec<u8>,
}

impl<'h> Book<'h> {
    /// Whether the growth of the number was refused.
    fn is_refused(&self) -> bool {
        self.number != 0 && self.number <= self.heap.asked(self.number)
    }

    /// Counts a signed text, but where it is the last one again.
    fn count(&mut self, text: &[u8]) -> Option<()> {
        if self.last.as_slice() != text {
            self.last.clear();
            self.last.extend_from_slice(text).ok()?;
            self.texts = self.texts.wrapping_add(1);
        }
        Some(())
    }

    /// Notes the request of a frame.
    fn note(&mut self, frame: &[u8]) -> Option<()> {
        let (kind, payload) = request_of(body_of(frame).ok()?)?;
        let growths = self.heap.asked(self.number);
        self.sent.push(Sent { kind, growths }).ok()?;
        match kind {
            RequestKind::Update | RequestKind::Commit => self.count(payload),
            _ => Some(()),
        }
    }

    /// A worker ended so, and the growth wasn't refused before.
    fn blame(&mut self, ended: Ended) {
        if self.is_refused() {
            self.whose = if ended == Ended::Memory {
                Whose::Ending
            } else {
                Whose::Replying
            };
        }
    }
}

/// A server, and what goes over the connection to it.
#[derive(Drop)]
struct Desk<'a, 'h, B: ServerName, L: Ledger, R: Wait> {
    rt: &'a R,
    shared: Shared<'a, Heap<'h>, B, L, R>,
    tally: Tally<L>,
    replies: Vec<u8>,
    book: Book<'h>,
    ghost part: { 0 < tally.share.parts },
}

impl<'a, 'h, B: ServerName, L: Ledger, R: Wait> Desk<'a, 'h, B, L, R> {
    /// A worker carries the request of a frame out.
    fn reply_to(&mut self, frame: &[u8]) -> Ended {
        let Desk {
            rt,
            shared,
            tally,
            replies,
            ..
        } = self;
        let mut output = Vec::new(*replies.allocator());
        let mut connection = MemoryConnection::new(frame, PIECE, &mut output);
        let ended = converse(*rt, &mut connection, shared, &OpenGate, tally, &mut ());
        let_go(connection);
        put_in(replies, output);
        ended
    }

    /// The same, which is noted.
    fn serve(&mut self, frame: &[u8]) -> Option<()> {
        self.book.note(frame)?;
        let was_refused = self.book.is_refused();
        let ended = self.reply_to(frame);
        if !was_refused {
            self.book.blame(ended);
        }
        Some(())
    }
}

/// A connection to a server.
#[derive(Drop)]
pub(crate) struct Served<'a, 'h, B: ServerName, L: Ledger, R: Wait> {
    desk: Desk<'a, 'h, B, L, R>,
    given: usize,
    faults: u64,
}

impl<'a, 'h, B: ServerName, L: Ledger, R: Wait> Served<'a, 'h, B, L, R> {
    /// A connection to this server, while the growth of a number is refused of its memory.
    pub(crate) fn new(
        rt: &'a R,
        alloc: Global,
        heap: Heap<'h>,
        number: u64,
        shared: Shared<'a, Heap<'h>, B, L, R>,
        tally: Tally<L>,
    ) -> Served<'a, 'h, B, L, R>
        requires { 0 < tally.share.parts }
    {
        let book = Book {
            heap,
            number,
            sent: Vec::new(alloc),
            whose: Whose::Nobodys,
            texts: 0,
            last: Vec::new(alloc),
        };
        let desk = Desk {
            rt,
            shared,
            tally,
            replies: Vec::new(alloc),
            book,
        };
        Served {
            desk,
            given: 0,
            faults: 0,
        }
    }

    /// From now on no growth is refused: whose was, and the requests that were sent.
    pub(crate) fn rest(&mut self, alloc: Global) -> (Whose, Vec<Sent>) {
        let desk = &mut self.desk;
        let book = &mut desk.book;
        book.number = 0;
        (book.whose, mem::replace(&mut book.sent, Vec::new(alloc)))
    }

    /// How many signed texts were sent, one that was sent again as one.
    pub(crate) fn texts(&self) -> usize {
        self.desk.book.texts
    }
}

impl<'a, 'h, B: ServerName, L: Ledger, R: Wait> Connection for Served<'a, 'h, B, L, R> {
    ghost use Rattle.std.specs.Prelude.{None, true};

    ghost told = { λ _. None };

    ghost is_at_end = { λ _. true };

    ghost fault_count = { λ s. s.faults };

    fn read(&mut self, buffer: &mut [u8]) -> Result<usize, ConnectionFault> {
        let Some(left) = self.desk.replies.get(self.given..) else {
            return Ok(0);
        };
        let count = left.len().min(buffer.len());
        buffer[..count].copy_from_slice(&left[..count]);
        self.given = self.given.saturating_add(count);
        Ok(count)
    }

    fn write(&mut self, bytes: &[u8]) -> Result<(), ConnectionFault> {
        self.given = 0;
        match self.desk.serve(bytes) {
            Some(()) => Ok(()),
            None => {
                self.faults = self.faults.saturating_add(1);
                Err(ConnectionFault)
            }
        }
    }

    fn faults(&self) -> u64 {
        self.faults
    }
}
