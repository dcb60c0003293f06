//! The server in memory over a connection that doesn't tell its bytes, so that requests go ahead of replies.

use crate::memory::MemoryServer;
use connection::{Connection, ConnectionFault};
use std::alloc::Global;
use transport::{Request, Transport};
use wire::{body_of, request_of};

/// How replies come.
#[derive(Clone, Copy)]
pub(crate) enum Turn {
    /// Each in its turn.
    Kept,
    /// The one that comes after so many changes places with the next one.
    Swapped(usize),
    /// The one that would come after so many doesn't.
    Missing(usize),
    /// The one that comes after so many comes twice.
    Twice(usize),
    /// After so many none comes, and the stream is at its end.
    Ended(usize),
}

/// What the server in memory was asked over a connection, and what it replied.
#[derive(Drop)]
struct Talk {
    server: MemoryServer,
    turn: Turn,
    answered: usize,
    held_back: Vec<u8>,
    replies: Vec<u8>,
}

/// A connection to the server in memory, which is asked when a whole frame was written.
#[derive(Drop)]
pub(crate) struct Line {
    talk: Talk,
    given: usize,
    faults: u64,
}

/// Puts the frame of a reply to others.
fn put_frame(frames: &mut Vec<u8>, body: &[u8]) -> Option<()> {
    let length = u32::try_from(body.len()).ok()?;
    frames.extend_from_slice(&length.to_be_bytes()).ok()?;
    frames.extend_from_slice(body).ok()
}

impl Talk {
    /// What was held back comes, too.
    fn release(&mut self) -> Option<()> {
        self.replies.extend_from_slice(&self.held_back).ok()?;
        self.held_back.clear();
        Some(())
    }

    /// A reply comes after so many.
    fn reply(&mut self, body: &[u8], before: usize) -> Option<()> {
        match self.turn {
            Turn::Missing(at) if at == before => return Some(()),
            Turn::Ended(most) if before >= most => return Some(()),
            Turn::Swapped(at) if at == before => return put_frame(&mut self.held_back, body),
            Turn::Twice(at) if at == before => put_frame(&mut self.held_back, body)?,
            _ => {}
        }
        put_frame(&mut self.replies, body)?;
        self.release()
    }

    /// The server is asked what stands in a frame.
    fn ask(&mut self, frame: &[u8]) -> Option<()> {
        let (kind, payload) = request_of(body_of(frame).ok()?)?;
        let body = self.server.exchange(&Request::new(kind, payload)).ok()?;
        let before = self.answered;
        self.answered = before.checked_add(1)?;
        self.reply(&body, before)
    }
}

impl Line {
    /// A connection to this server, whose replies come so.
    pub(crate) fn new(alloc: Global, server: MemoryServer, turn: Turn) -> Line {
        let talk = Talk {
            server,
            turn,
            answered: 0,
            held_back: Vec::new(alloc),
            replies: Vec::new(alloc),
        };
        Line {
            talk,
            given: 0,
            faults: 0,
        }
    }

    /// The server.
    pub(crate) fn into_server(self) -> MemoryServer {
        let Line { talk, .. } = self;
        let Talk { server, .. } = talk;
        server
    }
}

impl Connection for Line {
    ghost use Rattle.std.specs.Prelude.{None, true};

    ghost told = { λ _. None };

    ghost is_at_end = { λ _. true };

    ghost fault_count = { λ l. l.faults };

    fn read(&mut self, buffer: &mut [u8]) -> Result<usize, ConnectionFault> {
        let Some(left) = self.talk.replies.get(self.given..) else {
            return Ok(0);
        };
        let count = left.len().min(buffer.len());
        buffer[..count].copy_from_slice(&left[..count]);
        self.given = self.given.saturating_add(count);
        Ok(count)
    }

    fn write(&mut self, bytes: &[u8]) -> Result<(), ConnectionFault> {
        match self.talk.ask(bytes) {
            Some(()) => Ok(()),
            None => {
                self.faults = self.faults.saturating_add(1);
                Err(ConnectionFault)
            }
        }
    }

    fn faults(&self) -> u64 {
        self.faults
    }
}
