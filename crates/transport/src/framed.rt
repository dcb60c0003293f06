//! A transport over a connection.

ghost use Rattle.std.specs.Prelude.{◌≡◌, ◌<◌, [], Err, List, ℕ, IfOk, OnOk, OnErr, length, true, false, None};
ghost use Rattle.layout.specs.Format.{IsBytes};
ghost use Rattle.connection.specs.Told.{goes_on};
ghost use Rattle.transport.specs.Asked.{came};
ghost use Rattle.transport.specs.Framing.{shown};
ghost use Rattle.transport.specs.Receiving.{Answered, IsCaused, NoFrameComes, ReadOn, Received};
ghost use Rattle.transport.specs.declared.transport.TransportError.TheVariants as why;

use crate::line::{Line, MOST_AHEAD};
use crate::transport::{Ahead, Request, Transport, TransportError};
use connection::{Connection, ConnectionFault};
use layout::{Memory, beside};
use std::alloc::Allocator;
use std::marker::Model;
use wire::{BODY_LIMIT, FrameError, Frames, request_frame};

/// How many bytes are read at a time.
const READ_SIZE: usize = 16_384;

/// How many reads bring a frame or a length at fault: one more than a frame has bytes.
const READS: u32 = BODY_LIMIT + 5;

/// A transport over a connection: it writes the frame of each request, and reads the frame of its reply. Where a
/// request was sent whose reply it didn't hand out, it sends nothing from then on, so that no reply is another's.
///
/// Over a connection that doesn't tell its bytes, frames may be sent ahead. The replies to those that aren't asked for
/// then are read and let go of before the next request is sent.
#[derive(Drop)]
pub struct Framed<C: Connection, A: Allocator> {
    connection: C,
    frames: Frames<A>,
    buffer: Vec<u8, A>,
    broken: bool,
    may_go_ahead: bool,
    line: Line<A>,
}

impl<C: Connection, A: Allocator> Model for Framed<C, A> {
    ghost use Rattle.std.specs.Prelude.{◌≡◌, ◌<◌, true, None, vec_len};
    ghost use Rattle.layout.specs.Format.{IsBytes};
    ghost use Rattle.transport.specs.Framing.{Standing, shown};

    ghost Value = { Standing };

    ghost view = { λ f. record {
      told = C.told f.connection;
      at_end = C.is_at_end f.connection;
      faults = C.fault_count f.connection;
      waiting = shown (C.told f.connection) f.frames;
      broken = f.broken;
    } };

    ghost invariant = { λ f. (0 < vec_len f.buffer) × IsBytes f.frames
        × (f.may_go_ahead ≡ true → C.told f.connection ≡ None) };
}

impl From<ConnectionFault> for TransportError {
    ghost from_gives = { λ _ e. e ≡ why.Fault };

    fn from(_e: ConnectionFault) -> TransportError {
        TransportError::Fault
    }
}

impl From<Memory> for TransportError {
    ghost from_gives = { λ _ e. e ≡ why.Memory };

    fn from(_e: Memory) -> TransportError {
        TransportError::Memory
    }
}

/// Reads on. At the end of the connection no frame comes.
fn read_on<A: Allocator, C: Connection>(
    connection: &mut C,
    frames: &mut Frames<A>,
    buffer: &mut [u8],
) -> Result<(), TransportError>
    requires { 0 < length buffer.old }
    ensures ok { OnOk result (ReadOn (C.told connection.old) (C.told connection.new) frames.old frames.new) }
    ensures err { OnErr result ((piece : List ℕ) × (C.told connection.new ≡ goes_on piece [] (C.told connection.old))
        × (result ≡ Err why.NoFrame → (piece ≡ []) × (C.is_at_end connection.new ≡ true))) }
    ensures err_same { OnErr result (frames.new ≡ frames.old) }
    ensures cause { IsCaused (C.fault_count connection.old) (C.fault_count connection.new) result }
{
    let count = connection.read(buffer)?;
    if count == 0 {
        return Err(TransportError::NoFrame);
    }
    frames.feed(&buffer[..count])?;
    Ok(())
}

/// The body of the next frame, up to whose end it reads on.
fn receive<A: Allocator + Copy, C: Connection>(
    connection: &mut C,
    frames: &mut Frames<A>,
    buffer: &mut [u8],
) -> Result<Vec<u8, A>, TransportError>
    requires room { 0 < length buffer.old }
    requires bytes { IsBytes frames.old }
    ensures received { Received (came result) (C.told connection.old) (C.told connection.new) frames.old frames.new
        (C.is_at_end connection.new) }
    ensures bytes { IsBytes frames.new }
    ensures cause { IsCaused (C.fault_count connection.old) (C.fault_count connection.new) result }
{
    for _turn in 0..READS {
        match frames.next_frame() {
            Ok(Some(body)) => return Ok(body),
            Ok(None) => read_on(connection, frames, buffer)?,
            Err(FrameError::Length) => return Err(TransportError::NoFrame),
            Err(FrameError::Memory) => return Err(TransportError::Memory),
        }
    }
    unreachable!()
}

/// Writes the frame of a request, and reads the body of its reply.
fn ask<A: Allocator + Copy, C: Connection>(
    connection: &mut C,
    frames: &mut Frames<A>,
    buffer: &mut [u8],
    frame: &[u8],
) -> Result<Vec<u8, A>, TransportError>
    requires room { 0 < length buffer.old }
    requires bytes { IsBytes frames.old }
    ensures answered { Answered (came result) frame.now (C.told connection.old) (C.told connection.new)
        (shown (C.told connection.old) frames.old) (shown (C.told connection.new) frames.new)
        (C.is_at_end connection.new) }
    ensures bytes { IsBytes frames.new }
    ensures cause { IsCaused (C.fault_count connection.old) (C.fault_count connection.new) result }
{
    connection.write(frame)?;
    receive(connection, frames, buffer)
}

/// Sends the frame of a request, unless it went ahead. The replies to those ahead of it are read and let go of.
fn pass<A: Allocator + Copy, C: Connection>(
    connection: &mut C,
    frames: &mut Frames<A>,
    buffer: &mut [u8],
    line: &mut Line<A>,
    frame: &[u8],
) -> Result<(), TransportError>
    requires room { 0 < length buffer.old }
    requires bytes { IsBytes frames.old }
    requires untold { C.told connection.old ≡ None }
    ensures untold { C.told connection.new ≡ None }
    ensures bytes { IsBytes frames.new }
    ensures none { result ≡ Err why.NoFrame → NoFrameComes (C.is_at_end connection.new) }
    ensures cause { IsCaused (C.fault_count connection.old) (C.fault_count connection.new) result }
{
    for _turn in 0..line.len() {
        match line.pop() {
            Some(first) if *first == *frame => return Ok(()),
            _ => {
                let _unasked = receive(connection, frames, buffer)?;
            }
        }
    }
    connection.write(frame)?;
    Ok(())
}

/// Sends as many of these requests ahead as there is room for. Those that went ahead before are the first of them.
fn go_ahead<A: Allocator + Copy, C: Connection>(
    connection: &mut C,
    line: &mut Line<A>,
    ahead: &Ahead<'_, A>,
) -> Result<(), TransportError>
    requires { C.told connection.old ≡ None }
    ensures untold { C.told connection.new ≡ None }
    ensures fault { OnErr result (result ≡ Err why.Fault) }
    ensures cause { IsCaused (C.fault_count connection.old) (C.fault_count connection.new) result }
{
    for place in line.len()..MOST_AHEAD {
        let Some(request) = ahead.request(place) else {
            return Ok(());
        };
        match line.push(&request) {
            Some(frame) => connection.write(frame)?,
            None => return Ok(()),
        }
    }
    Ok(())
}

/// The body of the reply to the frame of a request that may have gone ahead, while others go ahead of it.
fn ask_ahead<A: Allocator + Copy, C: Connection>(
    connection: &mut C,
    frames: &mut Frames<A>,
    buffer: &mut [u8],
    line: &mut Line<A>,
    frame: &[u8],
    ahead: &Ahead<'_, A>,
) -> Result<Vec<u8, A>, TransportError>
    requires room { 0 < length buffer.old }
    requires bytes { IsBytes frames.old }
    requires untold { C.told connection.old ≡ None }
    ensures answered { Answered (came result) frame.now (C.told connection.old) (C.told connection.new)
        (shown (C.told connection.old) frames.old) (shown (C.told connection.new) frames.new)
        (C.is_at_end connection.new) }
    ensures untold { C.told connection.new ≡ None }
    ensures bytes { IsBytes frames.new }
    ensures cause { IsCaused (C.fault_count connection.old) (C.fault_count connection.new) result }
{
    pass(connection, frames, buffer, line, frame)?;
    go_ahead(connection, line, ahead)?;
    receive(connection, frames, buffer)
}

impl<C: Connection, A: Allocator + Copy> Framed<C, A> {
    /// A transport over this connection. Nothing was read of it, and nothing was sent.
    pub fn new(alloc: A, connection: C) -> Result<Framed<C, A>, Memory>
        ensures connection { IfOk result (λ f. (f.told ≡ C.told connection) × (f.at_end ≡ C.is_at_end connection)
            × (f.faults ≡ C.fault_count connection)) }
        ensures begun { IfOk result (λ f. (f.waiting ≡ []) × (f.broken ≡ false)) }
    {
        Framed::going_ahead(alloc, connection, false)
    }

    /// The same, over which requests may go ahead of replies, if the connection doesn't tell its bytes.
    pub fn going_ahead(alloc: A, connection: C, may_go_ahead: bool) -> Result<Framed<C, A>, Memory>
        requires { may_go_ahead ≡ true → C.told connection ≡ None }
        ensures connection { IfOk result (λ f. (f.told ≡ C.told connection) × (f.at_end ≡ C.is_at_end connection)
            × (f.faults ≡ C.fault_count connection)) }
        ensures begun { IfOk result (λ f. (f.waiting ≡ []) × (f.broken ≡ false)) }
    {
        let buffer = vec![in alloc; 0u8; READ_SIZE];
        let (connection, buffer) = beside(connection, buffer)?;
        Ok(Framed {
            connection,
            frames: Frames::new(alloc),
            buffer,
            broken: false,
            may_go_ahead,
            line: Line::new(alloc),
        })
    }

    /// Sends the frame of a request, unless it went ahead, and gives the body of its reply.
    fn answer(&mut self, frame: &[u8], ahead: &Ahead<'_, A>) -> Result<Vec<u8, A>, TransportError>
        ensures answered { Answered (came result) frame.now self.old.told self.new.told
            self.old.waiting self.new.waiting self.new.at_end }
        ensures broken { self.new.broken ≡ self.old.broken }
        ensures cause { IsCaused self.old.faults self.new.faults result }
    {
        let (connection, frames) = (&mut self.connection, &mut self.frames);
        if self.may_go_ahead {
            let line = &mut self.line;
            return ask_ahead(connection, frames, &mut self.buffer, line, frame, ahead);
        }
        ask(connection, frames, &mut self.buffer, frame)
    }

    /// Its connection.
    pub fn into_connection(self) -> C
        ensures told { C.told result ≡ self.told }
        ensures end { C.is_at_end result ≡ self.at_end }
        ensures faults { C.fault_count result ≡ self.faults }
    {
        let Framed { connection, .. } = self;
        connection
    }
}

impl<C: Connection, A: Allocator + Copy> Transport<A> for Framed<C, A> {
    ghost use Rattle.std.specs.Prelude.{refl};
    ghost use Rattle.transport.specs.Framing.{Exchanged};

    ghost answers = { λ before asked result now. Exchanged asked result before now };

    ghost fault_count = { λ f. f.faults };

    fn exchange(&mut self, request: &Request<'_>) -> Result<Vec<u8, A>, TransportError> {
        self.exchange_ahead(request, &Ahead::Nothing)
    }

    fn exchange_ahead(
        &mut self,
        request: &Request<'_>,
        ahead: &Ahead<'_, A>,
    ) -> Result<Vec<u8, A>, TransportError> {
        let payload = request.payload();
        if self.broken || payload.len() >= BODY_LIMIT as usize {
            return Err(TransportError::NoFrame);
        }
        let frame = request_frame(*self.buffer.allocator(), request.kind(), payload)?;
        self.broken = true;
        let body = self.answer(&frame, ahead)?;
        self.broken = false;
        Ok(body)
    }

    fn faults(&self) -> u64 {
        self.connection.faults()
    }

    ghost later = { λ before asked result now did. did.later };

    ghost rose = { λ before asked now did. did.rose refl };
}
