//! Requests over a stream.

ghost use Rattle.std.specs.Prelude.{◌<◌, length};

use layout::Memory;
use std::alloc::{AllocError, Global};
use std::io::{Read, Write};
use thiserror::Error;
use wire::{BODY_LIMIT, FrameError, Frames, RequestKind, Status, reply_of, request_frame};

/// Why a request has no reply, or was never made.
#[derive(Clone, Copy, Debug, Error)]
pub enum CallError {
    #[error("the connection failed, or ended")]
    Lost,
    #[error("what came is no reply")]
    Form,
    #[error("no leaf of the key is left")]
    NoLeaf,
    #[error("memory ran out")]
    Memory,
}

impl From<Memory> for CallError {
    fn from(_error: Memory) -> CallError {
        CallError::Memory
    }
}

impl From<AllocError> for CallError {
    fn from(_error: AllocError) -> CallError {
        CallError::Memory
    }
}

impl From<FrameError> for CallError {
    fn from(error: FrameError) -> CallError {
        match error {
            FrameError::Length => CallError::Form,
            FrameError::Memory => CallError::Memory,
        }
    }
}

/// What a server replied.
#[derive(Debug, Drop)]
pub struct Replied {
    pub status: Status,
    pub payload: Vec<u8>,
}

/// A client's end of a connection.
#[derive(Drop)]
pub struct Caller<S: Read + Write + Drop> {
    alloc: Global,
    stream: S,
    frames: Frames<Global>,
}

impl<S: Read + Write + Drop> Caller<S> {
    /// Over a stream from which nothing was read.
    pub fn new(alloc: Global, stream: S) -> Caller<S> {
        Caller {
            alloc,
            stream,
            frames: Frames::new(alloc),
        }
    }

    /// Sends a request, and waits for its reply.
    pub fn ask(&mut self, kind: RequestKind, payload: &[u8]) -> Result<Replied, CallError>
        requires { length payload.now < BODY_LIMIT }
    {
        let frame = request_frame(self.alloc, kind, payload)?;
        if self.stream.write_all(&frame).is_err() {
            return Err(CallError::Lost);
        }
        let body = self.next_body()?;
        let Some((status, payload)) = reply_of(&body) else {
            return Err(CallError::Form);
        };
        let payload = Vec::from_slice(self.alloc, payload)?;
        Ok(Replied { status, payload })
    }

    /// Reads up to the end of the next frame.
    fn next_body(&mut self) -> Result<Vec<u8>, CallError> {
        let mut buffer = [0; 4096];
        for _turn in 0..u64::MAX {
            if let Some(body) = self.frames.next_frame()? {
                return Ok(body);
            }
            match self.stream.read(&mut buffer) {
                Ok(count) if count > 0 => self.frames.feed(&buffer[..count])?,
                Ok(_) | Err(_) => return Err(CallError::Lost),
            }
        }
        Err(CallError::Lost)
    }
}
