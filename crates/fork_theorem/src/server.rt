//! The servers of a script, and the frames to and from them.

ghost use Rattle.std.specs.Prelude.{◌<◌, IfSome, vec_len};

use crate::words::ServerName;
use hostile_server::{Hostile, Refused};
use layout::{Memory, put_in};
use lms_sign::PublicKey;
use std::alloc::Allocator;
use wire::{
    BODY_LIMIT, RequestKind, Status, body_of, reply_frame, reply_of, request_frame, request_of,
};

/// A server and its name.
#[derive(Drop)]
pub(crate) struct Named<A: Allocator> {
    name: ServerName,
    pub(crate) server: Hostile<A>,
}

/// The servers of a script.
#[derive(Drop)]
pub(crate) struct Servers<A: Allocator> {
    pub(crate) list: Vec<Named<A>, A>,
}

impl<A: Allocator + Copy> Servers<A> {
    /// The server `a`, at the beginning.
    pub(crate) fn new(alloc: A, pinned: PublicKey) -> Result<Servers<A>, Memory> {
        let mut list = Vec::new(alloc);
        list.push(Named {
            name: ServerName::FIRST,
            server: Hostile::genesis(alloc, pinned),
        })?;
        Ok(Servers { list })
    }

    /// Where the server of this name stands in the list, if there is one.
    pub(crate) fn place_of(&self, name: ServerName) -> Option<usize>
        ensures { IfSome result (λ place. place < vec_len self.now.list) }
    {
        for place in 0..self.list.len() {
            if self.list[place].name == name {
                return Some(place);
            }
        }
        None
    }

    /// Makes the server of the second name a copy of that of the first: whether there is one of the first.
    pub(crate) fn fork(&mut self, from: ServerName, to: ServerName) -> Result<bool, Memory> {
        let Some(place) = self.place_of(from) else {
            return Ok(false);
        };
        let server = self.list[place].server.copy()?;
        self.put(to, server)?;
        Ok(true)
    }

    /// Gives a server this name, in the place of the one that has it.
    fn put(&mut self, name: ServerName, server: Hostile<A>) -> Result<(), Memory> {
        match self.place_of(name) {
            Some(place) => put_in(&mut self.list[place].server, server),
            None => self.list.push(Named { name, server })?,
        }
        Ok(())
    }
}

/// The reply frame to an UPDATE.
fn serve_update<A: Allocator + Copy>(
    alloc: A,
    server: &mut Hostile<A>,
    text: &[u8],
) -> Result<Vec<u8, A>, Memory> {
    match server.update(text) {
        Ok(reply) if reply.len() < BODY_LIMIT as usize => reply_frame(alloc, Status::Ok, &reply),
        Ok(_) => reply_frame(alloc, Status::TooLarge, &[]),
        Err(Refused(status)) => reply_frame(alloc, status, &[]),
    }
}

/// The reply frame to a COMMIT.
fn serve_commit<A: Allocator + Copy>(
    alloc: A,
    server: &mut Hostile<A>,
    text: &[u8],
) -> Result<Vec<u8, A>, Memory> {
    let status = match server.commit(text) {
        Ok(()) => Status::Ok,
        Err(Refused(status)) => status,
    };
    reply_frame(alloc, status, &[])
}

/// The reply frame to a request frame.
fn serve<A: Allocator + Copy>(
    alloc: A,
    server: &mut Hostile<A>,
    frame: &[u8],
) -> Result<Vec<u8, A>, Memory> {
    let request = match body_of(frame) {
        Ok(body) => request_of(body),
        Err(_) => None,
    };
    match request {
        Some((RequestKind::Update, text)) => serve_update(alloc, server, text),
        Some((RequestKind::Commit, text)) => serve_commit(alloc, server, text),
        _ => reply_frame(alloc, Status::Form, &[]),
    }
}

/// The status of a reply frame, with its payload. A frame that is none of a reply comes from no server of a script.
fn answer_in<A: Allocator>(alloc: A, frame: &[u8]) -> Result<(Status, Vec<u8, A>), Memory> {
    let Ok(body) = body_of(frame) else {
        return Ok((Status::Form, Vec::new(alloc)));
    };
    match reply_of(body) {
        Some((status, payload)) => Ok((status, Vec::from_slice(alloc, payload)?)),
        None => Ok((Status::Form, Vec::new(alloc))),
    }
}

/// Sends a request to the server, and gives the status of its reply with the payload.
pub(crate) fn exchange<A: Allocator + Copy>(
    alloc: A,
    server: &mut Hostile<A>,
    kind: RequestKind,
    text: &[u8],
) -> Result<(Status, Vec<u8, A>), Memory> {
    if text.len() >= BODY_LIMIT as usize {
        return Ok((Status::TooLarge, Vec::new(alloc)));
    }
    let request = request_frame(alloc, kind, text)?;
    let reply = serve(alloc, server, &request)?;
    answer_in(alloc, &reply)
}
