//! Frames of requests and of replies.

use crate::stop::Stop;
use crate::words::Words;
use crate::world::World;
use wire::{
    BODY_LIMIT, RequestKind, Status, body_of, reply_frame, reply_of, request_frame, request_of,
};

/// The kind of request that a word names.
fn kind_of(word: &str) -> Result<RequestKind, Stop> {
    match word {
        "update" => Ok(RequestKind::Update),
        "commit" => Ok(RequestKind::Commit),
        "put" => Ok(RequestKind::Put),
        "get" => Ok(RequestKind::Get),
        "sync" => Ok(RequestKind::Sync),
        _ => Err(Stop::Word),
    }
}

/// The status that a word names.
fn status_of(word: &str) -> Result<Status, Stop> {
    match word {
        "ok" => Ok(Status::Ok),
        "busy" => Ok(Status::Busy),
        _ => Err(Stop::Word),
    }
}

/// The text is the frame of a request with these bytes.
fn request(world: &mut World, words: &mut Words<'_>) -> Result<(), Stop> {
    let kind = kind_of(words.word()?)?;
    let payload = world.bytes(words)?;
    if payload.len() >= BODY_LIMIT as usize {
        return Err(Stop::Word);
    }
    let frame = request_frame(world.alloc, kind, &payload);
    world.keep(frame)
}

/// The text is the frame of a reply that is done, with these bytes.
fn reply(world: &mut World, words: &mut Words<'_>) -> Result<(), Stop> {
    let payload = world.bytes(words)?;
    if payload.len() >= BODY_LIMIT as usize {
        return Err(Stop::Word);
    }
    let frame = reply_frame(world.alloc, Status::Ok, &payload);
    world.keep(frame)
}

/// The text is the frame of a reply without bytes.
fn bare_reply(world: &mut World, words: &mut Words<'_>) -> Result<(), Stop> {
    let status = status_of(words.word()?)?;
    let frame = reply_frame(world.alloc, status, &[]);
    world.keep(frame)
}

/// The text is the body of the frame.
fn body(world: &mut World) -> Result<(), Stop> {
    let body = Vec::from_slice(world.alloc, body_of(&world.it)?)?;
    world.keep(Ok(body))
}

/// The kind of the request with this body; and the text is what comes with it.
fn asked(world: &mut World) -> Result<(), Stop> {
    let Some((kind, rest)) = request_of(&world.it) else {
        return Err(Stop::Nothing);
    };
    let rest = Vec::from_slice(world.alloc, rest)?;
    world.keep(Ok(rest))?;
    world.show(format_args!("{kind:?}"))
}

/// The status of the reply with this body; and the text is what comes with it.
fn answered(world: &mut World) -> Result<(), Stop> {
    let Some((status, rest)) = reply_of(&world.it) else {
        return Err(Stop::Nothing);
    };
    let rest = Vec::from_slice(world.alloc, rest)?;
    world.keep(Ok(rest))?;
    world.show(format_args!("{status:?}"))
}

/// A line of frames.
pub(crate) fn frame(world: &mut World, words: &mut Words<'_>) -> Result<(), Stop> {
    match words.word()? {
        "request" => request(world, words),
        "reply" => reply(world, words),
        "bare" => bare_reply(world, words),
        "body" => body(world),
        "asked" => asked(world),
        "answered" => answered(world),
        _ => Err(Stop::Word),
    }
}
