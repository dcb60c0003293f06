//! One exchange each: a text is sent, stored or asked for, and what came back is read.

ghost use Rattle.std.specs.Prelude.{◌≡◌, Result, drop, option_map};
ghost use Rattle.std.specs.Option.{option_copied};
ghost use Rattle.std.specs.Vec.{vec_items};
ghost use Rattle.layout.specs.Types.{Bytes};
ghost use Rattle.wire.specs.Frame.{reply_of};
ghost use Rattle.client_steps.specs.Anywhere.{on_ok};
ghost use Rattle.transport.specs.declared.transport.TransportError.{TransportError as NoReply};
ghost use Rattle.file_session.specs.Order.{sync};
ghost use Rattle.file_session.specs.Replies.{block_by, block_in, payload_by, payload_in, reply_in, status_in};
ghost use Rattle.file_session.specs.Replies.{synced_by, synced_in};

use crate::stop::Stop;
use std::alloc::Allocator;
use std::marker::Model;
use transport::{Ahead, Request, Transport, TransportError};
use wire::{RequestKind, Status, reply_of};

/// The payload of a reply, in the memory of its body, of which it is all but the first byte.
#[derive(Drop)]
pub(crate) struct Payload<A: Allocator> {
    body: Vec<u8, A>,
}

impl<A: Allocator> Model for Payload<A> {
    ghost use Rattle.std.specs.Prelude.{drop};
    ghost use Rattle.layout.specs.Types.{Bytes};

    ghost Value = { Bytes };

    ghost view = { λ p. drop 1 p.body.items };
}

impl<A: Allocator> Payload<A> {
    /// Its bytes.
    pub(crate) fn text(&self) -> &[u8]
        ensures { result.now ≡ self.now }
    {
        match self.body.split_first() {
            Some((_, payload)) => payload,
            None => &[],
        }
    }
}

/// The bytes of a block, if there is one.
pub(crate) fn text_of<A: Allocator>(block: &Option<Payload<A>>) -> Option<&[u8]>
    ensures { option_copied result ≡ block.now }
{
    match block {
        Some(payload) => Some(payload.text()),
        None => None,
    }
}

/// The status of a reply, if the body is one.
fn status_of(body: &[u8]) -> Option<Status>
    ensures { option_map (λ status. (status, drop 1 body.now)) result ≡ reply_of body.now }
{
    match reply_of(body) {
        Some((status, _)) => Some(status),
        None => None,
    }
}

/// The reply that came.
fn reply<A: Allocator>(
    answer: Result<Vec<u8, A>, TransportError>,
) -> Result<(Status, Payload<A>), Stop>
    ensures { result ≡ reply_in (on_ok vec_items answer) }
{
    match answer {
        Ok(body) => match status_of(&body) {
            Some(status) => Ok((status, Payload { body })),
            None => Err(Stop::Cut),
        },
        Err(TransportError::Fault) => Err(Stop::Cut),
        Err(TransportError::NoFrame) => Err(Stop::Cut),
        Err(TransportError::Memory) => Err(Stop::Memory),
    }
}

/// The payload that came, by the status.
fn payload_by<A: Allocator>(status: Status, payload: Payload<A>) -> Result<Payload<A>, Stop>
    ensures { result ≡ payload_by status payload }
{
    match status {
        Status::Ok => Ok(payload),
        declined => Err(Stop::Declined(declined)),
    }
}

/// The block that came, or its absence, by the status.
fn block_by<A: Allocator>(status: Status, payload: Payload<A>) -> Result<Option<Payload<A>>, Stop>
    ensures { result ≡ block_by status payload }
{
    match status {
        Status::Ok => Ok(Some(payload)),
        Status::Absent => Ok(None),
        declined => Err(Stop::Declined(declined)),
    }
}

/// That all is synced, by the status: also where the server keeps nothing.
fn synced_by(status: Status) -> Result<(), Stop>
    ensures { result ≡ synced_by status }
{
    match status {
        Status::Ok | Status::Form => Ok(()),
        declined => Err(Stop::Declined(declined)),
    }
}

/// One exchange, and the reply that came. What is ahead may be sent already.
fn exchange<T: Transport<A>, A: Allocator>(
    transport: &mut T,
    kind: RequestKind,
    payload: &[u8],
    ahead: &Ahead<'_, A>,
) -> Result<(Status, Payload<A>), Stop>
    ensures { (x : Result Bytes NoReply)
        × T.answers transport.old (record { kind = kind; payload = payload.now }) x transport.new
        × (result ≡ reply_in x) }
{
    let request = Request::new(kind, payload);
    let answer = transport.exchange_ahead(&request, ahead);
    reply(answer)
}

/// Sends a text that is answered with another: what came with status Ok.
pub(crate) fn send<T: Transport<A>, A: Allocator>(
    transport: &mut T,
    kind: RequestKind,
    text: &[u8],
    ahead: &Ahead<'_, A>,
) -> Result<Payload<A>, Stop>
    ensures { (x : Result Bytes NoReply)
        × T.answers transport.old (record { kind = kind; payload = text.now }) x transport.new
        × (result ≡ payload_in x) }
{
    match exchange(transport, kind, text, ahead) {
        Ok((status, payload)) => payload_by(status, payload),
        Err(stop) => Err(stop),
    }
}

/// Asks for the block of a digest: it, or that it is absent.
pub(crate) fn fetch<T: Transport<A>, A: Allocator>(
    transport: &mut T,
    digest: &[u8],
    ahead: &Ahead<'_, A>,
) -> Result<Option<Payload<A>>, Stop>
    ensures { (x : Result Bytes NoReply)
        × T.answers transport.old (record { kind = RequestKind.Get; payload = digest.now }) x transport.new
        × (result ≡ block_in x) }
{
    match exchange(transport, RequestKind::Get, digest, ahead) {
        Ok((status, payload)) => block_by(status, payload),
        Err(stop) => Err(stop),
    }
}

/// Asks that each text that was stored is kept, whatever becomes of the server. One that keeps nothing knows no such
/// request, and that is enough.
pub(crate) fn sync<T: Transport<A>, A: Allocator>(transport: &mut T) -> Result<(), Stop>
    ensures { (x : Result Bytes NoReply) × T.answers transport.old sync x transport.new × (result ≡ synced_in x) }
{
    match exchange(transport, RequestKind::Sync, &[], &Ahead::Nothing) {
        Ok((status, _)) => synced_by(status),
        Err(stop) => Err(stop),
    }
}

/// Sends a signed structure: the status that came.
pub(crate) fn commit<T: Transport<A>, A: Allocator>(
    transport: &mut T,
    text: &[u8],
) -> Result<Status, Stop>
    ensures { (x : Result Bytes NoReply)
        × T.answers transport.old (record { kind = RequestKind.Commit; payload = text.now }) x transport.new
        × (result ≡ status_in x) }
{
    match exchange(transport, RequestKind::Commit, text, &Ahead::Nothing) {
        Ok((status, _)) => Ok(status),
        Err(stop) => Err(stop),
    }
}
