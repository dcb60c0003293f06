//! Transports.

ghost use Rattle.std.specs.Prelude.{◌≡◌, slice_get};
ghost use Rattle.transport.specs.Ahead.{likely};

use layout::Digest;
use std::alloc::Allocator;
use std::marker::Model;
use thiserror::Error;
use wire::RequestKind;

/// Why no reply came.
#[derive(Clone, Copy, Debug, PartialEq, Eq, Error)]
pub enum TransportError {
    /// The transport failed.
    #[error("the transport failed")]
    Fault,
    /// What came is no frame, or the request fits into none.
    #[error("what came is no frame")]
    NoFrame,
    /// Memory ran out.
    #[error("out of memory")]
    Memory,
}

/// What is asked of the server: its kind, and what goes with it.
#[derive(Drop)]
pub struct Request<'a> {
    kind: RequestKind,
    payload: &'a [u8],
}

impl<'a> Model for Request<'a> {
    ghost use Rattle.transport.specs.Asked.{Asked};

    ghost Value = { Asked };

    ghost view = { λ r. record { kind = r.kind; payload = r.payload.now } };
}

impl<'a> Request<'a> {
    /// A request of this kind: a signed certificate or structure, a block, the 32 bytes of a digest, or nothing goes
    /// with it.
    pub fn new(kind: RequestKind, payload: &'a [u8]) -> Request<'a>
        ensures { result ≡ record { kind = kind; payload = payload.now } }
    {
        Request { kind, payload }
    }

    /// Its kind.
    pub fn kind(&self) -> RequestKind
        ensures { result ≡ self.now.kind }
    {
        self.kind
    }

    /// What goes with it.
    pub fn payload(&self) -> &[u8]
        ensures { result.now ≡ self.now.payload }
    {
        self.payload
    }
}

/// Requests that are likely to come next, in this order, so that they may be sent before the reply is read that is
/// waited for. They change no order of operations: what changes one is never among them.
#[derive(Drop)]
pub enum Ahead<'a, A: Allocator> {
    /// None is known.
    Nothing,
    /// These texts will be stored, and once they are it is asked that they are kept.
    Puts(&'a [Vec<u8, A>]),
    /// The blocks of these digests will be asked for.
    Gets(&'a [Digest]),
}

impl<'a, A: Allocator> Ahead<'a, A> {
    /// The request at a place, from 0 on, if there is one.
    pub(crate) fn request(&self, place: usize) -> Option<Request<'a>>
        ensures { result ≡ slice_get (likely self.now) place }
    {
        match self {
            Ahead::Nothing => None,
            Ahead::Puts(texts) => match texts.get(place) {
                Some(text) => Some(Request::new(RequestKind::Put, text)),
                None if place == texts.len() => Some(Request::new(RequestKind::Sync, &[])),
                None => None,
            },
            Ahead::Gets(digests) => {
                Some(Request::new(RequestKind::Get, digests.get(place)?.as_bytes()))
            }
        }
    }
}

/// What carries a request to the server, and the body of its reply back. Nothing is promised of what comes.
pub trait Transport<A: Allocator> {
    ghost use Rattle.std.specs.Prelude.{◌≡◌, ◌≤◌, ℕ, Result, Err};
    ghost use Rattle.layout.specs.Types.{Bytes};
    ghost use Rattle.leaf_ledger.specs.Device.{HasRisen};
    ghost use Rattle.transport.specs.Asked.{Asked, came};
    ghost use Rattle.transport.specs.declared.transport.TransportError.{TransportError};
    ghost use Rattle.transport.specs.declared.transport.TransportError.TheVariants.{Fault};

    /// From this transport, this request with its answer may lead to that one.
    ghost answers: { Self → Asked → Result Bytes TransportError → Self → Type 0 };

    /// How often it has failed, up to 2 ^ 64 - 1.
    ghost fault_count: { Self → ℕ };

    /// Sends a request, and gives the body of the frame that comes back.
    fn exchange(&mut self, request: &Request<'_>) -> Result<Vec<u8, A>, TransportError>
        ensures { answers self.old request.now (came result) self.new };

    /// The same, where it is known what is likely to come next. That is a hint: it may be sent now, and is an exchange
    /// of its own once it is asked for.
    fn exchange_ahead(
        &mut self,
        request: &Request<'_>,
        _ahead: &Ahead<'_, A>,
    ) -> Result<Vec<u8, A>, TransportError>
        ensures { answers self.old request.now (came result) self.new }
    {
        self.exchange(request)
    }

    /// How often it has failed. It counts up to the greatest number, and stays there.
    fn faults(&self) -> u64
        ensures { result ≡ fault_count self.now };

    /// No exchange takes a fault back.
    ghost later: { (t : Self) (r : Asked) (x : Result Bytes TransportError) (u : Self) → answers t r x u
        → fault_count t ≤ fault_count u };

    /// One that fails is counted.
    ghost rose: { (t : Self) (r : Asked) (u : Self) → answers t r (Err Fault) u
        → HasRisen (fault_count t) (fault_count u) };
}
