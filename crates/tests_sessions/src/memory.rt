//! A transport to a server in memory, which tells what was asked of it, and which lies or is cut where a test says so.

ghost use Rattle.std.specs.Prelude.{◌≡◌};

use client_tree::Held;
use consistency_server::{MemoryLog, Ordered};
use layout::Digest;
use std::alloc::Global;
use transport::{Request, Transport, TransportError};
use tree_parts::Blocks;
use wire::{RequestKind, Status};

/// What is wrong with a server.
#[derive(Clone, Copy)]
pub(crate) enum Trouble {
    /// Nothing.
    Nothing,
    /// Each request of this kind is answered with this body, and isn't carried out.
    Lies(RequestKind, &'static [u8]),
    /// The request that comes after so many is answered with this body, and isn't carried out.
    LiesAt(usize, &'static [u8]),
    /// For the request that comes after so many memory runs out.
    NoMemory(usize),
    /// After so many exchanges each one fails, and its request is lost.
    Lost(usize),
    /// After so many exchanges each one fails, and its request is carried out.
    CarriedOut(usize),
    /// The exchange that comes after so many fails, and its request is lost.
    LostAt(usize),
    /// The exchange that comes after so many fails, and its request is carried out.
    CarriedOutAt(usize),
}

/// The one order of a server, its log and its blocks.
#[derive(Drop)]
struct Honest {
    alloc: Global,
    ordered: Ordered<Global>,
    log: MemoryLog<Global>,
    blocks: Held<Global>,
}

/// A server in memory, the kinds of the requests that it was sent, and how often the way to it failed.
#[derive(Drop)]
pub(crate) struct MemoryServer {
    honest: Honest,
    trouble: Trouble,
    sent: Vec<RequestKind>,
    faults: u64,
}

/// The body of a reply, if memory doesn't run out.
fn body(alloc: Global, status: Status, payload: &[u8]) -> Option<Vec<u8>> {
    let mut body = Vec::new(alloc);
    body.push(status.number()).ok()?;
    body.extend_from_slice(payload).ok()?;
    Some(body)
}

impl Honest {
    fn put(&mut self, text: &[u8]) -> Option<Vec<u8>> {
        let copy = Vec::from_slice(self.alloc, text).ok()?;
        let digest = self.blocks.keep(copy).ok()?;
        body(self.alloc, Status::Ok, digest.as_bytes())
    }

    fn get(&self, text: &[u8]) -> Option<Vec<u8>> {
        let mut bytes = [0; 32];
        if text.len() != 32 {
            return body(self.alloc, Status::Form, &[]);
        }
        bytes.copy_from_slice(text);
        match self.blocks.get(Digest::from_bytes(bytes)) {
            Some(block) => body(self.alloc, Status::Ok, block),
            None => body(self.alloc, Status::Absent, &[]),
        }
    }

    /// Carries a request out: the body of the reply, if memory doesn't run out.
    fn carry_out(&mut self, request: &Request<'_>) -> Option<Vec<u8>> {
        let text = request.payload();
        match request.kind() {
            RequestKind::Update => {
                let answer = self.ordered.update(&mut self.log, text);
                body(self.alloc, answer.status(), answer.payload())
            }
            RequestKind::Commit => {
                let answer = self.ordered.commit(&mut self.log, text);
                body(self.alloc, answer.status(), answer.payload())
            }
            RequestKind::Put => self.put(text),
            RequestKind::Get => self.get(text),
            // It keeps nothing.
            RequestKind::Sync => body(self.alloc, Status::Form, &[]),
        }
    }
}

impl Trouble {
    /// What is answered to a request of this kind that comes after so many in the place of the truth.
    fn lie(self, kind: RequestKind, sent: usize) -> Option<&'static [u8]> {
        match self {
            Trouble::Lies(of, body) if of == kind => Some(body),
            Trouble::LiesAt(at, body) if at == sent => Some(body),
            _ => None,
        }
    }

    /// Whether a request isn't answered that comes after so many.
    fn loses(self, sent: usize) -> bool {
        match self {
            Trouble::Lost(most) => sent >= most,
            Trouble::NoMemory(at) | Trouble::LostAt(at) => sent == at,
            _ => false,
        }
    }

    /// Whether the way fails for a request that comes after so many.
    fn cuts(self, sent: usize) -> bool {
        match self {
            Trouble::Lost(most) | Trouble::CarriedOut(most) => sent >= most,
            Trouble::LostAt(at) | Trouble::CarriedOutAt(at) => sent == at,
            _ => false,
        }
    }
}

impl MemoryServer {
    /// A server over this order and log, with which nothing is wrong.
    pub(crate) fn new(
        alloc: Global,
        ordered: Ordered<Global>,
        log: MemoryLog<Global>,
    ) -> MemoryServer {
        let blocks = Held::empty(alloc);
        MemoryServer {
            honest: Honest {
                alloc,
                ordered,
                log,
                blocks,
            },
            trouble: Trouble::Nothing,
            sent: Vec::new(alloc),
            faults: 0,
        }
    }

    /// From now on this is wrong with it. What it was sent before counts no more.
    pub(crate) fn set(&mut self, trouble: Trouble) {
        self.trouble = trouble;
        self.sent.clear();
    }

    /// What it was sent before counts no more.
    pub(crate) fn forget(&mut self) {
        self.sent.clear();
    }

    /// The kinds of the requests that it was sent and that count, the one at which the way failed included.
    pub(crate) fn sent(&self) -> &[RequestKind] {
        &self.sent
    }
}

impl Honest {
    /// What is answered to a request that comes after so many, if something is.
    fn answer(&mut self, trouble: Trouble, sent: usize, request: &Request<'_>) -> Option<Vec<u8>> {
        if let Some(lie) = trouble.lie(request.kind(), sent) {
            return Vec::from_slice(self.alloc, lie).ok();
        }
        if trouble.loses(sent) {
            return None;
        }
        self.carry_out(request)
    }
}

impl Transport<Global> for MemoryServer {
    ghost use Rattle.std.specs.Prelude.{◌≡◌, ◌≤◌, refl, Err};
    ghost use Rattle.leaf_ledger.specs.Device.{HasRisen};
    ghost use Rattle.transport.specs.declared.transport.TransportError.TheVariants.{Fault};

    ghost answers = { λ t r x u. (t.faults ≤ u.faults) × (x ≡ Err Fault → HasRisen t.faults u.faults) };

    ghost fault_count = { λ t. t.faults };

    fn exchange(&mut self, request: &Request<'_>) -> Result<Vec<u8>, TransportError> {
        let before = self.sent.len();
        if self.sent.push(request.kind()).is_err() {
            return Err(TransportError::Memory);
        }
        let answer = self.honest.answer(self.trouble, before, request);
        if self.trouble.cuts(before) {
            self.faults = self.faults.saturating_add(1);
            return Err(TransportError::Fault);
        }
        match answer {
            Some(body) => Ok(body),
            None => Err(TransportError::Memory),
        }
    }

    fn faults(&self) -> u64 {
        self.faults
    }

    ghost later = { λ t r x u h. h.0 };

    ghost rose = { λ t r u h. h.1 refl };
}
