//! Calls of the server with their answers, which may arrive again, or late.

ghost use Rattle.std.specs.Prelude.{◌≡◌, ◌++◌, [], ◌∷◌, IfOk, OnOk, reverse};
ghost use Rattle.honest_runs.specs.Served.{exchange_at};
ghost use Rattle.honest_runs.specs.Town.{declined_with, is_declined, is_update_of, speaks_of_signature};

use consistency_server::{Answer, CallKind};
use layout::Memory;
use std::alloc::Allocator;
use std::marker::Model;
use wire::Status;

/// A call of the server, and what it answered.
#[derive(Drop)]
pub(crate) struct Exchange<A: Allocator> {
    kind: CallKind,
    text: Vec<u8, A>,
    answer: Answer<A>,
}

impl<A: Allocator> Model for Exchange<A> {
    ghost use Rattle.honest_runs.specs.HonestRuns.{Exchange};

    ghost Value = { Exchange };

    ghost view = { λ x. record {
      call = record { kind = x.kind; text = x.text.items };
      answer = x.answer;
    } };
}

impl<A: Allocator> Exchange<A> {
    /// The call with this text, and its answer.
    pub(crate) fn new(kind: CallKind, text: Vec<u8, A>, answer: Answer<A>) -> Exchange<A>
        ensures { result ≡ record { call = record { kind = kind; text = text.items }; answer = answer } }
    {
        Exchange { kind, text, answer }
    }

    pub(crate) fn kind(&self) -> CallKind
        ensures { result ≡ self.now.call.kind }
    {
        self.kind
    }

    pub(crate) fn text(&self) -> &[u8]
        ensures { result.now ≡ self.now.call.text }
    {
        &self.text
    }

    pub(crate) fn status(&self) -> Status
        ensures { result ≡ self.now.answer.status }
    {
        self.answer.status()
    }

    pub(crate) fn payload(&self) -> &[u8]
        ensures { result.now ≡ self.now.answer.payload }
    {
        self.answer.payload()
    }

    /// Whether it is an UPDATE with this text.
    fn updates(&self, text: &[u8]) -> bool
        ensures { result ≡ is_update_of text.now self.now.call }
    {
        match self.kind() {
            CallKind::Update => self.text() == text,
            CallKind::Commit => false,
        }
    }
}

impl<A: Allocator + Copy> Exchange<A> {
    /// The same once more.
    pub(crate) fn copy(&self, alloc: A) -> Result<Exchange<A>, Memory>
        ensures { IfOk result (λ copy. copy ≡ self.now) }
    {
        let text = Vec::from_slice(alloc, &self.text)?;
        let answer = self.answer.share()?;
        Ok(Exchange {
            kind: self.kind,
            text,
            answer,
        })
    }
}

/// Keeps what was exchanged in a step, if something was, behind the earlier ones.
pub(crate) fn keep<A: Allocator>(
    exchanges: &mut Vec<Option<Exchange<A>>, A>,
    exchange: Option<Exchange<A>>,
) -> Result<(), Memory>
    ensures { OnOk result (exchanges.new.items ≡ exchanges.old.items ++ exchange ∷ []) }
{
    exchanges.push(exchange)?;
    Ok(())
}

/// What was exchanged in step `n`, once more, if something was.
pub(crate) fn earlier<A: Allocator + Copy>(
    alloc: A,
    exchanges: &[Option<Exchange<A>>],
    n: usize,
) -> Result<Option<Exchange<A>>, Memory>
    ensures { IfOk result (λ found. found ≡ exchange_at exchanges.now n) }
{
    match exchanges.get(n) {
        Some(Some(exchange)) => Ok(Some(exchange.copy(alloc)?)),
        _ => Ok(None),
    }
}

/// Whether a status says that a text isn't signed under its user's key.
fn is_of_signature(status: Status) -> bool
    ensures { result ≡ speaks_of_signature status }
{
    matches!(status, Status::BadSignature)
}

/// Whether an UPDATE with this text was declined for its signature when it was made last, after one exchange more.
fn still_declined<A: Allocator>(text: &[u8], declined: bool, exchange: &Option<Exchange<A>>) -> bool
    ensures { result ≡ declined_with text.now declined exchange.now }
{
    match exchange {
        Some(exchange) => {
            if exchange.updates(text) {
                is_of_signature(exchange.status())
            } else {
                declined
            }
        }
        None => declined,
    }
}

/// Whether an UPDATE with this text was declined for its signature when it was made last, if it was made.
pub(crate) fn was_declined<A: Allocator>(exchanges: &[Option<Exchange<A>>], text: &[u8]) -> bool
    ensures { result ≡ is_declined text.now (reverse exchanges.now) }
{
    let mut declined = false;
    for exchange in exchanges {
        declined = still_declined(text, declined, exchange);
    }
    declined
}
