//! Calls, and what they are answered.

ghost use Rattle.std.specs.Prelude.{◌≡◌, ◌≤◌, IfOk, length};

use crate::payload::Payload;
use layout::Memory;
use pending_list::REPLY_SIZE;
use std::alloc::Allocator;
use std::marker::Model;
use wire::Status;

/// Which call it is.
#[derive(Clone, Copy, Debug, PartialEq, Eq)]
pub enum CallKind {
    /// A certificate is declared.
    Update,
    /// A structure is committed.
    Commit,
}

/// A call, and the signed text that came with it.
#[derive(Drop)]
pub struct Call<A: Allocator> {
    kind: CallKind,
    text: Vec<u8, A>,
}

impl<A: Allocator> Model for Call<A> {
    ghost use Rattle.consistency_server.specs.Answers.{Call};

    ghost Value = { Call };

    ghost view = { λ c. record { kind = c.kind; text = c.text.items } };
}

impl<A: Allocator> Call<A> {
    pub fn new(kind: CallKind, text: Vec<u8, A>) -> Call<A>
        ensures { result ≡ record { kind = kind; text = text.items } }
    {
        Call { kind, text }
    }

    pub fn kind(&self) -> CallKind
        ensures { result ≡ self.now.kind }
    {
        self.kind
    }

    pub fn text(&self) -> &[u8]
        ensures { result.now ≡ self.now.text }
    {
        &self.text
    }
}

/// A status, and what comes with `Ok`.
#[derive(Drop)]
pub struct Answer<A: Allocator> {
    status: Status,
    payload: Payload<A>,
}

impl<A: Allocator> Model for Answer<A> {
    ghost use Rattle.std.specs.Prelude.{◌≡◌, true};
    ghost use Rattle.wire.specs.Frame.{may_carry};
    ghost use Rattle.consistency_server.specs.Answers.{Answer};

    ghost Value = { Answer };

    ghost view = { λ a. record { status = a.status; payload = a.payload } };

    ghost invariant = { λ a. may_carry a.status a.payload ≡ true };
}

impl<A: Allocator> Answer<A> {
    ghost use Rattle.std.specs.Prelude.{[], true};
    ghost use Rattle.wire.specs.Frame.{may_carry};
    ghost use Rattle.wire.specs.declared.kinds.Status.TheVariants as status;

    /// `Ok`, with what comes with it.
    pub(crate) fn with_payload(payload: Payload<A>) -> Answer<A>
        ensures { result ≡ record { status = status.Ok; payload = payload } }
    {
        Answer {
            status: Status::Ok,
            payload,
        }
    }

    /// An answer without a payload.
    pub(crate) fn bare(status: Status) -> Answer<A>
        ensures { result ≡ record { status = status; payload = [] } }
    {
        Answer {
            status,
            payload: Payload::empty(),
        }
    }

    pub fn status(&self) -> Status
        ensures { result ≡ self.now.status }
    {
        self.status
    }

    /// What comes with `Ok`: the reply to an update, and nothing to a commit.
    pub fn payload(&self) -> &[u8]
        ensures same { result.now ≡ self.now.payload }
        // Only `Ok` has a payload.
        ensures carried { may_carry self.now.status self.now.payload ≡ true }
        // It is no longer than the text of a reply can be.
        ensures size { length self.now.payload ≤ REPLY_SIZE }
    {
        self.payload.as_slice()
    }

    /// The same answer once more: its payload isn't copied, and lies in memory as long as one of them. It fails only
    /// where no more can share it.
    pub fn share(&self) -> Result<Answer<A>, Memory>
        ensures { IfOk result (λ answer. answer ≡ self.now) }
    {
        let payload = self.payload.share()?;
        Ok(Answer {
            status: self.status,
            payload,
        })
    }
}
