//! What a request is answered.

ghost use Rattle.std.specs.Prelude.{◌≡◌, ◌<◌, ◌++◌, ◌∷◌, [], true, length, IfOk};
ghost use Rattle.std.specs.Int.{w32};
ghost use Rattle.layout.specs.Format.{be};
ghost use Rattle.wire.specs.Frame.{frame, reply_body, may_carry, number_of_status};
ghost use Rattle.wire.specs.declared.frames.TheConstants.{BODY_LIMIT};
ghost use Rattle.server_workers.specs.Conversation.{bare, ok};

use consistency_server::Answer;
use layout::Memory;
use std::alloc::Allocator;
use std::marker::Model;
use wire::{Status, reply_frame};

/// Where a reply lies.
#[derive(Drop)]
enum Body<'a, A: Allocator> {
    /// With what the server keeps of a call, whose answer it is.
    Called(Answer<A>),
    /// By itself.
    Own(Status, Vec<u8, A>),
    /// Among the stored blocks, as `Ok` with the block.
    Stored(&'a [u8]),
}

/// A status, and what comes with `Ok`: no more bytes than a frame takes.
#[derive(Drop)]
pub struct ReplyBody<'a, A: Allocator> {
    body: Body<'a, A>,
}

impl<'a, A: Allocator> Model for ReplyBody<'a, A> {
    ghost use Rattle.std.specs.Prelude.{◌≡◌, ◌<◌, true, length};
    ghost use Rattle.wire.specs.Frame.{may_carry};
    ghost use Rattle.consistency_server.specs.Answers.{Answer};
    ghost use Rattle.server_workers.specs.Bodies.{answer_in};
    ghost use Rattle.wire.specs.declared.frames.TheConstants.{BODY_LIMIT};

    ghost Value = { Answer };

    ghost view = { λ r. answer_in r.body };

    ghost invariant = { λ r. (may_carry (answer_in r.body).status (answer_in r.body).payload ≡ true)
        × (length (answer_in r.body).payload < BODY_LIMIT) };
}

/// What stands before the payload of a reply whose body has this size.
#[tactic(auto, unfolding(layout::specs::Format::be))]
fn head_of(status: Status, size: u32) -> [u8; 5]
    ensures { result ≡ be w32 size ++ number_of_status status ∷ [] }
{
    let [first, second, third, last] = size.to_be_bytes();
    [first, second, third, last, status.number()]
}

impl<'a, A: Allocator> ReplyBody<'a, A> {
    /// A status with nothing after it.
    pub fn bare(alloc: A, status: Status) -> ReplyBody<'a, A>
        ensures { result ≡ bare status }
    {
        ReplyBody {
            body: Body::Own(status, Vec::new(alloc)),
        }
    }

    /// `Ok`, with what comes with it.
    pub fn ok(payload: Vec<u8, A>) -> ReplyBody<'a, A>
        requires { length payload.items < BODY_LIMIT }
        ensures { result ≡ ok payload.items }
    {
        ReplyBody {
            body: Body::Own(Status::Ok, payload),
        }
    }

    /// `Ok`, with a block, of which no copy is made.
    pub(crate) fn stored(block: &'a [u8]) -> ReplyBody<'a, A>
        requires { length block.now < BODY_LIMIT }
        ensures { result ≡ ok block.now }
    {
        ReplyBody {
            body: Body::Stored(block),
        }
    }

    /// The answer to a call, of which no copy is made.
    pub fn of(answer: Answer<A>) -> ReplyBody<'a, A>
        ensures { result ≡ answer }
    {
        let _payload = answer.payload();
        ReplyBody {
            body: Body::Called(answer),
        }
    }

    /// Its status.
    pub fn status(&self) -> Status
        ensures { result ≡ self.now.status }
    {
        match &self.body {
            Body::Called(answer) => answer.status(),
            Body::Own(status, _) => *status,
            Body::Stored(_) => Status::Ok,
        }
    }

    pub(crate) fn payload(&self) -> &[u8]
        ensures same { result.now ≡ self.now.payload }
        ensures carried { may_carry self.now.status self.now.payload ≡ true }
        ensures small { length self.now.payload < BODY_LIMIT }
    {
        match &self.body {
            Body::Called(answer) => answer.payload(),
            Body::Own(_, payload) => payload,
            Body::Stored(block) => block,
        }
    }

    /// Its frame.
    pub(crate) fn frame(&self, alloc: A) -> Result<Vec<u8, A>, Memory>
        ensures { IfOk result (λ bytes. bytes.items ≡ frame.spell (reply_body self.now.status self.now.payload)) }
    {
        reply_frame(alloc, self.status(), self.payload())
    }

    /// What stands before the payload in its frame.
    pub(crate) fn head(&self) -> [u8; 5]
        ensures { result ++ self.now.payload ≡ frame.spell (reply_body self.now.status self.now.payload) }
    {
        head_of(self.status(), self.payload().len() as u32 + 1)
    }
}
