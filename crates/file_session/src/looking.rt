//! A question about the accepted view, with the blocks that it asks for.

ghost use Rattle.std.specs.Prelude.{◌≡◌, [], IfOk, IsSome};
ghost use Rattle.client_tree.specs.declared.questions.Question.{Question as Asking};
ghost use Rattle.client_steps.specs.Anywhere.{seen};
ghost use Rattle.file_session.specs.Order.{FetchAt, Ready, ready_or};
ghost use Rattle.file_session.specs.Waits.{AwaitsTurnAt, Fits, IsRange, TurnsFewer, WaitsAt, questioning, ShowsTurn};
ghost use Rattle.file_session.specs.Went.{IsSeenIn, Looked, point};

use crate::calls::{ask, give};
use crate::conversation::Conversation;
use crate::exchanging::{fetch, text_of};
use crate::stop::Stop;
use crate::turn::{Turn, turn_of_look};
use client_tree::Question;
use client_verify::Look;
use leaf_ledger::Device;
use std::alloc::Allocator;
use transport::{Ahead, Transport};

impl<L: Device, J: Device, T: Transport<A>, A: Allocator + Copy> Conversation<L, J, T, A> {
    /// Asks the question.
    fn first_look(&mut self, question: Question) -> Result<Turn<Look<A>>, Stop>
        requires view { IsSome self.old.client.view }
        requires range { IsRange question }
        ensures looked { Looked T.answers (point self.old.client self.old.transport (Ready []))
            (point self.new.client self.new.transport (questioning question result))
            (λ tree. IfOk result (λ turn. ShowsTurn tree question turn)) }
        ensures awaits { IfOk result (λ turn. AwaitsTurnAt question turn self.new.client) }
        ensures phase { self.new.client.phase ≡ self.old.client.phase }
        ensures view { IsSome self.new.client.view }
        ensures transport { self.new.transport ≡ self.old.transport }
    {
        turn_of_look(ask(&mut self.client, question))
    }

    /// Asks for the block of a digest that the look asks for, and hands it in. Those that are listed after it go ahead.
    fn next_look(&mut self, digest: [u8; 32]) -> Result<Turn<Look<A>>, Stop>
        requires { (q : Asking) × WaitsAt q self.old.client }
        ensures looked { (q : Asking) → WaitsAt q self.old.client → Looked T.answers
            (point self.old.client self.old.transport (FetchAt q digest))
            (point self.new.client self.new.transport (questioning q result))
            (λ tree. IfOk result (λ turn. ShowsTurn tree q turn)) }
        ensures awaits { (q : Asking) → WaitsAt q self.old.client
            → IfOk result (λ turn. AwaitsTurnAt q turn self.new.client) }
        ensures fewer { IfOk result (λ turn. TurnsFewer turn self.old.client self.new.client) }
        ensures phase { self.new.client.phase ≡ self.old.client.phase }
        ensures view { IsSome self.new.client.view }
    {
        let ahead = Ahead::Gets(self.listed.after(&digest));
        let block = fetch(&mut self.transport, &digest, &ahead)?;
        let text = text_of(&block);
        self.listed.hear(self.alloc, text);
        turn_of_look(give(&mut self.client, text))
    }

    /// The answer to a question about the accepted view: a look, with the blocks that it asks for. Each is asked for at
    /// most once.
    pub(crate) fn answer(&mut self, question: Question) -> Result<Look<A>, Stop>
        requires view { IsSome self.old.client.view }
        requires range { IsRange question }
        ensures looked { Looked T.answers (point self.old.client self.old.transport (Ready []))
            (point self.new.client self.new.transport (ready_or result))
            (λ tree. IfOk result (λ look. IsSeenIn tree question (seen look))) }
        ensures fits { IfOk result (λ look. Fits question look) }
        ensures phase { self.new.client.phase ≡ self.old.client.phase }
        ensures view { IsSome self.new.client.view }
    {
        let mut digest = match self.first_look(question) {
            Ok(Turn::Asks(digest)) => digest,
            Ok(Turn::Ends(look)) => return Ok(look),
            Err(stop) => return Err(stop),
        };
        'blocks: loop {
            match self.next_look(digest)? {
                Turn::Asks(next) => digest = next,
                Turn::Ends(look) => return Ok(look),
            }
        }
    }
}
