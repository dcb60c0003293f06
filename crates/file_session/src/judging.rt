//! A reply is judged, with the blocks that it asks for, and the texts that it hands out are stored.

ghost use Rattle.std.specs.Prelude.{◌≡◌, [], IfOk, IsSome, OnOk, map};
ghost use Rattle.std.specs.Vec.{vec_items};
ghost use Rattle.client_steps.specs.Anywhere.{asked, on_ok};
ghost use Rattle.file_session.specs.Order.{Fetch, Ready, Store, checking, laid_or, stored_or, stores_or};
ghost use Rattle.file_session.specs.Waits.{Awaits, AwaitsTurn, TurnsFewer, WaitsForBlock, judging};
ghost use Rattle.file_session.specs.Went.{Went, point};

use crate::calls::take;
use crate::conversation::Conversation;
use crate::exchanging::{fetch, send, sync, text_of};
use crate::stop::Stop;
use crate::turn::{Turn, turn_of_step};
use client_verify::{ClientError, Step};
use leaf_ledger::Device;
use std::alloc::Allocator;
use transport::{Ahead, Transport};
use wire::RequestKind;

impl<L: Device, J: Device, T: Transport<A>, A: Allocator + Copy> Conversation<L, J, T, A> {
    /// Asks for the block of a digest that the reply under check asks for, and hands it in.
    fn next_step(&mut self, digest: [u8; 32]) -> Result<Turn<Vec<Vec<u8, A>, A>>, Stop>
        requires { WaitsForBlock self.old.client }
        ensures went { Went T.answers (point self.old.client self.old.transport (Fetch digest))
            (point self.new.client self.new.transport (judging result)) [] }
        ensures awaits { IfOk result (λ turn. AwaitsTurn turn self.new.client) }
        ensures fewer { IfOk result (λ turn. TurnsFewer turn self.old.client self.new.client) }
        ensures phase { self.new.client.phase ≡ self.old.client.phase }
    {
        let block = fetch(&mut self.transport, &digest, &Ahead::Nothing)?;
        turn_of_step(take(&mut self.client, text_of(&block)))
    }

    /// Goes on with a reply under check, with the blocks that it asks for, up to the texts that are to be stored.
    pub(crate) fn check(
        &mut self,
        first: Result<Step<A>, ClientError>,
    ) -> Result<Vec<Vec<u8, A>, A>, Stop>
        requires { IfOk first (λ step. Awaits step self.old.client) }
        ensures went { Went T.answers (point self.old.client self.old.transport (checking (on_ok asked first)))
            (point self.new.client self.new.transport (stores_or result)) [] }
        ensures ready { OnOk result (IsSome self.new.client.accepted) }
        ensures phase { self.new.client.phase ≡ self.old.client.phase }
    {
        match turn_of_step(first) {
            Ok(Turn::Asks(digest)) => self.check_on(digest),
            Ok(Turn::Ends(texts)) => Ok(texts),
            Err(stop) => Err(stop),
        }
    }

    /// Goes on from a block that the reply under check asks for. Each is asked for at most once.
    fn check_on(&mut self, first: [u8; 32]) -> Result<Vec<Vec<u8, A>, A>, Stop>
        requires { WaitsForBlock self.old.client }
        ensures went { Went T.answers (point self.old.client self.old.transport (Fetch first))
            (point self.new.client self.new.transport (stores_or result)) [] }
        ensures ready { OnOk result (IsSome self.new.client.accepted) }
        ensures phase { self.new.client.phase ≡ self.old.client.phase }
    {
        let mut digest = first;
        'blocks: loop {
            match self.next_step(digest)? {
                Turn::Asks(next) => digest = next,
                Turn::Ends(texts) => return Ok(texts),
            }
        }
    }

    /// Stores these texts: those that a reply handed out, or those of an operation that is to be declared. Once they
    /// are stored, they are synced, so that what is signed then never names a text that the server may lose. Later
    /// requests go ahead of the replies to earlier ones.
    pub(crate) fn store(&mut self, texts: &[Vec<u8, A>]) -> Result<(), Stop>
        ensures handed_out { Went T.answers (point self.old.client self.old.transport (Store (map vec_items texts.now)))
            (point self.new.client self.new.transport (stored_or result)) [] }
        ensures laid_out { Went T.answers (point self.old.client self.old.transport (Ready []))
            (point self.new.client self.new.transport (laid_or (map vec_items texts.now) result)) [] }
        ensures same { self.new.client ≡ self.old.client }
    {
        if texts.is_empty() {
            return Ok(());
        }
        let mut later = texts;
        for text in texts {
            later = later.get(1..).unwrap_or_default();
            let ahead = Ahead::Puts(later);
            let _digest = send(&mut self.transport, RequestKind::Put, text, &ahead)?;
        }
        sync(&mut self.transport)
    }
}
