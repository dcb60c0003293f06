//! What lies under the first lock: the order, and the calls that aren't in the log yet.

ghost use Rattle.std.specs.Prelude.{◌≡◌, List, [], ◌∷◌, ◌++◌, map, true, false, IfSome};
ghost use Rattle.consistency_server.specs.Answers.{Call as PureCall};
ghost use Rattle.consistency_server.specs.History.{IfCarriedOut, IfNotCarriedOut, answer_of, kept, log_of};
ghost use Rattle.consistency_server.specs.Signer.{judging_key};
ghost use Rattle.server_log.specs.KeptLog.{record_of};
ghost use Rattle.server_workers.specs.Seen.{told_of};

use crate::events::{Beginning, Events};
use crate::key::ServerKey;
use crate::waiting::{Taken, Waiting};
use consistency_server::{Answer, Call, Ordered, Signer, Verification};
use layout::User;
use lms_sign::PublicKey;
use server_workers::SeenKey;
use std::alloc::Allocator;
use std::marker::{Model, PhantomData};

/// The one order of calls, and those of them that aren't in the log yet. Contracts see the order. What its history leaves
/// in the log is what the log had when the server was opened, and then the server's events.
#[derive(Drop)]
pub(crate) struct Order<A: Allocator, B: ServerKey> {
    ordered: Ordered<A>,
    waiting: Waiting<A, B>,
    key: PhantomData<B>,
}

impl<A: Allocator, B: ServerKey> Model for Order<A, B> {
    ghost use Rattle.std.specs.Prelude.{◌≡◌, ◌++◌};
    ghost use Rattle.consistency_server.specs.History.{Ordered, log_of};

    ghost Value = { Ordered };

    ghost view = { λ o. o.ordered };

    ghost invariant = { λ o. (o.ordered.pinned ≡ B.pinned)
        × (log_of B.pinned o.ordered.history ≡ B.told ++ o.waiting) };
}

impl<A: Allocator + Copy, B: ServerKey> Order<A, B> {
    /// The order that a log gave, all of whose calls are in it.
    pub(crate) fn new(alloc: A, ordered: Ordered<A>, events: Events<B>) -> Order<A, B>
        requires pinned { ordered.pinned ≡ B.pinned }
        requires told { log_of B.pinned ordered.history ≡ B.told }
        requires none { events ≡ [] }
        ensures { result ≡ ordered }
    {
        Order {
            ordered,
            waiting: Waiting::new(alloc, events),
            key: PhantomData,
        }
    }

    /// The key by which a signature is judged in the next call.
    pub(crate) fn key_of(&self, signer: Signer) -> Option<PublicKey>
        ensures { result ≡ judging_key signer (kept B.pinned self.now.history).table }
    {
        self.ordered.key_of(signer)
    }

    /// The user's key that came last, if a user is asked for and listed.
    fn seen(&self, user: Option<User>) -> Option<SeenKey>
        ensures { result ≡ told_of user (kept B.pinned self.now.history).table }
    {
        let user = user?;
        let key = self.ordered.last_key(user)?;
        Some(SeenKey { user, key })
    }

    /// Carries out a call. Tells the key of this user that came last, as it stands then, and which calls have placed or
    /// committed since the server was opened.
    pub(crate) fn call(
        &mut self,
        call: Call<A>,
        known: Option<&Verification<'_>>,
        user: Option<User>,
    ) -> (Answer<A>, Option<SeenKey>, Beginning<B>)
        ensures answer { IfCarriedOut result.0 (result.0 ≡ answer_of B.pinned self.old.history call) }
        ensures history { IfCarriedOut result.0 (self.new ≡ record self.old { history = call ∷ self.old.history }) }
        ensures same { IfNotCarriedOut result.0 (self.new ≡ self.old) }
        ensures seen { result.1 ≡ told_of user (kept B.pinned self.new.history).table }
        ensures events { log_of B.pinned self.new.history ≡ B.told ++ result.2 }
    {
        let answer = self.answer(call, known);
        let seen = self.seen(user);
        (answer, seen, self.waiting.events().again())
    }

    /// Carries out a call, which waits for the log where it placed or committed.
    fn answer(&mut self, call: Call<A>, known: Option<&Verification<'_>>) -> Answer<A>
        ensures answer { IfCarriedOut result (result ≡ answer_of B.pinned self.old.history call) }
        ensures history { IfCarriedOut result (self.new ≡ record self.old { history = call ∷ self.old.history }) }
        ensures same { IfNotCarriedOut result (self.new ≡ self.old) }
    {
        let Order {
            ordered,
            waiting,
            key: _,
        } = self;
        ordered.answer_call(waiting, call, known)
    }

    /// Takes the records of the calls that aren't in the log yet, the oldest first. None where the log has not just
    /// those before them.
    pub(crate) fn take(&mut self, in_log: &Beginning<B>) -> Option<Taken<A, B>>
        ensures same { self.new ≡ self.old }
        ensures taken { IfSome result (λ t. (left : List PureCall) × (t.events ≡ in_log.now ++ left)
            × (t.records.items ≡ map record_of left)) }
    {
        self.waiting.take(in_log)
    }

    /// The calls that placed or committed since the server was opened.
    pub(crate) fn events(&self) -> &Beginning<B>
        ensures events { log_of B.pinned self.now.history ≡ B.told ++ result.now }
        ensures pinned { self.now.pinned ≡ B.pinned }
    {
        self.waiting.events()
    }

    /// The order.
    pub(crate) fn into_ordered(self) -> Ordered<A>
        ensures same { result ≡ self }
        ensures pinned { result.pinned ≡ B.pinned }
    {
        let Order {
            ordered,
            waiting: _,
            key: _,
        } = self;
        ordered
    }
}
