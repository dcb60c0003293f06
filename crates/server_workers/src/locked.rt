//! What lies under the lock.

ghost use Rattle.std.specs.Prelude.{◌≡◌, [], ◌∷◌, ◌+◌, ◌^◌, ◌<◌, true, false, length, leb, IsTrue};
ghost use Rattle.consistency_server.specs.Signer.{judging_key};
ghost use Rattle.consistency_server.specs.History.{IfCarriedOut, IfNotCarriedOut, answer_of, log_of};
ghost use Rattle.consistency_server.specs.History.{is_carried_out, kept};
ghost use Rattle.wire.specs.declared.kinds.Status.TheVariants as status;
ghost use Rattle.server_workers.specs.Hands.{hand, hand_of};
ghost use Rattle.server_workers.specs.Counting.{count_of};
ghost use Rattle.server_workers.specs.Seen.{told_of};
ghost use Rattle.server_workers.specs.declared.call_queue.TheConstants.{QUEUE_ROOM};

use crate::call_queue::{CallPass, ServerName};
use crate::queue_log::QueueLog;
use crate::seen::SeenKey;
use crate::tally::Tally;
use consistency_server::{Answer, Call, Log, Ordered, Signer, Verification};
use layout::User;
use lms_sign::PublicKey;
use std::alloc::Allocator;
use std::marker::Model;
use std::sync::Wait;
use std::sync::ledger::{Book, Ledger, Share};
use wire::Status;

/// The one order of calls, the end of the log that pushes, and the book of the tallies. Contracts see the order.
/// Whenever the lock is got, the log was pushed what the history leaves in it, and as many calls were counted as it
/// has.
#[derive(Drop)]
pub struct Locked<'a, A: Allocator, B: ServerName, L: Ledger, R: Wait> {
    ordered: Ordered<A>,
    log: QueueLog<'a, A, B, R>,
    book: Book<L>,
}

impl<'a, A: Allocator, B: ServerName, L: Ledger, R: Wait> Model for Locked<'a, A, B, L, R> {
    ghost use Rattle.std.specs.Prelude.{◌≡◌, length};
    ghost use Rattle.consistency_server.specs.History.{Ordered, log_of};

    ghost Value = { Ordered };

    ghost view = { λ l. l.ordered };

    ghost invariant = { λ l. (l.ordered.pinned ≡ B.pinned) × (l.log ≡ log_of B.pinned l.ordered.history)
        × (l.book.total ≡ length l.ordered.history) };
}

/// A call of this answer was carried out: neither was the log full nor did memory run out.
pub(crate) fn is_carried_out(status: Status) -> bool
    ensures { result ≡ is_carried_out status }
{
    !matches!(status, Status::Busy | Status::Memory)
}

/// Carries out a call, over a log that was pushed what the history leaves in it. `known` is what was
/// verified of its signature before.
fn carry_out<A: Allocator + Copy, G: Log<Call<A>>>(
    ordered: &mut Ordered<A>,
    log: &mut G,
    call: Call<A>,
    known: Option<&Verification<'_>>,
) -> Answer<A>
    requires { G.pushed log.old ≡ log_of ordered.old.pinned ordered.old.history }
    ensures answer { IfCarriedOut result (result ≡ answer_of ordered.old.pinned ordered.old.history call) }
    ensures history { IfCarriedOut result (ordered.new ≡ record ordered.old { history = call ∷ ordered.old.history }) }
    ensures same { IfNotCarriedOut result (ordered.new ≡ ordered.old) }
    ensures bare { IfNotCarriedOut result (result.payload ≡ []) }
    ensures log { G.pushed log.new ≡ log_of ordered.new.pinned ordered.new.history }
    ensures busy { result.status ≡ status.Busy → IsTrue (G.may_be_full log.old) }
{
    ordered.answer_call(log, call, known)
}

/// How many calls the history has.
fn call_count<A: Allocator + Copy>(ordered: &Ordered<A>) -> usize
    ensures { result ≡ length ordered.now.history }
{
    ordered.call_count()
}

impl<'a, A: Allocator + Copy, B: ServerName, L: Ledger, R: Wait> Locked<'a, A, B, L, R> {
    /// Before the first call.
    pub(crate) fn new(
        ordered: Ordered<A>,
        log: QueueLog<'a, A, B, R>,
        book: Book<L>,
    ) -> Locked<'a, A, B, L, R>
        requires { (ordered ≡ record { pinned = B.pinned; history = [] }) × (log ≡ []) × (book.total ≡ 0) }
        ensures { result ≡ record { pinned = B.pinned; history = [] } }
    {
        Locked { ordered, log, book }
    }

    /// The key by which a signature is judged in the next call.
    pub(crate) fn key_of(&self, signer: Signer) -> Option<PublicKey>
        ensures { result ≡ judging_key signer (kept B.pinned self.now.history).table }
    {
        self.ordered.key_of(signer)
    }

    /// The user's key that came last, if a user is asked for and listed.
    fn seen(&self, user: Option<User>) -> Option<SeenKey>
        ensures { result ≡ told_of user (kept B.pinned self.now.history).table }
    {
        let user = user?;
        let key = self.ordered.last_key(user)?;
        Some(SeenKey { user, key })
    }

    /// Carries out a call, and counts it where it is answered otherwise than busy or out of memory. Tells the key of
    /// this user that came last, as it stands then.
    pub(crate) fn call(
        &mut self,
        mine: &mut Tally<L>,
        call: Call<A>,
        known: Option<&Verification<'_>>,
        user: Option<User>,
    ) -> (Answer<A>, Option<SeenKey>)
        requires { 0 < mine.old.share.parts }
        ensures answer { IfCarriedOut result.0 (result.0 ≡ answer_of B.pinned self.old.history call) }
        ensures history { IfCarriedOut result.0 (self.new ≡ record self.old { history = call ∷ self.old.history }) }
        ensures same { IfNotCarriedOut result.0 (self.new ≡ self.old) }
        ensures bare { IfNotCarriedOut result.0 (result.0.payload ≡ []) }
        ensures busy { result.0.status ≡ status.Busy
            → IsTrue (leb QUEUE_ROOM (length (log_of B.pinned self.old.history))) }
        ensures counted { mine.new.answered ≡ mine.old.answered + count_of result.0.status }
        ensures parts { mine.new.share.parts ≡ mine.old.share.parts }
        ensures seen { result.1 ≡ told_of user (kept B.pinned self.new.history).table }
    {
        let answer = self.answer(mine, call, known);
        let seen = self.seen(user);
        (answer, seen)
    }

    /// Carries out a call, and counts it where it is answered otherwise than busy or out of memory.
    fn answer(
        &mut self,
        mine: &mut Tally<L>,
        call: Call<A>,
        known: Option<&Verification<'_>>,
    ) -> Answer<A>
        requires { 0 < mine.old.share.parts }
        ensures answer { IfCarriedOut result (result ≡ answer_of B.pinned self.old.history call) }
        ensures history { IfCarriedOut result (self.new ≡ record self.old { history = call ∷ self.old.history }) }
        ensures same { IfNotCarriedOut result (self.new ≡ self.old) }
        ensures bare { IfNotCarriedOut result (result.payload ≡ []) }
        ensures busy { result.status ≡ status.Busy
            → IsTrue (leb QUEUE_ROOM (length (log_of B.pinned self.old.history))) }
        ensures counted { mine.new.answered ≡ mine.old.answered + count_of result.status }
        ensures parts { mine.new.share.parts ≡ mine.old.share.parts }
    {
        let Locked { ordered, log, book } = self;
        let Tally { answered, share } = mine;
        let answer = carry_out(ordered, log, call, known);
        if is_carried_out(answer.status()) {
            book.add(share, 1);
            book.audit(share);
            let _calls = call_count(ordered);
            *answered += 1;
        }
        answer
    }

    /// Changes nothing, and tells that what a share has can be counted: it is no more than the history has calls.
    pub(crate) fn audit(&mut self, share: &mut Share<L>)
        ensures same { self.new ≡ self.old }
        ensures parts { share.new.parts ≡ share.old.parts }
        ensures amount { share.new.amount ≡ share.old.amount }
        ensures small { share.new.amount < 2 ^ 64 }
    {
        self.book.audit(share);
        let _calls = call_count(&self.ordered);
    }

    /// When all workers have ended: the history has as many calls as they answered.
    pub(crate) fn close(self, all: &mut Tally<L>) -> (Ordered<A>, CallPass<A>)
        requires { all.old.share.parts ≡ L.parts }
        ensures pinned { result.0.pinned ≡ B.pinned }
        ensures counted { length result.0.history ≡ all.new.answered }
        ensures queue { (result.1.table_id ≡ B.queue) × (result.1.me.1 ≡ []) }
        ensures log { hand_of result.1 ≡ hand true false (log_of B.pinned result.0.history) [] }
    {
        let Locked {
            ordered,
            log,
            mut book,
        } = self;
        book.audit(&mut all.share);
        (ordered, log.into_pass())
    }
}
