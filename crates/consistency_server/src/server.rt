//! The server's one order of calls.

ghost use Rattle.std.specs.Prelude.{◌≡◌, ◌≢◌, [], ◌∷◌, ◌++◌, true, OnOk, OnErr, IfOk, IsTrue, Err, length};
ghost use Rattle.consistency_server.specs.Judged.{MayHappen, answer_by, state_after, logged_by};
ghost use Rattle.consistency_server.specs.History.{calls_of};

use crate::call::{Answer, Call, CallKind};
use crate::log::Log;
use crate::past::{Past, add, take_back};
use crate::refusal::Refusal;
use crate::signer::Signer;
use crate::state::{State, Verdict};
use crate::verification::Verification;
use layout::{User, let_go};
use lms_sign::PublicKey;
use std::alloc::Allocator;
use std::marker::Model;
use wire::Status;

/// The order of the calls so far, under the key of user 0. Of a call that placed nothing and committed nothing, only
/// that there was one more is kept.
#[derive(Drop)]
pub struct Ordered<A: Allocator> {
    pinned: PublicKey,
    state: State<A>,
    history: Past<A>,
}

impl<A: Allocator> Model for Ordered<A> {
    ghost use Rattle.std.specs.Prelude.{◌≡◌};
    ghost use Rattle.consistency_server.specs.History.{Ordered, calls_of, kept};

    ghost Value = { Ordered };

    ghost view = { λ o. record { pinned = o.pinned; history = calls_of o.history } };

    ghost invariant = { λ o. o.state ≡ kept o.pinned (calls_of o.history) };
}

/// What is done for what was judged: the call goes to the log if it happens, and what is kept changes.
fn act<A: Allocator, G: Log<Call<A>>>(
    state: &mut State<A>,
    log: &mut G,
    call: Call<A>,
    judged: Verdict<A>,
) -> Result<Answer<A>, Refusal>
    requires { MayHappen state.old judged }
    ensures answer { IfOk result (λ answer. answer ≡ answer_by judged) }
    ensures state { OnOk result (state.new ≡ state_after state.old judged) }
    ensures log { OnOk result (G.pushed log.new ≡ G.pushed log.old ++ logged_by judged call) }
    ensures state_err { OnErr result (state.new ≡ state.old) }
    ensures log_err { OnErr result (G.pushed log.new ≡ G.pushed log.old) }
    ensures busy { result ≡ Err Refusal.Busy → IsTrue (G.may_be_full log.old) }
    ensures busy_logged { result ≡ Err Refusal.Busy → logged_by judged call ≢ [] }
{
    match judged {
        Verdict::Refused(status) => Ok(Answer::bare(status)),
        Verdict::Repeated(payload) => Ok(Answer::with_payload(payload)),
        Verdict::Happens(event, payload) => match state.happen(log, call, event) {
            Ok(()) => Ok(Answer::with_payload(payload)),
            Err(refusal) => {
                let_go(payload);
                Err(refusal)
            }
        },
    }
}

/// What is done for a call once it is judged: it is counted, it goes to the log if it happens, and then what is kept
/// changes, which can't fail.
fn carry_out<A: Allocator + Copy, G: Log<Call<A>>>(
    state: &mut State<A>,
    history: &mut Past<A>,
    log: &mut G,
    call: Call<A>,
    judged: Verdict<A>,
) -> Result<Answer<A>, Refusal>
    requires { MayHappen state.old judged }
    ensures answer { IfOk result (λ answer. answer ≡ answer_by judged) }
    ensures state { OnOk result (state.new ≡ state_after state.old judged) }
    ensures history { OnOk result (calls_of history.new ≡ call ∷ calls_of history.old) }
    ensures log { OnOk result (G.pushed log.new ≡ G.pushed log.old ++ logged_by judged call) }
    ensures state_err { OnErr result (state.new ≡ state.old) }
    ensures history_err { OnErr result (calls_of history.new ≡ calls_of history.old) }
    ensures log_err { OnErr result (G.pushed log.new ≡ G.pushed log.old) }
    ensures busy { result ≡ Err Refusal.Busy → IsTrue (G.may_be_full log.old) }
    ensures busy_logged { result ≡ Err Refusal.Busy → logged_by judged call ≢ [] }
{
    if add(history, &call).is_err() {
        let_go(call);
        let_go(judged);
        return Err(Refusal::Memory);
    }
    let acted = act(state, log, call, judged);
    if acted.is_err() {
        take_back(history);
    }
    acted
}

impl<A: Allocator + Copy> Ordered<A> {
    ghost use Rattle.consistency_server.specs.History.{call_of, update_of, commit_of, answer_of, logged};
    ghost use Rattle.consistency_server.specs.History.{IfCarriedOut, IfNotCarriedOut, is_carried_out, kept};
    ghost use Rattle.consistency_server.specs.Signer.{judging_key};
    ghost use Rattle.principals.specs.Table.{key_of};
    ghost use Rattle.wire.specs.declared.kinds.Status.TheVariants as status;

    /// Before the first call. `pinned` is the key that every client knows, user 0's.
    pub fn genesis(alloc: A, pinned: PublicKey) -> Ordered<A>
        ensures { result ≡ record { pinned = pinned; history = [] } }
    {
        Ordered {
            pinned,
            state: State::new(alloc, pinned),
            history: Vec::new(alloc),
        }
    }

    /// How many calls were answered otherwise than busy or out of memory.
    pub fn call_count(&self) -> usize
        ensures { result ≡ length self.now.history }
    {
        self.history.len()
    }

    /// The key by which a signature is judged in the next call.
    pub fn key_of(&self, signer: Signer) -> Option<PublicKey>
        ensures { result ≡ judging_key signer (kept self.now.pinned self.now.history).table }
    {
        self.state.key_of(signer)
    }

    /// The key of a user that came last: by it the user's next certificate is judged.
    pub fn last_key(&self, user: User) -> Option<PublicKey>
        ensures { result ≡ key_of user (kept self.now.pinned self.now.history).table }
    {
        self.state.last_key(user)
    }

    /// Answers an UPDATE, whose text is a signed certificate.
    pub fn update<G: Log<Call<A>>>(&mut self, log: &mut G, text: &[u8]) -> Answer<A>
        ensures answer { IfCarriedOut result
            (result ≡ answer_of self.old.pinned self.old.history (update_of text.now)) }
        ensures history { IfCarriedOut result
            (self.new ≡ record self.old { history = update_of text.now ∷ self.old.history }) }
        ensures log { IfCarriedOut result
            (G.pushed log.new ≡ G.pushed log.old ++ logged self.old (update_of text.now)) }
        ensures busy { result.status ≡ status.Busy → IsTrue (G.may_be_full log.old) }
        // It would have gone to the log.
        ensures busy_logged { result.status ≡ status.Busy → logged self.old (update_of text.now) ≢ [] }
        ensures bare { IfNotCarriedOut result (result.payload ≡ []) }
        ensures same { IfNotCarriedOut result (self.new ≡ self.old) }
        ensures log_same { IfNotCarriedOut result (G.pushed log.new ≡ G.pushed log.old) }
    {
        self.answer(log, CallKind::Update, text, None)
    }

    /// Answers a COMMIT, whose text is a signed structure.
    pub fn commit<G: Log<Call<A>>>(&mut self, log: &mut G, text: &[u8]) -> Answer<A>
        ensures answer { IfCarriedOut result
            (result ≡ answer_of self.old.pinned self.old.history (commit_of text.now)) }
        ensures history { IfCarriedOut result
            (self.new ≡ record self.old { history = commit_of text.now ∷ self.old.history }) }
        ensures log { IfCarriedOut result
            (G.pushed log.new ≡ G.pushed log.old ++ logged self.old (commit_of text.now)) }
        ensures busy { result.status ≡ status.Busy → IsTrue (G.may_be_full log.old) }
        // It would have gone to the log.
        ensures busy_logged { result.status ≡ status.Busy → logged self.old (commit_of text.now) ≢ [] }
        ensures bare { IfNotCarriedOut result (result.payload ≡ []) }
        ensures same { IfNotCarriedOut result (self.new ≡ self.old) }
        ensures log_same { IfNotCarriedOut result (G.pushed log.new ≡ G.pushed log.old) }
    {
        self.answer(log, CallKind::Commit, text, None)
    }

    /// Answers a call, of whose text a copy is made first. What is known of its signature isn't verified again, and
    /// makes no other difference.
    pub fn answer<G: Log<Call<A>>>(
        &mut self,
        log: &mut G,
        kind: CallKind,
        text: &[u8],
        known: Option<&Verification<'_>>,
    ) -> Answer<A>
        ensures answer { IfCarriedOut result
            (result ≡ answer_of self.old.pinned self.old.history (call_of kind text.now)) }
        ensures history { IfCarriedOut result
            (self.new ≡ record self.old { history = call_of kind text.now ∷ self.old.history }) }
        ensures log { IfCarriedOut result
            (G.pushed log.new ≡ G.pushed log.old ++ logged self.old (call_of kind text.now)) }
        ensures busy { result.status ≡ status.Busy → IsTrue (G.may_be_full log.old) }
        // It would have gone to the log.
        ensures busy_logged { result.status ≡ status.Busy → logged self.old (call_of kind text.now) ≢ [] }
        ensures bare { IfNotCarriedOut result (result.payload ≡ []) }
        ensures same { IfNotCarriedOut result (self.new ≡ self.old) }
        ensures log_same { IfNotCarriedOut result (G.pushed log.new ≡ G.pushed log.old) }
    {
        let alloc = *self.history.allocator();
        match Vec::from_slice(alloc, text) {
            Ok(copy) => self.answer_call(log, Call::new(kind, copy), known),
            Err(_) => Answer::bare(Status::Memory),
        }
    }

    /// Answers a call, which goes to the log where it places or commits. No text is copied but what is kept of it.
    pub fn answer_call<G: Log<Call<A>>>(
        &mut self,
        log: &mut G,
        call: Call<A>,
        known: Option<&Verification<'_>>,
    ) -> Answer<A>
        ensures answer { IfCarriedOut result (result ≡ answer_of self.old.pinned self.old.history call) }
        ensures history { IfCarriedOut result (self.new ≡ record self.old { history = call ∷ self.old.history }) }
        ensures log { IfCarriedOut result (G.pushed log.new ≡ G.pushed log.old ++ logged self.old call) }
        ensures busy { result.status ≡ status.Busy → IsTrue (G.may_be_full log.old) }
        // It would have gone to the log.
        ensures busy_logged { result.status ≡ status.Busy → logged self.old call ≢ [] }
        ensures bare { IfNotCarriedOut result (result.payload ≡ []) }
        ensures same { IfNotCarriedOut result (self.new ≡ self.old) }
        ensures log_same { IfNotCarriedOut result (G.pushed log.new ≡ G.pushed log.old) }
    {
        match self.try_answer(log, call, known) {
            Ok(answer) => answer,
            Err(refusal) => Answer::bare(refusal.status()),
        }
    }

    /// Carries out a call, unless the log is full or memory runs out.
    fn try_answer<G: Log<Call<A>>>(
        &mut self,
        log: &mut G,
        call: Call<A>,
        known: Option<&Verification<'_>>,
    ) -> Result<Answer<A>, Refusal>
        ensures answer { IfOk result
            (λ answer. answer ≡ answer_of self.old.pinned self.old.history call) }
        ensures history { OnOk result
            (self.new ≡ record self.old { history = call ∷ self.old.history }) }
        ensures log { OnOk result
            (G.pushed log.new ≡ G.pushed log.old ++ logged self.old call) }
        ensures carried_out { IfOk result (λ answer. is_carried_out answer.status ≡ true) }
        ensures same { OnErr result (self.new ≡ self.old) }
        ensures log_same { OnErr result (G.pushed log.new ≡ G.pushed log.old) }
        ensures busy { result ≡ Err Refusal.Busy → IsTrue (G.may_be_full log.old) }
        ensures busy_logged { result ≡ Err Refusal.Busy → logged self.old call ≢ [] }
    {
        let alloc = *self.history.allocator();
        let judged = self.state.judge(alloc, call.kind(), call.text(), known)?;
        carry_out(&mut self.state, &mut self.history, log, call, judged)
    }
}
