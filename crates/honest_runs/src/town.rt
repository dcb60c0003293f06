//! The clients of all users, the server and the store, and a step of them.

ghost use Rattle.std.specs.Prelude.{◌≡◌, ℕ, [], IfOk, MatchOption, None, OnOk, map, option_and_then, option_map};
ghost use Rattle.std.specs.Option.{option_copied};
ghost use Rattle.std.specs.Vec.{vec_items};
ghost use Rattle.client_tree.specs.Held.{held, keeping_all};
ghost use Rattle.client_runs.specs.Clients.{client_at};
ghost use Rattle.client_steps.specs.Steps.{first};
ghost use Rattle.honest_runs.specs.HonestRuns.{sent_by};
ghost use Rattle.honest_runs.specs.Town.{Acknowledges, AreNoted, Arrives, ComesOfReply, ComesTo, Happens, IsCarriedOut};
ghost use Rattle.honest_runs.specs.Town.{IsDeliveredTo, IsSent, IsTold, calling, handed_out, has_text};
ghost use Rattle.honest_runs.specs.Town.{has_declined, hands_in as hands_in_of, may_alone as may_alone_of};
ghost use Rattle.honest_runs.specs.Served.{laid_by};

use crate::exchange::{Exchange, earlier, keep, was_declined};
use crate::server::Server;
use crate::step::{Delivery, HonestAct, HonestStep};
use crate::wanted::{Wanted, note, nothing_wanted};
use client_runs::{Act, Answer, Clients};
use client_tree::Held;
use client_verify::Step;
use consistency_server::CallKind;
use layout::{Digest, Memory, User, beside, let_go};
use std::alloc::Allocator;
use tree_parts::Blocks;
use wire::Status;

/// The clients of all users, which blocks they ask for, the store and the server.
#[derive(Drop)]
pub(crate) struct Town<A: Allocator + Copy> {
    alloc: A,
    clients: Clients<A>,
    wanted: Vec<Wanted, A>,
    store: Held<A>,
    server: Server<A>,
    /// The call of each step so far, if one was made in it.
    exchanges: Vec<Option<Exchange<A>>, A>,
}

// ---- the store

/// Puts copies of these texts into the store.
fn put_all<A: Allocator + Copy>(
    alloc: A,
    store: &mut Held<A>,
    texts: &[Vec<u8, A>],
) -> Result<(), Memory>
    ensures { OnOk result (store.new ≡ keeping_all store.old (map vec_items texts.now)) }
{
    for text in texts {
        store.keep(Vec::from_slice(alloc, text)?)?;
    }
    Ok(())
}

/// Puts what is laid out into the store.
#[tactic(auto, unfolding(client_tree::specs::Held::keeping_all))]
fn put_laid<A: Allocator + Copy>(alloc: A, store: &mut Held<A>, act: &Act<A>) -> Result<(), Memory>
    ensures { OnOk result (store.new ≡ keeping_all store.old (laid_by act.now)) }
{
    match act {
        Act::Begin(_, laid) => put_all(alloc, store, laid),
        _ => Ok(()),
    }
}

/// Puts what a client hands out to be stored into the store.
#[tactic(auto, unfolding(client_tree::specs::Held::keeping_all))]
fn put_handed_out<A: Allocator + Copy>(
    alloc: A,
    store: &mut Held<A>,
    answer: &Answer<A>,
) -> Result<(), Memory>
    ensures { OnOk result (store.new ≡ keeping_all store.old (handed_out answer.now)) }
{
    match answer {
        Answer::Asks(Ok(Step::Store(texts))) => put_all(alloc, store, texts),
        _ => Ok(()),
    }
}

/// The stored block of a digest, if one is asked for and stored.
fn stored<A: Allocator + Copy>(
    alloc: A,
    store: &Held<A>,
    wanted: Option<Digest>,
) -> Result<Option<Vec<u8, A>>, Memory>
    ensures { IfOk result (λ block. option_map vec_items block ≡ option_and_then (held store.now) wanted) }
{
    let Some(digest) = wanted else {
        return Ok(None);
    };
    match store.get(digest) {
        Some(text) => Ok(Some(Vec::from_slice(alloc, text)?)),
        None => Ok(None),
    }
}

// ---- the server

/// The text that a user's client sends with such a call, if it has one.
fn text_of<A: Allocator + Copy>(clients: &Clients<A>, kind: CallKind, user: User) -> Option<&[u8]>
    ensures { option_copied result ≡ sent_by (client_at clients.now user) kind }
{
    match kind {
        CallKind::Update => clients.certificate(user),
        CallKind::Commit => clients.structure(user),
    }
}

/// Sends what a user's client has to be sent with such a call, and gives the call with the server's answer.
fn ask<A: Allocator + Copy>(
    alloc: A,
    clients: &Clients<A>,
    server: &mut Server<A>,
    kind: CallKind,
    user: User,
) -> Result<Option<Exchange<A>>, Memory>
    ensures { IfOk result (λ asked. MatchOption asked
        ((sent_by (client_at clients.now user) kind ≡ None) × (server.new ≡ server.old))
        (λ x. IsSent kind (client_at clients.now user) server.old x server.new)) }
{
    let Some(text) = text_of(clients, kind, user) else {
        return Ok(None);
    };
    let sent = Vec::from_slice(alloc, text)?;
    let answer = server.answer(kind, text);
    Ok(Some(Exchange::new(kind, sent, answer)))
}

/// Whether the call has the very text that a user's client would send with such a call now.
fn is_own<A: Allocator + Copy>(clients: &Clients<A>, user: User, exchange: &Exchange<A>) -> bool
    ensures { result ≡ has_text (sent_by (client_at clients.now user) exchange.now.call.kind) exchange.now.call.text }
{
    match text_of(clients, exchange.kind(), user) {
        Some(text) => text == exchange.text(),
        None => false,
    }
}

// ---- steps

/// Whether it hands something in.
fn hands_in<A: Allocator>(act: &Act<A>) -> bool
    ensures { result ≡ hands_in_of act.now }
{
    matches!(
        act,
        Act::Reply(_) | Act::Block(_) | Act::Committed(_) | Act::Give(_)
    )
}

impl<A: Allocator + Copy> Town<A> {
    /// Before the first step: nothing stands on any device, and nothing is stored.
    pub(crate) fn new(alloc: A) -> Result<Town<A>, Memory>
        ensures clients { IfOk result (λ town. (u : ℕ) → client_at town.clients u ≡ first) }
        ensures noted { IfOk result (λ town. AreNoted town.clients town.wanted.items) }
        ensures stored { IfOk result (λ town. town.store ≡ []) }
        ensures calls { IfOk result (λ town. town.server ≡ []) }
        ensures answers { IfOk result (λ town. town.exchanges.items ≡ []) }
    {
        let clients = Clients::new(alloc)?;
        let wanted = nothing_wanted(alloc)?;
        let server = Server::new(alloc, clients.pinned())?;
        Ok(Town {
            alloc,
            clients,
            wanted,
            store: Held::empty(alloc),
            server,
            exchanges: Vec::new(alloc),
        })
    }

    /// Has the step's client do this, notes what it asks for, and stores what it hands out.
    fn tell(&mut self, step: &HonestStep<A>, act: &Act<A>) -> Result<Answer<A>, Memory>
        requires { AreNoted self.old.clients self.old.wanted.items }
        ensures comes { IfOk result (λ answer. ComesTo step.now.user act.now answer self.old self.new) }
        ensures told { IfOk result (λ answer. IsTold step.now.user answer self.old self.new) }
    {
        let answer = self
            .clients
            .carry_out(step.user, act, step.ledger_fails, step.journal_fails)?;
        note(&mut self.wanted, step.user, &answer);
        let put = put_handed_out(self.alloc, &mut self.store, &answer);
        let (answer, _) = beside(answer, put)?;
        Ok(answer)
    }

    /// Whether the certificate that a user's client has was declined for its signature when it was sent last.
    fn declined(&self, user: User) -> bool
        ensures { result ≡ has_declined self.now.exchanges.items (client_at self.now.clients user) }
    {
        match self.clients.certificate(user) {
            Some(text) => was_declined(&self.exchanges, text),
            None => false,
        }
    }

    /// Whether a user's client may be told to do this alone: it hands nothing in, and signs no certificate once more
    /// but one that was declined.
    fn may_alone(&self, user: User, act: &Act<A>) -> bool
        ensures { result ≡ may_alone_of self.now.exchanges.items (client_at self.now.clients user) act.now }
    {
        match act {
            Act::Resign(_) => self.declined(user),
            _ => !hands_in(act),
        }
    }

    /// The client does something alone.
    fn alone(&mut self, step: &HonestStep<A>, act: &Act<A>) -> Result<Answer<A>, Memory>
        requires noted { AreNoted self.old.clients self.old.wanted.items }
        requires act { step.now.act ≡ HonestAct.Alone act.now }
        ensures { IfOk result (λ answer. Happens step.now answer None self.old self.new) }
    {
        if !self.may_alone(step.user, act) {
            return Ok(Answer::NotTaken);
        }
        put_laid(self.alloc, &mut self.store, act)?;
        self.tell(step, act)
    }

    /// The reply of an answer is handed in, if it is one of status 0; another status is told.
    fn reply(
        &mut self,
        step: &HonestStep<A>,
        status: Status,
        payload: &[u8],
    ) -> Result<Answer<A>, Memory>
        requires { AreNoted self.old.clients self.old.wanted.items }
        ensures comes { IfOk result (λ told. ComesOfReply step.now.user status payload.now told self.old self.new) }
        ensures told { IfOk result (λ told. IsTold step.now.user told self.old self.new) }
    {
        match status {
            Status::Ok => {
                let act = Act::Reply(Vec::from_slice(self.alloc, payload)?);
                self.tell(step, &act)
            }
            _ => Ok(Answer::Served(status)),
        }
    }

    /// The block that the reply under check asks for is handed in, as the store has it.
    fn block(&mut self, step: &HonestStep<A>) -> Result<Answer<A>, Memory>
        requires noted { AreNoted self.old.clients self.old.wanted.items }
        requires act { step.now.act ≡ HonestAct.Block }
        ensures { IfOk result (λ answer. Happens step.now answer None self.old self.new) }
    {
        let wanted = self.wanted[step.user.get() as usize].reply;
        let act = Act::Block(stored(self.alloc, &self.store, wanted)?);
        self.tell(step, &act)
    }

    /// The status of a structure is handed in.
    fn acknowledge(&mut self, step: &HonestStep<A>, status: Status) -> Result<Answer<A>, Memory>
        requires { AreNoted self.old.clients self.old.wanted.items }
        ensures { IfOk result (λ answer. Acknowledges step.now.user status answer self.old self.new) }
    {
        let told = self.tell(step, &Act::Committed(status))?;
        let_go(told);
        Ok(Answer::Served(status))
    }

    /// An answer arrives: a reply, or the status of a structure.
    fn arrive(&mut self, step: &HonestStep<A>, exchange: &Exchange<A>) -> Result<Answer<A>, Memory>
        requires { AreNoted self.old.clients self.old.wanted.items }
        ensures { IfOk result (λ answer.
            Arrives step.now.user exchange.now.call.kind exchange.now.answer answer self.old self.new) }
    {
        match exchange.kind() {
            CallKind::Update => self.reply(step, exchange.status(), exchange.payload()),
            CallKind::Commit => self.acknowledge(step, exchange.status()),
        }
    }

    /// The answer to a call arrives, or is lost.
    fn deliver(
        &mut self,
        step: &HonestStep<A>,
        delivery: Delivery,
        exchange: &Exchange<A>,
    ) -> Result<Answer<A>, Memory>
        requires { AreNoted self.old.clients self.old.wanted.items }
        ensures { IfOk result (λ answer. IsDeliveredTo step.now.user delivery exchange.now answer self.old self.new) }
    {
        match delivery {
            Delivery::Lost => Ok(Answer::Served(exchange.status())),
            Delivery::Arrives => self.arrive(step, exchange),
        }
    }

    /// The certificate or the structure is sent, and the answer may arrive.
    fn call(
        &mut self,
        step: &HonestStep<A>,
        kind: CallKind,
        delivery: Delivery,
    ) -> Result<(Answer<A>, Option<Exchange<A>>), Memory>
        requires noted { AreNoted self.old.clients self.old.wanted.items }
        requires act { step.now.act ≡ calling kind delivery }
        ensures { IfOk result (λ done. Happens step.now done.0 done.1 self.old self.new) }
    {
        let asked = ask(self.alloc, &self.clients, &mut self.server, kind, step.user)?;
        let Some(exchange) = asked else {
            return Ok((Answer::NotTaken, None));
        };
        let answer = self.deliver(step, delivery, &exchange);
        let (exchange, answer) = beside(exchange, answer)?;
        Ok((answer, Some(exchange)))
    }

    /// An earlier answer arrives, if it was one to the text that the client has now.
    fn late(&mut self, step: &HonestStep<A>, n: usize) -> Result<Answer<A>, Memory>
        requires noted { AreNoted self.old.clients self.old.wanted.items }
        requires act { step.now.act ≡ HonestAct.Late n }
        ensures { IfOk result (λ answer. Happens step.now answer None self.old self.new) }
    {
        let Some(exchange) = earlier(self.alloc, &self.exchanges, n)? else {
            return Ok(Answer::NotTaken);
        };
        if !is_own(&self.clients, step.user, &exchange) {
            let_go(exchange);
            return Ok(Answer::NotTaken);
        }
        let answer = self.arrive(step, &exchange);
        let_go(exchange);
        answer
    }

    /// The block that the look asks for is handed in, as the store has it.
    fn give(&mut self, step: &HonestStep<A>) -> Result<Answer<A>, Memory>
        requires noted { AreNoted self.old.clients self.old.wanted.items }
        requires act { step.now.act ≡ HonestAct.Give }
        ensures { IfOk result (λ answer. Happens step.now answer None self.old self.new) }
    {
        let wanted = self.wanted[step.user.get() as usize].look;
        let act = Act::Give(stored(self.alloc, &self.store, wanted)?);
        self.tell(step, &act)
    }

    /// Makes a step, and tells which call of the server was made in it, if one was.
    fn make(&mut self, step: &HonestStep<A>) -> Result<(Answer<A>, Option<Exchange<A>>), Memory>
        requires { AreNoted self.old.clients self.old.wanted.items }
        ensures { IfOk result (λ done. Happens step.now done.0 done.1 self.old self.new) }
    {
        let answer = match &step.act {
            HonestAct::Update(delivery) => return self.call(step, CallKind::Update, *delivery),
            HonestAct::Commit(delivery) => return self.call(step, CallKind::Commit, *delivery),
            HonestAct::Alone(act) => self.alone(step, act),
            HonestAct::Block => self.block(step),
            HonestAct::Give => self.give(step),
            HonestAct::Late(n) => self.late(step, *n),
        };
        Ok((answer?, None))
    }

    /// Carries out a step.
    pub(crate) fn carry_out(&mut self, step: &HonestStep<A>) -> Result<Answer<A>, Memory>
        requires { AreNoted self.old.clients self.old.wanted.items }
        ensures { IfOk result (λ answer. IsCarriedOut step.now answer self.old self.new) }
    {
        let (answer, exchange) = self.make(step)?;
        let kept = keep(&mut self.exchanges, exchange);
        let (answer, _) = beside(answer, kept)?;
        Ok(answer)
    }
}
