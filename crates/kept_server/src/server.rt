//! The server, and what it answers to a request.

ghost use Rattle.std.specs.Prelude.{◌≡◌, ◌+◌, ◌++◌, ◌<◌, List, [], true, false, IfSome, IfNone};
ghost use mathlib.Core.List.{IsPrefix};
ghost use Rattle.wire.specs.Frame.{request_of};
ghost use Rattle.consistency_server.specs.Answers.{Call as PureCall};
ghost use Rattle.consistency_server.specs.History.{call_of, is_carried_out, log_of};
ghost use Rattle.wire.specs.declared.kinds.Status.TheVariants as status;
ghost use Rattle.server_workers.specs.Counting.{count_of};
ghost use Rattle.server_workers.specs.Conversation.{RepliesToKeptCall, RepliesToPut, RepliesToGetOf, RepliesToSync};
ghost use Rattle.server_workers.specs.Conversation.{RepliesToBody, count_in, on_storage};
ghost use Rattle.kept_server.specs.Kept.{KeepsOrder};
ghost use Rattle.kept_server.specs.declared.state.Next.TheVariants as next;

use crate::blocks::Blocks;
use crate::events::{Beginning, Opened};
use crate::keeper::Keeper;
use crate::key::ServerKey;
use crate::order::Order;
use crate::ready::Ready;
use crate::receipt::Receipt;
use crate::state::{Next, State};
use block_file::{BlockError, BlockFile};
use consistency_server::{Answer, Call, CallKind, Ordered, Signer, Verification, signer_of};
use layout::{Digest, let_go};
use lms_sign::PublicKey;
use record_log::RecordLog;
use server_workers::{Counter, Gate, ReplyBody, SeenKey, Serves, Tally, certifier, see, seen_for};
use std::alloc::Allocator;
use std::sync::atomic::{AtomicU64, Ordering};
use std::sync::ledger::{Ledger, Share};
use std::sync::{Condvar, Mutex, Wait};
use std::thread::yield_now;
use storage::Storage;
use wire::{RequestKind, Status, request_of};

/// How often whoever writes the log lets other threads run at most, so that calls which have come are written with it.
const MOST_YIELDS: u32 = 100;

/// The order under its lock, the log under another, the blocks under a third, the number of the last call at the gate,
/// and how many calls have come that aren't placed yet. Whoever writes the log has taken it out, and holds no lock
/// meanwhile.
#[derive(Drop)]
pub(crate) struct KeptServer<S: Storage, T: Storage, A: Allocator, B: ServerKey, L: Ledger> {
    alloc: A,
    order: Mutex<Order<A, B>>,
    state: Mutex<State<S, B, L>>,
    changed: Condvar,
    blocks: Mutex<Blocks<T, A>>,
    last_call: AtomicU64,
    coming: AtomicU64,
}

/// What is left of a server: the order, the log and the blocks, and whether it stopped before.
#[derive(Drop)]
pub(crate) struct Closed<S: Storage, T: Storage, A: Allocator> {
    pub(crate) ordered: Ordered<A>,
    pub(crate) log: Option<RecordLog<S>>,
    pub(crate) blocks: BlockFile<T, A>,
    pub(crate) stopped: bool,
}

/// This answer doesn't wait: the call wasn't carried out.
fn is_carried_out(status: Status) -> bool
    ensures { result ≡ is_carried_out status }
{
    !matches!(status, Status::Busy | Status::Memory)
}

/// The log, where nobody lost it: it has a beginning of what the order leaves in it.
fn handed_back<S: Storage + Drop, A: Allocator + Copy, B: ServerKey>(
    keeper: Option<Keeper<S, B>>,
    order: &Order<A, B>,
) -> Option<RecordLog<S>>
    ensures { IfSome result (λ log. S.tells ≡ true → KeepsOrder B.start B.told log order.now) }
{
    let keeper = keeper?;
    keeper.into_log(order.events())
}

impl<S: Storage + Drop, T: Storage + Drop, A: Allocator + Copy, B: ServerKey, L: Ledger> KeptServer<
    S,
    T,
    A,
    B,
    L,
> {
    /// Over an order and its log, which is given so many bytes of room at once, and the blocks.
    pub(crate) fn new(
        alloc: A,
        ordered: Ordered<A>,
        log: RecordLog<S>,
        blocks: BlockFile<T, A>,
        ahead: usize,
        counter: Counter<L>,
        opened: Opened,
    ) -> KeptServer<S, T, A, B, L>
        requires pinned { ordered.pinned ≡ B.pinned }
        requires told { log_of B.pinned ordered.history ≡ B.told }
        requires start { log.file ≡ B.start }
        requires book { opened.seen.book ≡ B.book }
    {
        let events = opened.named::<B>();
        let keeper = Keeper::new(log, events.so_far().again(), ahead);
        KeptServer {
            alloc,
            order: Mutex::new(Order::new(alloc, ordered, events)),
            state: Mutex::new(State::new(keeper, counter)),
            changed: Condvar::new(),
            blocks: Mutex::new(Blocks::new(blocks)),
            last_call: AtomicU64::new(0),
            coming: AtomicU64::new(0),
        }
    }

    /// When all workers have ended. The log has a beginning of what the order leaves in it.
    pub(crate) fn close(self) -> Closed<S, T, A>
        ensures pinned { result.ordered.pinned ≡ B.pinned }
        ensures log { IfSome result.log (λ log. S.tells ≡ true → KeepsOrder B.start B.told log result.ordered) }
    {
        let KeptServer {
            alloc: _,
            order,
            state,
            changed: _,
            blocks,
            last_call: _,
            coming: _,
        } = self;
        let order = order.into_inner();
        let state = state.into_inner();
        let stopped = state.has_stopped();
        let log = handed_back(state.into_keeper(), &order);
        Closed {
            ordered: order.into_ordered(),
            log,
            blocks: blocks.into_inner().into_file(),
            stopped,
        }
    }

    /// The reply to the body of a request's frame, which tells of calls alone that are synced by this receipt. None where
    /// the server has stopped.
    #[tactic(auto, using(crate::proofs::Answered::no_more))]
    fn reply<G: Gate, R: Wait>(
        &self,
        rt: &R,
        gate: &G,
        tally: &mut Tally<L>,
        seen: &mut Option<SeenKey>,
        receipt: &mut Receipt<S, B>,
        body: &[u8],
    ) -> Option<ReplyBody<'_, A>>
        requires { 0 < tally.old.share.parts }
        ensures replies { IfSome result (λ reply.
            RepliesToBody (on_storage B.pinned (B.told ++ receipt.new)) (request_of body.now) reply) }
        ensures more { IsPrefix receipt.old receipt.new }
        ensures counted { IfSome result (λ reply.
            tally.new.answered ≡ tally.old.answered + count_in (request_of body.now) reply.status) }
        ensures stopped { IfNone result (tally.new.answered ≡ tally.old.answered) }
        ensures parts { tally.new.share.parts ≡ tally.old.share.parts }
    {
        let Some((kind, payload)) = request_of(body) else {
            return Some(ReplyBody::bare(self.alloc, Status::Form));
        };
        match kind {
            RequestKind::Update => {
                self.call(rt, gate, tally, seen, receipt, CallKind::Update, payload)
            }
            RequestKind::Commit => {
                self.call(rt, gate, tally, seen, receipt, CallKind::Commit, payload)
            }
            RequestKind::Put => self.put(rt, gate, payload),
            RequestKind::Get => self.get(rt, gate, payload),
            RequestKind::Sync => self.sync(rt, gate, payload),
        }
    }

    /// Carries out a call under the lock of the order, and answers once all calls up to it are in the log, synced, which
    /// the receipt shows then. Before, its signature is verified, and its text copied.
    #[tactic(auto, using(crate::proofs::Answered::no_more))]
    fn call<G: Gate, R: Wait>(
        &self,
        rt: &R,
        gate: &G,
        tally: &mut Tally<L>,
        seen: &mut Option<SeenKey>,
        receipt: &mut Receipt<S, B>,
        kind: CallKind,
        text: &[u8],
    ) -> Option<ReplyBody<'_, A>>
        requires { 0 < tally.old.share.parts }
        ensures replies { IfSome result (λ reply.
            RepliesToKeptCall B.pinned (B.told ++ receipt.new) (call_of kind text.now) reply) }
        ensures more { IsPrefix receipt.old receipt.new }
        ensures counted { IfSome result (λ reply. tally.new.answered ≡ tally.old.answered + count_of reply.status) }
        ensures stopped { IfNone result (tally.new.answered ≡ tally.old.answered) }
        ensures parts { tally.new.share.parts ≡ tally.old.share.parts }
    {
        gate.pass(
            self.last_call
                .fetch_add(1, Ordering::SeqCst)
                .wrapping_add(1),
        );
        self.coming.fetch_add(1, Ordering::SeqCst);
        let Ok(signer) = signer_of(self.alloc, kind, text) else {
            return Some(self.unplaced());
        };
        // A copy is handed down, since the user is asked for afterwards.
        let copy = signer;
        let verified = self.verification(rt, *seen, copy, text);
        let Ok(owned) = Vec::from_slice(self.alloc, text) else {
            return Some(self.unplaced());
        };
        let call = Call::new(kind, owned);
        let user = certifier(signer);
        let known = verified.as_ref();
        let (answer, later, events) = self.order.lock(rt).call(call, known, user);
        self.coming.fetch_sub(1, Ordering::SeqCst);
        see(seen, later);
        self.send(rt, gate, tally, receipt, answer, &events)
    }

    /// What is told of a call that has come and isn't placed, since memory runs out.
    fn unplaced(&self) -> ReplyBody<'_, A>
        ensures { result ≡ record { status = status.Memory; payload = [] } }
    {
        self.coming.fetch_sub(1, Ordering::SeqCst);
        ReplyBody::bare(self.alloc, Status::Memory)
    }

    /// The answer to a call, once these events are in the log, synced. One that wasn't carried out, for want of
    /// memory, waits for nothing.
    #[tactic(auto, using(crate::proofs::Answered::no_more))]
    fn send<G: Gate, R: Wait>(
        &self,
        rt: &R,
        gate: &G,
        tally: &mut Tally<L>,
        receipt: &mut Receipt<S, B>,
        answer: Answer<A>,
        events: &Beginning<B>,
    ) -> Option<ReplyBody<'_, A>>
        requires { 0 < tally.old.share.parts }
        ensures carried_out { IfSome result (λ reply. is_carried_out answer.status ≡ true → reply ≡ answer) }
        ensures synced { IfSome result (λ _. is_carried_out answer.status ≡ true → IsPrefix events.now receipt.new) }
        ensures more { IsPrefix receipt.old receipt.new }
        ensures memory { IfSome result (λ reply. is_carried_out answer.status ≡ false
            → reply ≡ record { status = status.Memory; payload = [] }) }
        ensures counted { IfSome result (λ reply. tally.new.answered ≡ tally.old.answered + count_of reply.status) }
        ensures stopped { IfNone result (tally.new.answered ≡ tally.old.answered) }
        ensures parts { tally.new.share.parts ≡ tally.old.share.parts }
    {
        if !is_carried_out(answer.status()) {
            return Some(ReplyBody::bare(self.alloc, Status::Memory));
        }
        let shown = self.receipt(rt, gate, events)?;
        receipt.see(shown);
        if !self.state.lock(rt).count(tally) {
            return None;
        }
        Some(ReplyBody::of(answer))
    }

    /// Waits until these events are in the log, synced, and writes it where nobody else does. None where the server has
    /// stopped.
    fn receipt<G: Gate, R: Wait>(
        &self,
        rt: &R,
        gate: &G,
        events: &Beginning<B>,
    ) -> Option<Receipt<S, B>>
        ensures { IfSome result (λ synced. IsPrefix events.now synced) }
    {
        for _ in rt.forever() {
            match self.next(rt, events) {
                Next::GoesOut(receipt) => return Some(receipt),
                Next::Stops => return None,
                Next::Writes(keeper) => self.write(rt, gate, keeper),
            }
        }
        unreachable!()
    }

    /// What there is to do for an answer after these events, as soon as nobody writes the log or they are synced.
    fn next<R: Wait>(&self, rt: &R, events: &Beginning<B>) -> Next<S, B>
        ensures { (synced : List PureCall) → result ≡ next.GoesOut synced → IsPrefix events.now synced }
    {
        let mut state = self
            .changed
            .wait_while(rt, self.state.lock(rt), |state| state.is_writing(events));
        state.next(events)
    }

    /// Writes all calls that aren't in the log yet, after the blocks, and wakes all who wait.
    fn write<G: Gate, R: Wait>(&self, rt: &R, gate: &G, keeper: Keeper<S, B>) {
        let mut keeper = keeper;
        if self.append(rt, &mut keeper) {
            self.state.lock(rt).put_back(keeper);
            self.changed.notify_all();
        } else {
            self.stop(rt, gate);
            self.state.lock(rt).lay_down(keeper);
        }
    }

    /// Lets calls that have come be placed, for a while at most, so that they share the syncs.
    fn wait_for_coming(&self) {
        for _ in 0..MOST_YIELDS {
            if self.coming.load(Ordering::SeqCst) == 0 {
                return;
            }
            yield_now();
        }
    }

    /// Appends all calls that aren't in the log yet, after the blocks. False where a storage fails, or memory runs out.
    fn append<R: Wait>(&self, rt: &R, keeper: &mut Keeper<S, B>) -> bool {
        self.wait_for_coming();
        let taken = self.order.lock(rt).take(keeper.events());
        let Some(taken) = taken else {
            return false;
        };
        let ready = Ready::over_synced(taken, &mut *self.blocks.lock(rt));
        match ready {
            Some(ready) => keeper.append(self.alloc, ready),
            None => false,
        }
    }

    /// No request is replied to any more.
    fn stop<G: Gate, R: Wait>(&self, rt: &R, gate: &G) {
        let first = self.state.lock(rt).stop();
        self.changed.notify_all();
        if first {
            gate.stopped();
        }
    }

    /// The signature of a call's text, verified without the lock. None where there is none, or the signer has no key:
    /// what isn't known is found out under the lock.
    fn verification<'t, R: Wait>(
        &self,
        rt: &R,
        seen: Option<SeenKey>,
        signer: Option<Signer>,
        text: &'t [u8],
    ) -> Option<Verification<'t>> {
        let key = self.key_of(rt, seen, signer?)?;
        Some(Verification::new(key, text))
    }

    /// The key by which a signer is judged: the one that was seen last where it is this one, else the lock is taken
    /// for a look at it.
    fn key_of<R: Wait>(&self, rt: &R, seen: Option<SeenKey>, signer: Signer) -> Option<PublicKey> {
        // A copy is handed down, since the lock may be asked next.
        let copy = signer;
        match seen_for(seen, copy) {
            Some(key) => Some(key),
            None => self.order.lock(rt).key_of(signer),
        }
    }

    /// Stores a block. Where the blocks have no room left, that is told as want of memory.
    fn put<G: Gate, R: Wait>(&self, rt: &R, gate: &G, block: &[u8]) -> Option<ReplyBody<'_, A>>
        ensures { IfSome result (λ reply. RepliesToPut block.now reply) }
    {
        let put = self.blocks.lock(rt).put(block);
        match put {
            Ok(digest) => match Vec::from_slice(self.alloc, digest.as_bytes()) {
                Ok(digest) => Some(ReplyBody::ok(digest)),
                Err(_) => Some(ReplyBody::bare(self.alloc, Status::Memory)),
            },
            Err(BlockError::TooLarge) => Some(ReplyBody::bare(self.alloc, Status::TooLarge)),
            Err(BlockError::Full) => {
                gate.block_refused();
                Some(ReplyBody::bare(self.alloc, Status::Memory))
            }
            Err(BlockError::Memory) => Some(ReplyBody::bare(self.alloc, Status::Memory)),
            Err(BlockError::Device) => {
                self.stop(rt, gate);
                None
            }
        }
    }

    /// Finds the block of a digest, and hashes it.
    fn get<G: Gate, R: Wait>(&self, rt: &R, gate: &G, digest: &[u8]) -> Option<ReplyBody<'_, A>>
        ensures { IfSome result (λ reply. RepliesToGetOf true digest.now reply) }
    {
        let Ok(digest) = <[u8; 32]>::try_from(digest) else {
            return Some(ReplyBody::bare(self.alloc, Status::Form));
        };
        let wanted = Digest::from_bytes(digest);
        let found = self.blocks.lock(rt).fetch(&wanted);
        match found {
            Ok(Some(block)) => Some(ReplyBody::ok(block)),
            Ok(None) => Some(ReplyBody::bare(self.alloc, Status::Absent)),
            Err(BlockError::Device) => {
                self.stop(rt, gate);
                None
            }
            Err(_) => Some(ReplyBody::bare(self.alloc, Status::Memory)),
        }
    }

    /// Syncs the blocks.
    fn sync<G: Gate, R: Wait>(&self, rt: &R, gate: &G, payload: &[u8]) -> Option<ReplyBody<'_, A>>
        ensures { IfSome result (λ reply. RepliesToSync true payload.now reply) }
    {
        let reply = self.blocks.lock(rt).reply_to_sync(self.alloc, payload);
        if reply.is_none() {
            self.stop(rt, gate);
        }
        reply
    }
}

/// It keeps all on storage, and stops where that fails.
impl<
    S: Storage + Drop + Send,
    T: Storage + Drop,
    A: Allocator + Copy,
    B: ServerKey + Send + Sync,
    L: Ledger,
    R: Wait,
> Serves<A, L, R> for KeptServer<S, T, A, B, L> {
    ghost use Rattle.std.specs.Prelude.{◌++◌};
    ghost use Rattle.server_workers.specs.Conversation.{on_storage};

    type Receipt = Receipt<S, B>;

    ghost server = { λ receipt. on_storage B.pinned (B.told ++ receipt) };

    fn alloc(&self) -> A {
        self.alloc
    }

    fn first_receipt(&self, rt: &R) -> Receipt<S, B> {
        self.state.lock(rt).receipt()
    }

    fn reply_to<G: Gate>(
        &self,
        rt: &R,
        gate: &G,
        tally: &mut Tally<L>,
        seen: &mut Option<SeenKey>,
        receipt: &mut Receipt<S, B>,
        body: &[u8],
    ) -> Option<ReplyBody<'_, A>> {
        self.reply(rt, gate, tally, seen, receipt, body)
    }

    fn audit(&self, rt: &R, share: &mut Share<L>) {
        self.state.lock(rt).audit(share);
    }
}
