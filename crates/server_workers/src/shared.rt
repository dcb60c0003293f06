//! What the workers share, and what it answers to a request.

ghost use Rattle.std.specs.Prelude.{◌≡◌, ◌+◌, ◌<◌, [], true, false};
ghost use Rattle.crossbeam_queue.specs.Passes.{IsPassOf, ruled_capacity};
ghost use Rattle.wire.specs.Frame.{request_of};
ghost use Rattle.consistency_server.specs.History.{call_of};
ghost use Rattle.server_workers.specs.Counting.{count_of};
ghost use Rattle.server_workers.specs.Hands.{hand, hand_of};
ghost use Rattle.server_workers.specs.Conversation.{RepliesToCall, RepliesToPut, RepliesToGet, RepliesToBody, count_in};
ghost use Rattle.server_workers.specs.Conversation.{in_memory};
ghost use Rattle.server_workers.specs.declared.call_queue.TheConstants.{QUEUE_ROOM};

use crate::call_queue::{CallPass, CallQueue, Roles, ServerName};
use crate::gate::Gate;
use crate::locked::Locked;
use crate::queue_log::QueueLog;
use crate::reply::ReplyBody;
use crate::seen::{SeenKey, certifier, see, seen_for};
use crate::serves::Serves;
use crate::tally::Tally;
use block_store::{Store, StoreError};
use consistency_server::{Call, CallKind, Ordered, Signer, Verification, signer_of};
use layout::Digest;
use lms_sign::PublicKey;
use std::alloc::Allocator;
use std::sync::atomic::{AtomicU64, Ordering};
use std::sync::ledger::{Blank, Ledger, Share};
use std::sync::{Mutex, Wait};
use wire::{RequestKind, Status, request_of};

/// The one order of calls under its lock, the store of blocks, and the number of the last call at the gate.
#[derive(Drop)]
pub struct Shared<'a, A: Allocator, B: ServerName, L: Ledger, R: Wait> {
    pub(crate) alloc: A,
    pub(crate) locked: Mutex<Locked<'a, A, B, L, R>>,
    pub(crate) store: &'a Store<A>,
    pub(crate) last_call: AtomicU64,
}

impl<'a, A: Allocator + Copy, B: ServerName, L: Ledger, R: Wait> Shared<'a, A, B, L, R> {
    /// Before the first call: what workers share, the tally of what they answer, and the pass of who writes the log.
    /// `pass` is that of an empty queue, and `pinned` the key of user 0.
    pub fn new(
        rt: &'a R,
        alloc: A,
        queue: &'a CallQueue<A>,
        pass: CallPass<A>,
        blank: Blank,
        store: &'a Store<A>,
        pinned: PublicKey,
    ) -> (Shared<'a, A, B, L, R>, Tally<L>, CallPass<A>)
        requires queue { IsPassOf queue.now pass × (pass.table_id ≡ B.queue) × (ruled_capacity queue.now ≡ QUEUE_ROOM) }
        requires first { hand_of pass ≡ hand true true [] [] }
        requires key { pinned ≡ B.pinned }
        requires name { blank.name ≡ L.name }
        requires parts { blank.parts ≡ L.parts }
        ensures tally { (result.1.answered ≡ 0) × (result.1.share.parts ≡ L.parts) }
        ensures queue { IsPassOf queue.now result.2 × (result.2.table_id ≡ B.queue) }
        ensures pops { hand_of result.2 ≡ hand false true [] [] }
    {
        let mut pushing = pass;
        let popping = queue.another::<Roles>(&mut pushing);
        let (book, share) = blank.open::<L>();
        let log = QueueLog::<'a, A, B, R>::new(rt, queue, pushing);
        let shared = Shared {
            alloc,
            locked: Mutex::new(Locked::new(Ordered::genesis(alloc, pinned), log, book)),
            store,
            last_call: AtomicU64::new(0),
        };
        (shared, Tally::new(share), popping)
    }

    /// The reply to the body of a request's frame.
    fn reply<G: Gate>(
        &self,
        rt: &R,
        gate: &G,
        tally: &mut Tally<L>,
        seen: &mut Option<SeenKey>,
        body: &[u8],
    ) -> ReplyBody<'_, A>
        requires { 0 < tally.old.share.parts }
        ensures replies { RepliesToBody (in_memory B.pinned) (request_of body.now) result }
        ensures counted { tally.new.answered ≡ tally.old.answered + count_in (request_of body.now) result.status }
        ensures parts { tally.new.share.parts ≡ tally.old.share.parts }
    {
        let Some((kind, payload)) = request_of(body) else {
            return ReplyBody::bare(self.alloc, Status::Form);
        };
        match kind {
            RequestKind::Update => self.call(rt, gate, tally, seen, CallKind::Update, payload),
            RequestKind::Commit => self.call(rt, gate, tally, seen, CallKind::Commit, payload),
            RequestKind::Put => self.put(rt, gate, payload),
            RequestKind::Get => self.get(rt, payload),
            RequestKind::Sync => ReplyBody::bare(self.alloc, Status::Form),
        }
    }

    /// Carries out a call under the lock, which is let go before anything is done with the answer. Before, its
    /// signature is verified, and its text copied for the log.
    fn call<G: Gate>(
        &self,
        rt: &R,
        gate: &G,
        tally: &mut Tally<L>,
        seen: &mut Option<SeenKey>,
        kind: CallKind,
        text: &[u8],
    ) -> ReplyBody<A>
        requires { 0 < tally.old.share.parts }
        ensures replies { RepliesToCall B.pinned (call_of kind text.now) result }
        ensures counted { tally.new.answered ≡ tally.old.answered + count_of result.status }
        ensures parts { tally.new.share.parts ≡ tally.old.share.parts }
    {
        gate.pass(
            self.last_call
                .fetch_add(1, Ordering::SeqCst)
                .wrapping_add(1),
        );
        let Ok(signer) = signer_of(self.alloc, kind, text) else {
            return ReplyBody::bare(self.alloc, Status::Memory);
        };
        // A copy is handed down, since the user is asked for afterwards.
        let copy = signer;
        let verified = self.verification(rt, *seen, copy, text);
        let Ok(owned) = Vec::from_slice(self.alloc, text) else {
            return ReplyBody::bare(self.alloc, Status::Memory);
        };
        let call = Call::new(kind, owned);
        let user = certifier(signer);
        let known = verified.as_ref();
        let (answer, later) = self.locked.lock(rt).call(tally, call, known, user);
        see(seen, later);
        ReplyBody::of(answer)
    }

    /// The signature of a call's text, verified without the lock. None where there is none, or the signer has no key:
    /// what isn't known is found out under the lock.
    fn verification<'t>(
        &self,
        rt: &R,
        seen: Option<SeenKey>,
        signer: Option<Signer>,
        text: &'t [u8],
    ) -> Option<Verification<'t>> {
        let key = self.key_of(rt, seen, signer?)?;
        Some(Verification::new(key, text))
    }

    /// The key by which a signer is judged: the one that was seen last where it is this one, else the lock is taken
    /// for a look at it.
    fn key_of(&self, rt: &R, seen: Option<SeenKey>, signer: Signer) -> Option<PublicKey> {
        // A copy is handed down, since the lock may be asked next.
        let copy = signer;
        match seen_for(seen, copy) {
            Some(key) => Some(key),
            None => self.locked.lock(rt).key_of(signer),
        }
    }

    /// Stores a block. Where the blocks have no room left, that is told as want of memory.
    fn put<G: Gate>(&self, rt: &R, gate: &G, block: &[u8]) -> ReplyBody<A>
        ensures { RepliesToPut block.now result }
    {
        match self.store.put(rt, block) {
            Ok(pass) => match Vec::from_slice(self.alloc, pass.digest().as_bytes()) {
                Ok(digest) => ReplyBody::ok(digest),
                Err(_) => ReplyBody::bare(self.alloc, Status::Memory),
            },
            Err(StoreError::TooLarge) => ReplyBody::bare(self.alloc, Status::TooLarge),
            Err(StoreError::Full) => {
                gate.block_refused();
                ReplyBody::bare(self.alloc, Status::Memory)
            }
            Err(StoreError::Memory) => ReplyBody::bare(self.alloc, Status::Memory),
        }
    }

    /// Finds the block of a digest. It is read without a lock, and isn't copied.
    fn get(&self, rt: &R, digest: &[u8]) -> ReplyBody<'_, A>
        ensures { RepliesToGet digest.now result }
    {
        let Ok(digest) = <[u8; 32]>::try_from(digest) else {
            return ReplyBody::bare(self.alloc, Status::Form);
        };
        let Some(pass) = self.store.find(rt, Digest::from_bytes(digest)) else {
            return ReplyBody::bare(self.alloc, Status::Absent);
        };
        ReplyBody::stored(self.store.get_by_pass(&pass))
    }
}

/// All in memory: it keeps nothing, and never stops.
impl<'a, A: Allocator + Copy, B: ServerName, L: Ledger, R: Wait> Serves<A, L, R>
    for Shared<'a, A, B, L, R> {
    ghost use Rattle.server_workers.specs.Conversation.{in_memory};

    type Receipt = ();

    ghost server = { λ _. in_memory B.pinned };

    fn alloc(&self) -> A {
        self.alloc
    }

    fn first_receipt(&self, _rt: &R) {}

    fn reply_to<G: Gate>(
        &self,
        rt: &R,
        gate: &G,
        tally: &mut Tally<L>,
        seen: &mut Option<SeenKey>,
        _receipt: &mut (),
        body: &[u8],
    ) -> Option<ReplyBody<'_, A>> {
        Some(self.reply(rt, gate, tally, seen, body))
    }

    fn audit(&self, rt: &R, share: &mut Share<L>) {
        self.locked.lock(rt).audit(share);
    }
}
