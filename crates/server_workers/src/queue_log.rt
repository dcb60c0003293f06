//! The end of the commit log that pushes.

ghost use Rattle.std.specs.Prelude.{◌≡◌, [], ◌∷◌, ◌++◌, true, false, length};
ghost use Rattle.crossbeam_queue.specs.Passes.{IsPassOf, ruled_capacity};
ghost use Rattle.server_workers.specs.Hands.{hand, hand_of};
ghost use Rattle.server_workers.specs.declared.call_queue.TheConstants.{QUEUE_ROOM};

use crate::call_queue::{CallPass, CallQueue, Pushes, ServerName};
use consistency_server::{Call, Log, LogFull};
use std::alloc::Allocator;
use std::marker::{Model, PhantomData};
use std::sync::Wait;

/// The end of the queue that pushes. Contracts see what was pushed, the oldest first.
#[derive(Drop)]
pub(crate) struct QueueLog<'a, A: Allocator, B: ServerName, R: Wait> {
    rt: &'a R,
    queue: &'a CallQueue<A>,
    pass: CallPass<A>,
    server: PhantomData<B>,
}

impl<'a, A: Allocator, B: ServerName, R: Wait> Model for QueueLog<'a, A, B, R> {
    ghost use Rattle.std.specs.Prelude.{◌≡◌, List, [], true, false};
    ghost use Rattle.crossbeam_queue.specs.Passes.{IsPassOf, ruled_capacity};
    ghost use Rattle.consistency_server.specs.Answers.{Call};
    ghost use Rattle.server_workers.specs.Hands.{hand, hand_of};
    ghost use Rattle.server_workers.specs.declared.call_queue.TheConstants.{QUEUE_ROOM};

    ghost Value = { List Call };

    ghost view = { λ l. (hand_of l.pass).sent };

    ghost invariant = { λ l. IsPassOf l.queue.now l.pass × (l.pass.table_id ≡ B.queue)
        × (ruled_capacity l.queue.now ≡ QUEUE_ROOM) × (hand_of l.pass ≡ hand true false (hand_of l.pass).sent []) };
}

impl<'a, A: Allocator, B: ServerName, R: Wait> QueueLog<'a, A, B, R> {
    /// The end of a queue into which nothing was pushed.
    pub(crate) fn new(
        rt: &'a R,
        queue: &'a CallQueue<A>,
        pass: CallPass<A>,
    ) -> QueueLog<'a, A, B, R>
        requires queue { IsPassOf queue.now pass × (pass.table_id ≡ B.queue) × (ruled_capacity queue.now ≡ QUEUE_ROOM) }
        requires empty { hand_of pass ≡ hand true false [] [] }
        ensures { result ≡ [] }
    {
        QueueLog {
            rt,
            queue,
            pass,
            server: PhantomData,
        }
    }

    pub(crate) fn into_pass(self) -> CallPass<A>
        ensures queue { (result.table_id ≡ B.queue) × (result.me.1 ≡ []) }
        ensures pushed { hand_of result ≡ hand true false self.entry [] }
    {
        let QueueLog { pass, .. } = self;
        pass
    }
}

impl<'a, A: Allocator, B: ServerName, R: Wait> Log<Call<A>> for QueueLog<'a, A, B, R> {
    ghost use Rattle.std.specs.Prelude.{leb, length};
    ghost use Rattle.server_workers.specs.declared.call_queue.TheConstants.{QUEUE_ROOM};

    ghost pushed = { λ l. l };

    // Once it was full, at least 1,024 calls were pushed.
    ghost may_be_full = { λ l. leb QUEUE_ROOM (length l) };

    fn try_push(&mut self, event: Call<A>) -> Result<(), LogFull> {
        match self
            .queue
            .push_as::<Pushes, R>(self.rt, &mut self.pass, event)
        {
            Ok(()) => Ok(()),
            Err(_) => Err(LogFull),
        }
    }
}
