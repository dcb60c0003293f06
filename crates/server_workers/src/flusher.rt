//! The end of the commit log that pops, and the writer of its records.

ghost use Rattle.std.specs.Prelude.{◌≡◌, [], true, false};
ghost use Rattle.crossbeam_queue.specs.Passes.{IsPassOf};
ghost use Rattle.server_workers.specs.Hands.{hand, hand_of};
ghost use Rattle.server_workers.specs.Flushing.{IsFlushed, Wrote};

use crate::call_queue::{CallPass, CallQueue, Roles, ServerName, Takes};
use crate::writing::write_record;
use std::alloc::Allocator;
use std::io::Write;
use std::marker::{Model, PhantomData};
use std::sync::Wait;
use std::sync::atomic::{AtomicBool, Ordering};
use std::thread;
use std::time::{Clock, Duration};

/// How long the flusher rests after a flush, in milliseconds, and how long at most where nothing came.
const REST: u64 = 1;

const LONGEST_REST: u64 = 20;

/// Takes calls from the log and writes their records. Contracts see what its pass knows, and whether a write failed.
/// What was written is always the records of what was taken, or after a failed write a beginning of them.
#[derive(Drop)]
pub struct Flusher<'a, A: Allocator, B: ServerName, R: Wait, W: Write + Drop> {
    rt: &'a R,
    queue: &'a CallQueue<A>,
    pass: CallPass<A>,
    writer: W,
    failed: bool,
    server: PhantomData<B>,
}

impl<'a, A: Allocator, B: ServerName, R: Wait, W: Write + Drop> Model for Flusher<'a, A, B, R, W> {
    ghost use Rattle.std.specs.Prelude.{◌≡◌, true};
    ghost use Rattle.crossbeam_queue.specs.Passes.{IsPassOf};
    ghost use Rattle.server_workers.specs.Hands.{hand_of};
    ghost use Rattle.server_workers.specs.Flushing.{Flushing, Wrote};

    ghost Value = { Flushing };

    ghost view = { λ f. record { hand = hand_of f.pass; failed = f.failed } };

    ghost invariant = { λ f. IsPassOf f.queue.now f.pass × (f.pass.table_id ≡ B.queue) × ((hand_of f.pass).pops ≡ true)
        × Wrote f.failed B.before (W.contents f.writer) (hand_of f.pass).got };
}

/// What is left of a flusher.
pub(crate) struct Flushed<W> {
    pub(crate) writer: W,
    pub(crate) flushed: bool,
}

impl<'a, A: Allocator, B: ServerName, R: Wait, W: Write + Drop> Flusher<'a, A, B, R, W> {
    /// Nothing was taken yet. `pass` is the one that pops.
    pub fn new(
        rt: &'a R,
        queue: &'a CallQueue<A>,
        pass: CallPass<A>,
        writer: W,
    ) -> Flusher<'a, A, B, R, W>
        requires queue { IsPassOf queue.now pass × (pass.table_id ≡ B.queue) }
        requires empty { hand_of pass ≡ hand false true [] [] }
        requires before { W.contents writer ≡ B.before }
        ensures { (result.hand ≡ hand false true [] []) × (result.failed ≡ false) }
    {
        Flusher {
            rt,
            queue,
            pass,
            writer,
            failed: false,
            server: PhantomData,
        }
    }

    /// Takes a call and writes its record. False where the log was empty or a write failed.
    fn step(&mut self) -> bool
        ensures same { (self.new.hand.pushes ≡ self.old.hand.pushes) × (self.new.hand.sent ≡ self.old.hand.sent) }
        ensures all { result ≡ false → self.new.failed ≡ false → self.new.hand.pushes ≡ true
            → self.new.hand.sent ≡ self.new.hand.got }
    {
        let Flusher {
            rt,
            queue,
            pass,
            writer,
            failed,
            server: _,
        } = self;
        if *failed {
            return false;
        }
        let Some(call) = queue.pop_as::<Takes, R>(*rt, pass) else {
            return false;
        };
        match write_record(writer, &call) {
            Ok(()) => true,
            Err(_) => {
                *failed = true;
                false
            }
        }
    }

    /// Takes what the log has, until it is empty or a write fails.
    pub fn flush(&mut self)
        ensures same { (self.new.hand.pushes ≡ self.old.hand.pushes) × (self.new.hand.sent ≡ self.old.hand.sent) }
        ensures all { self.new.failed ≡ false → self.new.hand.pushes ≡ true → self.new.hand.sent ≡ self.new.hand.got }
    {
        let rt = self.rt;
        for _ in rt.forever() {
            if !self.step() {
                return;
            }
        }
        unreachable!()
    }

    /// The writer, to which the records of what was taken were written, or after a failed write a beginning of them.
    pub fn into_writer(self) -> W
        ensures { Wrote self.entry.failed B.before (W.contents result) self.entry.hand.got }
    {
        let Flusher { writer, .. } = self;
        writer
    }

    /// Flushes again and again, and once more when the workers have ended. It rests between one flush and the next,
    /// each time twice as long while nothing comes.
    pub(crate) fn run(self, ended: &AtomicBool) -> Flusher<'a, A, B, R, W>
    where
        R: Clock,
    {
        let mut flusher = self;
        let rt = flusher.rt;
        let mut rest = REST;
        for _ in rt.forever() {
            let last = ended.load(Ordering::SeqCst);
            let came = flusher.step();
            flusher.flush();
            if last || flusher.failed {
                return flusher;
            }
            rest = if came {
                REST
            } else {
                rest.saturating_mul(2).min(LONGEST_REST)
            };
            thread::sleep(rt, Duration::from_millis(rest));
        }
        unreachable!()
    }

    /// The last flush, by who holds both ends.
    pub(crate) fn finish(self, pushing: CallPass<A>) -> Flushed<W>
        requires queue { (pushing.table_id ≡ B.queue) × (pushing.me.1 ≡ []) }
        requires pushes { (hand_of pushing).pushes ≡ true }
        ensures { IsFlushed result.flushed B.before (W.contents result.writer) (hand_of pushing).sent }
    {
        let Flusher {
            rt,
            queue,
            mut pass,
            writer,
            failed,
            server,
        } = self;
        queue.absorb::<Roles>(&mut pass, pushing);
        let mut whole: Flusher<'a, A, B, R, W> = Flusher {
            rt,
            queue,
            pass,
            writer,
            failed,
            server,
        };
        whole.flush();
        let Flusher {
            queue,
            mut pass,
            writer,
            failed,
            ..
        } = whole;
        queue.learn_as::<Takes>(&mut pass);
        Flushed {
            writer,
            flushed: !failed,
        }
    }
}
