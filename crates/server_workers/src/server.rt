//! The server: a worker for each connection, so many at once, and a flusher beside them.

ghost use Rattle.std.specs.Prelude.{◌≡◌, ◌+◌, [], true, false, length, IfOk, IfErr};
ghost use Rattle.std.specs.Iterator.{IsFinite};
ghost use Rattle.crossbeam_queue.specs.Passes.{IsPassOf, ruled_capacity};
ghost use Rattle.consistency_server.specs.History.{log_of};
ghost use Rattle.server_workers.specs.Hands.{hand, hand_of};
ghost use Rattle.server_workers.specs.Flushing.{IsFlushed};
ghost use Rattle.server_workers.specs.declared.call_queue.TheConstants.{QUEUE_ROOM};

use crate::call_queue::{CallPass, CallQueue, ServerName};
use crate::flusher::{Flushed, Flusher};
use crate::gate::Gate;
use crate::new_queue::empty_queue;
use crate::places::empty_places;
use crate::serves::Serves;
use crate::shared::Shared;
use crate::tally::Tally;
use crate::workers::{Shift, Site, Workers};
use block_store::Store;
use connection::Connection;
use consistency_server::Ordered;
use layout::Memory;
use lms_sign::PublicKey;
use std::alloc::{Allocator, Global};
use std::io::Write;
use std::marker::Brand;
use std::sync::Wait;
use std::sync::atomic::{AtomicBool, Ordering};
use std::sync::ledger::{Blank, Ledger};
use std::thread;
use std::thread::Threads;
use std::time::Clock;

/// What is left of a server.
#[derive(Drop)]
pub struct Served<W, A: Allocator = Global> {
    /// The one order of calls.
    pub ordered: Ordered<A>,
    /// How many UPDATE and COMMIT calls the workers carried out: those answered otherwise than busy or out of memory.
    pub answered: u64,
    /// The connections for which no thread could be started, and which were dropped unread.
    pub unserved: usize,
    /// The records of all calls of the log were written.
    pub flushed: bool,
    /// The writer of the log.
    pub writer: W,
}

/// Memory ran out before a connection was taken: what a server was to begin with.
#[derive(Drop)]
pub struct Unbegun<I: Drop, W: Drop> {
    /// Of which none was taken.
    pub connections: I,
    /// To which nothing was written.
    pub writer: W,
}

/// Serves the connections, and beside them the flusher writes the log.
fn serve_beside<
    'a,
    A: Allocator + Copy + Send + Sync,
    G: Gate + Sync,
    C: Connection + Send,
    I: Iterator<Item = C> + Drop,
    W: Write + Drop + Send,
    B: ServerName + Send + Sync,
    S: Serves<A, L, R> + Drop + Sync,
    L: Ledger + Send + Sync,
    R: Threads + Wait + Clock + Sync,
>(
    rt: &R,
    flusher: Flusher<'a, A, B, R, W>,
    shift: Shift<'_, '_, A, G, S, L, R, C, I>,
) -> (Flusher<'a, A, B, R, W>, (Tally<L>, usize))
    ensures { result.1.0.share.parts ≡ L.parts }
{
    let ended = AtomicBool::new(false);
    let flag = &ended;
    thread::join(
        rt,
        move || flusher.run(flag),
        move || {
            let all = shift.serve();
            flag.store(true, Ordering::SeqCst);
            all
        },
    )
}

/// The server over one queue and one ledger, which `B` and `L` name.
fn serve_in<
    A: Allocator + Copy + Send + Sync,
    G: Gate + Sync,
    C: Connection + Send,
    I: Iterator<Item = C> + Drop,
    W: Write + Drop + Send,
    B: ServerName + Send + Sync,
    L: Ledger + Send + Sync,
    R: Threads + Wait + Clock + Sync,
>(
    rt: &R,
    alloc: A,
    gate: &G,
    queue: &CallQueue<A>,
    pass: CallPass<A>,
    blank: Blank,
    connections: I,
    limits: Limits,
    store: &Store<A>,
    pinned: PublicKey,
    writer: W,
) -> Result<Served<W, A>, Unbegun<I, W>>
    requires can { I.can_next connections × IsFinite (I.remaining connections) }
    requires queue { IsPassOf queue.now pass × (pass.table_id ≡ B.queue) × (ruled_capacity queue.now ≡ QUEUE_ROOM) }
    requires first { hand_of pass ≡ hand true true [] [] }
    requires server { (W.contents writer ≡ B.before) × (pinned ≡ B.pinned) }
    requires name { blank.name ≡ L.name }
    requires parts { (blank.parts ≡ L.parts) × (blank.parts ≡ limits.at_once + 1) }
    ensures pinned { IfOk result (λ s. s.ordered.pinned ≡ B.pinned) }
    ensures counted { IfOk result (λ s. length s.ordered.history ≡ s.answered) }
    ensures flushed { IfOk result (λ s. IsFlushed s.flushed B.before (W.contents s.writer)
        (log_of B.pinned s.ordered.history)) }
    ensures back { IfErr result (λ u. (u.connections ≡ connections) × (u.writer ≡ writer)) }
{
    let Limits { most, at_once } = limits;
    let at_once = at_once as usize;
    let Ok((places, running)) = empty_places::<A, L>(alloc, at_once) else {
        return Err(Unbegun {
            connections,
            writer,
        });
    };
    let (shared, stock, popping) = Shared::<'_, A, B, L, R>::new(
        rt, alloc, queue, pass, blank, store, pinned,
    );
    let flusher = Flusher::<'_, A, B, R, W>::new(rt, queue, popping, writer);
    let site = Site {
        rt,
        gate,
        server: shared,
        places,
    };
    let shift = Shift {
        workers: Workers::new(stock, running, at_once),
        site: &site,
        connections,
        most,
    };
    let (flusher, (mut all, unserved)) = serve_beside(rt, flusher, shift);
    let Site { server, .. } = site;
    let Shared { locked, .. } = server;
    let (ordered, pushing) = locked.into_inner().close(&mut all);
    let Flushed { writer, flushed } = flusher.finish(pushing);
    Ok(Served {
        ordered,
        answered: all.answered(),
        unserved,
        flushed,
        writer,
    })
}

/// How many connections a server serves.
#[derive(Clone, Copy, Debug)]
pub struct Limits {
    /// In all.
    pub most: u32,
    /// At the same time.
    pub at_once: u32,
}

/// How many connections are served at the same time, unless it is said otherwise.
const AT_ONCE: u32 = 256;

/// Serves at most `limits.most` connections, a worker each, which starts at once. At most `limits.at_once` are served
/// at the same time: a further one is taken only once a worker has ended. Beside them a flusher writes the log.
/// `pinned` is the key of user 0. Where memory runs out before the first connection was taken, what was handed in comes
/// back.
pub fn serve_within<
    A: Allocator + Copy + Send + Sync,
    G: Gate + Sync,
    C: Connection + Send,
    I: Iterator<Item = C> + Drop,
    W: Write + Drop + Send,
    R: Threads + Wait + Clock + Sync,
>(
    rt: &R,
    alloc: A,
    gate: &G,
    connections: I,
    limits: Limits,
    store: &Store<A>,
    pinned: PublicKey,
    writer: W,
) -> Result<Served<W, A>, Unbegun<I, W>>
    requires { I.can_next connections × IsFinite (I.remaining connections) }
    ensures pinned { IfOk result (λ s. s.ordered.pinned ≡ pinned) }
    // The workers carried out what they answered.
    ensures counted { IfOk result (λ s. length s.ordered.history ≡ s.answered) }
    // What was taken from the log begins the calls that went to it, and what was written is the records of it.
    ensures flushed { IfOk result (λ s. IsFlushed s.flushed (W.contents writer) (W.contents s.writer)
        (log_of pinned s.ordered.history)) }
    // Nothing was taken or written.
    ensures back { IfErr result (λ u. (u.connections ≡ connections) × (u.writer ≡ writer)) }
{
    let Ok((queue, pass)) = empty_queue(alloc) else {
        return Err(Unbegun {
            connections,
            writer,
        });
    };
    let limits = Limits {
        most: limits.most,
        at_once: limits.at_once.min(limits.most),
    };
    let blank = Blank::new(limits.at_once as u64 + 1);
    serve_in::<A, G, C, I, W, Brand, Brand, R>(
        rt,
        alloc,
        gate,
        &queue,
        pass,
        blank,
        connections,
        limits,
        store,
        pinned,
        writer,
    )
}

/// Serves at most `most` connections, as `serve_within` does, of which at most 256 at the same time.
pub fn serve<
    A: Allocator + Copy + Send + Sync,
    G: Gate + Sync,
    C: Connection + Send,
    I: Iterator<Item = C> + Drop,
    W: Write + Drop + Send,
    R: Threads + Wait + Clock + Sync,
>(
    rt: &R,
    alloc: A,
    gate: &G,
    connections: I,
    most: u32,
    store: &Store<A>,
    pinned: PublicKey,
    writer: W,
) -> Result<Served<W, A>, Unbegun<I, W>>
    requires { I.can_next connections × IsFinite (I.remaining connections) }
    ensures pinned { IfOk result (λ s. s.ordered.pinned ≡ pinned) }
    ensures counted { IfOk result (λ s. length s.ordered.history ≡ s.answered) }
    ensures flushed { IfOk result (λ s. IsFlushed s.flushed (W.contents writer) (W.contents s.writer)
        (log_of pinned s.ordered.history)) }
    ensures back { IfErr result (λ u. (u.connections ≡ connections) × (u.writer ≡ writer)) }
{
    let limits = Limits {
        most,
        at_once: AT_ONCE,
    };
    serve_within(rt, alloc, gate, connections, limits, store, pinned, writer)
}
