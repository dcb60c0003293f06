//! The workers of a server, each at a place of its own, and one for each connection.

ghost use Rattle.std.specs.Prelude.{◌≡◌, ◌+◌, ◌<◌, ◌≤◌, true, false, vec_len, vec_capacity};
ghost use Rattle.std.specs.Iterator.{IsFinite};

use crate::gate::Gate;
use crate::places::{Place, Running, first_ended, first_free};
use crate::serves::Serves;
use crate::tally::{Tally, WorkerTally};
use crate::worker::work;
use connection::Connection;
use std::alloc::Allocator;
use std::marker::Model;
use std::sync::Wait;
use std::sync::ledger::Ledger;
use std::thread;
use std::thread::{JoinHandle, Scope, Threads};
use std::time::{Clock, Duration};

/// How long is rested between one look for a worker that has ended and the next, at first and at most, in milliseconds.
const REST: u64 = 1;

const LONGEST_REST: u64 = 20;

/// What each worker is given: the server, the gate, and the places.
#[derive(Drop)]
pub(crate) struct Site<'a, A: Allocator, G, S: Drop, R: Wait> {
    pub(crate) rt: &'a R,
    pub(crate) gate: &'a G,
    pub(crate) server: S,
    pub(crate) places: Vec<Place, A>,
}

/// A worker's whole work at a place, unless no thread could be started for it: then its connection is dropped unread.
fn work_at<A: Allocator + Copy, G: Gate, C: Connection, L: Ledger, R: Wait, S: Serves<A, L, R>>(
    rt: &R,
    gate: &G,
    server: &S,
    place: &Place,
    connection: C,
    part: WorkerTally<L>,
) -> WorkerTally<L> {
    if place.is_unread() {
        return part;
    }
    let part = work(rt, connection, server, gate, part);
    place.end();
    part
}

/// Puts a tally to the others.
fn collect<A: Allocator + Copy, S: Serves<A, L, R>, L: Ledger, R: Wait>(
    rt: &R,
    server: &S,
    all: &mut Tally<L>,
    one: Tally<L>,
)
    ensures { all.new.share.parts ≡ all.old.share.parts + one.share.parts }
{
    let Tally { answered, share } = one;
    all.share.merge(share);
    server.audit(rt, &mut all.share);
    all.answered += answered;
}

/// Joins a worker, and puts its tally to the others.
fn join_one<
    A: Allocator + Copy + Send + Sync,
    G: Gate,
    S: Serves<A, L, R> + Drop,
    L: Ledger,
    R: Threads + Wait,
>(site: &Site<'_, A, G, S, R>, all: &mut Tally<L>, worker: JoinHandle<WorkerTally<L>>)
    ensures { all.new.share.parts ≡ all.old.share.parts + 1 }
{
    let one = worker.join(site.rt).tally();
    collect(site.rt, &site.server, all, one);
}

/// Joins a worker that has ended, if there is one: its tally is put to the others, and its place is free.
fn join_ended<
    A: Allocator + Copy + Send + Sync,
    G: Gate,
    S: Serves<A, L, R> + Drop + Sync,
    L: Ledger + Send + Sync,
    R: Threads + Wait + Clock + Sync,
>(site: &Site<'_, A, G, S, R>, all: &mut Tally<L>, running: &mut Vec<Running<L>, A>) -> bool
    ensures parts { result ≡ true → all.new.share.parts ≡ all.old.share.parts + 1 }
    ensures fewer { result ≡ true → vec_len running.new + 1 ≡ vec_len running.old }
    ensures none { result ≡ false → all.new.share.parts ≡ all.old.share.parts }
    ensures as_many { result ≡ false → vec_len running.new ≡ vec_len running.old }
    ensures room { vec_capacity running.new ≡ vec_capacity running.old }
{
    let Some(k) = first_ended(&site.places, running.as_slice()) else {
        return false;
    };
    let Running { worker, place } = running.swap_remove(k);
    join_one(site, all, worker);
    if let Some(place) = site.places.get(place) {
        place.free();
    }
    true
}

/// Waits until some worker has ended, and joins it. It rests between one look and the next, each time twice as long.
fn free_place<
    A: Allocator + Copy + Send + Sync,
    G: Gate,
    S: Serves<A, L, R> + Drop + Sync,
    L: Ledger + Send + Sync,
    R: Threads + Wait + Clock + Sync,
>(site: &Site<'_, A, G, S, R>, all: &mut Tally<L>, running: &mut Vec<Running<L>, A>)
    ensures parts { all.new.share.parts ≡ all.old.share.parts + 1 }
    ensures fewer { vec_len running.new + 1 ≡ vec_len running.old }
    ensures room { vec_capacity running.new ≡ vec_capacity running.old }
{
    let rt = site.rt;
    let mut rest = REST;
    for _ in rt.forever() {
        if join_ended(site, all, running) {
            return;
        }
        thread::sleep(rt, Duration::from_millis(rest));
        rest = rest.saturating_mul(2).min(LONGEST_REST);
    }
    unreachable!()
}

/// The tally of a worker for which no thread could be started is put to the others, and its place is free.
fn give_up<
    A: Allocator + Copy + Send + Sync,
    G: Gate,
    S: Serves<A, L, R> + Drop,
    L: Ledger,
    R: Wait,
>(site: &Site<'_, A, G, S, R>, place: &Place, all: &mut Tally<L>, part: WorkerTally<L>)
    ensures { all.new.share.parts ≡ all.old.share.parts + 1 }
{
    place.free();
    collect(site.rt, &site.server, all, part.tally());
}

/// Those who work, at most so many at once, and the tallies of those who have ended: together they have all parts.
/// Contracts see how many may work at once, and how many do.
#[derive(Drop)]
pub(crate) struct Workers<A: Allocator, L: Ledger> {
    at_once: usize,
    all: Tally<L>,
    running: Vec<Running<L>, A>,
}

impl<A: Allocator, L: Ledger> Model for Workers<A, L> {
    ghost use Rattle.std.specs.Prelude.{◌≡◌, ◌+◌, ◌≤◌, ℕ, vec_len, vec_capacity};

    ghost Value = { ℕ × ℕ };

    ghost view = { λ w. (w.at_once, vec_len w.running) };

    ghost invariant = { λ w. (w.all.share.parts + vec_len w.running ≡ L.parts) × (w.at_once + 1 ≡ L.parts)
        × (vec_len w.running ≤ w.at_once) × (w.at_once ≤ vec_capacity w.running) };
}

impl<A: Allocator + Copy + Send + Sync, L: Ledger + Send + Sync> Workers<A, L> {
    /// Nobody works yet. There is room for so many.
    pub(crate) fn new(stock: Tally<L>, running: Vec<Running<L>, A>, at_once: usize) -> Workers<A, L>
        requires parts { (at_once + 1 ≡ L.parts) × (stock.share.parts ≡ L.parts) }
        requires room { (vec_len running ≡ 0) × (at_once ≤ vec_capacity running) }
    {
        Workers {
            at_once,
            all: stock,
            running,
        }
    }

    /// Waits, where all places are taken, until a worker has ended.
    fn make_room<G: Gate, S: Serves<A, L, R> + Drop + Sync, R: Threads + Wait + Clock + Sync>(
        &mut self,
        site: &Site<'_, A, G, S, R>,
    )
        requires { 0 < self.old.0 }
        ensures room { self.new.1 < self.new.0 }
        ensures same { self.new.0 ≡ self.old.0 }
    {
        if self.running.len() >= self.at_once {
            free_place(site, &mut self.all, &mut self.running);
        }
    }

    /// Starts a worker for a connection at a place. Where no thread can be started, it joins a worker that has ended,
    /// and tries once more; it waits for none. False where none could be started: then the connection is dropped
    /// unread.
    fn start_one<
        's,
        'a: 's,
        E,
        G: Gate + Sync,
        C: Connection + Send + 's,
        S: Serves<A, L, R> + Drop + Sync + 's,
        R: Threads + Wait + Clock + Sync,
    >(
        &mut self,
        site: &'s Site<'a, A, G, S, R>,
        scope: &'s Scope<'s, E>,
        connection: C,
        number: usize,
    ) -> bool
    where
        A: 's,
        L: 's,
        requires room { self.old.1 < self.old.0 }
        requires number { number < vec_len site.now.places }
        ensures { self.new.0 ≡ self.old.0 }
    {
        let place = &site.places[number];
        place.take();
        let part = self.all.split();
        let (rt, gate, server) = (site.rt, site.gate, &site.server);
        let first = scope.spawn(move || work_at(rt, gate, server, place, connection, part));
        let last = match first {
            Err(refused) => {
                if join_ended(site, &mut self.all, &mut self.running) {
                    scope.spawn(refused.value)
                } else {
                    Err(refused)
                }
            }
            first => first,
        };
        match last {
            Ok(worker) => {
                self.running.push_reserved(Running {
                    worker,
                    place: number,
                });
                true
            }
            Err(refused) => {
                place.leave_unread();
                give_up(site, place, &mut self.all, (refused.value)());
                false
            }
        }
    }

    /// Starts a worker for each connection, of at most so many, as soon as there is a place for it. The number is that
    /// of the connections for which no thread could be started.
    fn start<
        's,
        'a: 's,
        E,
        G: Gate + Sync,
        C: Connection + Send + 's,
        I: Iterator<Item = C> + Drop,
        S: Serves<A, L, R> + Drop + Sync + 's,
        R: Threads + Wait + Clock + Sync,
    >(
        &mut self,
        site: &'s Site<'a, A, G, S, R>,
        scope: &'s Scope<'s, E>,
        connections: I,
        most: u32,
    ) -> usize
    where
        A: 's,
        L: 's,
        requires { I.can_next connections × IsFinite (I.remaining connections) }
    {
        if self.at_once == 0 {
            return 0;
        }
        let mut connections = connections;
        let mut unserved = 0;
        for _k in 0..most {
            self.make_room(site);
            let Some(number) = first_free(&site.places) else {
                break;
            };
            let Some(connection) = connections.next() else {
                break;
            };
            if !self.start_one(site, scope, connection, number) {
                unserved += 1;
            }
        }
        unserved
    }

    /// Waits for the workers, and puts their tallies together.
    fn gather<G: Gate, S: Serves<A, L, R> + Drop + Sync, R: Threads + Wait + Sync>(
        self,
        site: &Site<'_, A, G, S, R>,
    ) -> Tally<L>
        ensures { result.share.parts ≡ L.parts }
    {
        let Workers {
            at_once: _,
            mut all,
            running,
        } = self;
        for handle in running {
            let Running { worker, .. } = handle;
            join_one(site, &mut all, worker);
        }
        all
    }
}

/// Workers, where they work, and the connections that they are to serve, of at most so many. Contracts see nothing of
/// them; the connections come to an end.
#[derive(Drop)]
pub(crate) struct Shift<
    'e,
    'a,
    A: Allocator,
    G,
    S: Drop,
    L: Ledger,
    R: Wait,
    C,
    I: Iterator<Item = C> + Drop,
> {
    pub(crate) workers: Workers<A, L>,
    pub(crate) site: &'e Site<'a, A, G, S, R>,
    pub(crate) connections: I,
    pub(crate) most: u32,
}

impl<'e, 'a, A: Allocator, G, S: Drop, L: Ledger, R: Wait, C, I: Iterator<Item = C> + Drop> Model
    for Shift<'e, 'a, A, G, S, L, R, C, I> {
    ghost use Rattle.std.specs.Iterator.{IsFinite};

    ghost Value = { Unit {0} };

    ghost view = { λ _. tt };

    ghost invariant = { λ s. I.can_next s.connections × IsFinite (I.remaining s.connections) };
}

impl<
    'e,
    'a,
    A: Allocator + Copy + Send + Sync,
    G: Gate + Sync,
    C: Connection + Send,
    S: Serves<A, L, R> + Drop + Sync,
    L: Ledger + Send + Sync,
    R: Threads + Wait + Clock + Sync,
    I: Iterator<Item = C> + Drop,
> Shift<'e, 'a, A, G, S, L, R, C, I> {
    /// Starts a worker for each connection, of at most so many, and waits for them all. The number is that of the
    /// connections for which no thread could be started.
    fn run<'s, E>(self, scope: &'s Scope<'s, E>) -> (Tally<L>, usize)
    where
        'e: 's,
        'a: 's,
        A: 's,
        C: 's,
        S: 's,
        L: 's,
        ensures { result.0.share.parts ≡ L.parts }
    {
        let Shift {
            mut workers,
            site,
            connections,
            most,
        } = self;
        let unserved = workers.start(site, scope, connections, most);
        (workers.gather(site), unserved)
    }

    /// Runs a worker for each connection, of at most so many, to its end, and puts the tallies together. The number is
    /// that of the connections for which no thread could be started.
    pub(crate) fn serve(self) -> (Tally<L>, usize)
        ensures { result.0.share.parts ≡ L.parts }
    {
        let shift = self;
        let rt = shift.site.rt;
        thread::scope(thread::scope_env(), rt, move |scope| shift.run(scope))
    }
}
