//! The places of connections that are served at the same time, and the workers at them.

ghost use Rattle.std.specs.Prelude.{◌≡◌, ◌<◌, ◌≤◌, length, IfOk, IfSome, vec_len, vec_capacity};

use crate::tally::WorkerTally;
use layout::Memory;
use std::alloc::Allocator;
use std::sync::atomic::{AtomicBool, Ordering};
use std::sync::ledger::Ledger;
use std::thread::JoinHandle;

/// A place for one connection at a time.
#[derive(Drop)]
pub(crate) struct Place {
    taken: AtomicBool,
    unread: AtomicBool,
    ended: AtomicBool,
}

impl Place {
    /// The connection at it is dropped unread.
    pub(crate) fn is_unread(&self) -> bool {
        self.unread.load(Ordering::SeqCst)
    }

    /// A connection comes to it.
    pub(crate) fn take(&self) {
        self.taken.store(true, Ordering::SeqCst);
        self.unread.store(false, Ordering::SeqCst);
        self.ended.store(false, Ordering::SeqCst);
    }

    /// The connection at it is to be dropped unread.
    pub(crate) fn leave_unread(&self) {
        self.unread.store(true, Ordering::SeqCst);
    }

    /// Another connection may come to it.
    pub(crate) fn free(&self) {
        self.taken.store(false, Ordering::SeqCst);
    }

    /// The worker at it has nothing to do any more.
    pub(crate) fn end(&self) {
        self.ended.store(true, Ordering::SeqCst);
    }
}

/// A worker, and the number of its place.
#[derive(Drop)]
pub(crate) struct Running<L: Ledger> {
    pub(crate) worker: JoinHandle<WorkerTally<L>>,
    pub(crate) place: usize,
}

/// So many places.
fn free_places<A: Allocator>(alloc: A, count: usize) -> Result<Vec<Place, A>, Memory>
    ensures { IfOk result (λ v. vec_len v ≡ count) }
{
    let mut all = Vec::new(alloc);
    for _i in 0..count {
        all.push(Place {
            taken: AtomicBool::new(false),
            unread: AtomicBool::new(false),
            ended: AtomicBool::new(false),
        })?;
    }
    Ok(all)
}

/// So many places, and room for a worker at each.
pub(crate) fn empty_places<A: Allocator + Copy, L: Ledger>(
    alloc: A,
    count: usize,
) -> Result<(Vec<Place, A>, Vec<Running<L>, A>), Memory>
    ensures places { IfOk result (λ room. vec_len room.0 ≡ count) }
    ensures running { IfOk result (λ room. (vec_len room.1 ≡ 0) × (count ≤ vec_capacity room.1)) }
{
    let running = Vec::with_capacity(alloc, count)?;
    let places = free_places(alloc, count)?;
    Ok((places, running))
}

/// The first place to which a connection may come.
pub(crate) fn first_free(places: &[Place]) -> Option<usize>
    ensures { IfSome result (λ k. k < length places.now) }
{
    places
        .iter()
        .position(|place| !place.taken.load(Ordering::SeqCst))
}

/// The first worker that has nothing to do any more.
pub(crate) fn first_ended<L: Ledger>(places: &[Place], running: &[Running<L>]) -> Option<usize>
    ensures { IfSome result (λ k. k < length running.now) }
{
    for k in 0..running.len() {
        let number = running[k].place;
        if let Some(place) = places.get(number)
            && place.ended.load(Ordering::SeqCst)
        {
            return Some(k);
        }
    }
    None
}
