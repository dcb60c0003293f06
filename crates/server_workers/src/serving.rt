//! Connections, served by any server.

ghost use Rattle.std.specs.Prelude.{◌≡◌, ◌+◌, IfOk};
ghost use Rattle.std.specs.Iterator.{IsFinite};

use crate::gate::Gate;
use crate::places::empty_places;
use crate::server::Limits;
use crate::serves::Serves;
use crate::tally::Tally;
use crate::workers::{Shift, Site, Workers};
use connection::Connection;
use std::alloc::Allocator;
use std::sync::Wait;
use std::sync::ledger::Ledger;
use std::thread::Threads;
use std::time::Clock;

/// Serves at most `limits.most` connections by this server, a worker each, and at most `limits.at_once` at the same
/// time: the server, the tallies of all workers, and the number of connections that were dropped unread, since no
/// thread could be started for them. Where memory runs out before the first connection was taken, what was handed in
/// comes back.
pub fn serve_by<
    A: Allocator + Copy + Send + Sync,
    G: Gate + Sync,
    C: Connection + Send,
    I: Iterator<Item = C> + Drop,
    S: Serves<A, L, R> + Drop + Sync,
    L: Ledger + Send + Sync,
    R: Threads + Wait + Clock + Sync,
>(
    rt: &R,
    alloc: A,
    gate: &G,
    connections: I,
    limits: Limits,
    server: S,
    stock: Tally<L>,
) -> Result<(S, Tally<L>, usize), (I, S)>
    requires can { I.can_next connections × IsFinite (I.remaining connections) }
    requires parts { (stock.share.parts ≡ L.parts) × (L.parts ≡ limits.at_once + 1) }
    // All workers have ended.
    ensures { IfOk result (λ r. r.1.share.parts ≡ L.parts) }
{
    let Limits { most, at_once } = limits;
    let at_once = at_once as usize;
    let Ok((places, running)) = empty_places::<A, L>(alloc, at_once) else {
        return Err((connections, server));
    };
    let site = Site {
        rt,
        gate,
        server,
        places,
    };
    let shift = Shift {
        workers: Workers::new(stock, running, at_once),
        site: &site,
        connections,
        most,
    };
    let (all, unserved) = shift.serve();
    let Site { server, .. } = site;
    Ok((server, all, unserved))
}
