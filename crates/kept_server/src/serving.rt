//! Connections, served by a server that keeps what it has.

ghost use Rattle.std.specs.Prelude.{◌≡◌, ◌+◌, true, IfOk, IfSome};
ghost use Rattle.std.specs.Iterator.{IsFinite};
ghost use Rattle.consistency_server.specs.History.{log_of};
ghost use Rattle.kept_server.specs.Kept.{KeepsOrder};

use crate::events::Opened;
use crate::key::ServerKey;
use crate::server::{Closed, KeptServer};
use block_file::BlockFile;
use connection::Connection;
use consistency_server::Ordered;
use layout::{Memory, let_go};
use record_log::RecordLog;
use server_workers::{Counter, Gate, Limits, serve_by};
use std::alloc::Allocator;
use std::marker::Brand;
use std::sync::Wait;
use std::sync::ledger::{Blank, Ledger};
use std::thread::Threads;
use std::time::Clock;
use storage::Storage;

/// What a server keeps: the order and its log, as `server_log::open_order` gave them, and the blocks.
#[derive(Drop)]
pub struct Kept<S: Storage, T: Storage, A: Allocator> {
    /// The one order of calls.
    pub ordered: Ordered<A>,
    /// Its log.
    pub log: RecordLog<S>,
    /// How many bytes of room are made at once behind the log's records, so that its file seldom gets longer; 0 for none.
    pub ahead: usize,
    /// The blocks.
    pub blocks: BlockFile<T, A>,
}

/// What is left of a server that has no connections any more.
#[derive(Drop)]
pub struct KeptServed<S: Storage, T: Storage, A: Allocator> {
    /// The one order of calls.
    pub ordered: Ordered<A>,
    /// Its log.
    pub log: Option<RecordLog<S>>,
    /// The blocks.
    pub blocks: BlockFile<T, A>,
    /// How many UPDATE and COMMIT calls were answered otherwise than out of memory.
    pub answered: u64,
    /// The connections for which no thread could be started, and which were dropped unread.
    pub unserved: usize,
    /// It has stopped, since a storage failed or memory ran out for the log.
    pub stopped: bool,
}

/// The server of one key, which `B` names, and over one ledger, which `L` names.
fn serve_in<
    A: Allocator + Copy + Send + Sync,
    G: Gate + Sync,
    C: Connection + Send,
    I: Iterator<Item = C> + Drop,
    S: Storage + Drop + Send,
    T: Storage + Drop + Send,
    B: ServerKey + Send + Sync,
    L: Ledger + Send + Sync,
    R: Threads + Wait + Clock + Sync,
>(
    rt: &R,
    alloc: A,
    gate: &G,
    connections: I,
    limits: Limits,
    kept: Kept<S, T, A>,
    blank: Blank,
    opened: Opened,
) -> Result<KeptServed<S, T, A>, Memory>
    requires can { I.can_next connections × IsFinite (I.remaining connections) }
    requires key { kept.ordered.pinned ≡ B.pinned }
    requires told { log_of B.pinned kept.ordered.history ≡ B.told }
    requires start { kept.log.file ≡ B.start }
    requires book { opened.seen.book ≡ B.book }
    requires name { blank.name ≡ L.name }
    requires parts { (blank.parts ≡ L.parts) × (blank.parts ≡ limits.at_once + 1) }
    ensures pinned { IfOk result (λ s. s.ordered.pinned ≡ B.pinned) }
    ensures log { IfOk result (λ s. IfSome s.log (λ log. S.tells ≡ true
        → KeepsOrder B.start B.told log s.ordered)) }
{
    let Kept {
        ordered,
        log,
        ahead,
        blocks,
    } = kept;
    let (counter, stock) = Counter::<L>::open(blank);
    let server = KeptServer::<S, T, A, B, L>::new(
        alloc, ordered, log, blocks, ahead, counter, opened,
    );
    let (server, all, unserved) = match serve_by(
        rt,
        alloc,
        gate,
        connections,
        limits,
        server,
        stock,
    ) {
        Ok(served) => served,
        Err(unbegun) => {
            let_go(unbegun);
            return Err(Memory);
        }
    };
    let Closed {
        ordered,
        log,
        blocks,
        stopped,
    } = server.close();
    Ok(KeptServed {
        ordered,
        log,
        blocks,
        answered: all.answered(),
        unserved,
        stopped,
    })
}

/// Serves at most `limits.most` connections, a worker each, and at most `limits.at_once` at the same time. Where memory
/// runs out before the first connection was taken, all that was handed in is let go.
pub fn serve_kept<
    A: Allocator + Copy + Send + Sync,
    G: Gate + Sync,
    C: Connection + Send,
    I: Iterator<Item = C> + Drop,
    S: Storage + Drop + Send,
    T: Storage + Drop + Send,
    R: Threads + Wait + Clock + Sync,
>(
    rt: &R,
    alloc: A,
    gate: &G,
    connections: I,
    limits: Limits,
    kept: Kept<S, T, A>,
) -> Result<KeptServed<S, T, A>, Memory>
    requires { I.can_next connections × IsFinite (I.remaining connections) }
    ensures pinned { IfOk result (λ s. s.ordered.pinned ≡ kept.ordered.pinned) }
    // After what it told the log tells a beginning of what the order leaves in it since, in order, each call once; and
    // unless its storage failed, nothing else. So does whatever a crash leaves.
    ensures log { IfOk result (λ s. IfSome s.log (λ log. S.tells ≡ true
        → KeepsOrder kept.log.file (log_of kept.ordered.pinned kept.ordered.history) log s.ordered)) }
{
    let limits = Limits {
        most: limits.most,
        at_once: limits.at_once.min(limits.most),
    };
    let blank = Blank::new(limits.at_once as u64 + 1);
    let opened = Opened::new();
    serve_in::<A, G, C, I, S, T, Brand, Brand, R>(
        rt,
        alloc,
        gate,
        connections,
        limits,
        kept,
        blank,
        opened,
    )
}
