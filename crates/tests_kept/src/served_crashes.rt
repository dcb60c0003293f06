//! A server that keeps what it has, of which a device fails at any call, and then a crash comes: what it replied is
//! there when it is started again, and it goes on as if it hadn't stopped.

use crate::history::{Line, three_operations};
use crate::said::{Said, among_blocks, count_calls};
use crate::served::{Devices, ThreadHost, begun, new_devices, replies_to_all, served};
use crate::storages::{Host, crashed, ways_of};
use kept_server::Kept;
use layout::let_go;
use lms_sign::PublicKey;

/// Whose device fails.
#[derive(Clone, Copy, PartialEq, Eq)]
enum Failing {
    Log,
    Blocks,
}

/// Serves these requests on new devices, until this call of one of them fails: how many were replied to.
fn stopped<R: ThreadHost>(
    rt: &R,
    pinned: PublicKey,
    said: &[Said],
    failing: Failing,
    call: u64,
) -> (usize, Devices) {
    let mut devices = new_devices(rt);
    match failing {
        Failing::Log => devices.log.fail_after(call),
        Failing::Blocks => devices.blocks.fail_after(call),
    }
    match begun(rt, devices, pinned) {
        Ok(kept) => served(rt, kept, said),
        Err(devices) => (0, devices),
    }
}

/// The first request that a client sends again after so many were replied to: blocks are put again after which neither
/// SYNC nor a call was replied to.
fn resumed(said: &[Said], replied: usize) -> usize {
    let before = said.get(..replied).unwrap_or(&[]);
    let puts = before.iter().rev().take_while(|it| it.is_put()).count();
    replied.saturating_sub(puts)
}

/// How many calls a server has when it is started.
fn count_kept(rt: &impl Host, devices: Devices, pinned: PublicKey) -> (usize, Devices) {
    let Ok(kept) = begun(rt, devices, pinned) else {
        panic!(rt; "a device fails");
    };
    let count = kept.ordered.call_count();
    let Kept {
        ordered,
        log,
        ahead: _,
        blocks,
    } = kept;
    let_go(ordered);
    let devices = Devices {
        log: log.close().close(),
        blocks: blocks.close().close(),
    };
    (count, devices)
}

/// A server stops, and a crash leaves its devices in this way: it has the calls that were replied to, or one more, and
/// replies to all others when it is started again. Of one more it has the blocks that were put before, too. In how many
/// ways a crash leaves them.
fn goes_on<R: ThreadHost>(
    rt: &R,
    line: &Line,
    said: &[Said],
    (failing, call): (Failing, u64),
    way: usize,
) -> usize {
    let (replied, Devices { log, blocks }) = stopped(rt, line.pinned, said, failing, call);
    let (of_log, of_blocks) = (ways_of(&log).max(1), ways_of(&blocks).max(1));
    let devices = Devices {
        log: crashed(rt, log, way % of_log),
        blocks: crashed(rt, blocks, way % of_blocks),
    };
    let told = count_calls(said.get(..replied).unwrap_or(&[]));
    let (found, devices) = count_kept(rt, devices, line.pinned);
    assert!(rt;
        found == told || found == told.saturating_add(1),
        "call {call}: {found}"
    );
    let first = if found > told {
        replied
    } else {
        resumed(said, replied)
    };
    let rest = said.get(first..).unwrap_or(&[]);
    let _devices = replies_to_all(rt, devices, line.pinned, rest);
    of_log.max(of_blocks)
}

/// In how many ways all of this goes on, where this call of a device fails.
fn count_ways<R: ThreadHost>(rt: &R, line: &Line, said: &[Said], failing: (Failing, u64)) -> usize {
    let mut way: usize = 0;
    for _way in 0..1000 {
        let ways = goes_on(rt, line, said, failing, way);
        way = way.saturating_add(1);
        if way >= ways {
            return way;
        }
    }
    panic!(rt; "too many ways");
}

/// How many calls of a log's device a server makes: eight of a new log, and of each of five calls two that make room and
/// four that append.
const LOG_CALLS: u64 = 8 + 5 * 6;

/// Where a write or its sync fails, of which there are 36, an extent waits, and a crash leaves it in 18 ways.
#[test]
fn each_call_of_the_log_fails(rt: HostRuntime) {
    let line = three_operations(&rt);
    let said = among_blocks(&rt, &line);
    let mut cases: usize = 0;
    for call in 0..=LOG_CALLS {
        cases = cases.saturating_add(count_ways(&rt, &line, &said, (Failing::Log, call)));
    }
    assert_eq!(rt; cases, 2 + 36 * 18 + 1);
}

/// How many calls of the blocks' device a server makes: two of an opening, a write and a sync of a block, two writes and
/// a sync of two more, before the next call's record, and a read of each.
const BLOCK_CALLS: u64 = 2 + 2 + 3 + 3;

/// A block waits, and then two, each of which a crash leaves apart from the other.
#[test]
fn each_call_of_the_blocks_fails(rt: HostRuntime) {
    let line = three_operations(&rt);
    let said = among_blocks(&rt, &line);
    let mut cases: usize = 0;
    for call in 0..=BLOCK_CALLS {
        cases = cases.saturating_add(count_ways(&rt, &line, &said, (Failing::Blocks, call)));
    }
    assert_eq!(rt; cases, 2 + 2 * 18 + 18 + 2 * 108 + 3 + 1);
}
