//! Crashes of the log of a server: what is opened then is the calls before, with the last batch or without it, and it
//! goes on as the server that didn't stop.

use crate::history::{Line, three_operations};
use crate::kept::{answers_alike, append, count_told, ended, opened, records_of};
use crate::storages::{Host, Memory, WAYS, crashed, device_of, file_text};
use layout::let_go;
use leaf_ledger::MemoryDevice;
use record_log::RecordLog;
use server_log::open_order;
use std::alloc::Global;
use storage::DeviceStorage;

/// The batches in which calls come to the log: from which call on, and how many there are then.
const BATCHES: [(usize, usize); 3] = [(0, 1), (1, 3), (3, 5)];

/// How many calls of the device make a new log: a sync and the size, a write and a sync of a closed gate, and two
/// writes and two syncs of its beginning.
const OPEN_CALLS: u64 = 2 + 2 + 4;

/// How many calls a batch costs, of any size: two writes and two syncs.
const APPEND_CALLS: u64 = 4;

/// How many calls a new log makes for three batches.
const CALLS: u64 = OPEN_CALLS + 3 * APPEND_CALLS;

/// Adds the batches to a new log, until a call of the device fails: how many were taken.
fn given(rt: &impl Host, log: RecordLog<Memory>, line: &Line) -> (usize, MemoryDevice<Global>) {
    let mut log = log;
    let mut taken: usize = 0;
    for (from, to) in BATCHES {
        let batch = line.calls.get(from..to).unwrap_or(&[]);
        taken = taken.saturating_add(usize::from(append(rt, &mut log, batch)));
    }
    (taken, log.close().close())
}

/// Opens a new log, and adds the batches, until a call of the device fails: how many were taken.
fn stopped(rt: &impl Host, line: &Line, failing: u64) -> (usize, MemoryDevice<Global>) {
    let mut device = device_of(rt, b"");
    device.fail_after(failing);
    match open_order(rt.alloc(), DeviceStorage::new(device), line.pinned) {
        Ok((order, log)) => {
            let_go(order);
            given(rt, log, line)
        }
        Err((_, storage)) => (0, storage.close()),
    }
}

/// Opens a log: how many calls it has. Those that come after them are answered as by the server that went on, and then
/// the file is the same.
fn goes_on(rt: &impl Host, device: MemoryDevice<Global>, line: &Line) -> usize {
    let mut kept = opened(rt, DeviceStorage::new(device), line.pinned);
    let count = kept.0.call_count();
    for call in line.calls.iter().skip(count) {
        answers_alike(rt, &mut kept, call);
    }
    let file = file_text(rt, kept.1.close());
    assert!(rt; file == ended(rt, &records_of(rt, &line.pinned, &line.calls)));
    let_go(kept.0);
    count
}

/// So many calls are found where the log stopped at a call of the device: those of the batches that were taken, or of
/// one more, and as many as an opening before it told.
fn is_right(rt: &impl Host, failing: u64, taken: usize, told: Option<usize>, found: usize) {
    let before = failing.saturating_sub(OPEN_CALLS) / APPEND_CALLS;
    let (from, to) = BATCHES.get(taken).copied().unwrap_or((5, 5));
    assert!(rt; taken == before as usize, "call {failing}");
    assert!(rt; found == from || found == to, "call {failing}: {found}");
    assert!(rt;
        found == told.unwrap_or(found),
        "call {failing}: {found}, {told:?}"
    );
}

/// The log stops at a call of the device, the next opening at a later one, and a crash comes. Whether that opening went
/// well, and whether something waited for a sync then.
fn stops(rt: &impl Host, line: &Line, (failing, later): (u64, u64), way: usize) -> (bool, bool) {
    let (taken, device) = stopped(rt, line, failing);
    let (told, device) = count_told(rt, device, line.pinned, later);
    let waits = !device.unsynced().is_empty();
    let found = goes_on(rt, crashed(rt, device, way), line);
    is_right(rt, failing, taken, told, found);
    (told.is_some(), waits)
}

/// In how many ways a crash leaves the log, and whether the opening before it went well.
fn count_ways(rt: &impl Host, line: &Line, calls: (u64, u64)) -> (usize, bool) {
    let mut is_opened = false;
    for way in 0..WAYS {
        let (goes_well, waits) = stops(rt, line, calls, way);
        if !waits {
            return (1, goes_well);
        }
        is_opened = goes_well;
    }
    (WAYS, is_opened)
}

/// The log stops at this call, and the next opening at each of its calls, until none fails: how many cases there are.
fn count_cases(rt: &impl Host, line: &Line, failing: u64) -> usize {
    let mut cases: usize = 0;
    for later in 0..100 {
        let (count, is_opened) = count_ways(rt, line, (failing, later));
        cases = cases.saturating_add(count);
        if is_opened {
            return cases;
        }
    }
    panic!(rt; "too many calls");
}

/// Where a write or its sync fails an extent waits, and a crash now leaves it in 18 ways. A later opening begins with a
/// sync, so that nothing waits from its second call on, and a crash leaves one text; but where it writes itself, a gate
/// or a beginning.
#[test]
fn each_call_of_a_log_stops(rt: HostRuntime) {
    let line = three_operations(&rt);
    assert!(rt; line.calls.len() == 5);
    let mut cases: usize = 0;
    for failing in 0..=CALLS {
        cases = cases.saturating_add(count_cases(&rt, &line, failing));
    }
    assert_eq!(rt; cases, 1_154);
}
