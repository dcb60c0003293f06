//! Crashes of files of blocks: what was synced is found, after each failed call, whatever is left of what wasn't.

use crate::blocks::{ABC, ABD, NOTHING, ROOM, is_found, opened, put};
use crate::storages::{Host, WAYS, crashed, device_of, ways_of};
use block_file::{BlockError, BlockFile};
use leaf_ledger::{Device, MemoryDevice};
use std::alloc::Global;
use storage::DeviceStorage;

/// Puts a text and then another, each with a sync after it, until a call of the device fails. Tells how many were
/// synced.
fn put_both(rt: &impl Host, device: MemoryDevice<Global>) -> (usize, MemoryDevice<Global>) {
    let mut blocks = match BlockFile::open(rt.alloc(), DeviceStorage::new(device), ROOM) {
        Ok(blocks) => blocks,
        Err((error, storage)) => {
            assert!(rt; error == BlockError::Device);
            return (0, storage.close());
        }
    };
    let mut synced = 0usize;
    for text in [b"abc".as_slice(), b""] {
        if blocks.usable() && blocks.put(text).is_ok() && blocks.usable() && blocks.sync().is_ok() {
            synced = synced.saturating_add(1);
        }
    }
    (synced, blocks.close().close())
}

/// How many calls that makes of an empty file: a sync and the size, and of each text a write and a sync.
const CALLS: u64 = 2 + 2 * 2;

/// How many calls an open makes of a file with both blocks: a sync, the size and two heads.
const LATER_CALLS: u64 = 2 + 2;

/// An empty file after this call failed, and how many texts were synced before.
fn after_puts(rt: &impl Host, failing: u64) -> (usize, MemoryDevice<Global>) {
    let mut device = device_of(rt, b"");
    device.fail_after(failing);
    put_both(rt, device)
}

/// So many of the texts are found, and both where they are put once more.
fn has_texts(rt: &impl Host, device: MemoryDevice<Global>, synced: usize) {
    let mut blocks = opened(rt, DeviceStorage::new(device), ROOM);
    if synced > 0 {
        is_found(rt, &mut blocks, &ABC, Some(b"abc"));
    }
    if synced > 1 {
        is_found(rt, &mut blocks, &NOTHING, Some(b""));
    }
    put(rt, &mut blocks, b"abc", &ABC);
    put(rt, &mut blocks, b"", &NOTHING);
    is_found(rt, &mut blocks, &ABC, Some(b"abc"));
    is_found(rt, &mut blocks, &NOTHING, Some(b""));
}

#[test]
fn what_was_synced_is_found(rt: HostRuntime) {
    let mut cases: usize = 0;
    for failing in 0..=CALLS {
        for way in 0..WAYS {
            let (synced, device) = after_puts(&rt, failing);
            assert!(rt;
                synced == (failing.saturating_sub(2) / 2) as usize,
                "call {failing}"
            );
            has_texts(&rt, crashed(&rt, device, way), synced);
            cases = cases.saturating_add(1);
        }
    }
    assert_eq!(rt; cases, 126);
}

/// After a failed call and a crash, a call of the next opening fails, and a crash comes again.
fn opened_in_vain(rt: &impl Host, failing: u64, later: u64, way: usize) {
    let (synced, device) = after_puts(rt, failing);
    let mut left = crashed(rt, device, way);
    let faults = left.faults();
    left.fail_after(later);
    let device = match BlockFile::open(rt.alloc(), DeviceStorage::new(left), ROOM) {
        Ok(blocks) => blocks.close().close(),
        Err((error, storage)) => {
            assert!(rt; error == BlockError::Device);
            storage.close()
        }
    };
    let failed = device.faults() > faults;
    assert!(rt; failed || later > 1, "calls {failing}, {later}, way {way}");
    let is_told = failing < CALLS || failed == (later < LATER_CALLS);
    assert!(rt; is_told, "calls {failing}, {later}, way {way}");
    has_texts(rt, crashed(rt, device, way), synced);
}

#[test]
fn each_call_of_a_later_open_fails(rt: HostRuntime) {
    let mut cases: usize = 0;
    for failing in 0..=CALLS {
        for later in 0..=LATER_CALLS {
            for way in 0..WAYS {
                opened_in_vain(&rt, failing, later, way);
                cases = cases.saturating_add(1);
            }
        }
    }
    assert_eq!(rt; cases, 630);
}

/// Puts three texts, of which the first is synced, until this call of the device fails.
fn put_three(rt: &impl Host, failing: u64) -> MemoryDevice<Global> {
    let mut blocks = opened(rt, DeviceStorage::new(device_of(rt, b"")), ROOM);
    put(rt, &mut blocks, b"abc", &ABC);
    assert!(rt; blocks.usable() && blocks.sync().is_ok());
    let mut device = blocks.close().close();
    device.fail_after(failing);
    let mut blocks = opened(rt, DeviceStorage::new(device), ROOM);
    for text in [b"".as_slice(), b"abd"] {
        let _ = blocks.usable() && blocks.put(text).is_ok();
    }
    let _ = blocks.usable() && blocks.sync().is_ok();
    blocks.close().close()
}

/// How many calls an open makes of a file with one block: a sync, the size, and the head.
const FIRST_CALLS: u64 = 3;

/// How many calls two puts and a sync make.
const BATCH_CALLS: u64 = 2 + 1;

/// In how many ways a crash leaves what waits once this call failed: the block before is found, and the file goes on.
fn left_after(rt: &impl Host, failing: u64) -> usize {
    let ways = ways_of(&put_three(rt, failing));
    for way in 0..ways {
        let device = crashed(rt, put_three(rt, failing), way);
        let mut blocks = opened(rt, DeviceStorage::new(device), ROOM);
        is_found(rt, &mut blocks, &ABC, Some(b"abc"));
        put(rt, &mut blocks, b"", &NOTHING);
        put(rt, &mut blocks, b"abd", &ABD);
        is_found(rt, &mut blocks, &NOTHING, Some(b""));
        is_found(rt, &mut blocks, &ABD, Some(b"abd"));
        is_found(rt, &mut blocks, &ABC, Some(b"abc"));
    }
    ways
}

/// Two blocks wait for one sync, each of which a crash leaves apart from the other.
#[test]
fn blocks_that_wait_together(rt: HostRuntime) {
    let mut cases: usize = 0;
    for failing in FIRST_CALLS..=FIRST_CALLS + BATCH_CALLS {
        cases = cases.saturating_add(left_after(&rt, failing));
    }
    // One block waits, then two, and after a sync that fails two; then none.
    assert_eq!(rt; cases, 18 + 108 + 108 + 1);
}
