//! What these tests share: what they run in, storages over devices in memory and crashes of them, and how errors print.

use leaf_ledger::MemoryDevice;
use std::alloc::Global;
use std::fmt::Display;
use std::process::Abort;
use storage::DeviceStorage;
use tests_aids::crashes::{left_by_crash, outcomes};

/// What a test runs in.
pub(crate) trait Host: Alloc<A = Global> + Abort {}

impl<R: Alloc<A = Global> + Abort> Host for R {}

/// A storage over a device in memory.
pub(crate) type Memory = DeviceStorage<MemoryDevice<Global>>;

/// The same bytes once more.
pub(crate) fn copy(rt: &impl Host, text: &[u8]) -> Vec<u8> {
    Vec::from_slice(rt.alloc(), text).expect(rt, "memory")
}

/// A device in memory with this text.
pub(crate) fn device_of(rt: &impl Host, text: &[u8]) -> MemoryDevice<Global> {
    MemoryDevice::new(rt.alloc(), copy(rt, text)).expect(rt, "memory")
}

/// How what lies past the old end is left: whole, or cut short by a byte or by half.
const CUTS: usize = 3;

/// In how many ways a crash leaves an extent: old, new, or filled with one of four bytes, and each cut short.
pub(crate) const WAYS: usize = 6 * CUTS;

/// In how many ways a crash now leaves a device: each extent apart from the others, and then cut short.
pub(crate) fn ways_of(device: &MemoryDevice<Global>) -> usize {
    if device.unsynced().is_empty() {
        return 1;
    }
    outcomes(device).saturating_mul(CUTS)
}

/// The device after a crash that leaves what wasn't synced in this way.
pub(crate) fn crashed(
    rt: &impl Host,
    device: MemoryDevice<Global>,
    way: usize,
) -> MemoryDevice<Global> {
    let each = outcomes(&device).max(1);
    let mut left = left_by_crash(rt.alloc(), &device, way % each).expect(rt, "memory");
    let least = device.synced_text().len();
    let more = left.len().saturating_sub(least);
    let cut = match way / each {
        0 => 0,
        1 => 1,
        _ => more / 2,
    };
    left.truncate(least.saturating_add(more.saturating_sub(cut)));
    match device.crash(left) {
        Ok(device) => device,
        Err((error, _)) => panic!(rt; "{error}"),
    }
}

/// A storage with this text.
pub(crate) fn storage_of(rt: &impl Host, text: &[u8]) -> Memory {
    DeviceStorage::new(device_of(rt, text))
}

/// The bytes that a storage has.
pub(crate) fn file_text(rt: &impl Host, storage: Memory) -> Vec<u8> {
    copy(rt, storage.close().text())
}

/// Each error prints its line, and there are no more lines.
pub(crate) fn print_lines<E: Display>(rt: &impl Host, errors: &[E], lines: &str) {
    let mut printed = String::new(rt.alloc());
    for error in errors {
        printed = format!(in rt.alloc(); "{printed}{error}\n").expect(rt, "memory");
    }
    assert!(rt; printed.as_str() == lines, "{printed}");
}
