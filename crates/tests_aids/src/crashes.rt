//! What a crash leaves of a device in memory. Each extent that was written since the last sync is left apart from the
//! others in one of six ways: as it was, as it was written, and filled with 00, 01, 7f and ff.

use layout::Memory;
use leaf_ledger::{Extent, MemoryDevice};
use std::alloc::Global;

/// In how many ways an extent is left.
const WAYS: usize = 6;

/// In how many ways a crash now leaves a device. Each has a number below this, its outcome.
pub fn outcomes(device: &MemoryDevice<Global>) -> usize {
    let mut outcomes = 1usize;
    for _extent in device.unsynced() {
        outcomes = outcomes.saturating_mul(WAYS);
    }
    outcomes
}

/// The byte that is left in one of six ways of one that was there and one that was written.
fn byte_left(old: u8, new: u8, way: usize) -> u8 {
    match way {
        0 => old,
        1 => new,
        2 => 0,
        3 => 1,
        4 => 0x7f,
        _ => 0xff,
    }
}

/// Leaves an extent in one of six ways, of which this is the number.
pub fn leave(
    left: &mut Vec<u8>,
    extent: &Extent,
    written: &[u8],
    way: usize,
) -> Result<(), Memory> {
    let end = extent.at.saturating_add(extent.size);
    if way != 0 && left.len() < end {
        left.resize(end, 0)?;
    }
    for place in extent.at..end {
        let new = written.get(place).copied().unwrap_or(0);
        if let Some(byte) = left.get_mut(place) {
            *byte = byte_left(*byte, new, way);
        }
    }
    Ok(())
}

/// What a crash with this outcome leaves of a device: the digits of the outcome, to base 6, say how each extent is left.
/// What lies past the old end is cut short where the last extents are left as they were.
pub fn left_by_crash(
    alloc: Global,
    device: &MemoryDevice<Global>,
    outcome: usize,
) -> Result<Vec<u8>, Memory> {
    let mut left = Vec::from_slice(alloc, device.synced_text())?;
    let mut ways = outcome;
    for extent in device.unsynced() {
        leave(&mut left, extent, device.text(), ways % WAYS)?;
        ways /= WAYS;
    }
    Ok(left)
}
