//! What these tests share: what they run in, devices in memory and crashes of them, how tables are read, and how errors
//! print.

use leaf_ledger::MemoryDevice;
use std::alloc::Global;
use std::fmt::Display;
use std::process::Abort;
use tests_aids::crashes::left_by_crash;

/// What a test runs in.
pub(crate) trait Host: Alloc<A = Global> + Abort {}

impl<R: Alloc<A = Global> + Abort> Host for R {}

/// A device in memory with this text.
pub(crate) fn device_of(rt: &impl Host, text: &[u8]) -> MemoryDevice<Global> {
    let alloc = rt.alloc();
    let text = Vec::from_slice(alloc, text).expect(rt, "memory");
    MemoryDevice::new(alloc, text).expect(rt, "memory")
}

/// The device after a crash with this outcome.
pub(crate) fn crashed(
    rt: &impl Host,
    device: MemoryDevice<Global>,
    outcome: usize,
) -> MemoryDevice<Global> {
    let left = left_by_crash(rt.alloc(), &device, outcome).expect(rt, "memory");
    match device.crash(left) {
        Ok(device) => device,
        Err((error, _)) => panic!(rt; "{error}"),
    }
}

/// The pieces of a table or of a row, which are parted by this byte. A piece with `#` before it, which tells of those
/// after it, is left out.
pub(crate) fn pieces(rt: &impl Host, text: &'static [u8], byte: u8) -> Vec<&'static [u8]> {
    let mut pieces = Vec::new(rt.alloc());
    for piece in text.split(|it| *it == byte) {
        if !piece.starts_with(b"#") {
            pieces.push(piece).expect(rt, "memory");
        }
    }
    pieces
}

/// Each error prints its line, and there are no more lines.
pub(crate) fn print_lines<E: Display>(rt: &impl Host, errors: &[E], lines: &str) {
    let mut printed = String::new(rt.alloc());
    for error in errors {
        printed = format!(in rt.alloc(); "{printed}{error}\n").expect(rt, "memory");
    }
    assert!(rt; printed.as_str() == lines, "{printed}");
}
