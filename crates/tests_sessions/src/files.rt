//! Files that are put.

use std::alloc::Global;
use tests_aids::{Aided, given};

/// A file of so many whole blocks, none of them as another.
pub(crate) fn blocks_of(rt: &impl Aided, count: u16) -> Vec<u8> {
    let mut file = Vec::new(rt.alloc());
    let mut block = [7u8; 4096];
    for number in 0..count {
        let [high, low] = number.to_be_bytes();
        block[0] = high;
        block[1] = low;
        given(rt, file.extend_from_slice(&block), "memory");
    }
    file
}
