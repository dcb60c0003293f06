//! Blocks that are stored while memory runs out.

use crate::here::Here;
use crate::meter::{Heap, MOST, Meter, Swept};
use block_store::{Store, StoreError};
use layout::digest;
use std::alloc::Global;
use std::process::Abort;
use std::sync::Wait;
use tests_aids::{Aided, check, given};
use tests_refusing::Refusing;

/// What a store's test runs in.
pub(crate) trait Host: Alloc<A = Global> + Abort + Wait {}

impl<R: Alloc<A = Global> + Abort + Wait> Host for R {}

/// How many blocks are stored, of 0, 1, 2 .. bytes.
const BLOCKS: usize = 40;

/// The bytes of the largest one and of one more.
static BYTES: [u8; BLOCKS] = [7; BLOCKS];

/// The block of a size.
fn block_of(size: usize) -> &'static [u8] {
    BYTES.get(..size).unwrap_or(&[])
}

/// Whether the store has a block by its digest.
fn has<R: Host>(rt: &R, store: &Store<Heap<'_>>, block: &[u8]) -> bool {
    let Some(pass) = store.find(rt, digest(block)) else {
        return false;
    };
    check(&(rt, Here), store.get_by_pass(&pass) == block, "its bytes");
    true
}

/// Whether the store has a block, which is of this size, by its number.
fn has_at<R: Host>(rt: &R, store: &Store<Heap<'_>>, size: usize) -> bool {
    let Some((_pass, block)) = store.get_at(size) else {
        return false;
    };
    check(&(rt, Here), block == block_of(size), "its bytes");
    true
}

/// The store has the blocks up to a size, and no others.
fn has_blocks<R: Host>(rt: &R, store: &Store<Heap<'_>>, count: usize) {
    for size in 0..BLOCKS {
        let is_there = size < count;
        let by_digest = has(rt, store, block_of(size));
        let by_number = has_at(rt, store, size);
        let is_right = by_digest == is_there && by_number == is_there;
        check(&(rt, Here), is_right, "these blocks");
    }
}

/// Stores a block: once more where memory ran out, after which the blocks before it are there, and it isn't.
fn store_block<'h, R: Host>(rt: &R, meter: &mut Meter<'h>, store: &Store<Heap<'h>>, size: usize) {
    let host = &(rt, Here);
    let answer = store.put(rt, block_of(size));
    let lacks = matches!(answer, Err(StoreError::Memory));
    if meter.is_again(host, b'p', lacks) {
        has_blocks(rt, store, size);
        check(host, store.put(rt, block_of(size)).is_ok(), "with memory");
    } else {
        check(host, answer.is_ok(), "it is stored");
    }
}

/// Gets a copy of a block: once more where memory ran out.
fn copy_block<'h, R: Host>(rt: &R, meter: &mut Meter<'h>, store: &Store<Heap<'h>>, size: usize) {
    let host = &(rt, Here);
    let digest = digest(block_of(size));
    let mut answer = store.fetch(rt, digest);
    let lacks = matches!(answer, Err(StoreError::Memory));
    if meter.is_again(host, b'f', lacks) {
        answer = store.fetch(rt, digest);
    }
    match answer {
        Ok(Some(copy)) => check(host, copy.as_slice() == block_of(size), "a copy"),
        _ => host.fail("no copy"),
    }
}

/// Stores the blocks anew, where the growth of a number is refused.
fn run<'h, R: Host>(rt: &R, heap: Heap<'h>, number: u64) -> Meter<'h> {
    let store = given(&(rt, Here), Store::new(heap), "memory");
    let mut meter = Meter::new(heap, number);
    for size in 0..BLOCKS {
        store_block(rt, &mut meter, &store, size);
    }
    copy_block(rt, &mut meter, &store, 1);
    has_blocks(rt, &store, BLOCKS);
    meter
}

/// Refuses each growth of blocks that are stored in turn.
pub(crate) fn sweep_blocks<R: Host>(rt: &R) -> Swept {
    let host = &(rt, Here);
    let heap = Refusing::new(rt.alloc());
    let mut swept = Swept::new(host);
    for number in 1..MOST {
        let meter = run(rt, &heap, number);
        if swept.is_over(host, &meter) {
            return swept;
        }
    }
    host.fail("too many growths")
}
