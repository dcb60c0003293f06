//! Blocks that are put, found and read, by one thread and by several.

ghost use Rattle.block_store.specs.Blocks.{IsOf};

use crate::requests::EMPTY;
use crate::serving::Host;
use block_store::{BLOCK_LIMIT, BlockPass, Store, StoreError};
use layout::Digest;
use std::alloc::Global;
use std::sync::Wait;
use std::thread;
use std::thread::Threads;

/// Lends a test a store with so much room: no test owns one, since each step of who does costs its proof time.
fn in_store<R: Host, F: FnOnce(&Store<Global>)>(rt: &R, room: u64, test: F)
    requires { F.IsAlwaysCallable test }
{
    let store = Store::with_room(rt.alloc(), room).expect(rt, "memory");
    test(&store);
}

/// What the store answers to a block: the digest of its pass.
fn put<R: Wait>(rt: &R, store: &Store<Global>, bytes: &[u8]) -> Result<Digest, StoreError> {
    match store.put(rt, bytes) {
        Ok(pass) => Ok(pass.digest()),
        Err(error) => Err(error),
    }
}

/// Whether this pass is of the digest, and the store gives these bytes by it.
fn gives_by_pass(
    store: &Store<Global>,
    pass: &BlockPass<Global>,
    digest: Digest,
    bytes: &[u8],
) -> bool
    requires { IsOf store.now pass.now }
{
    store.get_by_pass(pass) == bytes && pass.digest() == digest
}

/// Whether the store finds a pass of this digest, by which it gives these bytes.
fn finds<R: Wait>(rt: &R, store: &Store<Global>, digest: Digest, bytes: &[u8]) -> bool {
    match store.find(rt, digest) {
        Some(pass) => gives_by_pass(store, &pass, digest, bytes),
        None => false,
    }
}

/// Whether the store gives these bytes for the digest, as a copy and by a pass.
fn gives<R: Wait>(rt: &R, store: &Store<Global>, digest: Digest, bytes: &[u8]) -> bool {
    let is_found = finds(rt, store, digest, bytes);
    match store.fetch(rt, digest) {
        Ok(Some(block)) => is_found && block.as_slice() == bytes,
        Ok(None) | Err(_) => false,
    }
}

/// Whether this pass is of the block of this number, and the store gives these bytes by it, as they were given here.
fn is_numbered(
    store: &Store<Global>,
    pass: &BlockPass<Global>,
    number: usize,
    given: &[u8],
    bytes: &[u8],
) -> bool
    requires { IsOf store.now pass.now }
{
    given == bytes && pass.index() == number && store.get_by_pass(pass) == bytes
}

/// Whether the block of this number has these bytes, as its pass has.
fn has_at(store: &Store<Global>, number: usize, bytes: &[u8]) -> bool {
    match store.get_at(number) {
        Some((pass, block)) => is_numbered(store, &pass, number, block, bytes),
        None => false,
    }
}

/// Whether the block of this number has these bytes by the pass that the store gives for the number.
fn has_pass_at(store: &Store<Global>, number: usize, bytes: &[u8]) -> bool {
    match store.pass_at(number) {
        Some(pass) => is_numbered(store, &pass, number, bytes, bytes),
        None => false,
    }
}

/// Whether there is a block of this number, and whether there is a pass of it.
fn stands_at(store: &Store<Global>, number: usize) -> (bool, bool) {
    (
        store.get_at(number).is_some(),
        store.pass_at(number).is_some(),
    )
}

/// There is no block of this number.
fn ends_at<R: Host>(rt: &R, store: &Store<Global>, number: usize) {
    let found = stands_at(store, number);
    assert!(rt; found == (false, false), "no block {number}");
}

/// Whether the store has no block of this digest.
fn lacks<R: Host>(rt: &R, store: &Store<Global>, digest: Digest) -> bool {
    store.find(rt, digest).is_none() && store.fetch(rt, digest).expect(rt, "memory").is_none()
}

/// Whether a block is put under this digest, and given.
fn takes<R: Wait>(rt: &R, store: &Store<Global>, digest: Digest, bytes: &[u8]) -> bool {
    put(rt, store, bytes) == Ok(digest) && gives(rt, store, digest, bytes)
}

/// The empty block is found from when it is put.
fn finds_the_empty_block<R: Host>(rt: &R, store: &Store<Global>) {
    let empty = Digest::from_bytes(EMPTY);
    assert!(rt; lacks(rt, store, empty), "before the put");
    ends_at(rt, store, 0);
    assert!(rt; takes(rt, store, empty, &[]), "put and got");
    assert!(rt; has_at(store, 0, &[]), "the first block");
    // Again: the block stays, beside others.
    assert!(rt; put(rt, store, &[]) == Ok(empty), "the digest again");
    let other = layout::digest(&[1]);
    assert!(rt; takes(rt, store, other, &[1]), "another one");
    assert!(rt; gives(rt, store, empty, &[]), "the first, beside it");
    let zeros = Digest::from_bytes([0; 32]);
    assert!(rt; lacks(rt, store, zeros), "no such block");
}

#[test]
fn the_empty_block_is_found(rt: HostRuntime) {
    in_store(&rt, u64::MAX, |store| finds_the_empty_block(&rt, store));
}

/// A block of so many bytes, which begins with a number where it has room for it.
fn block<R: Host>(rt: &R, size: usize, number: u8) -> Vec<u8> {
    let mut bytes = Vec::from_elem(rt.alloc(), 0x5a_u8, size).expect(rt, "memory");
    if let Some(first) = bytes.first_mut() {
        *first = number;
    }
    bytes
}

/// The sizes at which blocks of the file system begin or end, and those beside them, up to the largest.
static SIZES: [usize; 9] = [0, 1, 999, 1_000, 4_095, 4_096, 4_097, 32_778, 32_779];

/// Puts the block of this size and number. It isn't there before, but for the empty one, which has no number.
fn put_sized<R: Host>(rt: &R, store: &Store<Global>, size: usize, number: u8) {
    let bytes = block(rt, size, number);
    let digest = layout::digest(&bytes);
    assert!(rt;
        lacks(rt, store, digest) != (size == 0 && number > 0),
        "{size} bytes, before"
    );
    assert!(rt; takes(rt, store, digest, &bytes), "{size} bytes, put");
}

/// How many of the blocks of all sizes with these numbers are given.
fn given<R: Host>(rt: &R, store: &Store<Global>, numbers: &[u8]) -> u32 {
    let mut found = 0u32;
    for size in SIZES.iter().rev() {
        for number in numbers {
            let bytes = block(rt, *size, *number);
            if gives(rt, store, layout::digest(&bytes), &bytes) {
                found = found.wrapping_add(1);
            }
        }
    }
    found
}

/// Blocks of each size are put, and after all of them found in the other order.
fn finds_all_sizes<R: Host>(rt: &R, store: &Store<Global>) {
    for size in &SIZES {
        for number in 0..3u8 {
            put_sized(rt, store, *size, number);
        }
    }
    assert_eq!(rt; given(rt, store, &[0, 1, 2]), 27);
}

#[test]
fn blocks_of_all_sizes_are_found(rt: HostRuntime) {
    in_store(&rt, u64::MAX, |store| finds_all_sizes(&rt, store));
}

/// Sizes of blocks that are too large, up to that of the largest frame.
static TOO_LARGE: [usize; 4] = [32_780, 32_781, 65_536, 2_097_151];

/// Larger blocks are refused, and not stored.
fn refuses_larger<R: Host>(rt: &R, store: &Store<Global>) {
    for size in &TOO_LARGE {
        let bytes = block(rt, *size, 1);
        let answer = put(rt, store, &bytes);
        assert!(rt; answer == Err(StoreError::TooLarge), "{size} bytes");
        let digest = layout::digest(&bytes);
        assert!(rt; lacks(rt, store, digest), "{size} bytes, not stored");
    }
}

#[test]
fn larger_blocks_are_refused(rt: HostRuntime) {
    assert!(rt; BLOCK_LIMIT == 32_779, "the limit");
    in_store(&rt, u64::MAX, |store| refuses_larger(&rt, store));
}

/// Puts a block of each size and number, and then fetches all of them. Tells how many came as they were put.
fn fill_sizes<R: Host>(rt: &R, store: &Store<Global>, numbers: &[u8]) -> u32 {
    for size in &SIZES {
        for number in numbers {
            let _put = put(rt, store, &block(rt, *size, *number));
        }
    }
    given(rt, store, numbers)
}

/// Two threads put blocks of all sizes, some of them both.
fn takes_sizes_of_two<R: Host>(rt: &R, store: &Store<Global>) {
    let (first, second) = thread::join(
        rt,
        || fill_sizes(rt, store, &[1, 2, 3, 4]),
        || fill_sizes(rt, store, &[3, 4, 5, 6]),
    );
    assert_eq!(rt; (first, second), (36, 36));
    assert_eq!(rt; given(rt, store, &[1, 2, 3, 4, 5, 6]), 54);
}

#[test]
fn two_threads_put_blocks_of_all_sizes(rt: HostRuntime) {
    in_store(&rt, u64::MAX, |store| takes_sizes_of_two(&rt, store));
}

/// Puts the blocks of these numbers and fetches each. Tells how many came as they were put.
fn fill<R: Wait>(rt: &R, store: &Store<Global>, from: u32, to: u32) -> u32 {
    let mut found = 0u32;
    for number in from..to {
        let bytes = number.to_be_bytes();
        if takes(rt, store, layout::digest(&bytes), &bytes) {
            found = found.wrapping_add(1);
        }
    }
    found
}

/// Which of the blocks that `fill` puts has these bytes.
fn block_of(bytes: &[u8]) -> Option<usize> {
    match bytes {
        [a, b, c, d] => Some(u32::from_be_bytes([*a, *b, *c, *d]) as usize),
        _ => None,
    }
}

/// Which of the blocks that `fill` puts has this number.
fn block_at(store: &Store<Global>, number: usize) -> Option<usize> {
    match store.pass_at(number) {
        Some(pass) => block_of(store.get_by_pass(&pass)),
        None => None,
    }
}

/// Notes which of the blocks that `fill` puts has this number. False where none has, or one that another number has.
fn note_block(store: &Store<Global>, number: usize, found: &mut [bool]) -> bool {
    let Some(block) = block_at(store, number) else {
        return false;
    };
    let Some(is_found) = found.get_mut(block) else {
        return false;
    };
    let is_first = !*is_found;
    *is_found = true;
    is_first
}

/// So many blocks have a number each, from 0 on, and no other number is a block's.
fn are_numbered<R: Host>(rt: &R, store: &Store<Global>, count: usize) {
    let mut found = Vec::from_elem(rt.alloc(), false, count).expect(rt, "memory");
    for number in 0..count {
        let is_one = note_block(store, number, &mut found);
        assert!(rt; is_one, "a block of its own has the number {number}");
    }
    ends_at(rt, store, count);
}

/// Two threads put and fetch blocks, of which both put those from 1,000 to 1,999.
fn takes_of_two<R: Host>(rt: &R, store: &Store<Global>) {
    let (first, second) = thread::join(
        rt,
        || fill(rt, store, 0, 2_000),
        || fill(rt, store, 1_000, 3_000),
    );
    assert_eq!(rt; (first, second), (2_000, 2_000));
    for number in 0..3_000u32 {
        let bytes = number.to_be_bytes();
        let digest = layout::digest(&bytes);
        assert!(rt; gives(rt, store, digest, &bytes), "block {number}");
    }
    are_numbered(rt, store, 3_000);
}

#[test]
fn two_threads_put_and_fetch(rt: HostRuntime) {
    in_store(&rt, u64::MAX, |store| takes_of_two(&rt, store));
}

/// How much room a store has, and whether it takes blocks of 10, 1 and 0 bytes then, one after the other: a block takes
/// its bytes and 256 more.
type Taken = (u64, [bool; 3]);

static ROOMS: [Taken; 10] = [
    (0, [false, false, false]),
    (255, [false, false, false]),
    (256, [false, false, true]),
    (257, [false, true, false]),
    (265, [false, true, false]),
    (266, [true, false, false]),
    (522, [true, false, true]),
    (523, [true, true, false]),
    (778, [true, true, false]),
    (779, [true, true, true]),
];

/// A block of so many bytes is taken, or there is no room for it, and nothing of it is left. One that was taken is
/// taken again.
fn is_taken<R: Host>(rt: &R, store: &Store<Global>, size: usize, wanted: bool) {
    let bytes = block(rt, size, 7);
    let digest = layout::digest(&bytes);
    for _turn in 0..2 {
        let answer = put(rt, store, &bytes);
        if wanted {
            assert!(rt;
                answer == Ok(digest) && gives(rt, store, digest, &bytes),
                "{size} bytes"
            );
        } else {
            assert!(rt;
                answer == Err(StoreError::Full) && lacks(rt, store, digest),
                "{size} bytes"
            );
        }
    }
}

/// Blocks of 10, 1 and 0 bytes are taken so, and have the first numbers.
fn takes_so<R: Host>(rt: &R, store: &Store<Global>, wanted: &[bool; 3]) {
    let [ten, one, none] = wanted;
    is_taken(rt, store, 10, *ten);
    is_taken(rt, store, 1, *one);
    is_taken(rt, store, 0, *none);
    let count = usize::from(*ten) + usize::from(*one) + usize::from(*none);
    ends_at(rt, store, count);
}

#[test]
fn blocks_have_so_much_room(rt: HostRuntime) {
    for (room, wanted) in &ROOMS {
        in_store(&rt, *room, |store| takes_so(&rt, store, wanted));
    }
}

/// The number of a block that is put.
fn number_of<R: Wait>(rt: &R, store: &Store<Global>, bytes: &[u8]) -> Option<usize> {
    match store.put(rt, bytes) {
        Ok(pass) => Some(pass.index()),
        Err(_) => None,
    }
}

/// Whether these passes are of one block.
fn are_of_one(store: &Store<Global>, first: &BlockPass<Global>, again: &BlockPass<Global>) -> bool
    requires { IsOf store.now first.now × IsOf store.now again.now }
{
    if first.index() != again.index() {
        return false;
    }
    store.agree(first, again);
    true
}

/// Whether a block that is put again has the pass that it had.
fn agrees<R: Wait>(rt: &R, store: &Store<Global>, first: &BlockPass<Global>, bytes: &[u8]) -> bool
    requires { IsOf store.now first.now }
{
    match store.put(rt, bytes) {
        Ok(again) => are_of_one(store, first, &again),
        Err(_) => false,
    }
}

/// Whether a block that is put twice has one pass.
fn is_put_once<R: Wait>(rt: &R, store: &Store<Global>, bytes: &[u8]) -> bool {
    match store.put(rt, bytes) {
        Ok(first) => agrees(rt, store, &first, bytes),
        Err(_) => false,
    }
}

/// A block that is put again keeps its number, and another one has the next.
fn numbers_each_once<R: Host>(rt: &R, store: &Store<Global>) {
    for (bytes, number) in [(b"one", 0), (b"two", 1), (b"one", 0)] {
        let found = number_of(rt, store, bytes);
        assert!(rt; found == Some(number), "number {number}");
    }
    assert!(rt; is_put_once(rt, store, b"one"), "the first again");
    assert!(rt; has_at(store, 0, b"one"), "the first");
    assert!(rt; has_at(store, 1, b"two"), "the second");
    ends_at(rt, store, 2);
    assert!(rt; has_pass_at(store, 1, b"two"), "by its pass");
}

#[test]
fn a_block_has_one_number(rt: HostRuntime) {
    in_store(&rt, u64::MAX, |store| numbers_each_once(&rt, store));
}

/// How often a reader reads.
const READS: u32 = 5_000;

/// How many blocks are put beside the readers.
const OTHERS: u32 = 1_000;

/// Reads the block of a pass, by the pass and by its number. Tells how often it had these bytes.
fn read_again(store: &Store<Global>, pass: &BlockPass<Global>, bytes: &[u8]) -> u32
    requires { IsOf store.now pass.now }
{
    let mut read = 0u32;
    for _ in 0..READS {
        if store.get_by_pass(pass) == bytes && has_at(store, pass.index(), bytes) {
            read = read.wrapping_add(1);
        }
    }
    read
}

/// Two threads read. It is a function of its own, since a closure in a closure doesn't hand on what a read requires.
fn read_twice<R: Threads + Sync>(
    rt: &R,
    store: &Store<Global>,
    pass: &BlockPass<Global>,
    bytes: &[u8],
) -> (u32, u32)
    requires { IsOf store.now pass.now }
{
    thread::join(
        rt,
        || read_again(store, pass, bytes),
        || read_again(store, pass, bytes),
    )
}

/// Two threads read, and a third puts others: how often each of the two read these bytes, and how many others came as
/// they were put.
fn read_beside<R: Threads + Wait + Sync>(
    rt: &R,
    store: &Store<Global>,
    pass: &BlockPass<Global>,
    bytes: &[u8],
) -> ((u32, u32), u32)
    requires { IsOf store.now pass.now }
{
    thread::join(
        rt,
        ||
            requires { IsOf store.now pass.now }
        { read_twice(rt, store, pass, bytes) },
        || fill(rt, store, 0, OTHERS),
    )
}

/// What each of two readers read, and how many others a third thread put beside them, once a first block is put.
fn first_beside<R: Host>(rt: &R, store: &Store<Global>, bytes: &[u8]) -> ((u32, u32), u32) {
    let pass = store.put(rt, bytes).expect(rt, "memory");
    read_beside(rt, store, &pass, bytes)
}

/// Two threads read the first block while a third puts others.
fn gives_beside<R: Host>(rt: &R, store: &Store<Global>) {
    let bytes = b"the first block";
    let ((first, second), others) = first_beside(rt, store, bytes);
    assert_eq!(rt; [first, second, others], [READS, READS, OTHERS]);
    assert!(rt; has_at(store, 0, bytes), "the first");
    let last = stands_at(store, 1_000);
    assert!(rt; last == (true, true), "the last");
    ends_at(rt, store, 1_001);
}

#[test]
fn two_threads_read_while_a_third_puts(rt: HostRuntime) {
    in_store(&rt, u64::MAX, |store| gives_beside(&rt, store));
}
