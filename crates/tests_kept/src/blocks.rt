//! Blocks in a file: its bytes, and what is found in it.

use crate::storages::{Host, Memory, file_text, print_lines, storage_of};
use block_file::{BlockError, BlockFile};
use layout::{Digest, let_go};
use std::alloc::Global;
use tests_refusing::Refusing;

/// Room enough.
pub(crate) const ROOM: u64 = 1_000_000;

/// The digest of `abc`, an example of FIPS 180-4.
pub(crate) const ABC: [u8; 32] = [
    0xba, 0x78, 0x16, 0xbf, 0x8f, 0x01, 0xcf, 0xea, 0x41, 0x41, 0x40, 0xde, 0x5d, 0xae, 0x22, 0x23,
    0xb0, 0x03, 0x61, 0xa3, 0x96, 0x17, 0x7a, 0x9c, 0xb4, 0x10, 0xff, 0x61, 0xf2, 0x00, 0x15, 0xad,
];

/// The digest of no bytes.
pub(crate) const NOTHING: [u8; 32] = [
    0xe3, 0xb0, 0xc4, 0x42, 0x98, 0xfc, 0x1c, 0x14, 0x9a, 0xfb, 0xf4, 0xc8, 0x99, 0x6f, 0xb9, 0x24,
    0x27, 0xae, 0x41, 0xe4, 0x64, 0x9b, 0x93, 0x4c, 0xa4, 0x95, 0x99, 0x1b, 0x78, 0x52, 0xb8, 0x55,
];

/// The digest of `abd`.
pub(crate) const ABD: [u8; 32] = [
    0xa5, 0x2d, 0x15, 0x9f, 0x26, 0x2b, 0x2c, 0x6d, 0xdb, 0x72, 0x4a, 0x61, 0x84, 0x0b, 0xef, 0xc3,
    0x6e, 0xb3, 0x0c, 0x88, 0x87, 0x7a, 0x40, 0x30, 0xb6, 0x5c, 0xbe, 0x86, 0x29, 0x84, 0x49, 0xc9,
];

/// Blocks in a file in memory.
type Blocks = BlockFile<Memory, Global>;

/// The blocks of a storage.
pub(crate) fn opened(rt: &impl Host, storage: Memory, room: u64) -> Blocks {
    match BlockFile::open(rt.alloc(), storage, room) {
        Ok(blocks) => blocks,
        Err((error, _)) => panic!(rt; "{error}"),
    }
}

/// Puts a text, whose digest is this one.
pub(crate) fn put(rt: &impl Host, blocks: &mut Blocks, text: &[u8], wanted: &[u8; 32]) {
    assert!(rt; blocks.usable());
    match blocks.put(text) {
        Ok(digest) => assert!(rt; digest.as_bytes() == wanted),
        Err(error) => panic!(rt; "{error}"),
    }
}

/// The text of a digest is this one, or there is none.
pub(crate) fn is_found(
    rt: &impl Host,
    blocks: &mut Blocks,
    digest: &[u8; 32],
    wanted: Option<&[u8]>,
) {
    assert!(rt; blocks.usable());
    match blocks.fetch(&Digest::from_bytes(*digest)) {
        Ok(Some(text)) => assert!(rt; wanted == Some(text.as_slice())),
        Ok(None) => assert!(rt; wanted.is_none()),
        Err(error) => panic!(rt; "{error}"),
    }
}

/// Adds the bytes of a block: the length, the digest and the text.
pub(crate) fn add_block(rt: &impl Host, file: &mut Vec<u8>, digest: &[u8; 32], text: &[u8]) {
    let size = [0, 0, 0, u8::try_from(text.len()).expect(rt, "a short text")];
    for part in [size.as_slice(), digest.as_slice(), text] {
        file.extend_from_slice(part).expect(rt, "memory");
    }
}

/// The file of two blocks, with this behind them.
fn two_blocks(rt: &impl Host, behind: &[u8]) -> Vec<u8> {
    let mut file = Vec::new(rt.alloc());
    add_block(rt, &mut file, &ABC, b"abc");
    add_block(rt, &mut file, &NOTHING, b"");
    file.extend_from_slice(behind).expect(rt, "memory");
    file
}

/// Where the second of them ends.
const END: usize = 39 + 36;

#[test]
fn blocks_stand_one_after_another(rt: HostRuntime) {
    let mut blocks = opened(&rt, storage_of(&rt, b""), ROOM);
    is_found(&rt, &mut blocks, &ABC, None);
    put(&rt, &mut blocks, b"abc", &ABC);
    put(&rt, &mut blocks, b"", &NOTHING);
    // What is there isn't written again.
    put(&rt, &mut blocks, b"abc", &ABC);
    assert!(rt; blocks.end() == END);
    is_found(&rt, &mut blocks, &ABC, Some(b"abc"));
    is_found(&rt, &mut blocks, &NOTHING, Some(b""));
    is_found(&rt, &mut blocks, &ABD, None);
    let file = file_text(&rt, blocks.close());
    assert!(rt; file.as_slice() == two_blocks(&rt, b"\xff\xff\xff\xff").as_slice());
}

/// What stands behind two blocks is none, and is written over by the next.
fn goes_on_over(rt: &impl Host, behind: &[u8]) {
    let file = two_blocks(rt, behind);
    let mut blocks = opened(rt, storage_of(rt, &file), ROOM);
    assert!(rt; blocks.end() == END, "{behind:?}");
    is_found(rt, &mut blocks, &ABC, Some(b"abc"));
    is_found(rt, &mut blocks, &NOTHING, Some(b""));
    is_found(rt, &mut blocks, &ABD, None);
    put(rt, &mut blocks, b"abd", &ABD);
    let mut wanted = two_blocks(rt, b"");
    add_block(rt, &mut wanted, &ABD, b"abd");
    wanted
        .extend_from_slice(b"\xff\xff\xff\xff")
        .expect(rt, "memory");
    let past = behind.get(43..).unwrap_or(b"");
    wanted.extend_from_slice(past).expect(rt, "memory");
    let made = file_text(rt, blocks.close());
    assert!(rt; made.as_slice() == wanted.as_slice(), "{behind:?}");
}

#[test]
fn blocks_go_on_behind_the_last_one(rt: HostRuntime) {
    for behind in [
        b"".as_slice(),
        b"\0\0\0\x03torn",
        b"\0\0\x80\x0c",
        &[0xff; 40],
        &[0xff; 90],
        &[1; 50],
    ] {
        goes_on_over(&rt, behind);
    }
    // A block whose last byte is missing.
    let mut torn = Vec::new(rt.alloc());
    add_block(&rt, &mut torn, &ABD, b"abd");
    torn.truncate(38);
    goes_on_over(&rt, &torn);
}

/// A text that hasn't the digest before it is none of that digest, and hides none, before it or behind it.
#[test]
fn digests_are_compared(rt: HostRuntime) {
    let mut file = Vec::new(rt.alloc());
    add_block(&rt, &mut file, &ABC, b"abd");
    let mut blocks = opened(&rt, storage_of(&rt, &file), ROOM);
    is_found(&rt, &mut blocks, &ABC, None);
    is_found(&rt, &mut blocks, &ABD, None);
    put(&rt, &mut blocks, b"abc", &ABC);
    is_found(&rt, &mut blocks, &ABC, Some(b"abc"));
    let_go(blocks);
    add_block(&rt, &mut file, &ABC, b"abc");
    add_block(&rt, &mut file, &ABC, b"");
    let mut all = opened(&rt, storage_of(&rt, &file), ROOM);
    assert!(rt; all.end() == 39 + 39 + 36);
    is_found(&rt, &mut all, &ABC, Some(b"abc"));
    let_go(all);
}

#[test]
fn blocks_have_a_size_and_room(rt: HostRuntime) {
    let mut blocks = opened(&rt, storage_of(&rt, b""), END as u64);
    let large = Vec::from_elem(rt.alloc(), 0, 32_780).expect(&rt, "memory");
    assert!(rt; blocks.usable());
    assert!(rt; blocks.put(&large) == Err(BlockError::TooLarge));
    put(&rt, &mut blocks, b"abc", &ABC);
    assert!(rt; blocks.usable());
    assert!(rt; blocks.put(b"a") == Err(BlockError::Full));
    put(&rt, &mut blocks, b"", &NOTHING);
    // What is there needs no room.
    put(&rt, &mut blocks, b"abc", &ABC);
    assert!(rt; blocks.end() == END);
    let_go(blocks);
}

/// Gets a block and puts another.
fn get_and_put(
    rt: &impl Host,
    blocks: &mut BlockFile<Memory, &Refusing<Global>>,
) -> Result<(), BlockError> {
    assert!(rt; blocks.usable());
    let found = blocks.fetch(&Digest::from_bytes(ABC))?;
    assert!(rt; found.is_some());
    let_go(found);
    blocks.put(b"abd")?;
    Ok(())
}

/// Opens a file of two blocks, gets one and puts another, where this growth of memory is refused. True where one was:
/// then that is told, and with memory the same calls go well.
fn wants_memory(rt: &impl Host, heap: &Refusing<Global>, file: &[u8], number: u64) -> bool {
    heap.refuse(number);
    let mut blocks = match BlockFile::open(heap, storage_of(rt, file), ROOM) {
        Ok(blocks) => blocks,
        Err((error, _)) => {
            assert!(rt; error == BlockError::Memory && heap.asked(number) >= number);
            return true;
        }
    };
    let result = get_and_put(rt, &mut blocks);
    let is_refused = heap.asked(number) >= number;
    heap.refuse(0);
    assert!(rt; result.is_ok() || result == Err(BlockError::Memory));
    assert!(rt;
        result.is_err() == is_refused,
        "growth {number} is refused, and nothing told"
    );
    assert!(rt; get_and_put(rt, &mut blocks).is_ok());
    is_refused
}

#[test]
fn without_memory_nothing_is_put(rt: HostRuntime) {
    let file = two_blocks(&rt, b"");
    let heap = Refusing::new(rt.alloc());
    let mut refused: usize = 0;
    for number in 1..100 {
        if wants_memory(&rt, &heap, &file, number) {
            refused = refused.saturating_add(1);
        }
    }
    assert_eq!(rt; refused, 5);
}

#[test]
fn errors_of_blocks_print(rt: HostRuntime) {
    let errors = [
        BlockError::TooLarge,
        BlockError::Full,
        BlockError::Device,
        BlockError::Memory,
    ];
    let lines =
        "the block is too large\nthe blocks have no room left\nthe device failed\nout of memory\n";
    print_lines(&rt, &errors, lines);
}
