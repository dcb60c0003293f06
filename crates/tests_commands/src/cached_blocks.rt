//! Which blocks are known while some are held, and once they are let go.

use checked_blocks::{CheckedBlocks, With};
use client_tree::Held;
use layout::{Memory, digest};
use std::alloc::Global;
use std::process::Abort;
use tree_parts::Blocks;

/// A text of one byte.
fn text(alloc: Global, byte: u8) -> Result<Vec<u8>, Memory> {
    let text = Vec::from_slice(alloc, &[byte])?;
    Ok(text)
}

/// What is known at first, where the beginning has the text of the byte `0` alone.
fn at_first(alloc: Global) -> Result<CheckedBlocks<Global>, Memory> {
    let mut first = Held::empty(alloc);
    let _digest = first.keep(text(alloc, b'0')?)?;
    CheckedBlocks::new(alloc, first)
}

/// Holds the texts of these bytes, in turn.
fn hold(blocks: &mut CheckedBlocks<Global>, alloc: Global, bytes: &[u8]) -> Result<(), Memory> {
    for byte in bytes {
        let text = text(alloc, *byte)?;
        blocks.hold(digest(&text), text)?;
    }
    Ok(())
}

/// Keeps the texts of these bytes in the cache.
fn keep(blocks: &mut CheckedBlocks<Global>, alloc: Global, bytes: &[u8]) -> Result<(), Memory> {
    let mut texts = Vec::new(alloc);
    for byte in bytes {
        texts.push(text(alloc, *byte)?)?;
    }
    blocks.keep(&texts);
    Ok(())
}

/// Whether the text of the byte is known, which counts as reading it.
fn reads(blocks: &CheckedBlocks<Global>, byte: u8) -> bool {
    match blocks.get(digest(&[byte])) {
        Some(text) => text == [byte].as_slice(),
        None => false,
    }
}

/// Whether each of the texts of these bytes is known, or each isn't.
fn all_read(blocks: &CheckedBlocks<Global>, bytes: &[u8], known: bool) -> bool {
    for byte in bytes {
        if reads(blocks, *byte) != known {
            return false;
        }
    }
    true
}

/// How many of the texts of the bytes `1` to `9` are known.
fn known(blocks: &CheckedBlocks<Global>) -> usize {
    let mut count = 0usize;
    for byte in b'1'..=b'9' {
        if blocks.get(digest(&[byte])).is_some() {
            count = count.saturating_add(1);
        }
    }
    count
}

/// Whether what a word names has this number.
fn is_so(blocks: &CheckedBlocks<Global>, word: &str, number: usize) -> bool {
    match word {
        "capacity" => blocks.capacity() == number,
        "held" => blocks.held_len() == number,
        "cached" => blocks.cached_len() == number,
        "known" => known(blocks) == number,
        _ => false,
    }
}

/// Takes a step of a word and its digits: whether that succeeds, or what they say is so.
fn step(blocks: &mut CheckedBlocks<Global>, alloc: Global, word: &str, digits: &str) -> bool {
    let bytes = digits.as_bytes();
    match word {
        "hold" => hold(blocks, alloc, bytes).is_ok(),
        "keep" => keep(blocks, alloc, bytes).is_ok(),
        "take-up" => blocks.take_up().is_ok(),
        "let-go" => {
            blocks.let_go();
            true
        }
        "reads" => all_read(blocks, bytes, true),
        "lacks" => all_read(blocks, bytes, false),
        _ => counted(blocks, word, digits),
    }
}

/// The same of a word whose digits are one number.
fn counted(blocks: &mut CheckedBlocks<Global>, word: &str, digits: &str) -> bool {
    match digits.parse::<usize>() {
        Ok(number) if word == "room" && 0 < number && number < 10 => {
            blocks.cache(number);
            true
        }
        Ok(number) => is_so(blocks, word, number),
        Err(_) => false,
    }
}

/// All is so at first, where there is room for 1,024 blocks.
const AT_FIRST: &str = "\
capacity 1024
held 0
cached 0
reads 0
known 0
";

const HELD_BLOCKS_STAY_AT_CAPACITY_1: &str = "\
room 1
hold 123
held 3
known 3
let-go
held 0
cached 1
reads 3
known 1
reads 0
";

const SMALLER_CACHE_DROPS_NOTHING_THAT_IS_HELD: &str = "\
hold 123
let-go
hold 45
room 1
reads 3
reads 4
reads 5
known 3
";

/// The least recently used of three is read, and stays when the cache has room for one alone.
const WHAT_IS_READ_IN_A_CHECK_IS_HELD: &str = "\
hold 123
let-go
reads 1
take-up
held 1
cached 2
room 1
reads 1
known 2
";

const HIT_IS_A_USE: &str = "\
room 2
hold 12
let-go
reads 1
let-go
hold 3
let-go
cached 2
reads 1
lacks 2
reads 3
";

/// From the most recently used: 4, 3, 2, 1; after the hits 3, 1, 4, 2.
const SEVERAL_HITS_KEEP_THEIR_ORDER: &str = "\
hold 1234
let-go
reads 3
reads 1
take-up
held 2
let-go
room 3
cached 3
room 2
reads 3
reads 1
lacks 4
lacks 2
room 1
reads 3
lacks 1
";

const TEXTS_ARE_KEPT_IN_THE_CACHE: &str = "\
room 2
keep 123
held 0
cached 2
lacks 1
reads 2
reads 3
";

const KNOWN_TEXT_IS_NOT_HELD_AGAIN: &str = "\
hold 011
held 1
";

/// Each step of a script succeeds, which begins with what is known at first.
fn succeeds(rt: &impl Abort, alloc: Global, script: &str) {
    let mut blocks = at_first(alloc).expect(rt, "memory");
    for line in script.lines() {
        let (word, digits) = line.split_once(' ').unwrap_or((line, ""));
        if !step(&mut blocks, alloc, word, digits) {
            rt.panic(line);
        }
    }
}

#[test]
fn blocks_are_held_and_cached(rt: HostRuntime) {
    let alloc = rt.alloc();
    for script in [
        AT_FIRST,
        HELD_BLOCKS_STAY_AT_CAPACITY_1,
        SMALLER_CACHE_DROPS_NOTHING_THAT_IS_HELD,
        WHAT_IS_READ_IN_A_CHECK_IS_HELD,
        HIT_IS_A_USE,
        SEVERAL_HITS_KEEP_THEIR_ORDER,
        TEXTS_ARE_KEPT_IN_THE_CACHE,
        KNOWN_TEXT_IS_NOT_HELD_AGAIN,
    ] {
        succeeds(&rt, alloc, script);
    }
}

/// Whether the texts of the bytes `1` and `2` are known once that of `2` is added, and that of `3` isn't.
fn knows_one_more(blocks: &CheckedBlocks<Global>) -> bool {
    let with = With::new(blocks, digest(b"2"), b"2");
    with.get(digest(b"1")).is_some()
        && with.get(digest(b"2")).is_some()
        && with.get(digest(b"3")).is_none()
}

#[test]
fn one_more_is_known_before_it_is_held(rt: HostRuntime) {
    let alloc = rt.alloc();
    let mut blocks = at_first(alloc).expect(&rt, "memory");
    hold(&mut blocks, alloc, b"1").expect(&rt, "memory");
    assert!(rt; knows_one_more(&blocks) && known(&blocks) == 1);
}

/// Five blocks are held, as far as memory allows, and let go: how many are cached then.
fn held_and_let_go(rt: &impl Abort, blocks: &mut CheckedBlocks<Global>, alloc: Global) -> usize {
    let all = hold(blocks, alloc, b"12345").is_ok();
    let held = blocks.held_len();
    assert!(rt; known(blocks) == held && (!all || held == 5));
    blocks.let_go();
    // At most the one that was refused is left out.
    assert!(rt; blocks.cached_len().saturating_add(1) >= held);
    blocks.cached_len()
}

/// Whatever was refused, what is known afterwards was held before.
fn keeps_the_others(rt: &impl Abort, blocks: &mut CheckedBlocks<Global>, alloc: Global) {
    let cached = held_and_let_go(rt, blocks, alloc);
    assert!(rt; blocks.held_len() == 0 && known(blocks) == cached);
    if blocks.take_up().is_err() {
        assert!(rt; blocks.held_len() == 0 && blocks.cached_len() == cached);
        assert!(rt; blocks.take_up().is_ok());
    }
    assert!(rt; blocks.held_len() == cached && known(blocks) == cached);
}

/// Run with each allocation refused in turn.
#[test]
fn refused_growth_leaves_the_others(rt: HostRuntime) {
    if let Ok(mut blocks) = at_first(rt.alloc()) {
        keeps_the_others(&rt, &mut blocks, rt.alloc());
    }
}
