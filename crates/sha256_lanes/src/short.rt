//! Texts of 55 bytes, whose hash value takes one block.

ghost use Rattle.std.specs.Prelude.{◌≡◌, ℕ, [], ◌+◌, ◌*◌, ◌/◌, ◌%◌, ◌<◌, ◌^◌, slice_index, slice_index_or};
ghost use Rattle.sha2.specs.Sha256.{digest_bytes, first_words, padded_message, sha256};
ghost use Rattle.sha256_lanes.specs.Lanes.{AreWords, lane, short_text};

use crate::compression::{Block, State, compress};
use crate::hashing::initial;
use crate::loading::word_in;
use crate::values::Values;
use crate::words::{Words, add, shift_left, shift_right, splat};

/// What follows the last byte of the value.
const PADDING: u32 = 0x80;

/// The size of the text, in bits.
const SIZE: u32 = 440;

/// The word of which the last three bytes of one word and the first byte of another are made.
#[inline(always)]
fn across(one: Words, other: Words) -> Words
    ensures { (i : ℕ) → i < 8 → slice_index result i
        ≡ (slice_index one i * 2 ^ 8 % 2 ^ 32 + slice_index other i / 2 ^ 24) % 2 ^ 32 }
{
    add(shift_left(one, 8), shift_right(other, 24))
}

/// The block of each lane.
#[inline(always)]
fn block_of(prefix: &[u8; 16], numbers: Words, marks: Words, value: &State) -> Block
    requires numbers { AreWords numbers }
    requires marks { (i : ℕ) → slice_index marks i < 2 ^ 24 }
    requires value { (i : ℕ) → i < 8 → AreWords (lane i value.now) }
    ensures { (i : ℕ) → i < 8 → lane i result ≡ first_words (padded_message (short_text prefix.now
        (slice_index numbers i) (slice_index marks i) (digest_bytes (lane i value.now) 8))) 16 }
{
    [
        splat(word_in(prefix, 0)),
        splat(word_in(prefix, 4)),
        splat(word_in(prefix, 8)),
        splat(word_in(prefix, 12)),
        numbers,
        across(marks, value[0]),
        across(value[0], value[1]),
        across(value[1], value[2]),
        across(value[2], value[3]),
        across(value[3], value[4]),
        across(value[4], value[5]),
        across(value[5], value[6]),
        across(value[6], value[7]),
        add(shift_left(value[7], 8), splat(PADDING)),
        splat(0),
        splat(SIZE),
    ]
}

/// The digests of eight texts of 55 bytes: a prefix that all have, a number of four bytes, one of three, and a value.
pub fn hash_short(prefix: &[u8; 16], numbers: [u32; 8], marks: [u32; 8], value: &Values) -> Values
    requires numbers { AreWords numbers }
    requires marks { (i : ℕ) → slice_index marks i < 2 ^ 24 }
    ensures { (i : ℕ) → i < 8
        → slice_index_or result i [] ≡ sha256 (short_text prefix.now (slice_index numbers i) (slice_index marks i)
        (slice_index_or value.now i [])) }
{
    let mut state = initial();
    compress(&mut state, &block_of(prefix, numbers, marks, value.words()));
    Values::of(state)
}
