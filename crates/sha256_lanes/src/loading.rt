//! Words from bytes (FIPS 180-4 section 5.2.1).

ghost use Rattle.std.specs.Prelude.{◌≡◌, ℕ, ◌+◌, ◌*◌, ◌<◌, ◌≤◌, length, slice_index};
ghost use Rattle.sha2.specs.Sha256.{first_words, word_at};
ghost use Rattle.sha256_lanes.specs.Lanes.{lane, part};

use crate::compression::Block;
use crate::words::Words;

/// The word at a byte of a text.
#[inline(always)]
pub(crate) fn word_in(text: &[u8], at: usize) -> u32
    requires { at + 4 ≤ length text.now }
    ensures { result ≡ word_at text.now at }
{
    u32::from_be_bytes([text[at], text[at + 1], text[at + 2], text[at + 3]])
}

/// The words at this place of the block of each lane. The blocks stand in the text, the first from `first` on, and each
/// `stride` bytes after the one before.
#[inline(always)]
fn words_at(text: &[u8], first: usize, stride: usize, place: usize) -> Words
    requires fits { first + stride * 7 + 64 ≤ length text.now }
    requires place { place < 16 }
    ensures { (i : ℕ) → i < 8
        → slice_index result i ≡ word_at (part (first + stride * i) 64 text.now) (4 * place) }
{
    let mut words = [0u32; 8];
    'lanes: for i in 0..8 {
        words[i] = word_in(text, first + stride * i + 4 * place);
    }
    words
}

/// The block of each lane. They stand in the text, the first from `first` on, and each `stride` bytes after the one
/// before.
#[inline(always)]
pub(crate) fn loaded(text: &[u8], first: usize, stride: usize) -> Block
    requires { first + stride * 7 + 64 ≤ length text.now }
    ensures { (i : ℕ) → i < 8
        → lane i result ≡ first_words (part (first + stride * i) 64 text.now) 16 }
{
    let mut block = [[0u32; 8]; 16];
    'places: for place in 0..16 {
        block[place] = words_at(text, first, stride, place);
    }
    block
}
