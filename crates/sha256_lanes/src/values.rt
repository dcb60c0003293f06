//! Values of 32 bytes, one a lane.

ghost use Rattle.std.specs.Prelude.{◌≡◌, ℕ, [], ◌<◌, slice_index, slice_index_or};
ghost use Rattle.sha2.specs.Sha256.{digest_bytes};
ghost use Rattle.sha256_lanes.specs.Lanes.{AreWords, lane, values_of};

use crate::compression::State;
use crate::hashing::digests_of;
use crate::loading::word_in;
use crate::words::{Words, splat};
use std::marker::Model;

/// A value of 32 bytes for each of eight lanes, numbered from 0 on.
#[derive(Drop)]
pub struct Values {
    words: [[u32; 8]; 8],
}

impl Model for Values {
    ghost use Rattle.std.specs.Prelude.{ℕ, ◌<◌, List};
    ghost use Rattle.sha256_lanes.specs.Lanes.{AreWords, lane, values_of};

    ghost Value = { List (List ℕ) };

    ghost view = { λ v. values_of v.words };

    ghost invariant = { λ v. (i : ℕ) → i < 8 → AreWords (lane i v.words) };
}

/// The words of a value.
#[inline(always)]
fn words_of(value: &[u8; 32]) -> [u32; 8]
    ensures value { digest_bytes result 8 ≡ value.now }
    ensures words { AreWords result }
{
    [
        word_in(value, 0),
        word_in(value, 4),
        word_in(value, 8),
        word_in(value, 12),
        word_in(value, 16),
        word_in(value, 20),
        word_in(value, 24),
        word_in(value, 28),
    ]
}

/// The words at a place of each of eight values.
#[inline(always)]
fn row(values: &[[u32; 8]; 8], place: usize) -> Words
    requires { place < 8 }
    ensures { (i : ℕ) → i < 8 → slice_index result i ≡ slice_index (slice_index_or values.now i []) place }
{
    let mut words = [0u32; 8];
    'lanes: for i in 0..8 {
        words[i] = values[i][place];
    }
    words
}

impl Values {
    #[inline(always)]
    pub(crate) fn of(words: State) -> Values
        requires { (i : ℕ) → i < 8 → AreWords (lane i words) }
        ensures { result ≡ values_of words }
    {
        Values { words }
    }

    #[inline(always)]
    pub(crate) fn words(&self) -> &State
        ensures same { self.now ≡ values_of result.now }
        ensures words { (i : ℕ) → i < 8 → AreWords (lane i result.now) }
    {
        &self.words
    }

    /// The same value in each lane.
    pub fn same(value: &[u8; 32]) -> Values
        ensures { (i : ℕ) → i < 8 → slice_index_or result i [] ≡ value.now }
    {
        Values {
            words: [
                splat(word_in(value, 0)),
                splat(word_in(value, 4)),
                splat(word_in(value, 8)),
                splat(word_in(value, 12)),
                splat(word_in(value, 16)),
                splat(word_in(value, 20)),
                splat(word_in(value, 24)),
                splat(word_in(value, 28)),
            ],
        }
    }

    /// These values, one a lane.
    pub fn from_arrays(values: &[[u8; 32]; 8]) -> Values
        ensures { (i : ℕ) → i < 8 → slice_index_or result i [] ≡ slice_index_or values.now i [] }
    {
        let words = [
            words_of(&values[0]),
            words_of(&values[1]),
            words_of(&values[2]),
            words_of(&values[3]),
            words_of(&values[4]),
            words_of(&values[5]),
            words_of(&values[6]),
            words_of(&values[7]),
        ];
        Values {
            words: [
                row(&words, 0),
                row(&words, 1),
                row(&words, 2),
                row(&words, 3),
                row(&words, 4),
                row(&words, 5),
                row(&words, 6),
                row(&words, 7),
            ],
        }
    }

    /// The value of each lane.
    pub fn to_arrays(&self) -> [[u8; 32]; 8]
        ensures { (i : ℕ) → i < 8 → slice_index_or result i [] ≡ slice_index_or self.now i [] }
    {
        digests_of(&self.words)
    }
}
