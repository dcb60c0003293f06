//! A word of each lane, and what SHA-256 does with words (FIPS 180-4 sections 3.2 and 4.1.2), lane by lane.

ghost use Rattle.std.specs.Prelude.{◌≡◌, ℕ, ◌<◌, ◌≤◌, ◌*◌, ◌/◌, ◌%◌, ◌^◌, slice_index, bit_and, bit_xor};
ghost use Rattle.std.specs.Int.{w32, bit_not, rotate_right};
ghost use Rattle.sha2.specs.Sha256.{add32, ch, maj, big_sigma0, big_sigma1, small_sigma0, small_sigma1};

use std::simd::prelude::*;

/// A word of each lane.
pub(crate) type Words = [u32; 8];

#[inline(always)]
pub(crate) fn add(x: Words, y: Words) -> Words
    ensures { (i : ℕ) → i < 8 → slice_index result i ≡ add32 (slice_index x i) (slice_index y i) }
{
    (u32x8::from_array(x) + u32x8::from_array(y)).to_array()
}

#[inline(always)]
fn xor(x: Words, y: Words) -> Words
    ensures { (i : ℕ) → i < 8 → slice_index result i ≡ bit_xor (slice_index x i) (slice_index y i) }
{
    (u32x8::from_array(x) ^ u32x8::from_array(y)).to_array()
}

#[inline(always)]
fn and(x: Words, y: Words) -> Words
    ensures { (i : ℕ) → i < 8 → slice_index result i ≡ bit_and (slice_index x i) (slice_index y i) }
{
    (u32x8::from_array(x) & u32x8::from_array(y)).to_array()
}

#[inline(always)]
fn not(x: Words) -> Words
    ensures { (i : ℕ) → i < 8 → slice_index result i ≡ bit_not w32 (slice_index x i) }
{
    (!u32x8::from_array(x)).to_array()
}

#[inline(always)]
pub(crate) fn shift_right(x: Words, count: u32) -> Words
    requires { count < 32 }
    ensures { (i : ℕ) → i < 8 → slice_index result i ≡ slice_index x i / 2 ^ count }
{
    (u32x8::from_array(x) >> u32x8::splat(count)).to_array()
}

#[inline(always)]
pub(crate) fn shift_left(x: Words, count: u32) -> Words
    requires { count < 32 }
    ensures { (i : ℕ) → i < 8 → slice_index result i ≡ slice_index x i * 2 ^ count % 2 ^ 32 }
{
    (u32x8::from_array(x) << u32x8::splat(count)).to_array()
}

#[inline(always)]
fn rotate_right(x: Words, count: u32) -> Words
    requires some { 0 < count }
    requires fits { count < 32 }
    ensures { (i : ℕ) → i < 8 → slice_index result i ≡ rotate_right w32 (slice_index x i) count }
{
    let words = u32x8::from_array(x);
    ((words >> u32x8::splat(count)) | (words << u32x8::splat(32 - count))).to_array()
}

// Each is the standard's function, the majority in fewer steps than the standard writes.

#[inline(always)]
pub(crate) fn ch(x: Words, y: Words, z: Words) -> Words
    ensures { (i : ℕ) → i < 8 → slice_index result i ≡ ch (slice_index x i) (slice_index y i) (slice_index z i) }
{
    xor(and(x, y), and(not(x), z))
}

#[inline(always)]
pub(crate) fn maj(x: Words, y: Words, z: Words) -> Words
    ensures { (i : ℕ) → i < 8 → slice_index result i ≡ maj (slice_index x i) (slice_index y i) (slice_index z i) }
{
    xor(y, and(xor(x, y), xor(y, z)))
}

#[inline(always)]
pub(crate) fn big_sigma0(x: Words) -> Words
    ensures { (i : ℕ) → i < 8 → slice_index result i ≡ big_sigma0 (slice_index x i) }
{
    xor(
        xor(rotate_right(x, 2), rotate_right(x, 13)),
        rotate_right(x, 22),
    )
}

#[inline(always)]
pub(crate) fn big_sigma1(x: Words) -> Words
    ensures { (i : ℕ) → i < 8 → slice_index result i ≡ big_sigma1 (slice_index x i) }
{
    xor(
        xor(rotate_right(x, 6), rotate_right(x, 11)),
        rotate_right(x, 25),
    )
}

#[inline(always)]
pub(crate) fn small_sigma0(x: Words) -> Words
    ensures { (i : ℕ) → i < 8 → slice_index result i ≡ small_sigma0 (slice_index x i) }
{
    xor(
        xor(rotate_right(x, 7), rotate_right(x, 18)),
        shift_right(x, 3),
    )
}

#[inline(always)]
pub(crate) fn small_sigma1(x: Words) -> Words
    ensures { (i : ℕ) → i < 8 → slice_index result i ≡ small_sigma1 (slice_index x i) }
{
    xor(
        xor(rotate_right(x, 17), rotate_right(x, 19)),
        shift_right(x, 10),
    )
}

/// The same word in each lane.
#[inline(always)]
pub(crate) fn splat(word: u32) -> Words
    ensures { (i : ℕ) → i < 8 → slice_index result i ≡ word }
{
    u32x8::splat(word).to_array()
}
