//! Digests of eight messages of one size (FIPS 180-4 sections 5 and 6.2).

ghost use Rattle.std.specs.Prelude.{◌≡◌, ℕ, List, [], ◌+◌, ◌*◌, ◌%◌, ◌<◌, ◌≤◌, length, slice_index_or};
ghost use Rattle.sha2.specs.Sha256.{digest_bytes, hash_after, initial_hash_256, padding, sha256};
ghost use Rattle.sha256_lanes.specs.Lanes.{lane, part};

use crate::compression::{State, compress};
use crate::loading::loaded;
use crate::words::splat;

/// The size of a block, in bytes.
pub(crate) const BLOCK_SIZE: usize = 64;

/// The size of a digest, in bytes.
pub(crate) const DIGEST_SIZE: usize = 32;

/// Where the length stands in a block that is padding alone.
const LENGTH_AT: usize = 56;

/// The hash values before the first block (FIPS 180-4 section 5.3.3).
#[inline(always)]
pub(crate) fn initial() -> State
    ensures { (i : ℕ) → i < 8 → lane i result ≡ initial_hash_256 }
{
    [
        splat(0x6a09_e667),
        splat(0xbb67_ae85),
        splat(0x3c6e_f372),
        splat(0xa54f_f53a),
        splat(0x510e_527f),
        splat(0x9b05_688c),
        splat(0x1f83_d9ab),
        splat(0x5be0_cd19),
    ]
}

/// The digest that the words of a lane are.
#[inline]
fn digest_of(state: &State, number: usize) -> [u8; 32]
    requires { number < 8 }
    ensures { result ≡ digest_bytes (lane number state.now) 8 }
{
    let mut bytes = [0u8; DIGEST_SIZE];
    'words: for k in 0..8 {
        bytes[4 * k..4 * k + 4].copy_from_slice(&state[k][number].to_be_bytes());
    }
    bytes
}

/// The digest of each lane.
pub(crate) fn digests_of(state: &State) -> [[u8; 32]; 8]
    ensures { (i : ℕ) → i < 8 → slice_index_or result i [] ≡ digest_bytes (lane i state.now) 8 }
{
    let mut digests = [[0u8; DIGEST_SIZE]; 8];
    'lanes: for number in 0..8 {
        digests[number] = digest_of(state, number);
    }
    digests
}

/// The hash values after so many blocks of each lane.
#[inline]
fn hashed(text: &[u8], stride: usize, count: usize) -> State
    requires { stride * 7 + count * 64 ≤ length text.now }
    ensures { (i : ℕ) → i < 8
        → lane i result ≡ hash_after initial_hash_256 (part (stride * i) (count * 64) text.now) count }
{
    let mut state = initial();
    'blocks: for n in 0..count {
        compress(&mut state, &loaded(text, BLOCK_SIZE * n, stride));
    }
    state
}

/// The padding of a message that ends with a block (FIPS 180-4 section 5.1.1).
pub(crate) fn whole_padding(size: usize) -> [u8; 64]
    requires { size % 64 ≡ 0 }
    ensures { result ≡ padding size }
{
    let mut block = [0u8; BLOCK_SIZE];
    block[0] = 0x80;
    block[LENGTH_AT..].copy_from_slice(&(size as u64).wrapping_mul(8).to_be_bytes());
    block
}

/// The digests of eight messages of this size, in bytes, which is a multiple of 64. They stand in the text one after
/// another.
pub fn digests_of_whole(text: &[u8], size: usize) -> [[u8; 32]; 8]
    requires whole { size % 64 ≡ 0 }
    requires fits { size * 8 ≤ length text.now }
    ensures { (i : ℕ) → i < 8 → slice_index_or result i [] ≡ sha256 (part (size * i) size text.now) }
{
    let mut state = hashed(text, size, size / BLOCK_SIZE);
    compress(&mut state, &loaded(&whole_padding(size), 0, 0));
    digests_of(&state)
}
