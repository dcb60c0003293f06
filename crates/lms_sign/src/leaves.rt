//! The one-time public keys of eight leaves, whose chains are hashed side by side.

ghost use Rattle.std.specs.Prelude.{◌≡◌, ℕ, List, [], ◌+◌, ◌<◌, ◌≤◌, slice_index, slice_index_or};
ghost use Rattle.sha256_lanes.specs.Lanes.{AreWords};
ghost use Rattle.lms_sign.specs.Chains.{step, value_of};
ghost use Rattle.lms_sign.specs.OneTime.{key_of};

use crate::bytes::{DIGEST_SIZE, headed_hasher};
use crate::digits::LAST_DIGIT;
use crate::one_time::{CHAIN_COUNT, KEY_KIND};
use crate::tree::LEAF_COUNT;
use layout::Digest;
use sha256_lanes::{Values, hash_short};

/// Of how many leaves the keys are made side by side.
pub const GROUP_SIZE: usize = 8;

/// How many such groups of leaves a key has.
pub const GROUP_COUNT: usize = 128;

/// The numbers of eight leaves.
type Leaves = [u32; 8];

/// The ends of the 67 chains of each of eight leaves, by chain.
type Ends = [[[u8; 32]; 8]; 67];

/// A step of the same chain of each leaf.
#[inline]
fn step_each(id: &[u8; 16], leaves: Leaves, chain: u16, number: u8, value: &Values) -> Values
    requires { AreWords leaves }
    ensures { (i : ℕ) → i < 8 → slice_index_or result i []
        ≡ step id.now (slice_index leaves i) chain number (slice_index_or value.now i []) }
{
    let mark = u32::from(chain) * 256 + u32::from(number);
    hash_short(id, leaves, [mark; GROUP_SIZE], value)
}

/// The ends of the same chain of each leaf.
fn ends(seed: &[u8; 32], id: &[u8; 16], leaves: Leaves, chain: u16) -> Values
    requires { AreWords leaves }
    ensures { (i : ℕ) → i < 8 → slice_index_or result i []
        ≡ value_of seed.now id.now (slice_index leaves i) 15 chain }
{
    let mut value = step_each(id, leaves, chain, u8::MAX, &Values::same(seed));
    for number in 0..LAST_DIGIT {
        value = step_each(id, leaves, chain, number, &value);
    }
    value
}

/// The ends of all chains of each leaf.
fn all_ends(seed: &[u8; 32], id: &[u8; 16], leaves: Leaves) -> Ends
    requires { AreWords leaves }
    ensures { (chain i : ℕ) → chain < 67 → i < 8 → slice_index_or (slice_index_or result chain []) i []
        ≡ value_of seed.now id.now (slice_index leaves i) 15 chain }
{
    let mut all = [[[0u8; DIGEST_SIZE]; GROUP_SIZE]; CHAIN_COUNT as usize];
    for chain in 0..CHAIN_COUNT {
        all[usize::from(chain)] = ends(seed, id, leaves, chain).to_arrays();
    }
    all
}

/// The one-time public key of one of the leaves, from the ends of its chains.
fn key_over(id: &[u8; 16], leaf: u32, all: &Ends, place: usize) -> Digest
    requires { place < 8 }
    ensures { (seed : List ℕ) → ((chain : ℕ) → chain < 67
        → slice_index_or (slice_index_or all.now chain []) place [] ≡ value_of seed id.now leaf 15 chain)
        → result ≡ key_of seed id.now leaf }
{
    let mut hasher = headed_hasher(id, leaf, KEY_KIND);
    for chain in 0..CHAIN_COUNT {
        hasher.update(&all[usize::from(chain)][place]);
    }
    hasher.finish()
}

/// The numbers of eight leaves, from this one on.
fn from(first: u32) -> Leaves
    requires { first + 8 ≤ LEAF_COUNT }
    ensures words { AreWords result }
    ensures numbers { (i : ℕ) → i < 8 → slice_index result i ≡ first + i }
{
    [
        first,
        first + 1,
        first + 2,
        first + 3,
        first + 4,
        first + 5,
        first + 6,
        first + 7,
    ]
}

/// The one-time public keys of eight leaves, the first of which has this number.
pub fn leaf_keys(seed: &[u8; 32], id: &[u8; 16], first: u32) -> [Digest; 8]
    requires { first + 8 ≤ LEAF_COUNT }
    ensures { (i : ℕ) → i < 8 → slice_index_or result i [] ≡ key_of seed.now id.now (first + i) }
{
    let all = all_ends(seed, id, from(first));
    let mut keys = [Digest::from_bytes([0; 32]); GROUP_SIZE];
    for place in 0..GROUP_SIZE {
        let leaf = first + place as u32;
        keys[place] = key_over(id, leaf, &all, place);
    }
    keys
}
