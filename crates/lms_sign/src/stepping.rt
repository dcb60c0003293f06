//! Steps of the chains of one leaf, eight at a time side by side.

ghost use Rattle.std.specs.Prelude.{◌≡◌, ◌≢◌, ℕ, List, [], false, ◌+◌, ◌-◌, ◌*◌, ◌<◌, ◌≤◌, ◌^◌, ◌&&◌, nat_le, nat_lt};
ghost use Rattle.std.specs.Prelude.{if◌then◌else◌, length, slice_index, slice_index_or};
ghost use Rattle.sha256_lanes.specs.Lanes.{AreWords};
ghost use Rattle.lms_sign.specs.Chains.{chained, step};

use crate::bytes::DIGEST_SIZE;
use crate::digits::LAST_DIGIT;
use crate::leaves::GROUP_SIZE;
use crate::one_time::CHAIN_COUNT;
use sha256_lanes::{Values, hash_short};

/// A value of each chain of a leaf.
pub(crate) type ChainValues = [[u8; 32]; 67];

/// The number of a step of each chain of a leaf.
pub(crate) type ChainSteps = [u16; 67];

/// The values of these chains, and nothing in the lanes that are left over.
#[inline]
fn taken(values: &ChainValues, chains: &[u16]) -> [[u8; 32]; 8]
    requires few { length chains.now ≤ 8 }
    requires chains { (k : ℕ) → k < length chains.now → slice_index chains.now k < 67 }
    ensures { (k : ℕ) → k < length chains.now
        → slice_index_or result k [] ≡ slice_index_or values.now (slice_index chains.now k) [] }
{
    let mut taken = [[0u8; DIGEST_SIZE]; GROUP_SIZE];
    for k in 0..chains.len() {
        taken[k] = values[usize::from(chains[k])];
    }
    taken
}

/// The bytes that the numbers of a step and of these chains have.
#[inline]
fn marks(chains: &[u16], number: u8) -> [u32; 8]
    requires few { length chains.now ≤ 8 }
    requires chains { (k : ℕ) → k < length chains.now → slice_index chains.now k < 67 }
    ensures marks { (k : ℕ) → k < length chains.now → slice_index result k ≡ slice_index chains.now k * 256 + number }
    ensures small { (k : ℕ) → slice_index result k < 2 ^ 24 }
{
    let mut marks = [0u32; GROUP_SIZE];
    for k in 0..chains.len() {
        marks[k] = u32::from(chains[k]) * 256 + u32::from(number);
    }
    marks
}

/// Puts the values of these chains back.
#[inline]
fn put_back(values: &mut ChainValues, chains: &[u16], stepped: &[[u8; 32]; 8])
    requires few { length chains.now ≤ 8 }
    requires chains { (k : ℕ) → k < length chains.now → slice_index chains.now k < 67 }
    requires same { (j k : ℕ) → j < length chains.now → k < length chains.now
        → slice_index chains.now j ≡ slice_index chains.now k
        → slice_index_or stepped.now j [] ≡ slice_index_or stepped.now k [] }
    ensures put { (k : ℕ) → k < length chains.now
        → slice_index_or values.new (slice_index chains.now k) [] ≡ slice_index_or stepped.now k [] }
    ensures others { (chain : ℕ) → ((k : ℕ) → k < length chains.now → slice_index chains.now k ≢ chain)
        → slice_index_or values.new chain [] ≡ slice_index_or values.old chain [] }
{
    for k in 0..chains.len() {
        values[usize::from(chains[k])] = stepped[k];
    }
}

/// Takes the step of this number of at most eight chains, side by side.
fn step_listed(id: &[u8; 16], leaf: u32, number: u8, chains: &[u16], values: &mut ChainValues)
    requires few { length chains.now ≤ 8 }
    requires chains { (k : ℕ) → k < length chains.now → slice_index chains.now k < 67 }
    ensures stepped { (k : ℕ) → k < length chains.now
        → slice_index_or values.new (slice_index chains.now k) []
        ≡ step id.now leaf (slice_index chains.now k) number (slice_index_or values.old (slice_index chains.now k) []) }
    ensures others { (chain : ℕ) → ((k : ℕ) → k < length chains.now → slice_index chains.now k ≢ chain)
        → slice_index_or values.new chain [] ≡ slice_index_or values.old chain [] }
{
    let before = Values::from_arrays(&taken(values, chains));
    let after = hash_short(id, [leaf; GROUP_SIZE], marks(chains, number), &before);
    put_back(values, chains, &after.to_arrays());
}

/// Whether a chain takes the step of this number: it isn't before the first one, nor at the end.
#[inline]
fn takes(number: u8, first: u16, end: u16) -> bool
    ensures { result ≡ (nat_le first number && nat_lt number end) }
{
    first <= u16::from(number) && u16::from(number) < end
}

/// Takes the step of this number of each chain that takes it: whose first step isn't later, and whose end is.
pub(crate) fn step_all(
    id: &[u8; 16],
    leaf: u32,
    number: u8,
    firsts: &ChainSteps,
    ends: &ChainSteps,
    values: &mut ChainValues,
)
    ensures { (chain : ℕ) → chain < 67 → slice_index_or values.new chain []
        ≡ (if nat_le (slice_index firsts.now chain) number && nat_lt number (slice_index ends.now chain)
        then step id.now leaf chain number (slice_index_or values.old chain [])
        else slice_index_or values.old chain []) }
{
    let mut chains = [0u16; GROUP_SIZE];
    let mut count = 0usize;
    let mut done = 0u16;
    'chains: for chain in 0..CHAIN_COUNT {
        let place = usize::from(chain);
        if takes(number, firsts[place], ends[place]) {
            chains[count] = chain;
            count += 1;
            if count == GROUP_SIZE {
                step_listed(id, leaf, number, &chains, values);
                count = 0;
                done = chain + 1;
            }
        }
    }
    step_listed(id, leaf, number, &chains[..count], values);
}

/// Takes all steps of each chain, from its first to its end, which isn't taken.
pub(crate) fn advance_all(
    id: &[u8; 16],
    leaf: u32,
    firsts: &ChainSteps,
    ends: &ChainSteps,
    values: &mut ChainValues,
)
    requires { (chain : ℕ) → chain < 67 → slice_index ends.now chain ≤ 15 }
    ensures { (chain : ℕ) → chain < 67 → slice_index_or values.new chain []
        ≡ chained id.now leaf chain (slice_index firsts.now chain)
        (slice_index ends.now chain - slice_index firsts.now chain) (slice_index_or values.old chain []) }
{
    for number in 0..LAST_DIGIT {
        step_all(id, leaf, number, firsts, ends, values);
    }
}
