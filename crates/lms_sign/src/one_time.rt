//! The one-time key of a leaf (RFC 8554 sections 4.3 to 4.6).

ghost use Rattle.std.specs.Prelude.{◌≡◌, ℕ, List, [], ◌++◌, ◌<◌, ◌≤◌, length, slice_index, slice_index_or, take};
ghost use Rattle.lms_sign.specs.Hashing.{joined};
ghost use Rattle.lms_sign.specs.Chains.{drawn};
ghost use Rattle.lms_sign.specs.Digits.{digit};
ghost use Rattle.lms_sign.specs.OneTime.{key_of, key_from, randomizer_of, digest_of, signed_value, candidate};
ghost use Rattle.lms_sign.specs.Signature.{value_in};

use crate::bytes::{DIGEST_SIZE, digest_at, headed_hasher, put};
use crate::chains::draw;
use crate::digits::{LAST_DIGIT, coefficient, with_checksum};
use crate::form::{SIGNATURE_SIZE, VALUES_AT};
use crate::stepping::{ChainSteps, ChainValues, advance_all, step_all};
use layout::Digest;

/// How many chains a leaf has.
pub(crate) const CHAIN_COUNT: u16 = 67;

/// D_PBLC, before the ends of the chains.
pub(crate) const KEY_KIND: u16 = 0x8080;

/// D_MESG, before a text to be signed.
const TEXT_KIND: u16 = 0x8181;

/// In place of a chain's number, where the randomizer is drawn.
const RANDOMIZER_CHAIN: u16 = 65533;

/// What is hashed before a text that the leaf signs.
#[tactic(auto, unfolding(crate::specs::OneTime::randomizer_of))]
pub(crate) fn randomizer(seed: &[u8; 32], id: &[u8; 16], leaf: u32) -> Digest
    ensures value { result ≡ randomizer_of seed.now id.now leaf }
    ensures id_size { length id.now ≡ 16 }
{
    draw(seed, id, leaf, RANDOMIZER_CHAIN)
}

/// The digest of a text that the leaf signs.
pub(crate) fn text_digest(id: &[u8; 16], leaf: u32, randomizer: &Digest, text: &[u8]) -> Digest
    ensures { result ≡ digest_of id.now leaf randomizer.now text.now }
{
    let mut hasher = headed_hasher(id, leaf, TEXT_KIND);
    hasher.update(randomizer.as_bytes());
    hasher.update(text);
    hasher.finish()
}

/// The digits of a digest and its checksum, a step of each chain.
fn digits_of(digest: &Digest) -> ChainSteps
    ensures digits { (chain : ℕ) → chain < 67 → slice_index result chain ≡ digit digest.now chain }
    ensures small { (chain : ℕ) → chain < 67 → slice_index result chain ≤ 15 }
{
    let checked = with_checksum(digest);
    let mut digits = [0u16; CHAIN_COUNT as usize];
    for chain in 0..usize::from(CHAIN_COUNT) {
        digits[chain] = u16::from(coefficient(&checked, chain));
    }
    digits
}

/// The values of the chains in a signature.
fn values_of(signature: &[u8]) -> ChainValues
    requires { length signature.now ≡ SIGNATURE_SIZE }
    ensures { (chain : ℕ) → chain < 67 → slice_index_or result chain [] ≡ value_in signature.now chain }
{
    let mut values = [[0u8; DIGEST_SIZE]; CHAIN_COUNT as usize];
    for chain in 0..usize::from(CHAIN_COUNT) {
        values[chain] = *digest_at(signature, VALUES_AT + DIGEST_SIZE * chain).as_bytes();
    }
    values
}

/// The one-time public key over these ends of the chains.
fn key_from(id: &[u8; 16], leaf: u32, ends: &ChainValues) -> Digest
    ensures { (end : ℕ → List ℕ) → ((chain : ℕ) → chain < 67 → slice_index_or ends.now chain [] ≡ end chain)
        → result ≡ key_from id.now leaf end }
{
    let mut hasher = headed_hasher(id, leaf, KEY_KIND);
    for chain in 0..usize::from(CHAIN_COUNT) {
        hasher.update(&ends[chain]);
    }
    hasher.finish()
}

/// What is drawn from the seed for each chain of a leaf.
fn drawn_values(seed: &[u8; 32], id: &[u8; 16], leaf: u32) -> ChainValues
    ensures { (chain : ℕ) → chain < 67 → slice_index_or result chain [] ≡ drawn seed.now id.now leaf chain }
{
    let mut values = [*seed; CHAIN_COUNT as usize];
    let starts = [0u16; CHAIN_COUNT as usize];
    let all = [u16::MAX; CHAIN_COUNT as usize];
    step_all(id, leaf, u8::MAX, &starts, &all, &mut values);
    values
}

/// The one-time public key of a leaf.
pub(crate) fn leaf_key(seed: &[u8; 32], id: &[u8; 16], leaf: u32) -> Digest
    ensures { result ≡ key_of seed.now id.now leaf }
{
    let mut values = drawn_values(seed, id, leaf);
    let starts = [0u16; CHAIN_COUNT as usize];
    let ends = [u16::from(LAST_DIGIT); CHAIN_COUNT as usize];
    advance_all(id, leaf, &starts, &ends, &mut values);
    key_from(id, leaf, &values)
}

/// The one-time public key that a signature leads to.
pub(crate) fn candidate_key(id: &[u8; 16], leaf: u32, digest: &Digest, signature: &[u8]) -> Digest
    requires { length signature.now ≡ SIGNATURE_SIZE }
    ensures { result ≡ candidate id.now leaf digest.now (value_in signature.now) }
{
    let mut values = values_of(signature);
    let ends = [u16::from(LAST_DIGIT); CHAIN_COUNT as usize];
    advance_all(id, leaf, &digits_of(digest), &ends, &mut values);
    key_from(id, leaf, &values)
}

/// The values of the chains that sign a digest.
fn signing_values(seed: &[u8; 32], id: &[u8; 16], leaf: u32, digest: &Digest) -> ChainValues
    ensures { (chain : ℕ) → chain < 67
        → slice_index_or result chain [] ≡ signed_value seed.now id.now leaf digest.now chain }
{
    let mut values = drawn_values(seed, id, leaf);
    let starts = [0u16; CHAIN_COUNT as usize];
    advance_all(id, leaf, &starts, &digits_of(digest), &mut values);
    values
}

/// Writes the values of the chains that sign a digest.
pub(crate) fn put_values(
    signature: &mut [u8],
    seed: &[u8; 32],
    id: &[u8; 16],
    leaf: u32,
    digest: &Digest,
)
    requires { length signature.old ≡ SIGNATURE_SIZE }
    ensures { take 2184 signature.new
        ≡ take 40 signature.old ++ joined 67 (signed_value seed.now id.now leaf digest.now) }
{
    let values = signing_values(seed, id, leaf, digest);
    for chain in 0..usize::from(CHAIN_COUNT) {
        put(signature, VALUES_AT + DIGEST_SIZE * chain, &values[chain]);
    }
}
