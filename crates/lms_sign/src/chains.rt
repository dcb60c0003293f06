//! The chains of a leaf (RFC 8554 sections 4.2 and 4.3).

ghost use Rattle.std.specs.Prelude.{◌≡◌, ◌++◌};
ghost use Rattle.std.specs.Int.{w8};
ghost use Rattle.layout.specs.Format.{be};
ghost use Rattle.lms_sign.specs.Hashing.{headed};
ghost use Rattle.lms_sign.specs.Chains.{drawn};

use crate::bytes::put;
use layout::{Digest, digest};

/// The size of what a step hashes: an identifier, three numbers and a value.
const STEP_SIZE: usize = 55;

/// Where the leaf's number stands in them.
const LEAF_AT: usize = 16;

/// Where the chain's number stands in them.
const CHAIN_AT: usize = 20;

/// Where the number of the step stands in them.
const NUMBER_AT: usize = 22;

/// Where the value stands in them.
const VALUE_AT: usize = 23;

/// The bytes that a step hashes.
#[inline]
fn step_text(id: &[u8; 16], leaf: u32, chain: u16, number: u8, value: &[u8; 32]) -> [u8; 55]
    ensures { result ≡ headed id.now leaf chain ++ (be w8 number ++ value.now) }
{
    let mut text = [0; STEP_SIZE];
    put(&mut text, 0, id);
    put(&mut text, LEAF_AT, &leaf.to_be_bytes());
    put(&mut text, CHAIN_AT, &chain.to_be_bytes());
    text[NUMBER_AT] = number;
    put(&mut text, VALUE_AT, value);
    text
}

/// What is drawn from the seed for a chain of a leaf (RFC 8554 Appendix A).
#[tactic(auto, unfolding(crate::specs::Chains::drawn, crate::specs::Chains::step))]
pub(crate) fn draw(seed: &[u8; 32], id: &[u8; 16], leaf: u32, chain: u16) -> Digest
    ensures { result ≡ drawn seed.now id.now leaf chain }
{
    digest(&step_text(id, leaf, chain, u8::MAX, seed))
}
