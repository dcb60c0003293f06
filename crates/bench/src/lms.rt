//! Times of keys and signatures.

use crate::time::{Host, NOTHING, PIECES, Round, middle, now, since};
use anyhow::{Result, anyhow};
use layout::let_go;
use lms_sign::{Leaf, PrivateKey, sign, verify};
use std::alloc::Global;
use std::rt::Clock;
use std::time::Duration;

/// What is timed.
pub(crate) static NAMES: [&str; PIECES] = ["key", "sign", "verify"];

/// How many leaves are used to time a signature.
const LEAVES: usize = 255;

/// The compressions of a key: for each of 1,024 leaves the starts of 67 chains, 15 steps each, a text of 2,166 bytes
/// and one of 54; for each of the other 1,023 nodes a text of 86 bytes.
const KEY: u32 = 1024 * (67 * 16 + 34 + 1) + 1023 * 2;

/// How many of the 67 times 15 steps of a leaf's chains a signature makes, in the mean.
const STEPS: u32 = 499;

/// Those of a signature of a short text: the leaf's secret, the text, the starts of the chains, and the steps.
const SIGN: u32 = 1 + 3 + 67 + STEPS;

/// Those of a verification: the text, the other steps, the leaf's key, its node, and the ten nodes above.
const VERIFY: u32 = 3 + (67 * 15 - STEPS) + 34 + 1 + 10 * 2;

/// The middle times of many signatures by this key of a short text, and of as many verifications.
fn times_by(clock: &impl Clock, key: &PrivateKey<Global>) -> Result<(Duration, Duration)> {
    let public = key.public();
    let text = [5; 87];
    let (mut signed, mut verified) = ([Duration::ZERO; LEAVES], [Duration::ZERO; LEAVES]);
    for leaf in 0..LEAVES {
        if !key.has_leaf(leaf as u32) {
            return Err(anyhow!("a leaf can't sign"));
        }
        let start = now(clock);
        let (signature, spent) = sign(key, Leaf::issue(&public, leaf as u32), &text);
        spent.end();
        signed[leaf] = since(clock, start);
        let start = now(clock);
        if !verify(&public, &text, &signature) {
            return Err(anyhow!("a signature isn't valid"));
        }
        verified[leaf] = since(clock, start);
    }
    Ok((middle(&mut signed), middle(&mut verified)))
}

/// The middle times of many signatures of a short text, and of as many verifications.
fn signing(clock: &impl Clock, alloc: Global) -> Result<(Duration, Duration)> {
    let key = PrivateKey::from_seed(alloc, [9; 32], [9; 16])?;
    let times = times_by(clock, &key);
    let_go(key);
    times
}

/// The times of a key of this seed, of a signature and of a verification.
pub(crate) fn measure(rt: &impl Host, seed: [u8; 32]) -> Result<Round> {
    let start = now(rt);
    let key = PrivateKey::from_seed(rt.alloc(), seed, [7; 16])?;
    let drawn = since(rt, start);
    let_go(key);
    let (sign, verify) = signing(rt, rt.alloc())?;
    let mut round = NOTHING;
    round[0] = (drawn, KEY);
    round[1] = (sign, SIGN);
    round[2] = (verify, VERIFY);
    Ok(round)
}
