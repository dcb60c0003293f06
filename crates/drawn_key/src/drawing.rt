//! A private key that is drawn over all processors.

ghost use Rattle.std.specs.Prelude.{◌≡◌, ◌<◌, ◌+◌, ◌*◌, ℕ, [], IfOk, length, slice_index_or};
ghost use Rattle.lms_sign.specs.declared.leaves.TheConstants.{GROUP_COUNT, GROUP_SIZE};
ghost use Rattle.lms_sign.specs.OneTime.{key_of};
ghost use Rattle.lms_sign.specs.Secret.{drawn_from};

use layout::{Digest, Memory};
use lms_sign::{GROUP_COUNT, GROUP_SIZE, PrivateKey, leaf_keys};
use std::alloc::Allocator;
use std::thread::{self, Threads};

/// In how many threads the leaves' keys are made where the system doesn't tell of how many processors it is.
const THREADS: usize = 4;

/// In how many threads the leaves' keys are made: as many as there are processors.
fn threads<R: Threads>(rt: &R) -> usize
    ensures { 0 < result }
{
    match thread::available_parallelism(rt) {
        Ok(count) => count.get(),
        Err(_) => THREADS,
    }
}

/// Puts the keys of each group of leaves in its place.
fn put_keys<R: Threads + Sync>(rt: &R, seed: &[u8; 32], id: &[u8; 16], groups: &mut [[Digest; 8]])
    requires { length groups.old ≡ GROUP_COUNT }
    ensures size { length groups.new ≡ GROUP_COUNT }
    ensures keys { (group i : ℕ) → group < GROUP_COUNT → i < GROUP_SIZE
        → slice_index_or (slice_index_or groups.new group []) i [] ≡ key_of seed.now id.now (8 * group + i) }
{
    let count = threads(rt);
    thread::for_each_mut(
        rt,
        groups,
        count,
        &|group, keys| { *keys = leaf_keys(seed, id, (GROUP_SIZE * group) as u32) },
    );
}

/// Draws the key of `PrivateKey::from_seed`, with the keys of its leaves made beside each other, over all processors.
/// Only want of memory is an error.
pub fn drawn_key<R: Threads + Sync, A: Allocator + Copy>(
    rt: &R,
    alloc: A,
    seed: [u8; 32],
    id: [u8; 16],
) -> Result<PrivateKey<A>, Memory>
    ensures { IfOk result (λ key. key ≡ drawn_from seed id) }
{
    let mut groups = vec![in alloc; [Digest::from_bytes([0; 32]); GROUP_SIZE]; GROUP_COUNT]?;
    put_keys(rt, &seed, &id, &mut groups);
    PrivateKey::from_leaf_keys(alloc, seed, id, &groups)
}
