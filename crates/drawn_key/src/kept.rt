//! A private key over what was kept of its leaves, for a ledger that has leaves of it.

ghost use Rattle.std.specs.Prelude.{◌≡◌, ◌≢◌, ◌<◌, ℕ, true, IfOk, IfSome, get_or, length};
ghost use Rattle.lms_sign.specs.Keys.{public_key_of};
ghost use Rattle.lms_sign.specs.Secret.{HasLeaf, kept_leaves};
ghost use Rattle.leaf_ledger.specs.Ledger.{IsFileOf, IsLeastFree, LeafNumber};

use layout::{Memory, let_go};
use lms_sign::{KEPT_SIZE, KEY_SIZE, LEAF_COUNT, PrivateKey};
use std::alloc::Allocator;

/// The size of a ledger's file, in bytes: a public key, and a mark for each leaf.
pub const LEDGER_SIZE: usize = 1080;

/// The first leaf whose mark is 0, or leaf 0 where there is none.
fn next_leaf(marks: &[u8]) -> u32
    requires { length marks.now ≡ LEAF_COUNT }
    ensures below { result < LEAF_COUNT }
    ensures next { (leaf : ℕ) → leaf < LEAF_COUNT → get_or marks.now leaf 0 ≡ 0
        → ((i : ℕ) → i < leaf → get_or marks.now i 0 ≢ 0) → result ≡ leaf }
{
    for leaf in 0..LEAF_COUNT {
        if marks[leaf as usize] == 0 {
            return leaf;
        }
    }
    0
}

/// Whether a key is that of a ledger's file, and its leaf can sign that the ledger hands out next: of a full ledger
/// leaf 0 is tried.
fn is_of_ledger<A: Allocator>(key: &PrivateKey<A>, ledger: &[u8]) -> bool
    requires { length ledger.now ≡ LEDGER_SIZE }
    ensures ledger { result ≡ true → IsFileOf (public_key_of key.now) ledger.now }
    ensures next { result ≡ true → (leaf : LeafNumber) → IsLeastFree ledger.now leaf → HasLeaf key.now leaf }
{
    let (own, marks) = (&ledger[..KEY_SIZE], &ledger[KEY_SIZE..]);
    key.public().as_bytes().as_slice() == own && key.has_leaf(next_leaf(marks))
}

/// The key over what was kept of its leaves, if it is the key of the ledger that has this file, and the next free leaf
/// can sign. Any bytes may have been kept. It takes some thousand compressions of SHA-256; only want of memory is an
/// error.
pub fn kept_key<A: Allocator + Copy>(
    alloc: A,
    seed: [u8; 32],
    id: [u8; 16],
    ledger: &[u8],
    kept: &[u8],
) -> Result<Option<PrivateKey<A>>, Memory>
    ensures seed { IfOk result (λ found. IfSome found (λ key. key.seed ≡ seed)) }
    ensures id { IfOk result (λ found. IfSome found (λ key. key.id ≡ id)) }
    ensures kept { IfOk result (λ found. IfSome found (λ key. kept_leaves key ≡ kept.now)) }
    ensures ledger { IfOk result (λ found. IfSome found (λ key. IsFileOf (public_key_of key) ledger.now)) }
    ensures next { IfOk result (λ found. IfSome found
        (λ key. (leaf : LeafNumber) → IsLeastFree ledger.now leaf → HasLeaf key leaf)) }
{
    if ledger.len() != LEDGER_SIZE || kept.len() != KEPT_SIZE {
        return Ok(None);
    }
    let key = PrivateKey::from_kept_leaves(alloc, seed, id, kept)?;
    if !is_of_ledger(&key, ledger) {
        let_go(key);
        return Ok(None);
    }
    Ok(Some(key))
}
