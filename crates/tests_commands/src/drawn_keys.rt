//! A key drawn over all processors is the one drawn in one thread, and one of what was kept of its leaves is the same;
//! what isn't kept of it isn't taken.

use drawn_key::{LEDGER_SIZE, drawn_key, kept_key};
use layout::let_go;
use lms_sign::{KEPT_SIZE, KEY_SIZE, LEAF_COUNT, Leaf, PrivateKey, PublicKey, sign};
use std::alloc::Global;
use std::process::Abort;

/// What the key is drawn from.
const SEED: [u8; 32] = [0x5e; 32];

/// Its identifier.
const ID: [u8; 16] = [0x1d; 16];

#[test]
fn the_same_key(rt: HostRuntime) {
    let drawn = drawn_key(&rt, rt.alloc(), SEED, ID).expect(&rt, "memory");
    let wanted = PrivateKey::from_seed(rt.alloc(), SEED, ID).expect(&rt, "memory");
    assert!(rt; drawn.public() == wanted.public(), "the public keys");
    let kept = drawn.kept_leaves(rt.alloc()).expect(&rt, "memory");
    let other = wanted.kept_leaves(rt.alloc()).expect(&rt, "memory");
    assert!(rt; kept.len() == KEPT_SIZE, "the size of what is kept");
    assert!(rt; kept == other, "what is kept");
}

/// The file of the ledger of this key, with the leaves before this one used.
fn ledger(key: &PublicKey, next: usize) -> [u8; LEDGER_SIZE] {
    let mut file = [0; LEDGER_SIZE];
    file[..KEY_SIZE].copy_from_slice(key.as_bytes());
    for leaf in 0..next.min(LEAF_COUNT as usize) {
        file[KEY_SIZE + leaf] = 1;
    }
    file
}

/// Whether two keys sign alike with this leaf.
fn sign_alike(one: &PrivateKey<Global>, other: &PrivateKey<Global>, leaf: u32) -> bool {
    if leaf >= LEAF_COUNT || !one.has_leaf(leaf) || !other.has_leaf(leaf) {
        return false;
    }
    let (a, spent) = sign(one, Leaf::issue(&one.public(), leaf), b"text");
    spent.end();
    let (b, spent) = sign(other, Leaf::issue(&other.public(), leaf), b"text");
    spent.end();
    a == b
}

/// Whether a key of this seed is made of these bytes for the ledger.
fn is_taken(
    rt: &impl Abort,
    alloc: Global,
    (seed, id): ([u8; 32], [u8; 16]),
    ledger: &[u8],
    kept: &[u8],
) -> bool {
    let found = kept_key(alloc, seed, id, ledger, kept).expect(rt, "memory");
    let is_some = found.is_some();
    let_go(found);
    is_some
}

#[test]
fn what_is_kept_is_the_key(rt: HostRuntime) {
    let drawn = drawn_key(&rt, rt.alloc(), SEED, ID).expect(&rt, "memory");
    let kept = drawn.kept_leaves(rt.alloc()).expect(&rt, "memory");
    for next in [0, 1, 511, 1023, 1024] {
        let file = ledger(&drawn.public(), next);
        let found = kept_key(rt.alloc(), SEED, ID, &file, &kept).expect(&rt, "memory");
        let key = found.expect(&rt, "the key");
        assert!(rt;
            key.public() == drawn.public(),
            "the public key, leaf {next}"
        );
        for leaf in [0, 1, 511, 1022, 1023] {
            assert!(rt; sign_alike(&key, &drawn, leaf), "leaf {leaf}");
        }
        let again = key.kept_leaves(rt.alloc()).expect(&rt, "memory");
        assert!(rt; again == kept, "what is kept of it");
    }
}

#[test]
fn what_is_not_kept_is_not_taken(rt: HostRuntime) {
    let drawn = drawn_key(&rt, rt.alloc(), SEED, ID).expect(&rt, "memory");
    let kept = drawn.kept_leaves(rt.alloc()).expect(&rt, "memory");
    let file = ledger(&drawn.public(), 3);
    assert!(rt;
        is_taken(&rt, rt.alloc(), (SEED, ID), &file, &kept),
        "what was kept"
    );
    for place in (0..KEPT_SIZE).step_by(509) {
        let mut changed = Vec::from_slice(rt.alloc(), &kept).expect(&rt, "memory");
        if let Some(byte) = changed.get_mut(place) {
            *byte ^= 1;
        }
        assert!(rt;
            !is_taken(&rt, rt.alloc(), (SEED, ID), &file, &changed),
            "byte {place}"
        );
    }
    assert!(rt;
        !is_taken(&rt, rt.alloc(), ([0x5f; 32], ID), &file, &kept),
        "another seed"
    );
    assert!(rt;
        !is_taken(&rt, rt.alloc(), (SEED, [0x1e; 16]), &file, &kept),
        "another identifier"
    );
    for size in [0, 1, 32_736, 32_767] {
        let few = kept.get(..size).expect(&rt, "so many bytes");
        assert!(rt;
            !is_taken(&rt, rt.alloc(), (SEED, ID), &file, few),
            "{size} bytes"
        );
    }
    for size in [0, 55, 56, 1079] {
        let part = file.get(..size).expect(&rt, "so many bytes");
        assert!(rt;
            !is_taken(&rt, rt.alloc(), (SEED, ID), part, &kept),
            "a ledger of {size} bytes"
        );
    }
    let other = drawn_key(&rt, rt.alloc(), [0x5f; 32], ID).expect(&rt, "memory");
    let others = ledger(&other.public(), 3);
    assert!(rt;
        !is_taken(&rt, rt.alloc(), (SEED, ID), &others, &kept),
        "another ledger"
    );
    assert!(rt;
        !is_taken(&rt, rt.alloc(), ([0x5f; 32], ID), &file, &kept),
        "ledger and leaves of another seed"
    );
}

/// Which leaves of a key can sign that has other bytes as the key of one leaf.
#[test]
fn one_leaf_cannot_sign(rt: HostRuntime) {
    let drawn = drawn_key(&rt, rt.alloc(), SEED, ID).expect(&rt, "memory");
    let mut kept = drawn.kept_leaves(rt.alloc()).expect(&rt, "memory");
    if let Some(byte) = kept.get_mut(32 * 5 + 7) {
        *byte ^= 1;
    }
    assert!(rt; kept.len() == KEPT_SIZE, "the size of what is kept");
    let key = PrivateKey::from_kept_leaves(rt.alloc(), SEED, ID, &kept).expect(&rt, "memory");
    assert!(rt; key.public() != drawn.public(), "the public key");
    for leaf in 0..8 {
        assert!(rt; key.has_leaf(leaf) == (leaf != 5), "leaf {leaf}");
    }
}
