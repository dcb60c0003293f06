//! A key of zeros, and vectors from outside.

ghost use Rattle.std.specs.Prelude.{◌<◌};

use layout::{Digest, Hasher};
use lms_sign::{Leaf, PrivateKey, PublicKey, burn, sign, verify};
use std::process::Abort;

/// Signatures that differ from a valid one of the text `a` in one way each, none of which is valid.
fn refuses_others(rt: &impl Abort, key: &PublicKey, signature: &[u8; 2508]) {
    assert!(rt; !verify(key, b"b", signature), "another text");
    assert!(rt; !verify(key, b"a", &signature[..2507]), "a byte less");
    let mut longer = [0; 2509];
    longer[..2508].copy_from_slice(signature);
    assert!(rt; !verify(key, b"a", &longer), "a byte more");
    let mut changed = *signature;
    changed[2] = 4;
    assert!(rt; !verify(key, b"a", &changed), "leaf 1024");
    for bit in 0..256 {
        let mut changed = *signature;
        changed[8 + bit / 8] ^= 1 << (bit % 8);
        assert!(rt; !verify(key, b"a", &changed), "bit {bit} of the randomizer");
    }
}

#[test]
fn key_of_zeros(rt: HostRuntime) {
    let private = PrivateKey::from_seed(rt.alloc(), [0; 32], [0; 16]).expect(&rt, "memory");
    let key = private.public();
    let leaf = Leaf::issue(&key, 0);
    assert_eq!(rt; leaf.number(), 0);
    assert!(rt; leaf.key() == key);
    assert!(rt; private.has_leaf(0));
    let (signature, spent) = sign(&private, leaf, b"a");
    assert_eq!(rt; spent.number(), 0);
    assert!(rt; spent.key() == key);
    spent.end();
    burn(Leaf::issue(&key, 1)).end();
    assert!(rt; verify(&key, b"a", &signature));
    refuses_others(&rt, &key, &signature);
}

#[test]
fn types_of_keys(rt: HostRuntime) {
    let mut bytes = [0; 56];
    bytes[3] = 6;
    bytes[7] = 3;
    assert!(rt; PublicKey::from_bytes(bytes).is_some_and(|key| *key.as_bytes() == bytes));
    bytes[3] = 5;
    assert_eq!(rt; PublicKey::from_bytes(bytes), None);
}

/// The sizes of the texts that each leaf signs below. Byte k of a text is k modulo 251.
const SIZES: [usize; 6] = [0, 1, 55, 56, 64, 5000];

/// The digest of the signatures of those texts, one after another, each of which is valid.
fn signatures_digest<A: std::alloc::Allocator>(
    rt: &impl Abort,
    private: &PrivateKey<A>,
    number: u32,
) -> Digest
    requires { number < 1024 }
{
    let key = private.public();
    let mut text = [0; 5000];
    for k in 0..5000 {
        text[k] = (k % 251) as u8;
    }
    let mut all = Hasher::new();
    assert!(rt; private.has_leaf(number), "leaf {number}");
    for size in SIZES {
        let text = &text[..size.min(5000)];
        let (signature, spent) = sign(private, Leaf::issue(&key, number), text);
        spent.end();
        assert!(rt;
            verify(&key, text, &signature),
            "leaf {number}, size {size}"
        );
        all.update(&signature);
    }
    all.finish()
}

// By Bouncy Castle 1.72 (Debian's libbcprov-java), which draws a randomizer as we do, for the seed 00 01 .. 1f and the
// identifier d0 d1 .. df: the public key, and for a leaf SHA-256 of the six signatures, one after another.
#[test]
fn as_bouncy_castle(rt: HostRuntime) {
    let mut seed = [0; 32];
    for k in 0..32 {
        seed[k] = k as u8;
    }
    let mut id = [0; 16];
    for k in 0..16 {
        id[k] = 0xd0 + k as u8;
    }
    let private = PrivateKey::from_seed(rt.alloc(), seed, id).expect(&rt, "memory");
    let key = b"\x00\x00\x00\x06\x00\x00\x00\x03\xd0\xd1\xd2\xd3\xd4\xd5\xd6\xd7\
        \xd8\xd9\xda\xdb\xdc\xdd\xde\xdf\xe2\x3b\xe3\xd6\xa9\xc9\x33\x01\
        \xcc\x5e\xac\xde\x28\x56\x7b\xea\xcc\x1f\x05\xe4\xed\x76\x2a\x12\
        \xf1\xf8\x2e\x66\x3f\xff\x85\xc6";
    assert_eq!(rt; private.public().as_bytes(), key);
    let rows = [
        (
            0,
            b"\xc3\xc7\x8f\x93\x64\x8c\x2a\xc1\x35\xd9\x52\x2d\x14\xda\xe5\x7c\
            \x54\x90\x0d\x32\x91\x8d\x02\x1f\x3b\xd9\xf0\x9f\xb0\x24\x3d\xc2",
        ),
        (
            1,
            b"\xd8\xc8\xd9\x14\x11\xe0\x89\x53\xaf\xdb\x65\x31\x96\xda\x1b\xca\
            \x4c\x6b\xdb\x10\x01\x0c\x4f\x0d\x5e\xbe\x6d\xcb\xb8\x2a\x6f\x17",
        ),
        (
            511,
            b"\x86\x11\xb5\x48\xea\x90\x89\x8e\xeb\xee\xf7\x31\xf6\x36\xaa\x9c\
            \x9e\x19\x95\x27\x42\xe1\x38\x81\x0e\x4f\xe6\x29\xa6\xc5\xfb\x35",
        ),
        (
            1023,
            b"\xc7\x99\x81\x3a\x71\x70\xc2\x7b\x88\xf6\x4f\x66\x00\x94\xb9\x98\
            \x6b\xb4\xde\x87\x95\xe6\x1d\x4b\x62\x19\x9a\x1c\x19\x08\x9f\xc6",
        ),
    ];
    for (leaf, digest) in rows {
        assert_eq!(rt;
            signatures_digest(&rt, &private, leaf).as_bytes(),
            digest,
            "leaf {leaf}"
        );
    }
}
