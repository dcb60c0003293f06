//! Users who sign calls of a server, made by hand from the description of the formats.

use crate::here::Here;
use crate::storages::Host;
use lms_sign::{KEPT_SIZE, LEAF_COUNT, PrivateKey, PublicKey, leaf_keys};
use std::alloc::Global;
use tests_aids::texts::{certificate_of, named, signed, structure};

/// The changes of an operation that has none, after their count.
pub(crate) const NONE: &[u8] = b"\0";

/// A user with a key, before an operation: its number, and the digest of the user's last structure.
#[derive(Drop)]
pub(crate) struct Signer {
    user: u8,
    key: PrivateKey<Global>,
    leaf: u32,
    number: u32,
    last: [u8; 32],
}

/// A key whose seed and identifier have this byte everywhere. Its first eight leaves alone can sign, so that it is made
/// in a hundredth of the time of one of which all can.
fn key_of(rt: &impl Host, byte: u8) -> PrivateKey<Global> {
    let (seed, id) = ([byte; 32], [byte; 16]);
    let mut kept = Vec::new(rt.alloc());
    for key in &leaf_keys(&seed, &id, 0) {
        kept.extend_from_slice(key.as_bytes()).expect(rt, "memory");
    }
    kept.resize(KEPT_SIZE, 0).expect(rt, "memory");
    assert!(rt; kept.len() == KEPT_SIZE);
    PrivateKey::from_kept_leaves(rt.alloc(), seed, id, &kept).expect(rt, "memory")
}

/// The plan of the own operation, which stands at the end of the reply to its certificate.
fn own_plan<'a>(rt: &impl Host, reply: &'a [u8]) -> &'a [u8] {
    for at in (0..reply.len()).rev() {
        let rest = reply.get(at..).unwrap_or(b"");
        if rest.starts_with(b"SVP1") {
            return rest;
        }
    }
    panic!(rt; "no plan");
}

impl Signer {
    /// A user before its first operation, and its key, which has this byte.
    pub(crate) fn new(rt: &impl Host, user: u8, byte: u8) -> Signer {
        Signer {
            user,
            key: key_of(rt, byte),
            leaf: 0,
            number: 1,
            last: [0; 32],
        }
    }

    /// The public key.
    pub(crate) fn public(&self) -> PublicKey {
        self.key.public()
    }

    /// The text, and after it its signature by the next leaf.
    fn signed(&mut self, rt: &impl Host, text: &[u8]) -> Vec<u8> {
        let leaf = self.leaf;
        assert!(rt; leaf < LEAF_COUNT);
        self.leaf = leaf.wrapping_add(1);
        signed(&(rt, Here), &self.key, leaf, text)
    }

    /// The signed certificate of the operation, with changes that are spelled already.
    pub(crate) fn certificate(&mut self, rt: &impl Host, changes: &[u8]) -> Vec<u8> {
        let text = certificate_of(&(rt, Here), self.user, self.number, &self.last, changes);
        self.signed(rt, &text)
    }

    /// The signed structure of the operation, by the reply to its certificate, with a handle of zeros and no records.
    /// The next operation comes after it.
    pub(crate) fn structure(&mut self, rt: &impl Host, reply: &[u8]) -> Vec<u8> {
        let text = structure(&(rt, Here), own_plan(rt, reply), &[0; 32]);
        let signed = self.signed(rt, &text);
        self.last = named(&signed);
        self.number = self.number.wrapping_add(1);
        signed
    }

    /// Before the same operation as the same user with another key.
    pub(crate) fn follow(&mut self, other: &Signer) {
        self.number = other.number;
        self.last = other.last;
    }
}
