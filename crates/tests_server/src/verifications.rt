//! What is known of a signature under another key than its user's counts for nothing: it is verified again.

ghost use Rattle.std.specs.Prelude.{◌<◌};

use crate::by_hand::Host;
use crate::texts::{answered, payload_of};
use consistency_server::{CallKind, MemoryLog, Ordered, Verification};
use layout::let_go;
use lms_sign::{Leaf, PrivateKey, PublicKey, sign};
use std::alloc::Global;
use wire::Status;

/// A server's answer to its first certificate, whose signature was verified under the other key, if one is given. Its
/// user 0 has the pinned key.
fn answer<R: Host>(
    rt: &R,
    pinned: PublicKey,
    update: &[u8],
    verified: Option<PublicKey>,
) -> Vec<u8> {
    let known = match verified {
        Some(key) => Some(Verification::new(key, update)),
        None => None,
    };
    let mut ordered = Ordered::genesis(rt.alloc(), pinned);
    let mut log = MemoryLog::new(rt.alloc()).expect(rt, "memory");
    let answer = answered(
        rt,
        &mut ordered,
        &mut log,
        CallKind::Update,
        update,
        known.as_ref(),
    );
    let_go((ordered, log));
    answer
}

/// The certificate is answered by this status, and the same reply, whether or not its signature was verified under
/// the other key.
fn is_verified_again<R: Host>(
    rt: &R,
    pinned: PublicKey,
    other: PublicKey,
    update: &[u8],
    status: Status,
) {
    let found = answer(rt, pinned, update, Some(other));
    let wanted = answer(rt, pinned, update, None);
    let number = Some(status.number());
    assert!(rt; found.first().copied() == number, "the status");
    assert!(rt;
        wanted.first().copied() == number,
        "the status where nothing is known"
    );
    assert!(rt; payload_of(&found) == payload_of(&wanted), "the replies");
}

/// User 0's first certificate, without changes.
const CERTIFICATE: &[u8] = b"SUC1\0\0\0\0\x01\
    \0\0\0\0\0\0\0\0\0\0\0\0\0\0\0\0\0\0\0\0\0\0\0\0\0\0\0\0\0\0\0\0\0";

/// The certificate and its signature by the key whose seed and identifier have this byte everywhere, and that key.
fn signed_by<R: Host>(rt: &R, byte: u8) -> (Vec<u8>, PublicKey) {
    let key = PrivateKey::from_seed(rt.alloc(), [byte; 32], [byte; 16]).expect(rt, "memory");
    let public = key.public();
    assert!(rt; key.has_leaf(0), "the leaf");
    let (signature, spent) = sign(&key, Leaf::issue(&public, 0), CERTIFICATE);
    spent.end();
    let mut text = Vec::from_slice(rt.alloc(), CERTIFICATE).expect(rt, "memory");
    text.extend_from_slice(&signature).expect(rt, "memory");
    (text, public)
}

/// User 0's first certificate, signed by user 0, and then by another.
#[test]
fn a_verification_under_another_key(rt: HostRuntime) {
    let (by_own, pinned) = signed_by(&rt, 0);
    let (by_other, other) = signed_by(&rt, 1);
    is_verified_again(&rt, pinned, other, &by_own, Status::Ok);
    is_verified_again(&rt, pinned, other, &by_other, Status::BadSignature);
}
