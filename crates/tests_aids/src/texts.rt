//! Texts, made by hand from the description of the formats.

ghost use Rattle.std.specs.Prelude.{◌<◌};

use crate::host::{Aided, given};
use layout::digest;
use lms_sign::{LEAF_COUNT, Leaf, PrivateKey, SIGNATURE_SIZE, sign};
use std::alloc::Global;

/// The handle that user 0's i-table has at the beginning under the key of these tests, by another program's LMS and
/// SHA-256.
pub const FIRST_HANDLE: [u8; 32] =
    *b"\xee\x04\x6d\x62\x38\xe1\xec\xdd\x86\x97\x6d\x7b\x7d\x03\x12\xb7\
    \x54\x90\xec\x7e\x7b\xe5\x05\xd0\xaa\x33\xe0\x47\xd8\x9c\x15\x55";

/// The key whose seed and identifier have this byte everywhere.
pub fn key_of(rt: &impl Aided, byte: u8) -> PrivateKey<Global> {
    given(
        rt,
        PrivateKey::from_seed(rt.alloc(), [byte; 32], [byte; 16]),
        "memory",
    )
}

/// The pieces, one after another.
pub fn joined(rt: &impl Aided, pieces: &[&[u8]]) -> Vec<u8> {
    let mut text = Vec::new(rt.alloc());
    for piece in pieces {
        given(rt, text.extend_from_slice(piece), "memory");
    }
    text
}

/// The text with the lowest bit of its last byte changed.
pub fn changed(rt: &impl Aided, text: &[u8]) -> Vec<u8> {
    let mut changed = joined(rt, &[text]);
    if let Some(byte) = changed.last_mut() {
        *byte ^= 1;
    }
    changed
}

/// The size of a text, as it stands before it in another one.
fn size_of(text: &[u8]) -> [u8; 2] {
    let [.., high, low] = text.len().to_be_bytes();
    [high, low]
}

/// A certificate with changes that are spelled already, after their count.
pub fn certificate_of(
    rt: &impl Aided,
    user: u8,
    number: u32,
    last: &[u8; 32],
    changes: &[u8],
) -> Vec<u8> {
    joined(
        rt,
        &[b"SUC1", &[user], &number.to_be_bytes(), last, changes],
    )
}

/// A certificate without changes.
pub fn certificate(rt: &impl Aided, user: u8, number: u32, last: &[u8; 32]) -> Vec<u8> {
    certificate_of(rt, user, number, last, b"\0")
}

/// A plan with a vector and entries that are spelled already, each after its count.
pub fn plan<'a>(
    rt: &impl Aided,
    user: u8,
    number: u32,
    certificate: &'a [u8; 32],
    vector: &'a [u8],
    entries: &'a [u8],
) -> Vec<u8> {
    joined(
        rt,
        &[
            b"SVP1",
            &[user],
            &number.to_be_bytes(),
            certificate,
            vector,
            entries,
        ],
    )
}

/// A structure with group records that are spelled already, after their count.
pub fn structure_of<'a>(
    rt: &impl Aided,
    plan: &'a [u8],
    handle: &'a [u8; 32],
    records: &'a [u8],
) -> Vec<u8> {
    joined(rt, &[b"SVS1", &size_of(plan), plan, handle, records])
}

/// A structure without group records.
pub fn structure(rt: &impl Aided, plan: &[u8], handle: &[u8; 32]) -> Vec<u8> {
    structure_of(rt, plan, handle, b"\0")
}

/// A text, and after it its signature by a leaf that can sign.
pub fn signed(rt: &impl Aided, key: &PrivateKey<Global>, leaf: u32, text: &[u8]) -> Vec<u8>
    requires { leaf < LEAF_COUNT }
{
    if !key.has_leaf(leaf) {
        rt.fail("a leaf that can't sign");
    }
    let (signature, spent) = sign(key, Leaf::issue(&key.public(), leaf), text);
    spent.end();
    joined(rt, &[text, &signature])
}

/// What stands before the signature of a signed text.
fn unsigned(signed: &[u8]) -> &[u8] {
    &signed[..signed.len().saturating_sub(SIGNATURE_SIZE)]
}

/// The digest by which others name what was signed.
pub fn named(signed: &[u8]) -> [u8; 32] {
    *digest(unsigned(signed)).as_bytes()
}

/// A signed structure as a reply lists it: after the size of what was signed.
pub fn shown(rt: &impl Aided, structure: &[u8]) -> Vec<u8> {
    joined(rt, &[&size_of(unsigned(structure)), structure])
}

/// A pending operation as a reply lists it: its signed certificate and its plan.
pub fn pending(rt: &impl Aided, certificate: &[u8], plan: &[u8]) -> Vec<u8> {
    joined(
        rt,
        &[
            &size_of(unsigned(certificate)),
            certificate,
            &size_of(plan),
            plan,
        ],
    )
}

/// A reply of structures and pending operations, each list after its count.
pub fn reply(rt: &impl Aided, structures: &[u8], pending: &[u8]) -> Vec<u8> {
    joined(rt, &[b"SRL1", structures, pending])
}

/// The list of these rows.
pub fn list(rt: &impl Aided, rows: &[&[u8]]) -> Vec<u8> {
    let [.., count] = rows.len().to_be_bytes();
    joined(rt, &[&[count], &joined(rt, rows)])
}

/// The list of this one row.
pub fn listed(rt: &impl Aided, row: &[u8]) -> Vec<u8> {
    joined(rt, &[&[1], row])
}

/// A vector of these versions, after its count.
pub fn vector_of(rt: &impl Aided, versions: &[(u8, u8)]) -> Vec<u8> {
    let [.., count] = versions.len().to_be_bytes();
    let mut text = joined(rt, &[&[count]]);
    for (principal, version) in versions {
        let row = [*principal, 0, 0, 0, *version];
        given(rt, text.extend_from_slice(&row), "memory");
    }
    text
}

/// The plan of user 0's operation of this number, where nobody else has any.
pub fn plan_of(rt: &impl Aided, number: u8, certificate: &[u8]) -> Vec<u8> {
    let vector = [1, 0, 0, 0, 0, number];
    let number = u32::from(number);
    plan(rt, 0, number, &named(certificate), &vector, b"\0")
}

/// The pending operations of a reply that has user 1's of this number alone: its plan has this vector and no entry.
pub fn only_pending(rt: &impl Aided, number: u32, certificate: &[u8], vector: &[u8]) -> Vec<u8> {
    let plan = plan(rt, 1, number, &named(certificate), vector, b"\0");
    listed(rt, &pending(rt, certificate, &plan))
}

/// The reply to user 0's certificate of this number, which shows these structures, after their count.
pub fn reply_to(rt: &impl Aided, structures: &[u8], number: u8, certificate: &[u8]) -> Vec<u8> {
    let item = pending(rt, certificate, &plan_of(rt, number, certificate));
    reply(rt, structures, &listed(rt, &item))
}

/// The reply to user 0's first certificate.
pub fn first_reply(rt: &impl Aided, certificate: &[u8]) -> Vec<u8> {
    reply_to(rt, b"\0", 1, certificate)
}
