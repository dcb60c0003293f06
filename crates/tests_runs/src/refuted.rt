//! The tests of premises fail where a premise does.

use crate::acts::{NEVER, answers_of, row_of};
use crate::hashed::{add, add_named, by_digest, share_a_name};
use crate::here::Here;
use crate::premises::{
    Ran, add_by_leaf, hashed_texts, keys_are_true, leaves_sign_once, none_collide, none_forged,
};
use layout::{digest, let_go};
use lms_sign::{PrivateKey, PublicKey};
use std::alloc::Global;
use tests_aids::tables::FORM;
use tests_aids::texts::{key_of, listed, plan, reply, shown, signed, structure};
use tests_aids::{Host, check, found};

/// A reply that shows a structure of user 1's that its client never signed: the test does, with user 1's key.
fn forged_reply(rt: &impl Host, key: &PrivateKey<Global>) -> Vec<u8> {
    let plan = plan(rt, 1, 1, &[7; 32], b"\x01\x01\0\0\0\x01", b"\0");
    let by_one = signed(rt, key, 0, &structure(rt, &plan, &[9; 32]));
    reply(rt, &listed(rt, &shown(rt, &by_one)), b"\0")
}

/// User 0 adds user 1, and is shown what user 1's client never signed.
fn refuted(rt: &impl Host, key: &PrivateKey<Global>) -> Vec<Vec<u8>> {
    let mut rows = Vec::new(rt.alloc());
    add(rt, &mut rows, row_of(rt, 0, NEVER, b'o', b""));
    add(rt, &mut rows, row_of(rt, 0, NEVER, b'd', b"u\x01"));
    let reply = forged_reply(rt, key);
    add(rt, &mut rows, row_of(rt, 0, NEVER, b'r', &reply));
    rows
}

/// Two texts are named by one digest.
fn collide(rt: &impl Host, ran: Ran<'_>, pinned: &PublicKey) {
    let texts = hashed_texts(rt, ran, pinned);
    let mut rows = by_digest(rt, &texts);
    check(rt, !share_a_name(&rows), "no collision yet");
    let first = found(rt, texts.first(), "a text");
    add_named(rt, &mut rows, digest(first).as_bytes(), b"another text");
    check(rt, share_a_name(&rows), "a collision");
}

/// Two texts are signed by one leaf of a user's.
fn leaf_signs_twice(rt: &impl Host, key: &PrivateKey<Global>) {
    let mut rows = Vec::new(rt.alloc());
    add_by_leaf(rt, &mut rows, 1, &signed(rt, key, 5, b"one"));
    add_by_leaf(rt, &mut rows, 1, &signed(rt, key, 6, b"two"));
    add_by_leaf(rt, &mut rows, 0, &signed(rt, key, 5, b"two"));
    check(rt, !share_a_name(&rows), "one text a leaf");
    add_by_leaf(rt, &mut rows, 1, &signed(rt, key, 5, b"two"));
    check(rt, share_a_name(&rows), "two texts of a leaf");
}

#[test]
fn premises_that_fail(rt: HostRuntime) {
    let rt = &(rt, Here);
    let key = key_of(rt, 1);
    let (own, other) = (
        key.public(),
        found(rt, PublicKey::from_bytes(*FORM), "a key"),
    );
    let (rows, keys) = (refuted(rt, &key), [other, other]);
    let told = answers_of(rt, &keys, &rows);
    let ran = Ran {
        rows: &rows,
        told: &told,
        keys: &keys,
    };
    check(rt, !none_forged(rt, ran, &[]), "a forged signature");
    check(rt, !none_forged(rt, ran, &[0, 2]), "of no other user");
    check(rt, none_forged(rt, ran, &[1]), "by a stolen key");
    check(rt, leaves_sign_once(rt, ran), "one text a leaf in the run");
    check(rt, none_collide(rt, ran, &own), "no collision");
    let (of_another, as_listed) = ([own, own], [own, other]);
    check(rt, !keys_are_true(rt, ran, &of_another, &[]), "another key");
    check(
        rt,
        !keys_are_true(rt, ran, &of_another, &[2]),
        "of no other user",
    );
    check(
        rt,
        keys_are_true(rt, ran, &of_another, &[1]),
        "of a stolen one",
    );
    check(
        rt,
        keys_are_true(rt, ran, &as_listed, &[]),
        "the key that is listed",
    );
    collide(rt, ran, &own);
    leaf_signs_twice(rt, &key);
    let_go(key);
}
