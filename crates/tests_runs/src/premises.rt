//! The premises under which a run is fork consistent, as tests of its rows and of what they are answered: no two
//! different texts that are hashed have one digest; each signed text that a reply shows was released before by its
//! user's client, and no client released two texts by one leaf; and user 0's client added each user with the user's own
//! key. Where keys of users are stolen, the tests of signatures and of keys leave these users out.

use crate::answers::{fields_of, released};
use crate::hashed::{
    Named, add, add_named, add_reply, before_signature, by_digest, first_texts, share_a_name,
    shown_in,
};
use crate::planning::planned_of;
use layout::Text;
use lms_sign::PublicKey;
use std::alloc::Global;
use tests_aids::texts::joined;
use tests_aids::{Host, check, found, given};
use update_cert::{AnyAction, Cert, Change, TableChange};

/// Rows, what they are answered, and the keys of the users from 0 on.
#[derive(Clone, Copy)]
pub(crate) struct Ran<'a> {
    pub(crate) rows: &'a [Vec<u8>],
    pub(crate) told: &'a [Vec<u8>],
    pub(crate) keys: &'a [PublicKey],
}

/// Whether a step with this answer was taken: it was neither out of turn nor refused for want of memory.
fn is_taken(told: &[u8]) -> bool {
    !matches!(told, b"-" | [b'e', _, b'm'])
}

// ---- what is hashed

/// Adds what is handed in by a step, or laid out for it, and hashed.
fn add_handed_in(rt: &impl Host, texts: &mut Vec<Vec<u8>>, keys: &[PublicKey], row: &[u8]) {
    match row {
        [_, _, _, b'd', changes @ ..] => {
            let mut laid = planned_of(rt, keys, changes).laid;
            given(rt, texts.append(&mut laid), "memory");
        }
        [_, _, _, b'r', reply @ ..] => add_reply(rt, texts, reply),
        [_, _, _, b'b' | b'g', block @ ..] => add(rt, texts, joined(rt, &[block])),
        _ => {}
    }
}

/// Adds what is answered and hashed.
fn add_answered(rt: &impl Host, texts: &mut Vec<Vec<u8>>, told: &[u8]) {
    if let [b't', blocks @ ..] = told {
        for block in &fields_of(rt, blocks) {
            add(rt, texts, joined(rt, &[block]));
        }
    }
    let text = released(told);
    if !text.is_empty() {
        add(rt, texts, joined(rt, &[before_signature(text)]));
    }
}

/// All texts of the run that are hashed, where this is user 0's key.
pub(crate) fn hashed_texts(rt: &impl Host, ran: Ran<'_>, pinned: &PublicKey) -> Vec<Vec<u8>> {
    let mut texts = first_texts(rt, pinned);
    for (row, told) in ran.rows.iter().zip(ran.told) {
        if is_taken(told) {
            add_handed_in(rt, &mut texts, ran.keys, row);
            add_answered(rt, &mut texts, told);
        }
    }
    texts
}

/// No two different texts of the run that are hashed have one digest.
pub(crate) fn none_collide(rt: &impl Host, ran: Ran<'_>, pinned: &PublicKey) -> bool {
    !share_a_name(&by_digest(rt, &hashed_texts(rt, ran, pinned)))
}

// ---- what is signed

/// Whether this signed text, which stands after its user, was released by the user's client before the step of this
/// place.
fn was_released(ran: Ran<'_>, place: usize, shown: &[u8]) -> bool {
    for (row, told) in ran.rows.iter().zip(ran.told).take(place) {
        if row.first() == shown.first() && Some(released(told)) == shown.get(1..) {
            return true;
        }
    }
    false
}

/// Whether the text that stands after its user is of one of these users.
fn is_of(users: &[u8], shown: &[u8]) -> bool {
    match shown.first() {
        Some(user) => users.contains(user),
        None => false,
    }
}

/// Whether each signed text that the step of this place shows was released before it, but for these users' texts.
fn shows_released(rt: &impl Host, ran: Ran<'_>, place: usize, row: &[u8], stolen: &[u8]) -> bool {
    let [_, _, _, b'r', reply @ ..] = row else {
        return true;
    };
    for shown in &shown_in(rt, reply).signed {
        if !is_of(stolen, shown) && !was_released(ran, place, shown) {
            return false;
        }
    }
    true
}

/// Each signed text that a step of the run shows was released before by its user's client, but for texts of these
/// users, whose keys are stolen.
pub(crate) fn none_forged(rt: &impl Host, ran: Ran<'_>, stolen: &[u8]) -> bool {
    for (place, (row, told)) in ran.rows.iter().zip(ran.told).enumerate() {
        if is_taken(told) && !shows_released(rt, ran, place, row, stolen) {
            return false;
        }
    }
    true
}

/// Adds a user's signed text, named by the user and the leaf that signed it.
pub(crate) fn add_by_leaf(rt: &impl Host, rows: &mut Vec<Named>, user: u8, signed: &[u8]) {
    let signature = signed.get(before_signature(signed).len()..).unwrap_or(&[]);
    let [a, b, c, d, ..] = signature else {
        return;
    };
    add_named(rt, rows, &[user, *a, *b, *c, *d], signed);
}

/// No two different texts that a client released in the run have one leaf.
pub(crate) fn leaves_sign_once(rt: &impl Host, ran: Ran<'_>) -> bool {
    let mut rows = Vec::new(rt.alloc());
    for (row, told) in ran.rows.iter().zip(ran.told) {
        let user = *found(rt, row.first(), "a user");
        add_by_leaf(rt, &mut rows, user, released(told));
    }
    !share_a_name(&rows)
}

// ---- keys of users

/// Whether this is the user's own key, where these are those of the users from 0 on.
fn is_own(keys: &[PublicKey], user: u8, key: &PublicKey) -> bool {
    match keys.get(usize::from(user)) {
        Some(own) => own.as_bytes() == key.as_bytes(),
        None => false,
    }
}

/// Whether the change gives no user but these another key than its own.
fn gives_own_key(keys: &[PublicKey], stolen: &[u8], change: &Change<Global>) -> bool {
    match change.action() {
        AnyAction::OfTable(TableChange::AddUser(user, key) | TableChange::SetKey(user, key)) => {
            let user = user.get();
            stolen.contains(&user) || is_own(keys, user, key)
        }
        _ => true,
    }
}

/// Whether none of these changes does.
fn give_own_keys(keys: &[PublicKey], stolen: &[u8], changes: &[Change<Global>]) -> bool {
    for change in changes {
        if !gives_own_key(keys, stolen, change) {
            return false;
        }
    }
    true
}

/// Whether no change of this signed text does, if it is a certificate.
fn is_true(rt: &impl Host, keys: &[PublicKey], stolen: &[u8], signed: &[u8]) -> bool {
    match Cert::read(rt.alloc(), before_signature(signed)) {
        Ok(cert) => give_own_keys(keys, stolen, cert.changes()),
        Err(_) => true,
    }
}

/// User 0's client added each user with the user's own key, where these are those of the users from 0 on, and set no
/// other; but for these users, whose keys are stolen.
pub(crate) fn keys_are_true(
    rt: &impl Host,
    ran: Ran<'_>,
    keys: &[PublicKey],
    stolen: &[u8],
) -> bool {
    for (row, told) in ran.rows.iter().zip(ran.told) {
        if row.first() == Some(&0) && !is_true(rt, keys, stolen, released(told)) {
            return false;
        }
    }
    true
}

/// The premises hold of the run, where the keys of these users are stolen.
pub(crate) fn are_met(rt: &impl Host, ran: Ran<'_>, stolen: &[u8]) {
    let pinned = found(rt, ran.keys.first(), "a key");
    check(rt, none_collide(rt, ran, pinned), "no collision");
    check(rt, none_forged(rt, ran, stolen), "no forgery");
    check(rt, leaves_sign_once(rt, ran), "one text a leaf");
    check(rt, keys_are_true(rt, ran, ran.keys, stolen), "true keys");
}
