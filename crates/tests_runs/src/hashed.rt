//! The texts of a run that are hashed: of the beginning, of replies, and of what is signed; and whether two different
//! texts have one digest.

use layout::{Text, digest};
use lms_sign::{PublicKey, SIGNATURE_SIZE};
use pending_list::{PendingItem, Reply, Signed};
use std::alloc::Global;
use tests_aids::blocks::{EMPTY, EMPTY_INODE};
use tests_aids::tables::{Texts, texts_over};
use tests_aids::texts::joined;
use tests_aids::{Aided, given};
use version_order::Structure;

/// How many bytes the table of principals has at the beginning.
const TABLE_SIZE: u32 = 68;

/// There are 96 principals: the i-table of each but user 0 begins empty.
const PRINCIPAL_COUNT: u8 = 96;

/// Adds a text.
pub(crate) fn add(rt: &impl Aided, texts: &mut Vec<Vec<u8>>, text: Vec<u8>) {
    given(rt, texts.push(text), "memory");
}

/// What stands before the signature of a signed text.
pub(crate) fn before_signature(signed: &[u8]) -> &[u8] {
    &signed[..signed.len().saturating_sub(SIGNATURE_SIZE)]
}

// ---- what a reply shows

/// The texts of a reply: each signed one after its user, and the plans.
#[derive(Drop)]
pub(crate) struct Shown {
    pub(crate) signed: Vec<Vec<u8>>,
    pub(crate) plans: Vec<Vec<u8>>,
}

/// Adds what a value spells, after these bytes.
fn add_value<T: Text<Global>>(rt: &impl Aided, texts: &mut Vec<Vec<u8>>, before: &[u8], value: &T) {
    let text = given(rt, value.text(rt.alloc()), "memory");
    add(rt, texts, joined(rt, &[before, &text]));
}

/// Adds structures, and their plans.
fn add_structures(rt: &impl Aided, shown: &mut Shown, structures: &[Signed<Structure<Global>>]) {
    for structure in structures {
        let plan = structure.value.plan();
        add_value(rt, &mut shown.signed, &[plan.user().get()], structure);
        add_value(rt, &mut shown.plans, b"", plan);
    }
}

/// Adds certificates, and the plans of their operations.
fn add_pending(rt: &impl Aided, shown: &mut Shown, pending: &[PendingItem<Global>]) {
    for item in pending {
        let user = item.cert().user().get();
        add_value(rt, &mut shown.signed, &[user], item.signed_cert());
        add_value(rt, &mut shown.plans, b"", item.plan());
    }
}

/// What a reply shows; nothing of a text that is no reply.
pub(crate) fn shown_in(rt: &impl Aided, text: &[u8]) -> Shown {
    let mut shown = Shown {
        signed: Vec::new(rt.alloc()),
        plans: Vec::new(rt.alloc()),
    };
    if let Ok(reply) = Reply::read(rt.alloc(), text) {
        add_structures(rt, &mut shown, reply.structures());
        add_pending(rt, &mut shown, reply.pending());
    }
    shown
}

/// Adds what is hashed of a reply: what stands before signatures, and plans.
pub(crate) fn add_reply(rt: &impl Aided, texts: &mut Vec<Vec<u8>>, text: &[u8]) {
    let Shown { signed, mut plans } = shown_in(rt, text);
    for text in &signed {
        let signed = text.get(1..).unwrap_or(&[]);
        add(rt, texts, joined(rt, &[before_signature(signed)]));
    }
    given(rt, texts.append(&mut plans), "memory");
}

// ---- texts of the beginning

/// Adds the roots of the empty i-tables.
fn add_empty_roots(rt: &impl Aided, texts: &mut Vec<Vec<u8>>) {
    for principal in 1..PRINCIPAL_COUNT {
        add(rt, texts, joined(rt, &[b"STR1", &[principal, 0]]));
    }
}

/// The texts of the beginning, where this is user 0's key: the table of principals, the empty directory, what leads to
/// them, and the roots of the empty i-tables.
pub(crate) fn first_texts(rt: &impl Aided, pinned: &PublicKey) -> Vec<Vec<u8>> {
    let table = joined(rt, &[b"SPT1\x01\0\0\0\0\0", pinned.as_bytes(), b"\0\0"]);
    let mut texts = Vec::new(rt.alloc());
    add(rt, &mut texts, table);
    let leading = texts_over(rt, TABLE_SIZE, &texts);
    let Texts { root, chunk, inode } = leading;
    for text in [&root, &chunk, &inode, EMPTY, EMPTY_INODE] {
        add(rt, &mut texts, joined(rt, &[text]));
    }
    add_empty_roots(rt, &mut texts);
    texts
}

// ---- names of texts

/// A text, and what it is named by: no other text is to have this name.
#[derive(Drop)]
pub(crate) struct Named {
    name: Vec<u8>,
    text: Vec<u8>,
}

/// Adds a text and its name.
pub(crate) fn add_named(rt: &impl Aided, rows: &mut Vec<Named>, name: &[u8], text: &[u8]) {
    let (name, text) = (joined(rt, &[name]), joined(rt, &[text]));
    given(rt, rows.push(Named { name, text }), "memory");
}

/// Adds a text that is named by its digest.
pub(crate) fn add_by_digest(rt: &impl Aided, rows: &mut Vec<Named>, text: &[u8]) {
    add_named(rt, rows, digest(text).as_bytes(), text);
}

/// The texts, each named by its digest.
pub(crate) fn by_digest(rt: &impl Aided, texts: &[Vec<u8>]) -> Vec<Named> {
    let mut rows = Vec::new(rt.alloc());
    for text in texts {
        add_by_digest(rt, &mut rows, text);
    }
    rows
}

/// The text of this name.
pub(crate) fn text_named<'a>(rows: &'a [Named], name: &[u8]) -> Option<&'a [u8]> {
    for row in rows {
        if row.name.as_slice() == name {
            return Some(&row.text);
        }
    }
    None
}

/// Whether the name of this text is that of another one.
fn is_shared(row: &Named, rows: &[Named]) -> bool {
    let (name, text) = (row.name.as_slice(), row.text.as_slice());
    for other in rows {
        if other.name.as_slice() == name && other.text.as_slice() != text {
            return true;
        }
    }
    false
}

/// Whether two different texts have one name.
pub(crate) fn share_a_name(rows: &[Named]) -> bool {
    for row in rows {
        if is_shared(row, rows) {
            return true;
        }
    }
    false
}
