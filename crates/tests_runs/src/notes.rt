//! What is written down of clients that stand alone, as bytes: their last texts, the stored blocks, and each step with
//! its answer, for `run` to answer the same.

use crate::answers::{fields_of, first_field};
use crate::hashed::{Named, add, add_by_digest, text_named};
use crate::planning::{keys, planned_of};
use crate::premises::Ran;
use layout::put_in;
use lms_sign::PublicKey;
use tests_aids::texts::{
    joined, listed, named, pending, plan, reply as text_of_reply, shown, vector_of,
};
use tests_aids::{Aided, Host, found, given};

/// There are users 0 to 2.
pub(crate) const USERS: u8 = 3;

/// At which server a user's client is, the last texts to and from it, and all structures that were signed by its key.
#[derive(Drop)]
pub(crate) struct Place {
    pub(crate) server: usize,
    pub(crate) update: Vec<u8>,
    pub(crate) reply: Vec<u8>,
    pub(crate) structures: Vec<Vec<u8>>,
}

/// What is written down.
#[derive(Drop)]
pub(crate) struct Notes {
    /// The users' keys.
    pub(crate) keys: Vec<PublicKey>,
    pub(crate) places: Vec<Place>,
    /// The stored blocks, each named by its digest.
    store: Vec<Named>,
    /// The steps, as `acts.rt` says, and the answers, as `answers.rt` does.
    pub(crate) rows: Vec<Vec<u8>>,
    pub(crate) told: Vec<Vec<u8>>,
}

/// A user's place.
pub(crate) fn place_in<'a>(rt: &impl Aided, places: &'a mut [Place], number: u8) -> &'a mut Place {
    found(rt, places.get_mut(usize::from(number)), "a user")
}

/// The structure that a user signed last.
pub(crate) fn latest<'a>(rt: &impl Aided, places: &'a [Place], number: u8) -> &'a [u8] {
    let place = found(rt, places.get(usize::from(number)), "a user");
    let last = found(rt, place.structures.last(), "a structure");
    last
}

/// Nothing was done yet; all are at the first server.
pub(crate) fn new_notes(rt: &impl Host) -> Notes {
    let mut places = Vec::new(rt.alloc());
    for _ in 0..USERS {
        let place = Place {
            server: 0,
            update: Vec::new(rt.alloc()),
            reply: Vec::new(rt.alloc()),
            structures: Vec::new(rt.alloc()),
        };
        given(rt, places.push(place), "memory");
    }
    Notes {
        keys: keys(rt, USERS),
        places,
        store: Vec::new(rt.alloc()),
        rows: Vec::new(rt.alloc()),
        told: Vec::new(rt.alloc()),
    }
}

/// This is the structure that a user signed last: it may be told again.
fn is_signed(rt: &impl Aided, place: &mut Place, text: &[u8]) {
    let is_known = match place.structures.last() {
        Some(last) => last.as_slice() == text,
        None => false,
    };
    if !is_known {
        add(rt, &mut place.structures, joined(rt, &[text]));
    }
}

impl Notes {
    /// The run, for its premises to be tested.
    pub(crate) fn ran(&self) -> Ran<'_> {
        Ran {
            rows: &self.rows,
            told: &self.told,
            keys: &self.keys,
        }
    }

    /// User 0's key.
    pub(crate) fn pinned(&self, rt: &impl Aided) -> PublicKey {
        *found(rt, self.keys.first(), "a key")
    }

    /// This block is stored.
    pub(crate) fn store_block(&mut self, rt: &impl Aided, block: &[u8]) {
        add_by_digest(rt, &mut self.store, block);
    }

    /// What is laid out for these changes is stored.
    pub(crate) fn store_laid(&mut self, rt: &impl Aided, changes: &[u8]) {
        for text in &planned_of(rt, &self.keys, changes).laid {
            add_by_digest(rt, &mut self.store, text);
        }
    }

    /// The last answer.
    pub(crate) fn last(&self) -> &[u8] {
        match self.told.last() {
            Some(told) => told,
            None => &[],
        }
    }

    /// The stored block that the last answer asks for, if it asks for one.
    pub(crate) fn asked(&self, rt: &impl Aided) -> Option<Vec<u8>> {
        match self.last() {
            [b'n', digest @ ..] => {
                let block = found(rt, text_named(&self.store, digest), "a stored block");
                Some(joined(rt, &[block]))
            }
            _ => None,
        }
    }

    /// What an answer of a user's client makes of its last texts, and of the stored blocks.
    fn takes(&mut self, rt: &impl Aided, number: u8, told: &[u8]) {
        let place = place_in(rt, &mut self.places, number);
        match told {
            [b'b', update @ ..] | [b'o', b'd', update @ ..] => {
                put_in(&mut place.update, joined(rt, &[update]));
            }
            [b's', fields @ ..] => is_signed(rt, place, first_field(fields)),
            [b'o', b's', structure @ ..] => is_signed(rt, place, structure),
            [b't', texts @ ..] => {
                for text in &fields_of(rt, texts) {
                    add_by_digest(rt, &mut self.store, text);
                }
            }
            _ => {}
        }
    }

    /// A user's client answered this in the step of this row.
    pub(crate) fn add(&mut self, rt: &impl Aided, number: u8, row: Vec<u8>, told: Vec<u8>) {
        self.takes(rt, number, &told);
        add(rt, &mut self.rows, row);
        add(rt, &mut self.told, told);
    }

    /// The structures of a reply by hand: of each user the one of this place among those that it signed.
    fn structures(&self, rt: &impl Aided, rows: &[u8]) -> Vec<u8> {
        let [.., count] = (rows.len() / 2).to_be_bytes();
        let mut text = joined(rt, &[&[count]]);
        for row in rows.chunks(2) {
            let [user, at] = row else { rt.fail("no place") };
            let place = found(rt, self.places.get(usize::from(*user)), "a user");
            let structure = found(rt, place.structures.get(usize::from(*at)), "a structure");
            let row = shown(rt, structure);
            given(rt, text.extend_from_slice(&row), "memory");
        }
        text
    }

    /// A user's reply is made by hand. Its structures take so many bytes: each a user, and a place among those that it
    /// signed. Then come the versions of the plan's vector, each a principal and a number. The plan has no entry.
    pub(crate) fn is_answered(&mut self, rt: &impl Aided, number: u8, reply: &[u8]) {
        let [size, rows @ ..] = reply else {
            rt.fail("no size")
        };
        let (rows, versions) = rows.split_at(usize::from(*size).min(rows.len()));
        let structures = self.structures(rt, rows);
        let place = place_in(rt, &mut self.places, number);
        let item = item_of(rt, number, &place.update, versions);
        put_in(
            &mut place.reply,
            text_of_reply(rt, &structures, &listed(rt, &item)),
        );
    }
}

/// The versions that are spelled here, each as a principal and a number.
fn versions_in(rt: &impl Aided, versions: &[u8]) -> Vec<(u8, u8)> {
    let mut rows = Vec::new(rt.alloc());
    for row in versions.chunks(2) {
        let [principal, version] = row else {
            rt.fail("no version")
        };
        given(rt, rows.push((*principal, *version)), "memory");
    }
    rows
}

/// The version of a principal among these: 0 where there is none.
pub(crate) fn version_in(versions: &[u8], principal: u8) -> u8 {
    for row in versions.chunks(2) {
        match row {
            [of, version] if *of == principal => return *version,
            _ => {}
        }
    }
    0
}

/// The plan of a user's operation, of which this is the digest of the certificate: it has these versions, and no entry.
pub(crate) fn plan_at(
    rt: &impl Aided,
    number: u8,
    certificate: &[u8; 32],
    versions: &[u8],
) -> Vec<u8> {
    let own = u32::from(version_in(versions, number));
    let vector = vector_of(rt, &versions_in(rt, versions));
    plan(rt, number, own, certificate, &vector, b"\0")
}

/// The pending operation of a user's certificate: the plan has these versions, and no entry.
fn item_of(rt: &impl Aided, number: u8, update: &[u8], versions: &[u8]) -> Vec<u8> {
    let plan = plan_at(rt, number, &named(update), versions);
    pending(rt, update, &plan)
}
