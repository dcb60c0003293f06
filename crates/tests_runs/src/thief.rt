//! A thief, who signs with a user's stolen key, over parts that are made by hand.

use crate::hashed::add;
use crate::notes::{Notes, place_in, plan_at, version_in};
use layout::digest;
use tests_aids::Aided;
use tests_aids::texts::{joined, key_of, signed, structure_of};

/// What stands in each file of a thief.
pub(crate) const EVIL: &[u8] = b"evil";

/// The i-number of the one file in the part of the user whose key is stolen.
const OF_USER: u8 = 5;

/// The group of which there is a record.
const GROUP: u8 = 64;

/// The i-number of the one file in its part.
const OF_GROUP: u8 = 64;

/// How many i-numbers a chunk of an i-table has.
const OF_ONE_CHUNK: u8 = 64;

/// A leaf that the user's client hasn't come to.
const LEAF: u32 = 99;

/// The handle of a part in which a file of the thief's stands at this i-number, and nothing else. All its texts are
/// stored.
fn handle_of(rt: &impl Aided, notes: &mut Notes, principal: u8, number: u8) -> [u8; 32] {
    let place = number / OF_ONE_CHUNK;
    let inode = joined(rt, &[b"SIN1\x01\0\0\0\x04\0\x01", digest(EVIL).as_bytes()]);
    let chunk = joined(
        rt,
        &[b"STC1", &[place, 1, 0, number], digest(&inode).as_bytes()],
    );
    let root = joined(
        rt,
        &[b"STR1", &[principal, 1, place], digest(&chunk).as_bytes()],
    );
    for text in [EVIL, &inode, &chunk, &root] {
        notes.store_block(rt, text);
    }
    *digest(&root).as_bytes()
}

/// The record of the group, of this version and this table version, after the count of the records.
fn record_of(rt: &impl Aided, version: u8, table: u8, handle: &[u8; 32]) -> Vec<u8> {
    let group = [1, GROUP, 0, 0, 0, version];
    joined(rt, &[&group, &[0, 0, 0, table], handle])
}

/// A user's stolen key signs a structure, which nobody else saw before. Its plan has these versions, each a principal
/// and a number, and its record of the group this table version. In both parts a file of the thief's stands, and
/// nothing else.
pub(crate) fn signs(rt: &impl Aided, notes: &mut Notes, number: u8, table: u8, versions: &[u8]) {
    let part = handle_of(rt, notes, number, OF_USER);
    let shared = handle_of(rt, notes, GROUP, OF_GROUP);
    let record = record_of(rt, version_in(versions, GROUP), table, &shared);
    let plan = plan_at(rt, number, &[7; 32], versions);
    let text = structure_of(rt, &plan, &part, &record);
    let structure = signed(rt, &key_of(rt, number), LEAF, &text);
    let place = place_in(rt, &mut notes.places, number);
    add(rt, &mut place.structures, structure);
}
