//! A run in which the key of user 1 is stolen, once user 0 has dropped it from a group. Of what a thief signs with it
//! user 2 refuses a record of the group of a time at which user 1 was no member, and accepts one of a time at which it
//! was: so it reads the thief's files in user 1's part and in the group's, and not in its own or in user 0's. What is
//! assumed where the key of user 1 is stolen holds of the run, and what is assumed where none is doesn't.

use crate::here::Here;
use crate::lines::{Scope, looks_into_worlds};
use crate::plain_world::Operation;
use crate::premises::{Ran, are_met, none_forged};
use crate::written::plays_written;
use layout::let_go;
use tests_aids::{Host, check};

/// The operations, by the letters A to F; G and H are never made.
static OPERATIONS: [Operation; 8] = [
    Operation {
        user: 0,
        changes: b"u\x01;u\x02;m\x40\x01;m\x40\x02;f\x00\x03zero;l\x00\x02\x40\x40shared",
    },
    Operation {
        user: 1,
        changes: b"f\x40\x40old;f\x01\x05of user 1",
    },
    Operation {
        user: 2,
        changes: b"f\x02\x05of user 2",
    },
    Operation {
        user: 0,
        changes: b"d\x40\x01;p\x00\x03none",
    },
    Operation {
        user: 2,
        changes: b"",
    },
    Operation {
        user: 2,
        changes: b"f\x02\x06mine",
    },
    Operation {
        user: 0,
        changes: b"m\x40\x01",
    },
    Operation {
        user: 2,
        changes: b"p\x02\x05evil",
    },
];

/// Of the lines of the views user 0's operations alone, and user 2's.
static OF_ZERO: [&[u8]; 6] = [b"A", b"A", b"A", b"AD", b"AD", b"AD"];

static OF_TWO: [&[u8]; 6] = [b"", b"", b"C", b"C", b"CE", b"CEF"];

/// Others, by which the table has a row more in the last view, user 1 still is a member there, or a file of user 2 is
/// another one.
static ONE_ROW_MORE: [&[u8]; 6] = [b"A", b"A", b"A", b"AD", b"AD", b"ADG"];

static STILL_MEMBER: [&[u8]; 6] = [b"A", b"A", b"A", b"AD", b"AD", b"A"];

static CHANGED: [&[u8]; 6] = [b"", b"", b"C", b"C", b"CE", b"CEFH"];

/// Where views are looked at, in the parts of users 0 and 2: the table of principals, the root directory, files, and
/// where nothing stands.
static PLACES: [(u8, u8); 6] = [(0, 1), (0, 2), (0, 3), (2, 5), (2, 6), (2, 7)];

/// How many looks are at user 0's places, and how many at user 2's: in three views, and in two of them one more.
const LOOKS_OF_ZERO: usize = 9;

const LOOKS_OF_TWO: usize = 11;

/// The script (`written.rt`). A to E come to an honest server. A thief signs two structures of user 1, each of its
/// second number, over user 0's and user 2's latest: with a record of the group of table version 2, at which user 1 is
/// dropped already, and with one of table version 1. User 2 declares F, and is shown the first one, which breaks the
/// rule on group records, 15; then the second one.
static SCRIPT: [&[u8]; 33] = [
    b"A",
    b"0pasc",
    b"B",
    b"1pasc",
    b"C",
    b"2pasc",
    b"D",
    b"0pasc",
    b"0*",
    b"E",
    b"2pasc",
    b"2*",
    b"2L\x01\x05",
    b"2=Fof user 1",
    b"2L\x40\x40",
    b"2=Fold",
    b"2L\x02\x05",
    b"2=Fof user 2",
    b"1K\x02\x00\x02\x01\x02\x02\x02\x40\x02",
    b"1K\x01\x00\x02\x01\x02\x02\x02\x40\x02",
    b"F",
    b"2H\x06\x00\x01\x01\x01\x02\x01\x00\x02\x01\x02\x02\x03\x40\x02",
    b"2j",
    b"2=!\x0f",
    b"2H\x06\x00\x01\x01\x02\x02\x01\x00\x02\x01\x02\x02\x03\x40\x02",
    b"2as",
    b"2*",
    b"2L\x01\x05",
    b"2=Fevil",
    b"2L\x40\x40",
    b"2=Fevil",
    b"2L\x02\x05",
    b"2=Fof user 2",
];

/// The user's part of each view is the world of these operations of the user alone, at so many looks.
fn part_is(rt: &impl Host, ran: Ran<'_>, user: u8, lines: &[&'static [u8]], wanted: usize) {
    let looks = looks_into_worlds(rt, ran, &Scope::Part(user), &OPERATIONS, lines);
    assert!(rt; looks == Ok(wanted), "{looks:?}");
}

/// And it isn't that of these.
fn part_is_not(rt: &impl Host, ran: Ran<'_>, user: u8, lines: &[&'static [u8]]) {
    let looks = looks_into_worlds(rt, ran, &Scope::Part(user), &OPERATIONS, lines);
    check(rt, looks.is_err(), "another part");
}

#[test]
fn others_parts_where_a_key_is_stolen(rt: HostRuntime) {
    let rt = &(rt, Here);
    let notes = plays_written(rt, &OPERATIONS, &PLACES, &SCRIPT);
    let ran = notes.ran();
    are_met(rt, ran, &[1]);
    check(rt, !none_forged(rt, ran, &[]), "of nobody");
    check(rt, !none_forged(rt, ran, &[0, 2]), "of others");
    part_is(rt, ran, 0, &OF_ZERO, LOOKS_OF_ZERO);
    part_is(rt, ran, 2, &OF_TWO, LOOKS_OF_TWO);
    part_is_not(rt, ran, 0, &ONE_ROW_MORE);
    part_is_not(rt, ran, 0, &STILL_MEMBER);
    part_is_not(rt, ran, 2, &CHANGED);
    let_go(notes);
}
