//! A run in which all that fork consistency assumes holds, and what it promises is seen: three users, of whom two are
//! members of a group, at a server that shows users 1 and 2 two lines from the fifth operation on. An operation is
//! pending for good, one loses a change, since its user is dropped from the group before it is placed, two clients
//! crash and are opened again, and at last what was shown apart is shown to user 2 together.

use crate::here::Here;
use crate::lines::{Scope, looks_into_worlds};
use crate::plain_world::Operation;
use crate::premises::are_met;
use crate::written::plays_written;
use layout::let_go;
use tests_aids::check;

/// The operations, by the letters A to I. User 1 makes no i-number of the group that is user 2's; user 0 is no member,
/// and user 1 is none any more in its second operation.
static OPERATIONS: [Operation; 9] = [
    Operation {
        user: 0,
        changes: b"u\x01;u\x02;m\x40\x01;m\x40\x02;f\x00\x03zero;l\x00\x02\x40\x40shared",
    },
    Operation {
        user: 1,
        changes: b"f\x40\x40old;f\x01\x05of user 1;f\x40\x80of user 2",
    },
    Operation {
        user: 2,
        changes: b"f\x02\x05of user 2;p\x40\x40of both",
    },
    Operation {
        user: 0,
        changes: b"d\x40\x01;l\x00\x02\x02\x05own;p\x40\x40of none",
    },
    Operation {
        user: 1,
        changes: b"p\x40\x40too late;p\x01\x05again",
    },
    Operation {
        user: 2,
        changes: b"p\x40\x40apart;r\x02\x05",
    },
    Operation {
        user: 0,
        changes: b"",
    },
    Operation {
        user: 2,
        changes: b"f\x40\x80of user 2;f\x02\x05",
    },
    Operation {
        user: 1,
        changes: b"r\x01\x05;f\x01\x06last",
    },
];

/// The line of each view. C is pending for good in those of users 0 and 1.
static LINES: [&[u8]; 9] = [
    b"A", b"AB", b"ABC", b"ABCD", b"ABCDE", b"ABCDEG", b"ABCDEGI", b"ABCDF", b"ABCDFH",
];

/// Lines of which the fourth isn't that of its view: without what is pending.
static WITHOUT_PENDING: [&[u8]; 9] = [
    b"A", b"AB", b"ABC", b"ABD", b"ABCDE", b"ABCDEG", b"ABCDEGI", b"ABCDF", b"ABCDFH",
];

/// And the fifth: without user 0's second operation, so that user 1 would still be a member.
static STILL_MEMBER: [&[u8]; 9] = [
    b"A", b"AB", b"ABC", b"ABCD", b"ABCE", b"ABCDEG", b"ABCDEGI", b"ABCDF", b"ABCDFH",
];

/// Where each view is looked at: the table of principals, the root directory, files of users and of the group, and
/// where nothing ever stands.
static PLACES: [(u8, u8); 9] = [
    (0, 1),
    (0, 2),
    (0, 3),
    (1, 5),
    (1, 6),
    (2, 5),
    (64, 64),
    (64, 128),
    (65, 64),
];

/// The script (`written.rt`). A to D come to one server. User 2 signs C, which isn't committed; user 1 declares E
/// before D is placed, and crashes. E, G and I come to one server; C's commit, after a crash, F and H to the other one.
/// At last user 2 declares its fourth operation, and is shown together what was shown apart: the rule on numbers, 11,
/// is broken.
static SCRIPT: [&[u8]; 37] = [
    b"A",
    b"0pasc",
    b"0*",
    b"B",
    b"1pasc",
    b"1*",
    b"C",
    b"2pas",
    b"2*",
    b"E",
    b"1r",
    b"1~od",
    b"D",
    b"0pasc",
    b"0*",
    b"2F",
    b"1pasc",
    b"1*",
    b"2w",
    b"2~os",
    b"2c",
    b"G",
    b"0pasc",
    b"0*",
    b"I",
    b"1pasc",
    b"1*",
    b"F",
    b"2pasc",
    b"2*",
    b"H",
    b"2pasc",
    b"2*",
    b"2d",
    b"2H\x06\x00\x02\x01\x02\x02\x02\x00\x03\x01\x03\x02\x04\x40\x04",
    b"2j",
    b"2=!\x0b",
];

/// The premises hold of the run, each of its views is the world of its line, and isn't that of another one.
#[test]
fn premises_and_worlds_of_a_run(rt: HostRuntime) {
    let rt = &(rt, Here);
    let notes = plays_written(rt, &OPERATIONS, &PLACES, &SCRIPT);
    let ran = notes.ran();
    are_met(rt, ran, &[]);
    let looks = looks_into_worlds(rt, ran, &Scope::View, &OPERATIONS, &LINES);
    let wanted = LINES.len().wrapping_mul(PLACES.len());
    assert!(rt; looks == Ok(wanted), "{looks:?}");
    for lines in [&WITHOUT_PENDING, &STILL_MEMBER] {
        let looks = looks_into_worlds(rt, ran, &Scope::View, &OPERATIONS, lines);
        check(rt, looks.is_err(), "another line");
    }
    let_go(notes);
}
