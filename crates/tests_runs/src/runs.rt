//! Users whose clients stand alone, and the same steps in a run. What they answer is told by hand where it matters: the
//! first texts, the files that are read, the phases after crashes, the lost changes and the broken rules.

use crate::hashed::before_signature;
use crate::here::Here;
use crate::notes::latest;
use crate::stage::plays;
use layout::let_go;
use tests_aids::texts::{FIRST_HANDLE, certificate, plan_of, structure};
use tests_aids::{check, check_text, found};

/// User 0's first operation has no changes: its certificate of 42 bytes, the reply of 2,608 and the structure of 87,
/// whose plan has one version, and no entry. Each signature takes 2,508.
#[test]
fn first_operation_in_a_run(rt: HostRuntime) {
    let rt = &(rt, Here);
    let notes = plays(rt, &[b"0d", b"0H\x00\x00\x01", b"0ase"]);
    let place = found(rt, notes.places.first(), "a user");
    let (update, commit) = (&place.update, latest(rt, &notes.places, 0));
    check_text(
        rt,
        before_signature(update),
        &certificate(rt, 0, 1, &[0; 32]),
    );
    let wanted = structure(rt, &plan_of(rt, 1, update), &FIRST_HANDLE);
    check_text(rt, before_signature(commit), &wanted);
    let sizes = [update.len(), place.reply.len(), commit.len()];
    check(rt, sizes == [2550, 2608, 2595], "the sizes of the texts");
    let_go(notes);
}

/// What user 0 does, at last a crash that leaves nothing unsynced, and the phase in which its client is opened again:
/// before its first operation, once it is declared, once the reply is accepted, and once the structure is signed. No
/// record tells of the commit.
static CRASHES: [&[u8]; 13] = [
    b"0r",
    b"0~oi",
    b"0dr",
    b"0~od",
    b"0H\x00\x00\x01",
    b"0ar",
    b"0~od",
    b"0asr",
    b"0~os",
    b"0er",
    b"0~os",
    b"0edr",
    b"0~od",
];

/// User 1 is a member when it declares its write, and none when that is placed: the write is lost.
static DROPPED: [&[u8]; 10] = [
    b"0Du\x01;m\x40\x01",
    b"0pasc",
    b"1Df\x40\x40old",
    b"1pasc",
    b"1Dp\x40\x40new",
    b"0Dd\x40\x01",
    b"0pasc",
    b"1pasc",
    b"1T\x01",
    b"1L\x40\x40",
];

/// Users 1 and 2 have writes pending, which user 0 reads: both while both are pending, once user 2 has committed, and
/// once user 1 has, too.
static TWO_WRITE: [&[u8]; 23] = [
    b"0Du\x01;u\x02",
    b"0pasc",
    b"1Df\x01\x05of user 1",
    b"1p",
    b"2Df\x02\x05and of user 2",
    b"2p",
    b"0dpasc",
    b"0L\x01\x05",
    b"0=Fof user 1",
    b"0L\x02\x05",
    b"0=Fand of user 2",
    b"2asc",
    b"0dpasc",
    b"0L\x01\x05",
    b"0=Fof user 1",
    b"0L\x02\x05",
    b"0=Fand of user 2",
    b"1asc",
    b"0dpasc",
    b"0L\x01\x05",
    b"0=Fof user 1",
    b"0L\x02\x05",
    b"0=Fand of user 2",
];

/// User 1 is shown what it and user 2 signed apart: the last answer is that the rule on numbers, 11, is broken.
static JOINED: [&[u8]; 9] = [
    b"0Du\x01;u\x02",
    b"0pasc",
    b"2F",
    b"1dpasc",
    b"2dpasc",
    b"1d",
    b"1H\x06\x00\x00\x01\x00\x02\x00\x00\x01\x01\x02",
    b"1j",
    b"1=!\x0b",
];

/// User 1 is shown the structure before its last two: the last answer is that the rule on the own last structure, 3, is
/// broken.
static OLDER: [&[u8]; 9] = [
    b"0Du\x01;u\x02",
    b"0pasc",
    b"1dpasc",
    b"1dpasc",
    b"1dpasc",
    b"1d",
    b"1H\x04\x00\x00\x01\x00\x00\x01\x01\x04",
    b"1j",
    b"1=!\x03",
];

#[test]
fn restarts_in_each_phase_of_a_run(rt: HostRuntime) {
    let_go(plays(&(rt, Here), &CRASHES));
}

#[test]
fn a_dropped_member_in_a_run(rt: HostRuntime) {
    let rt = &(rt, Here);
    let notes = plays(rt, &DROPPED);
    check_text(rt, notes.last(), b"Fold");
    let_go(notes);
}

#[test]
fn two_write_while_one_reads(rt: HostRuntime) {
    let_go(plays(&(rt, Here), &TWO_WRITE));
}

#[test]
fn forks_that_are_joined_in_a_run(rt: HostRuntime) {
    let_go(plays(&(rt, Here), &JOINED));
}

#[test]
fn an_older_structure_in_a_run(rt: HostRuntime) {
    let_go(plays(&(rt, Here), &OLDER));
}
