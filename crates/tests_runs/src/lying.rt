//! Clients at a server that can lie. No two different texts that are hashed have one digest, in the script with a
//! swapped plan (`scripts/renewals/plan-swapped`) and in the one with a dropped member (`member-dropped` beside it): so
//! what is promised where no two texts collide is promised of both. Their servers sign nothing. The steps of the scripts
//! are taken call by call, by clients with the same keys, so that each text is seen. The look at the end of the second
//! one is left out: it hashes nothing new. And a server that can lie, and has no reason to, answers as the honest one.

use crate::here::Here;
use crate::premises::none_collide;
use crate::stage::plays;
use layout::let_go;
use tests_aids::{Host, check};

/// User 0 lists users 1 and 2. User 1's plan is swapped for user 2: it gains an entry of user 0's operation. Then its
/// true structure is shown, and user 2 refuses that, by the rule on entries, 13.
static SWAPPED: [&[u8]; 11] = [
    b"0Du\x01;u\x02",
    b"0qasz",
    b"1d",
    b"1qas",
    b"1I\x00",
    b"2D",
    b"2qasz",
    b"1O",
    b"2d",
    b"2qj",
    b"2=!\x0d",
];

/// A member declares that it writes, and is dropped before that is placed.
static DROPPED: [&[u8]; 8] = [
    b"0Du\x01;m\x40\x01",
    b"0qasz",
    b"1Df\x40\x40old",
    b"1qasz",
    b"1Dp\x40\x40new",
    b"0Dd\x40\x01",
    b"0qasz",
    b"1qasz",
];

/// Both servers place an operation, and answer the same reply, also when they are asked again; and both commit it, and
/// answer so when they are asked again. What is no text they refuse by status 1, user 1, who isn't listed, by 2, and a
/// changed certificate or structure by 3; a certificate whose operation is committed by 4, and a structure that is no
/// more its user's latest by 5. Users 1 and 2 have operations pending beside each other, while user 0 makes one.
static HONEST: [&[u8]; 47] = [
    b"0Bu-1",
    b"0Bc-1",
    b"1Df\x01\x05one",
    b"1Bul2",
    b"0Du\x01;u\x02",
    b"0Bux3",
    b"0p",
    b"0Bul0",
    b"0Bul0",
    b"0as",
    b"0Bcx3",
    b"0Bcl0",
    b"0Bcl0",
    b"0e",
    b"0Bul4",
    b"1p",
    b"1Bul0",
    b"1Bul0",
    b"1as",
    b"2d",
    b"2p",
    b"2Bul0",
    b"2Bul0",
    b"2as",
    b"0d",
    b"0p",
    b"0Bul0",
    b"0Bul0",
    b"0as",
    b"0Bcl0",
    b"0Bcl0",
    b"0e",
    b"0Bc05",
    b"2Bcl0",
    b"2Bcl0",
    b"1Bcl0",
    b"1Bcl0",
    b"1e",
    b"1d",
    b"1p",
    b"1Bul0",
    b"1Bul0",
    b"1as",
    b"1Bcl0",
    b"1Bcl0",
    b"1e",
    b"1Bc05",
];

/// No two different texts of the clients' run have one digest.
fn shares_no_digest(rt: &impl Host, script: &[&[u8]]) {
    let notes = plays(rt, script);
    let is_well = none_collide(rt, notes.ran(), &notes.pinned(rt));
    check(rt, is_well, "two texts of one digest");
    let_go(notes);
}

#[test]
fn texts_of_a_swapped_plan(rt: HostRuntime) {
    shares_no_digest(&(rt, Here), &SWAPPED);
}

#[test]
fn texts_of_a_dropped_member(rt: HostRuntime) {
    shares_no_digest(&(rt, Here), &DROPPED);
}

#[test]
fn an_honest_course(rt: HostRuntime) {
    let_go(plays(&(rt, Here), &HONEST));
}
