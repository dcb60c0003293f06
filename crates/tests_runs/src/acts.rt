//! Steps of users' clients, written as bytes, and carried out by `run`. A row is the user; after how many calls a
//! device fails in the step, of the ledger's and of the journal's, a digit, or `-` for never; the letter of what the
//! client is told to do; and what it takes for that:
//!
//! - `o`: it opens; `k`: it closes; `n`: it gains its next key; `s`: it signs; `c`: it is told of a commit;
//! - `d`: it declares an operation of these changes, spelled as `planning.rt` says;
//! - `a`: it signs its certificate again, by the key of this number, in a byte;
//! - `r`: it is handed this reply; `b`: this block for it; `g`: this block for its look; `B` and `G`: none;
//! - `v`, `q`: it looks, or asks of what kind stands, at this i-number of a principal; `f`: it asks for a free one,
//!   from one to another;
//! - `x`: a crash leaves a field for each ledger and one of the journal, or nothing; `w`: it leaves a byte of a
//!   journal;
//! - `0`, `1`, `2`: its cache gets this size; `m`: the greatest one; `M`: one above it.

use crate::answers::{all_spelled, fields_of};
use crate::planning::{planned_of, user};
use client_runs::{Act, WorldStep};
use fork_consistency::run;
use layout::let_go;
use lms_sign::PublicKey;
use std::alloc::Global;
use tests_aids::numbers::{i_number, principal};
use tests_aids::texts::joined;
use tests_aids::{Host, check, found, given};
use tests_client_aids::changes::Planned;
use wire::Status;

/// No call fails.
pub(crate) const NEVER: &[u8; 2] = b"--";

/// After how many calls one fails, if one does.
pub(crate) fn fails_of(letter: u8) -> Option<u64> {
    if letter == b'-' {
        None
    } else {
        Some(u64::from(letter.wrapping_sub(b'0')))
    }
}

/// A user's row.
pub(crate) fn row_of(
    rt: &impl Host,
    number: u8,
    fails: &[u8; 2],
    letter: u8,
    rest: &[u8],
) -> Vec<u8> {
    joined(rt, &[&[number], fails, &[letter], rest])
}

/// It declares an operation of these changes.
fn beginning(rt: &impl Host, keys: &[PublicKey], changes: &[u8]) -> Act<Global> {
    let Planned { changes, laid } = planned_of(rt, keys, changes);
    Act::Begin(changes, laid)
}

/// One ledger without bytes.
static ONE_EMPTY: [&[u8]; 1] = [b""];

/// A crash leaves these texts of the ledgers, and this one of the journal.
fn crash(rt: &impl Host, ledgers: &[&[u8]], journal: &[u8]) -> Act<Global> {
    let mut left = Vec::new(rt.alloc());
    for ledger in ledgers {
        given(rt, left.push(joined(rt, &[ledger])), "memory");
    }
    Act::Crash(left, joined(rt, &[journal]))
}

/// A crash leaves these fields, the journal's last, or nothing.
fn crash_of(rt: &impl Host, left: &[u8]) -> Act<Global> {
    match fields_of(rt, left).as_slice() {
        [ledgers @ .., journal] => crash(rt, ledgers, journal),
        [] => crash(rt, &ONE_EMPTY, &[]),
    }
}

/// It signs its certificate again, by the key of this number.
fn resigning(rt: &impl Host, number: &[u8]) -> Act<Global> {
    Act::Resign(*found(rt, number.first(), "a number of a key"))
}

/// It looks in one of three ways.
fn look(rt: &impl Host, letter: u8, rest: &[u8]) -> Act<Global> {
    let [owner, first, last @ ..] = rest else {
        rt.fail("no i-number")
    };
    let (owner, first) = (principal(rt, *owner), i_number(rt, u16::from(*first)));
    match (letter, last) {
        (b'v', _) => Act::Look(owner, first),
        (b'q', _) => Act::Kind(owner, first),
        (_, [last]) => Act::Free(owner, first, i_number(rt, u16::from(*last))),
        _ => rt.fail("no last i-number"),
    }
}

/// What a client is told to do that takes nothing.
fn act_alone(rt: &impl Host, letter: u8) -> Act<Global> {
    match letter {
        b'o' => Act::Open,
        b'k' => Act::Close,
        b'n' => Act::Gain,
        b's' => Act::Sign,
        b'c' => Act::Committed(Status::Ok),
        b'B' => Act::Block(None),
        b'G' => Act::Give(None),
        b'w' => crash(rt, &ONE_EMPTY, &[1]),
        b'0'..=b'2' => Act::Cache(u16::from(letter.wrapping_sub(b'0'))),
        b'm' => Act::Cache(4_096),
        b'M' => Act::Cache(4_097),
        _ => rt.fail("no letter"),
    }
}

/// What a client is told to do, where these are the keys of the users from 0 on.
pub(crate) fn act_of(rt: &impl Host, keys: &[PublicKey], letter: u8, rest: &[u8]) -> Act<Global> {
    match letter {
        b'd' => beginning(rt, keys, rest),
        b'a' => resigning(rt, rest),
        b'r' => Act::Reply(joined(rt, &[rest])),
        b'b' => Act::Block(Some(joined(rt, &[rest]))),
        b'g' => Act::Give(Some(joined(rt, &[rest]))),
        b'v' | b'q' | b'f' => look(rt, letter, rest),
        b'x' => crash_of(rt, rest),
        _ => act_alone(rt, letter),
    }
}

/// The step of a row.
fn step_of(rt: &impl Host, keys: &[PublicKey], row: &[u8]) -> WorldStep<Global> {
    let [number, ledger, journal, letter, rest @ ..] = row else {
        rt.fail("no step")
    };
    WorldStep {
        user: user(rt, *number),
        act: act_of(rt, keys, *letter, rest),
        ledger_fails: fails_of(*ledger),
        journal_fails: fails_of(*journal),
    }
}

/// The steps of the rows.
fn steps_of(rt: &impl Host, keys: &[PublicKey], rows: &[Vec<u8>]) -> Vec<WorldStep<Global>> {
    let mut steps = Vec::new(rt.alloc());
    for row in rows {
        given(rt, steps.push(step_of(rt, keys, row)), "memory");
    }
    steps
}

/// What `run` answers to these steps, one answer each.
pub(crate) fn answers_of(rt: &impl Host, keys: &[PublicKey], rows: &[Vec<u8>]) -> Vec<Vec<u8>> {
    let steps = steps_of(rt, keys, rows);
    let answers = given(rt, run(rt.alloc(), &steps), "memory").answers;
    check(rt, answers.len() == rows.len(), "one answer a step");
    let told = all_spelled(rt, &answers);
    let_go((steps, answers));
    told
}
