//! Honest runs: user 0's first operation, and two users' operations that are pending together while user 0 reads, and
//! of which all answers come late. What is accepted, read and answered is told by hand.

use crate::acts::{NEVER, act_of, fails_of, row_of};
use crate::answers::{View, all_spelled, count_told, count_views, view_in};
use crate::hashed::add;
use crate::here::Here;
use crate::planning::{keys, user};
use fork_theorem::{Delivery, HonestAct, HonestStep, honest_run};
use layout::let_go;
use lms_sign::PublicKey;
use std::alloc::Global;
use tests_aids::texts::joined;
use tests_aids::{Aided, Host, check, check_text, found, given};

/// How many blocks each reply and each look is handed at most. Those that aren't asked for aren't taken.
const BLOCKS: &[u8] = b"bbbbbbbbbb";

const GIVES: &[u8] = b"gggggggggg";

/// Users 1 and 2 are listed.
pub(crate) const LISTING: &[u8] = b"u\x01;u\x02";

/// The beginning of user 0's first certificate: its tag, the user and the number.
const FIRST_CERTIFICATE: &[u8] = b"SUC1\0\0\0\0\x01";

/// The bodies of its frames, without their kind: 42 bytes and a signature, 87 bytes and a signature.
const CERTIFICATE_SIZE: usize = 0x9f7 - 1;

const STRUCTURE_SIZE: usize = 0xa24 - 1;

/// What is answered where a structure was committed, or an answer of status 0 got lost.
pub(crate) const SERVED: &[u8] = b"v\0";

// ---- steps as bytes

/// Steps, to be carried out: rows as in `acts.rt`, and of these letters. `u`, the user sends what it declared; `c`,
/// what it signed; `U` and `C`, the same, where the answer is lost; `b`, its reply is handed the block that it asks
/// for; `g`, its look; `l`, what was answered when it last sent something is handed in.
pub(crate) type Rows = Vec<Vec<u8>>;

/// A user's steps, a letter each.
pub(crate) fn goes_on(rt: &impl Host, rows: &mut Rows, number: u8, letters: &[u8]) {
    for letter in letters {
        add(rt, rows, row_of(rt, number, NEVER, *letter, b""));
    }
}

/// A user's step by this letter, which takes this.
pub(crate) fn does(rt: &impl Host, rows: &mut Rows, number: u8, letter: u8, rest: &[u8]) {
    add(rt, rows, row_of(rt, number, NEVER, letter, rest));
}

/// A user's reply is handed blocks, and then the user does what these letters say.
pub(crate) fn judges(rt: &impl Host, rows: &mut Rows, number: u8, letters: &[u8]) {
    goes_on(rt, rows, number, BLOCKS);
    goes_on(rt, rows, number, letters);
}

/// A user makes a whole operation of these changes.
pub(crate) fn operates(rt: &impl Host, rows: &mut Rows, number: u8, changes: &[u8]) {
    does(rt, rows, number, b'd', changes);
    goes_on(rt, rows, number, b"u");
    judges(rt, rows, number, b"sc");
}

/// A user looks in one of the ways, at this, and the look is handed blocks, after these letters.
pub(crate) fn looks(
    rt: &impl Host,
    rows: &mut Rows,
    number: u8,
    look: (u8, &[u8]),
    letters: &[u8],
) {
    does(rt, rows, number, look.0, look.1);
    goes_on(rt, rows, number, letters);
    goes_on(rt, rows, number, GIVES);
}

// ---- carrying out

/// In which step before this one a user sent its last text.
fn sent_before(rows: &[Vec<u8>], place: usize, number: u8) -> usize {
    let mut sent = 0;
    for (at, row) in rows.iter().take(place).enumerate() {
        if matches!(row.as_slice(), [user, _, _, b'u' | b'U' | b'c' | b'C', ..] if *user == number)
        {
            sent = at;
        }
    }
    sent
}

/// What happens in a step.
fn honest_act(
    rt: &impl Host,
    keys: &[PublicKey],
    rows: &[Vec<u8>],
    place: usize,
) -> HonestAct<Global> {
    let Some([number, _, _, letter, rest @ ..]) = rows.get(place).map(|row| row.as_slice()) else {
        rt.fail("no step")
    };
    match letter {
        b'u' => HonestAct::Update(Delivery::Arrives),
        b'U' => HonestAct::Update(Delivery::Lost),
        b'b' => HonestAct::Block,
        b'c' => HonestAct::Commit(Delivery::Arrives),
        b'C' => HonestAct::Commit(Delivery::Lost),
        b'g' => HonestAct::Give,
        b'l' => HonestAct::Late(sent_before(rows, place, *number)),
        _ => HonestAct::Alone(act_of(rt, keys, *letter, rest)),
    }
}

/// The steps of the rows.
fn steps_of(rt: &impl Host, keys: &[PublicKey], rows: &[Vec<u8>]) -> Vec<HonestStep<Global>> {
    let mut steps = Vec::new(rt.alloc());
    for (place, row) in rows.iter().enumerate() {
        let [number, ledger, journal, ..] = row.as_slice() else {
            rt.fail("no step")
        };
        let step = HonestStep {
            user: user(rt, *number),
            act: honest_act(rt, keys, rows, place),
            ledger_fails: fails_of(*ledger),
            journal_fails: fails_of(*journal),
        };
        given(rt, steps.push(step), "memory");
    }
    steps
}

/// What is answered to these steps in an honest run, one answer each, as `answers.rt` says.
pub(crate) fn answers_of(rt: &impl Host, keys: &[PublicKey], rows: &[Vec<u8>]) -> Vec<Vec<u8>> {
    let steps = steps_of(rt, keys, rows);
    let answers = given(rt, honest_run(rt.alloc(), &steps), "memory").answers;
    check(rt, answers.len() == rows.len(), "one answer a step");
    let told = all_spelled(rt, &answers);
    let_go((steps, answers));
    told
}

// ---- tests

/// User 0's first operation, without a change.
#[test]
fn first_operation_of_an_honest_run(rt: HostRuntime) {
    let rt = &(rt, Here);
    let mut rows = Vec::new(rt.0.alloc());
    goes_on(rt, &mut rows, 0, b"o");
    operates(rt, &mut rows, 0, b"");
    let told = answers_of(rt, &[], &rows);
    let Some([b'b', certificate @ ..]) = told.get(1).map(|told| told.as_slice()) else {
        rt.fail("no certificate")
    };
    check(rt, certificate.len() == CERTIFICATE_SIZE, "its size");
    check(
        rt,
        certificate.starts_with(FIRST_CERTIFICATE),
        "whose it is",
    );
    check(rt, count_views(&told) == 1, "the only view");
    for told in &told {
        if let Some(
            View {
                text,
                structures,
                lost,
                ..
            },
        ) = view_in(rt, told)
        {
            check(rt, text.len() == STRUCTURE_SIZE, "the structure");
            check(rt, structures == 1 && lost.is_empty(), "the view");
        }
    }
    let last = found(rt, told.last(), "a step");
    check_text(rt, last, SERVED);
}

/// User 0 operates without a change, and looks at both files.
fn reads_both(rt: &impl Host, rows: &mut Rows) {
    operates(rt, rows, 0, b"");
    looks(rt, rows, 0, (b'v', b"\x01\x05"), b"");
    looks(rt, rows, 0, (b'v', b"\x02\x05"), b"");
}

/// Users 1 and 2 have writes pending, which user 0 reads: once user 2 has committed, and once user 1 has, too. Their
/// replies are lost and come later, twice, and so do the statuses of their structures, the second time in vain.
fn two_write(rt: &impl Host) -> Rows {
    let mut rows = Vec::new(rt.alloc());
    for user in 0..3 {
        goes_on(rt, &mut rows, user, b"o");
    }
    operates(rt, &mut rows, 0, LISTING);
    does(rt, &mut rows, 1, b'd', b"f\x01\x05of user 1");
    goes_on(rt, &mut rows, 1, b"U");
    does(rt, &mut rows, 2, b'd', b"f\x02\x05and of user 2");
    goes_on(rt, &mut rows, 2, b"U");
    for user in [2, 1] {
        goes_on(rt, &mut rows, user, b"ll");
        judges(rt, &mut rows, user, b"sC");
        reads_both(rt, &mut rows);
        goes_on(rt, &mut rows, user, b"ll");
    }
    rows
}

/// The files that are seen, one after another.
fn told_files(rt: &impl Host, told: &[Vec<u8>]) -> Vec<u8> {
    let mut files = Vec::new(rt.alloc());
    for text in told {
        if text.first() == Some(&b'F') {
            given(rt, files.extend_from_slice(text), "memory");
        }
    }
    files
}

#[test]
fn two_write_in_an_honest_run(rt: HostRuntime) {
    let rt = &(rt, Here);
    let told = answers_of(rt, &keys(rt, 3), &two_write(rt));
    check(rt, count_views(&told) == 5, "all are accepted");
    check(
        rt,
        count_told(&told, SERVED) == 9,
        "and committed, four answers of 0 were lost",
    );
    let files = told_files(rt, &told);
    let both = b"Fof user 1Fand of user 2";
    check_text(rt, &files, &joined(rt, &[both, both]));
}
