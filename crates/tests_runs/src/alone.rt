//! One user's client without a server: steps out of phase, restarts, each call of a device failing in turn, and what no
//! crash leaves. What comes of each step is told by hand, by a letter.

use crate::acts::{NEVER, answers_of, row_of};
use crate::here::Here;
use tests_aids::{Host, given};

/// What user 2's client is told to do, by the letters of `acts.rt`, and what comes of it, by those of `is_so`.
static STEPS: [(&[u8], &[u8]); 5] = [
    // Steps out of phase are not taken.
    (b"kdoorBscGks", b"--i------k-"),
    // The cache of an open client may have 1 to 4,096 blocks, in any phase.
    (b"1o01mMd2", b"-i-hh-bh"),
    // What is declared is told again.
    (b"oddko", b"ib-kd"),
    // No crash leaves what was not written.
    (b"wxo", b"-xi"),
    // An open client has a ledger of 1,080 synced bytes, which no crash takes away: it stays open.
    (b"oxd", b"i-b"),
];

/// Whether an answer is what a letter says: `-`, the step isn't taken; `i`, the client is open, idle, with nothing to
/// be sent again; `d`, it is open, and the certificate that was sent is to be sent again; `o`, it is open; `k`, it is
/// closed; `h`, its cache has another size; `x`, the crash came; `b`, it has declared; `f`, a device failed at that;
/// `r`, a device failed at the opening; `n`, the ledger's file is no ledger of its key; `?`, anything.
fn is_so(told: &[u8], letter: u8, sent: &[u8]) -> bool {
    match (letter, told) {
        (b'd', [b'o', b'd', again @ ..]) => again == sent,
        (b'o', [b'o', ..]) | (b'b', [b'b', ..]) => true,
        (b'i', _) => told == b"oi".as_slice(),
        (b'-' | b'k' | b'h' | b'x', [only]) => *only == letter,
        (b'f', _) => told == b"edd".as_slice(),
        (b'r', _) => told == b"eod".as_slice(),
        (b'n', _) => told == b"eof".as_slice(),
        _ => letter == b'?',
    }
}

/// The steps come to what is wanted, where in the one of this place a device fails so.
fn come_to(rt: &impl Host, acts: &[u8], wanted: &[u8], failing: usize, fails: &[u8; 2]) {
    let mut rows = Vec::new(rt.alloc());
    for (place, letter) in acts.iter().enumerate() {
        let fails = if place == failing { fails } else { NEVER };
        given(rt, rows.push(row_of(rt, 2, fails, *letter, b"")), "memory");
    }
    let told = answers_of(rt, &[], &rows);
    let mut sent: &[u8] = &[];
    for (place, (text, letter)) in told.iter().zip(wanted).enumerate() {
        assert!(rt; is_so(text, *letter, sent), "at {place}: {fails:?}");
        if let [b'b', certificate @ ..] = text.as_slice() {
            sent = certificate;
        }
    }
}

#[test]
fn steps_of_one_client(rt: HostRuntime) {
    let rt = &(rt, Here);
    for (acts, wanted) in &STEPS {
        come_to(rt, acts, wanted, 0, NEVER);
    }
}

/// A declaration makes two calls of the ledger's device and six of the journal's. It is told again if none failed.
#[test]
fn each_call_fails_in_turn(rt: HostRuntime) {
    let rt = &(rt, Here);
    for calls in b'0'..b'4' {
        let wanted = if calls < b'2' { b"if?o" } else { b"ibkd" };
        come_to(rt, b"odko", wanted, 1, &[calls, b'-']);
    }
    for calls in b'0'..b'8' {
        let wanted = if calls < b'6' { b"if?o" } else { b"ibkd" };
        come_to(rt, b"odko", wanted, 1, &[b'-', calls]);
    }
}

/// A first opening makes five calls of the ledger's device: a sync, the size, the key and the marks written, a sync.
/// And four of the journal's: a sync, the size, the gate written, a sync. Of a write that fails half is written: a
/// ledger's file that was written in part is no ledger of the key.
#[test]
fn each_call_of_an_opening_fails_in_a_run(rt: HostRuntime) {
    let rt = &(rt, Here);
    for calls in b'0'..b'5' {
        let wanted = if matches!(calls, b'2' | b'3') {
            b"rn"
        } else {
            b"ri"
        };
        come_to(rt, b"oo", wanted, 0, &[calls, b'-']);
    }
    for calls in b'0'..b'4' {
        come_to(rt, b"oo", b"ri", 0, &[b'-', calls]);
    }
}
