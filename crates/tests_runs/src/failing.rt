//! Each call of a device in `begin` and in `sign` fails in turn, and a crash comes: user 0's client goes on in one run,
//! which answers as the client does that stands alone. Which calls fail, and what stands then, is told by hand.

use crate::here::Here;
use crate::stage::plays;
use layout::let_go;
use tests_aids::texts::joined;
use tests_aids::{Host, given};

/// `begin` and `sign` each make two calls of the ledger's device and six of the journal's. After each of these faults a
/// crash leaves no record: a letter for the device, which of its calls fails, and whether the crash leaves what is
/// synced or all that is written.
static UNDONE: [&[u8]; 15] = [
    b"l0s", b"l0w", b"l1s", b"l1w", b"j0s", b"j0w", b"j1s", b"j1w", b"j2s", b"j2w", b"j3s", b"j3w",
    b"j4s", b"j4w", b"j5s",
];

/// The last call syncs the open gate: a crash that leaves it leaves the record.
const LAST_SYNC: &[u8] = b"j5w";

/// User 0's second operation, after its structure. After so many calls none fails.
static SECOND: [&[u8]; 5] = [b"0e", b"0Ad2-", b"0H\x02\x00\x00\x00\x02", b"0a", b"0As-6"];

/// Adds a fault in declaring or in signing, and the phase after it.
fn add_fault(rt: &impl Host, script: &mut Vec<Vec<u8>>, letter: u8, fault: &[u8], phase: u8) {
    given(
        rt,
        script.push(joined(rt, &[b"0X", &[letter], fault])),
        "memory",
    );
    given(rt, script.push(joined(rt, &[b"0~o", &[phase]])), "memory");
}

/// User 0 declares, or signs, in vain, in this phase, until what it signs stands.
fn add_faults(rt: &impl Host, script: &mut Vec<Vec<u8>>, letter: u8, before: u8, after: u8) {
    for fault in &UNDONE {
        add_fault(rt, script, letter, fault, before);
    }
    add_fault(rt, script, letter, LAST_SYNC, after);
}

#[test]
fn each_call_fails_in_a_run(rt: HostRuntime) {
    let rt = &(rt, Here);
    let mut script = Vec::new(rt.0.alloc());
    add_faults(rt, &mut script, b'd', b'i', b'd');
    given(rt, script.push(joined(rt, &[b"0H\x00\x00\x01"])), "memory");
    add_faults(rt, &mut script, b's', b'd', b's');
    let mut rows = Vec::new(rt.0.alloc());
    for row in &script {
        given(rt, rows.push(row.as_slice()), "memory");
    }
    given(rt, rows.extend_from_slice(&SECOND), "memory");
    let_go(plays(rt, &rows));
}
