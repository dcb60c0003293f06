//! Signatures are verified before the lock is taken: calls that have none don't wait for them.

use crate::counted::{Brought, Coming, Counts, Ending};
use crate::requests::{joined, put_frame};
use crate::serving::{Host, key, serve_all};
use server_workers::OpenGate;
use std::sync::atomic::Ordering;

/// How many signed calls are made.
const SIGNED: u64 = 1_000;

/// How many bare calls are made at most.
const BARE: u64 = 20_000_000;

/// So many times as many bare calls are answered meanwhile.
const TIMES: u64 = 16;

/// The reply to a signed call: another key signed it.
const BAD_SIGNATURE: &[u8] = b"\0\0\0\x01\x03";

/// User 0's first certificate, and a signature by leaf 0 of a key of these types, but of no key.
fn signed_text<R: Host>(rt: &R) -> Vec<u8> {
    let certificate: [&[u8]; 2] = [b"SUC1\0\0\0\0\x01", &[0; 33]];
    let signature: [&[u8]; 4] = [b"\0\0\0\0\0\0\0\x03", &[0; 2176], b"\0\0\0\x06", &[0; 320]];
    joined(rt, &[&joined(rt, &certificate), &joined(rt, &signature)])
}

/// What the first client brings: requests that no text follows.
const BARE_CALLS: Brought<'static> = Brought {
    text: b"\0\0\0\x01\x01",
    reads: BARE,
};

/// Both clients end once all signed calls were refused.
const REFUSED: Ending<'static> = Ending {
    reply: BAD_SIGNATURE,
    times: SIGNED,
    is_fault: false,
};

/// A signed call takes as long as a signature takes to be verified, some hundred microseconds, and a bare one a few. So
/// while all signed ones are answered, one after the other, far more bare ones are, unless each waits for a signed one.
#[test]
fn bare_calls_do_not_wait_for_signatures(rt: HostRuntime) {
    let counts = Counts::new();
    let mut signed = Vec::new(rt.alloc());
    put_frame(&rt, &mut signed, 1, &signed_text(&rt));
    let last = Brought {
        text: &signed,
        reads: SIGNED,
    };
    let both = Coming::new(&counts, (BARE_CALLS, last), REFUSED, 2);
    let served = serve_all(&rt, &OpenGate, both, 2, key(&rt), Vec::new(rt.alloc()));
    assert_eq!(rt; served.unserved, 0);
    assert_eq!(rt; counts.last_replies.load(Ordering::SeqCst), SIGNED);
    let bare = counts.other_replies.load(Ordering::SeqCst);
    assert!(rt; bare / TIMES >= SIGNED, "{bare} beside {SIGNED}");
}
