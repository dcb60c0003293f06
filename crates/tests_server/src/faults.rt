//! Connections that fail: a conversation ends at the first fault, and reads and writes no more.

use crate::by_hand::{Host, conversed};
use crate::counted::{Brought, Counted, Counts, Ending};
use crate::serving::key;
use connection::Connection;
use server_workers::{Ended, OpenGate};
use std::sync::atomic::Ordering;

/// A request that no text follows, and a second one.
const INPUT: &[u8] = b"\0\0\0\x01\x01\0\0\0\x01\x02";

/// Each write and each later read is a fault.
const FAULT: Ending<'static> = Ending {
    reply: b"",
    times: 1,
    is_fault: true,
};

/// What a second connection brings, which isn't read.
const NOTHING: Brought<'static> = Brought {
    text: b"",
    reads: 0,
};

/// How much of them each read gives, how many reads don't fail, and then: how many calls are answered, how many reads
/// and writes were asked for, and how many bytes were to be written. The first read fails; the second one does, after a
/// part of a frame; the first write does, after a request, which is answered by a frame of 5 bytes; and where a second
/// request was read too.
static CASES: [[u64; 6]; 4] = [
    [0, 0, 0, 1, 0, 0],
    [3, 1, 0, 2, 0, 0],
    [5, 1, 1, 1, 1, 5],
    [10, 5, 1, 1, 1, 5],
];

/// The conversation ends by a fault, the only one.
fn ends_by_a_fault<R: Host>(rt: &R, case: &[u64; 6]) {
    let counts = Counts::new();
    let text = INPUT.get(..case[0] as usize).expect(rt, "so many bytes");
    let mut connection = Counted::new(
        &counts,
        Brought {
            text,
            reads: case[1],
        },
        FAULT,
    );
    let mut second = Counted::new(&counts, NOTHING, FAULT);
    let log = Vec::new(rt.alloc());
    let (ended, answered, log) = conversed(
        rt,
        &OpenGate,
        key(rt),
        &mut connection,
        &mut second,
        log,
    );
    assert_eq!(rt; (ended, connection.faults()), (Ended::Fault, 1));
    let reads = counts.reads.load(Ordering::SeqCst);
    let writes = counts.other_replies.load(Ordering::SeqCst);
    let size = counts.size.load(Ordering::SeqCst);
    assert_eq!(rt;
        [answered, reads, writes, size],
        [case[2], case[3], case[4], case[5]]
    );
    assert!(rt; log.is_empty(), "nothing was logged");
}

#[test]
fn conversations_end_at_the_first_fault(rt: HostRuntime) {
    for case in &CASES {
        ends_by_a_fault(&rt, case);
    }
}
