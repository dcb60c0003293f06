//! More connections than are served at once.

use crate::counted::{Brought, Coming, Counts, Ending};
use crate::serving::{Host, Left, key, left_of};
use block_store::Store;
use server_workers::{Limits, OpenGate, serve_within};
use std::alloc::Global;
use std::sync::atomic::Ordering;

/// A request that no text follows, in one read.
const BARE: Brought<'static> = Brought {
    text: b"\0\0\0\x01\x01",
    reads: 1,
};

/// No reply ends a connection.
const OPEN: Ending<'static> = Ending {
    reply: b"",
    times: 1,
    is_fault: false,
};

/// How many connections come, how many are served in all, at once, and then how many are taken.
static CASES: [[u32; 4]; 5] = [
    [1_000, 1_000, 3, 1_000],
    [1_000, 70, 1, 70],
    [40, 4_000_000_000, 8, 40],
    [5, 9, 0, 0],
    [5, 0, 2, 0],
];

/// Serves these connections within these limits, over this store.
fn serve_over<R: Host>(
    rt: &R,
    many: Coming<'_>,
    limits: Limits,
    store: &Store<Global>,
) -> Left<Vec<u8>> {
    let alloc = rt.alloc();
    let log = Vec::new(alloc);
    let served = serve_within(rt, alloc, &OpenGate, many, limits, store, key(rt), log);
    left_of(served.ok().expect(rt, "memory"))
}

/// The same over a store of its own.
fn serve_few<R: Host>(rt: &R, many: Coming<'_>, limits: Limits) -> Left<Vec<u8>> {
    let store = Store::new(rt.alloc()).expect(rt, "memory");
    serve_over(rt, many, limits, &store)
}

/// Serves so many connections within these limits, of which so many are taken: each is answered, and no more are open
/// at once than may be.
fn are_taken<R: Host>(rt: &R, left: u32, limits: Limits, wanted: u32) {
    let counts = Counts::new();
    let many = Coming {
        counts: &counts,
        others: BARE,
        last: BARE,
        ending: OPEN,
        left,
    };
    let served = serve_few(rt, many, limits);
    assert_eq!(rt; (served.answered, served.unserved), (u64::from(wanted), 0));
    assert_eq!(rt; counts.all.load(Ordering::SeqCst), u64::from(wanted));
    assert_eq!(rt; counts.open.load(Ordering::SeqCst), 0);
    let most = counts.most.load(Ordering::SeqCst);
    assert!(rt; most <= u64::from(limits.at_once), "{most} at once");
}

#[test]
fn many_come_and_few_are_served_at_once(rt: HostRuntime) {
    for case in &CASES {
        let [left, most, at_once, wanted] = *case;
        are_taken(&rt, left, Limits { most, at_once }, wanted);
    }
}
