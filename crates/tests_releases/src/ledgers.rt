//! Ledgers on devices in memory whose calls fail in turn, and which crash.

use crate::crashes::{Host, crashed, device_of, print_lines};
use leaf_ledger::{CrashError, Device, DeviceError, Ledger, LedgerError, MemoryDevice};
use lms_sign::{PublicKey, burn};
use std::alloc::Global;
use tests_aids::crashes::outcomes;

/// The public key whose identifier and root are this byte.
fn key(rt: &impl Host, byte: u8) -> PublicKey {
    let mut bytes = [byte; 56];
    bytes[..8].copy_from_slice(&[0, 0, 0, 6, 0, 0, 0, 3]);
    PublicKey::from_bytes(bytes).expect(rt, "a key")
}

/// What a session was refused, how many leaves there are after it, and which leaf was to come at its beginning.
#[derive(Clone, Copy)]
struct Told {
    refused: Option<LedgerError>,
    count: usize,
    next: Option<u32>,
}

/// Opens the ledger of a key, takes leaves while it can, at most so many, and closes it. Their numbers join those
/// before.
fn session(
    device: MemoryDevice<Global>,
    key: &PublicKey,
    takes: usize,
    numbers: &mut Vec<u32>,
) -> (Told, MemoryDevice<Global>) {
    let mut ledger = match Ledger::open(device, key) {
        Ok(ledger) => ledger,
        Err((error, device)) => {
            let told = Told {
                refused: Some(error),
                count: numbers.len(),
                next: None,
            };
            return (told, device);
        }
    };
    let next = ledger.next_free();
    let mut refused = None;
    for _ in 0..takes {
        if ledger.usable() {
            match ledger.take() {
                Ok(leaf) => {
                    let _ = numbers.push(leaf.number());
                    ledger.settle(burn(leaf));
                }
                Err(error) => refused = Some(error),
            }
        }
    }
    let told = Told {
        refused,
        count: numbers.len(),
        next,
    };
    (told, ledger.close())
}

/// What comes of sessions, and how many outcomes a crash has between them.
#[derive(Drop)]
struct Course {
    numbers: Vec<u32>,
    told: Vec<Told>,
    outcomes: usize,
}

/// The numbers of the leaves that come of sessions on a new device, and what each session tells. Of those before a
/// crash with this outcome the call after so many fails; each takes so many leaves.
fn played(rt: &impl Host, before: &[(u64, usize)], outcome: usize, after: &[usize]) -> Course {
    let key = key(rt, 1);
    let (mut numbers, mut told) = (Vec::new(rt.alloc()), Vec::new(rt.alloc()));
    let mut device = device_of(rt, b"");
    for (failing, takes) in before {
        device.fail_after(*failing);
        let (session, closed) = session(device, &key, *takes, &mut numbers);
        device = closed;
        told.push(session).expect(rt, "memory");
    }
    let outcomes = outcomes(&device);
    device = crashed(rt, device, outcome);
    for takes in after {
        let (session, closed) = session(device, &key, *takes, &mut numbers);
        device = closed;
        told.push(session).expect(rt, "memory");
    }
    Course {
        numbers,
        told,
        outcomes,
    }
}

/// Each number is greater than the one before.
fn ascend(numbers: &[u32]) -> bool {
    let mut least = 0;
    for number in numbers {
        if *number < least {
            return false;
        }
        least = number.saturating_add(1);
    }
    true
}

/// How many calls a first open makes, and three takes after it.
const CALLS: u64 = 5 + 3 * 2;

/// How many calls an open makes of a file that is there.
const LATER_OPEN_CALLS: u64 = 4;

/// How many leaves come before a call that fails.
fn leaves_before(failing: u64) -> u64 {
    failing.saturating_sub(5) / 2
}

/// Takes leaves until a call fails, and more after a crash: each leaf before that call came, and the fault was told. No
/// leaf comes twice, and at most one is lost. Tells how many outcomes the crash has.
fn comes_once(rt: &impl Host, failing: u64, outcome: usize) -> usize {
    let Course {
        numbers,
        told,
        outcomes,
    } = played(rt, &[(failing, 3)], outcome, &[3, 1]);
    let [first, again, _] = told.as_slice() else {
        panic!(rt; "not three sessions");
    };
    let leaves = leaves_before(failing);
    let is_told = first.refused == (failing < CALLS).then_some(LedgerError::Device);
    // Only a file that was never whole is refused, or has marks by chance; no leaf came from it. Of any other at most
    // one leaf is lost.
    let most = leaves.saturating_add(4);
    let goes_on = match numbers.last() {
        Some(last) => again.refused.is_none() && u64::from(*last) <= most,
        None => false,
    };
    assert!(rt;
        is_told && first.count as u64 == leaves && (goes_on || failing < 5) && ascend(&numbers),
        "call {failing}, outcome {outcome}"
    );
    outcomes
}

/// A first opening writes a key and marks, and a take one mark: each is left where it fails, and until it is synced.
#[test]
fn no_leaf_comes_twice(rt: HostRuntime) {
    let mut cases = 0usize;
    for failing in 0..=CALLS {
        let outcomes = comes_once(&rt, failing, 0);
        for outcome in 1..outcomes {
            let _outcomes = comes_once(&rt, failing, outcome);
        }
        cases = cases.saturating_add(outcomes);
    }
    assert_eq!(rt; cases, 1 + 1 + 6 + 36 + 36 + 3 * (6 + 6) + 1);
}

/// Takes leaves until a call fails, opens the ledger again, where another call may fail, and once more after a crash.
/// No leaf comes twice, the second open is refused where a call of it fails, and only there, and then one more leaf
/// comes: the one that was to come when the ledger was opened before the crash. Tells how many outcomes that has.
fn opens_again(rt: &impl Host, failing: u64, later: u64, outcome: usize) -> usize {
    let Course {
        numbers,
        told,
        outcomes,
    } = played(rt, &[(failing, 3), (later, 0)], outcome, &[1]);
    let [_, second, third] = told.as_slice() else {
        panic!(rt; "not three sessions");
    };
    // A file that was never whole may be refused, or made.
    let well = second.refused == (later < LATER_OPEN_CALLS).then_some(LedgerError::Device)
        && numbers.len() as u64 == leaves_before(failing).saturating_add(1);
    let agree = second.refused.is_some() || second.next == third.next;
    assert!(rt;
        ascend(&numbers) && agree && (well || failing < 5),
        "calls {failing} and {later}, outcome {outcome}"
    );
    outcomes
}

/// Both calls may leave extents where there was no file, and else the first sync of the later open alone.
#[test]
fn each_call_of_a_later_open_fails(rt: HostRuntime) {
    let mut cases = 0usize;
    for failing in 0..=CALLS {
        for later in 0..=LATER_OPEN_CALLS {
            let outcomes = opens_again(&rt, failing, later, 0);
            for outcome in 1..outcomes {
                let _outcomes = opens_again(&rt, failing, later, outcome);
            }
            cases = cases.saturating_add(outcomes);
        }
    }
    let no_file = 2 * (1 + 1 + 6 + 36 + 36);
    let part = (6 + 4) + 2 * (36 + 4);
    let whole = 6 * (6 + 4) + (1 + 4);
    assert_eq!(rt; cases, no_file + part + whole);
}

/// The first leaf's mark was written and not synced: a crash leaves 00, 01 and 7f, and this leaf comes then.
#[test]
fn marks_that_a_crash_left(rt: HostRuntime) {
    for (outcome, leaf) in [(2, 0), (3, 1), (4, 1)] {
        let played = played(&rt, &[(6, 1)], outcome, &[1]);
        assert!(rt;
            played.numbers.as_slice() == [leaf].as_slice(),
            "outcome {outcome}"
        );
    }
}

#[test]
fn as_many_leaves_as_a_key_has(rt: HostRuntime) {
    let (first, second) = (key(&rt, 1), key(&rt, 2));
    let mut numbers = Vec::new(rt.alloc());
    let (none, device) = session(device_of(&rt, b""), &first, 1024, &mut numbers);
    assert!(rt; numbers.len() == 1024 && numbers[0] == 0 && numbers[1023] == 1023);
    let (no_leaf, device) = session(device, &first, 1, &mut numbers);
    assert!(rt; device.text().len() == 1080 && device.text().starts_with(first.as_bytes()));
    // Another key, and another length.
    let (foreign, _) = session(device, &second, 1, &mut numbers);
    let (short, _) = session(device_of(&rt, &[0; 1079]), &first, 1, &mut numbers);
    assert!(rt; none.refused.is_none() && no_leaf.refused == Some(LedgerError::NoLeaf));
    let is_foreign = foreign.refused == Some(LedgerError::Foreign);
    assert!(rt; is_foreign && short.refused == foreign.refused);
    assert!(rt; numbers.len() == 1024 && ascend(&numbers));
}

/// A device with the text abc, on which xyz was written from the third byte on, and not synced.
fn written(rt: &impl Host) -> MemoryDevice<Global> {
    let mut device = device_of(rt, b"abc");
    assert_eq!(rt; device.len().expect(rt, "its size"), 3);
    device.write_at(2, b"xyz").expect(rt, "written");
    assert_eq!(rt; device.len().expect(rt, "its size"), 5);
    let mut read = [0; 5];
    device.read(0, &mut read).expect(rt, "read");
    assert!(rt; read == *b"abxyz");
    device
}

#[test]
fn a_device_crashes_only_as_it_may(rt: HostRuntime) {
    let mut device = written(&rt);
    // Before the place, shorter, and longer than it may be.
    for left in [b"aXc".as_slice(), b"ab", b"abcdef"] {
        let left = Vec::from_slice(rt.alloc(), left).expect(&rt, "memory");
        match device.crash(left) {
            Ok(_) => panic!(rt; "it crashed"),
            Err((error, same)) => {
                assert_eq!(rt; error, CrashError::Impossible);
                device = same;
            }
        }
    }
    device.sync().expect(&rt, "synced");
    assert_eq!(rt; device.faults(), 0);
    // There is nothing that a crash may leave otherwise.
    let device = crashed(&rt, device, 0);
    assert!(rt; device.text() == b"abxyz".as_slice());
}

#[test]
fn errors_print(rt: HostRuntime) {
    let of_ledgers = [
        LedgerError::NoLeaf,
        LedgerError::Device,
        LedgerError::Foreign,
    ];
    let lines = "no leaf is free\nthe device failed\nthe file is no ledger of this key\n";
    print_lines(&rt, &of_ledgers, lines);
    let of_crashes = [CrashError::Impossible, CrashError::Memory];
    print_lines(&rt, &of_crashes, "no crash leaves this\nout of memory\n");
    print_lines(&rt, &[DeviceError], "the device failed\n");
}
