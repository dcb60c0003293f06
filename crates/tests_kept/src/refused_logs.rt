//! Logs of a server that aren't read back, and stay as they are.

use crate::here::Here;
use crate::history::{Line, first_operation};
use crate::kept::{add, count_told, ended, records_of};
use crate::signer::Signer;
use crate::storages::{Host, copy, device_of, print_lines, storage_of};
use layout::let_go;
use lms_sign::PublicKey;
use server_log::{OpenError, ReplayError, open_order};
use std::alloc::Global;
use tests_aids::texts::changed;
use tests_refusing::Refusing;

/// A file is refused so, under this key. It keeps its bytes, of which none wait for a sync.
fn is_refused(rt: &impl Host, file: &[u8], pinned: PublicKey, wanted: OpenError) {
    match open_order(rt.alloc(), storage_of(rt, file), pinned) {
        Ok(_) => panic!(rt; "it is opened, and not: {wanted}"),
        Err((error, storage)) => {
            let device = storage.close();
            assert!(rt; error == wanted, "{error}, and not: {wanted}");
            assert!(rt; device.text() == file && device.unsynced().is_empty());
        }
    }
}

/// After these records each of others, whatever comes after it, is refused so.
fn are_refused(
    rt: &impl Host,
    pinned: PublicKey,
    before: &[u8],
    others: &[(u8, &[u8])],
    wanted: OpenError,
) {
    for (kind, text) in others {
        let mut file = copy(rt, before);
        add(rt, &mut file, *kind, text);
        is_refused(rt, &ended(rt, &file), pinned, wanted);
        add(rt, &mut file, 9, b"");
        is_refused(rt, &ended(rt, &file), pinned, wanted);
    }
}

/// User 0's first certificate and structure, the certificate with another signature, and the records of the log: the
/// first one, and all.
#[derive(Drop)]
struct Texts {
    pinned: PublicKey,
    update: Vec<u8>,
    commit: Vec<u8>,
    forged: Vec<u8>,
    beginning: Vec<u8>,
    records: Vec<u8>,
}

/// They are made.
fn first_texts(rt: &impl Host) -> Texts {
    let Line { pinned, calls } = first_operation(rt);
    let [update, commit] = calls.as_slice() else {
        panic!(rt; "two calls");
    };
    Texts {
        pinned,
        update: copy(rt, &update.text),
        commit: copy(rt, &commit.text),
        forged: changed(&(rt, Here), &update.text),
        beginning: records_of(rt, &pinned, &[]),
        records: records_of(rt, &pinned, &calls),
    }
}

/// The first record names the key.
#[test]
fn a_log_begins_with_its_key(rt: HostRuntime) {
    let first = first_texts(&rt);
    let own = first.pinned.as_bytes().as_slice();
    let other = Signer::new(&rt, 1, 1).public();
    is_refused(&rt, &ended(&rt, &first.records), other, OpenError::OtherKey);
    let keys = [
        (3, other.as_bytes().as_slice()),
        (3, own.get(..55).unwrap_or(b"")),
        (3, b""),
    ];
    are_refused(&rt, first.pinned, b"", &keys, OpenError::OtherKey);
    let others = [
        (1, first.update.as_slice()),
        (2, first.commit.as_slice()),
        (0, own),
        (4, own),
        (255, b""),
    ];
    are_refused(&rt, first.pinned, b"", &others, OpenError::NoBeginning);
}

/// Each further record is an UPDATE or a COMMIT.
#[test]
fn calls_come_after_the_key(rt: HostRuntime) {
    let first = first_texts(&rt);
    let kinds = [
        (0, first.update.as_slice()),
        (3, first.pinned.as_bytes().as_slice()),
        (4, first.commit.as_slice()),
        (255, b""),
    ];
    for before in [&first.beginning, &first.records] {
        are_refused(&rt, first.pinned, before, &kinds, OpenError::NoCall);
    }
}

/// Each call places or commits: none comes twice, before what it follows, as one of the other kind, in another form,
/// with another signature, or after another key.
#[test]
fn calls_do_something(rt: HostRuntime) {
    let first = first_texts(&rt);
    let calls = [
        (2, first.commit.as_slice()),
        (2, first.update.as_slice()),
        (1, first.commit.as_slice()),
        (1, first.forged.as_slice()),
        (1, b""),
        (2, b""),
    ];
    are_refused(
        &rt,
        first.pinned,
        &first.beginning,
        &calls,
        OpenError::Foreign,
    );
    let again = [(1, first.update.as_slice()), (2, first.commit.as_slice())];
    are_refused(
        &rt,
        first.pinned,
        &first.records,
        &again,
        OpenError::Foreign,
    );
    let other = Signer::new(&rt, 1, 1).public();
    let beginning = records_of(&rt, &other, &[]);
    let calls = [(1, first.update.as_slice())];
    are_refused(&rt, other, &beginning, &calls, OpenError::Foreign);
}

/// The file ends before a gate: in the first record, in those of the calls, and behind each. The whole log has 5,220
/// bytes: a closed gate, and of each record an open gate, the kind, the length and the text.
#[test]
fn a_cut_log_is_damaged(rt: HostRuntime) {
    let first = first_texts(&rt);
    assert_eq!(rt; first.records.len(), (6 + 56) + (6 + 2_550) + (6 + 2_595));
    for size in [
        2, 6, 7, 62, 63, 68, 69, 2_617, 2_618, 2_619, 2_625, 5_218, 5_219,
    ] {
        let file = first.records.get(..size).unwrap_or(b"");
        is_refused(&rt, file, first.pinned, OpenError::Damaged);
    }
}

/// The calls of the device with which a log is opened that has a key and two calls: a sync, the size, of each record
/// its gate, its head and its text, and the last gate.
const OPEN_CALLS: u64 = 2 + 3 * 3 + 1;

/// Opens a log of which this call of the device fails, if it makes so many: how many calls it tells, unless it failed.
/// The file is as before.
fn told_at(rt: &impl Host, file: &[u8], pinned: PublicKey, failing: u64) -> Option<usize> {
    let (told, device) = count_told(rt, device_of(rt, file), pinned, failing);
    assert!(rt; device.text() == file && device.unsynced().is_empty());
    told
}

/// Each call of the device fails.
#[test]
fn a_failing_device_is_told(rt: HostRuntime) {
    let first = first_texts(&rt);
    let file = ended(&rt, &first.records);
    for failing in 0..=OPEN_CALLS {
        let told = told_at(&rt, &file, first.pinned, failing);
        let wanted = (failing == OPEN_CALLS).then_some(2);
        assert!(rt; told == wanted, "call {failing}");
    }
}

/// Opens a log where this growth of memory is refused: whether one was, which is told, and the file is as before.
fn wants_memory(
    rt: &impl Host,
    heap: &Refusing<Global>,
    file: &[u8],
    pinned: PublicKey,
    number: u64,
) -> bool {
    heap.refuse(number);
    let opened = open_order(heap, storage_of(rt, file), pinned);
    let is_refused = heap.asked(number) >= number;
    match opened {
        Ok(kept) => {
            assert!(rt; !is_refused, "growth {number} is refused, and nothing told");
            let_go(kept);
        }
        Err((error, storage)) => {
            let device = storage.close();
            assert!(rt;
                is_refused && error == OpenError::Memory,
                "{number}: {error}"
            );
            assert!(rt; device.text() == file && device.unsynced().is_empty());
        }
    }
    is_refused
}

/// How many growths are refused, one a run, until a run meets no refusal.
fn count_refused(rt: &impl Host, file: &[u8], pinned: PublicKey) -> u64 {
    let heap = Refusing::new(rt.alloc());
    for number in 1..1_000 {
        if !wants_memory(rt, &heap, file, pinned, number) {
            return number.saturating_sub(1);
        }
    }
    panic!(rt; "too many growths");
}

/// The growths of a new log: the key, the list of its one record, and the bytes of that, which grow three times.
const NEW_LOG: u64 = 1 + 1 + 3;

/// Those of an UPDATE that is read: its text, once in the record and once in the call; the plan's vector; the text that
/// is kept; the plan's text, which grows four times; the reply, and what shares it; the vector that is kept; a place in
/// the history, of no bytes; room for a structure and for a pending operation; and a place in what is told, of no bytes.
const UPDATE: u64 = 2 + 1 + 1 + 4 + 2 + 1 + 1 + 2 + 1;

/// Those of a COMMIT: its text twice, the plan's vector, the plan's text, the text that is kept, room for one more
/// pending operation, and a place in what is told.
const COMMIT: u64 = 2 + 1 + 4 + 1 + 1 + 1;

#[test]
fn without_memory_no_log_is_opened(rt: HostRuntime) {
    let first = first_texts(&rt);
    let made = count_refused(&rt, b"\0", first.pinned);
    let opened = count_refused(&rt, &ended(&rt, &first.records), first.pinned);
    assert_eq!(rt; (made, opened), (NEW_LOG, 1 + UPDATE + COMMIT));
    assert_eq!(rt; (made, opened), (5, 26));
}

#[test]
fn errors_of_logs_print(rt: HostRuntime) {
    let errors = [
        OpenError::OtherKey,
        OpenError::NoBeginning,
        OpenError::NoCall,
        OpenError::Foreign,
        OpenError::Damaged,
        OpenError::Device,
        OpenError::Memory,
    ];
    let lines = "the log is of another key\n\
                 the log doesn't begin with a key\n\
                 the log has a record that is no call\n\
                 the log is of no order under this key\n\
                 the log is damaged\n\
                 the device failed\n\
                 out of memory\n";
    print_lines(&rt, &errors, lines);
    let errors = [ReplayError::Foreign, ReplayError::Memory];
    let lines = "the log is of no order under this key\nout of memory\n";
    print_lines(&rt, &errors, lines);
}
