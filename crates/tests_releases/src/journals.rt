//! Journals on devices in memory: files and what they tell, and each call failing in turn, with crashes.

use crate::crashes::{Host, crashed, device_of, pieces, print_lines};
use client_journal::{Journal, JournalError, JournalState, Kind, Record};
use leaf_ledger::{Device, MemoryDevice};
use std::alloc::Global;
use tests_aids::crashes::outcomes;

/// The state that the file on a device tells, and the device.
pub(crate) fn state_of(
    alloc: Global,
    device: MemoryDevice<Global>,
) -> (
    Result<JournalState<Global>, JournalError>,
    MemoryDevice<Global>,
) {
    match Journal::open(device) {
        Ok(mut journal) => {
            let state = journal.state(alloc);
            (state, journal.close())
        }
        Err((error, device)) => (Err(error), device),
    }
}

/// What the file on a device tells, or why it tells nothing, and the device.
fn read_file(rt: &impl Host, device: MemoryDevice<Global>) -> (String, MemoryDevice<Global>) {
    let (state, device) = state_of(rt.alloc(), device);
    let told = match state {
        Ok(state) => format!(in rt.alloc(); "{state:?}"),
        Err(error) => format!(in rt.alloc(); "{error:?}"),
    };
    (told.expect(rt, "memory"), device)
}

/// What files tell: of each a line, which is what it tells, `|`, and its bytes. A line with `#` before it tells of the
/// rows below it.
static FILES: &[u8] = b"\
    Idle|\n\
    Idle|\x01\n\
    Idle|\x7f\n\
    # a torn record after a gate that isn't open\n\
    Idle|\0\x01\0\0\n\
    Idle|\x7f\x01\0\0\0\x01\x09\0\n\
    Declared(None, [9])|\x01\x01\0\0\0\x01\x09\0\n\
    Declared(None, [9])|\x01\x01\0\0\0\x01\x09\x7f\x05\n\
    Signed([8])|\x01\x01\0\0\0\x01\x09\x01\x02\0\0\0\x01\x08\0\n\
    Declared(Some([8]), [7])|\x01\x01\0\0\0\x01\x09\x01\x02\0\0\0\x01\x08\x01\x01\0\0\0\x01\x07\0\x04\n\
    # another kind\n\
    Damaged|\x01\0\0\0\0\x01\x09\0\n\
    Damaged|\x01\x03\0\0\0\x01\x09\0\n\
    # out of turn\n\
    Damaged|\x01\x02\0\0\0\x01\x09\0\n\
    Damaged|\x01\x01\0\0\0\x01\x09\x01\x01\0\0\0\x01\x08\0\n\
    # the end before the next gate\n\
    Damaged|\x01\x01\n\
    Damaged|\x01\x01\0\0\0\0\n\
    Damaged|\x01\x01\0\0\0\x01\x09\n\
    Damaged|\x01\x01\xff\xff\xff\xff\x09\0\n\
    Damaged|\x01\x01\0\0\0\x01\x09\x01";

/// A file tells this, and keeps its length; one of at most one byte becomes that of a new journal.
fn file_tells(rt: &impl Host, wanted: &[u8], file: &[u8]) {
    let (found, device) = read_file(rt, device_of(rt, file));
    assert!(rt; found.as_bytes() == wanted, "{file:?}: {found}");
    let is_kept = device.text().len() == file.len().max(1);
    let is_new = device.text() == [0].as_slice();
    assert!(rt; is_kept && (is_new || file.len() > 1), "{file:?}");
}

#[test]
fn files_tell(rt: HostRuntime) {
    let rows = pieces(&rt, FILES, b'\n');
    assert_eq!(rt; rows.len(), 18);
    for row in &rows {
        let parts = pieces(&rt, row, b'|');
        let [wanted, file] = parts.as_slice() else {
            panic!(rt; "a row of other parts");
        };
        file_tells(&rt, wanted, file);
    }
}

/// What is told by none of the records with the texts 1, 2 and 3, by one, by two and by all three.
static TOLD: [&str; 4] = [
    "Idle",
    "Declared(None, [1])",
    "Signed([2])",
    "Declared(Some([2]), [3])",
];

/// By how many of them this is told, if it tells records.
fn count_told(told: &str) -> Option<usize> {
    for (count, known) in TOLD.iter().enumerate() {
        if *known == told {
            return Some(count);
        }
    }
    None
}

/// Opens a journal and appends the records of these texts from one on, a certificate and a structure in turn, while it
/// can. Tells how many there are then, if all was well.
fn appended(
    device: MemoryDevice<Global>,
    texts: &[&[u8]],
    from: usize,
) -> (Option<usize>, MemoryDevice<Global>) {
    let mut journal = match Journal::open(device) {
        Ok(journal) => journal,
        Err((_, device)) => return (None, device),
    };
    let mut count = from;
    for (place, text) in texts.iter().enumerate().skip(from) {
        if journal.usable() {
            let kind = journal.next();
            let is_next = matches!(kind, Kind::Certificate) == (place % 2 == 0);
            if is_next && text.len() < 65_536 {
                let added = journal.append(Record { kind, text: *text });
                count = count.saturating_add(usize::from(added.is_ok()));
            }
        }
    }
    let well = journal.usable();
    (well.then_some(count), journal.close())
}

/// How many calls a first open makes, and an append.
const OPEN_CALLS: u64 = 4;

const APPEND_CALLS: u64 = 6;

/// How many calls a new journal makes for three records.
const CALLS: u64 = OPEN_CALLS + 3 * APPEND_CALLS;

/// How many calls an open makes of a file with three records, and `state` then.
const LATER_CALLS: u64 = 2 + 3 * 2 + 1 + 2;

/// The texts of three records that follow one another.
static TEXTS: [&[u8]; 3] = [b"\x01", b"\x02", b"\x03"];

/// How many records were answered Ok before the call that failed.
fn answered_before(failing: u64) -> usize {
    (failing.saturating_sub(OPEN_CALLS) / APPEND_CALLS) as usize
}

/// A new device to which records are appended until a call fails. Tells how many there are then, if none failed.
fn after_appends(rt: &impl Host, failing: u64) -> (Option<usize>, MemoryDevice<Global>) {
    let mut device = device_of(rt, b"");
    device.fail_after(failing);
    appended(device, &TEXTS, 0)
}

/// Appends records until a call fails, reads them, where another call may fail, and again after a crash. A reading that
/// fails tells nothing, and else the later one finds the same: the records that were answered, or one more. Tells how
/// many outcomes the crash has.
fn readings_agree(rt: &impl Host, failing: u64, later: u64, outcome: usize) -> usize {
    let (_, mut device) = after_appends(rt, failing);
    let faults = device.faults();
    device.fail_after(later);
    let (first, device) = read_file(rt, device);
    let failed = device.faults() > faults;
    let outcomes = outcomes(&device);
    let (second, _) = read_file(rt, crashed(rt, device, outcome));
    let agree = match first.as_str() {
        "Device" => failed,
        told => !failed && told == second.as_str(),
    };
    let before = answered_before(failing);
    let count = count_told(&second);
    let is_told = count == Some(before) || count == Some(before.saturating_add(1));
    assert!(rt;
        agree && (!failed || later < LATER_CALLS) && is_told,
        "calls {failing}, {later}, outcome {outcome}: {first}, {second}"
    );
    outcomes
}

/// Where the first sync of the later open fails, the crash leaves what there was before it, and where a gate is written
/// anew, that gate.
#[test]
fn each_call_of_a_later_open_fails(rt: HostRuntime) {
    let mut cases = 0usize;
    for failing in 0..=CALLS {
        for later in 0..=LATER_CALLS {
            let outcomes = readings_agree(&rt, failing, later, 0);
            for outcome in 1..outcomes {
                let _outcomes = readings_agree(&rt, failing, later, outcome);
            }
            cases = cases.saturating_add(outcomes);
        }
    }
    let anew = 4 * (1 + 6 + 6 + 8);
    let later = (3 * APPEND_CALLS as usize + 1) * LATER_CALLS as usize;
    assert_eq!(rt; cases, OPEN_CASES + 3 * APPEND_CASES + 1 + anew + later);
}

/// How many outcomes crashes have at the calls of an open that makes a gate: it is left where its write fails, and until
/// it is synced.
const OPEN_CASES: usize = 1 + 1 + 6 + 6;

/// And at those of an append: its header, its text and a gate behind it are written, and synced, and then the gate
/// before it is.
const APPEND_CASES: usize = 6 + 36 + 216 + 216 + 6 + 6;

/// A crash leaves the records that were answered, or one more, and the journal goes on from there. Tells how many
/// outcomes the crash has.
fn leaves_records(rt: &impl Host, failing: u64, outcome: usize) -> usize {
    let before = answered_before(failing);
    let (_, device) = after_appends(rt, failing);
    let outcomes = outcomes(&device);
    let (left, device) = read_file(rt, crashed(rt, device, outcome));
    let count = count_told(&left).expect(rt, "it tells records");
    let (well, device) = appended(device, &TEXTS, count);
    let (last, _) = read_file(rt, device);
    assert!(rt;
        (count == before || count == before.saturating_add(1))
            && well == Some(3)
            && last.as_str() == TOLD[3],
        "call {failing}, outcome {outcome}: {count}, {last}"
    );
    outcomes
}

#[test]
fn crashes_leave_records(rt: HostRuntime) {
    let mut cases = 0usize;
    for failing in 0..=CALLS {
        let outcomes = leaves_records(&rt, failing, 0);
        for outcome in 1..outcomes {
            let _outcomes = leaves_records(&rt, failing, outcome);
        }
        cases = cases.saturating_add(outcomes);
    }
    assert_eq!(rt; cases, OPEN_CASES + 3 * APPEND_CASES + 1);
}

#[test]
fn a_failed_call_is_answered(rt: HostRuntime) {
    for failing in 0..=CALLS {
        let (well, _) = after_appends(&rt, failing);
        assert!(rt; well == (failing == CALLS).then_some(3), "call {failing}");
    }
}

/// A gate was opened and not synced: a crash leaves 00, 01 and 7f, and so many records are told then.
#[test]
fn gates_tell(rt: HostRuntime) {
    for (outcome, count) in [(2, 0usize), (3, 1), (4, 0)] {
        let (_, device) = after_appends(&rt, OPEN_CALLS + 5);
        let (found, _) = read_file(&rt, crashed(&rt, device, outcome));
        assert!(rt; count_told(&found) == Some(count), "outcome {outcome}");
    }
}

/// A signed certificate without changes, and the structure after it.
#[test]
fn sizes_of_records(rt: HostRuntime) {
    let texts: [&[u8]; 2] = [&[5; 2550], &[6; 2595]];
    let mut device = device_of(&rt, b"");
    for (from, size) in [2557, 5158].iter().enumerate() {
        let (_, closed) = appended(device, &texts[..=from], from);
        device = closed;
        assert_eq!(rt; device.text().len(), *size);
    }
}

#[test]
fn errors_print(rt: HostRuntime) {
    let errors = [
        JournalError::Device,
        JournalError::Memory,
        JournalError::Damaged,
    ];
    let lines = "the device failed\nout of memory\nthe journal is damaged\n";
    print_lines(&rt, &errors, lines);
}
