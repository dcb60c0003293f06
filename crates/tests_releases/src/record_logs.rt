//! Logs of records: files and what they tell, each call of the device failing in turn, with crashes, and a log in a
//! file of the system.

use crate::crashes::{Host, device_of, pieces, print_lines};
use leaf_ledger::{Device, MemoryDevice};
use record_log::{LogError, Record, RecordLog};
use std::alloc::Global;
use std::fs::{self, File};
use storage::{DeviceStorage, FileStorage, Storage};
use tests_aids::crashes::leave;

/// Each record's kind and text.
fn shown(rt: &impl Host, records: &[Record<Global>]) -> String {
    let mut printed = String::new(rt.alloc());
    for record in records {
        let (kind, text) = (record.kind(), record.text());
        printed = format!(in rt.alloc(); "{printed}{kind} {text:?};").expect(rt, "memory");
    }
    printed
}

/// What the file in a storage tells, or why it tells nothing, and the storage.
fn told_by<S: Storage>(rt: &impl Host, storage: S) -> (String, S) {
    match RecordLog::open(rt.alloc(), storage) {
        Ok((log, records)) => (shown(rt, &records), log.close()),
        Err((error, storage)) => {
            let printed = format!(in rt.alloc(); "{error:?}");
            (printed.expect(rt, "memory"), storage)
        }
    }
}

/// What the file on a device tells, or why it tells nothing, and the device.
fn read_file(rt: &impl Host, device: MemoryDevice<Global>) -> (String, MemoryDevice<Global>) {
    let (told, storage) = told_by(rt, DeviceStorage::new(device));
    (told, storage.close())
}

/// What files tell: of each a line, which is what it tells, `|`, and its bytes. A line with `#` before it tells of the
/// rows below it.
static FILES: &[u8] = b"\
    |\n\
    |\x01\n\
    |\x7f\n\
    # torn records after a gate that isn't open\n\
    |\0\x01\0\0\n\
    |\x7f\x01\0\0\0\x01\x09\x01\x02\0\0\0\0\n\
    1 [9];|\x01\x01\0\0\0\x01\x09\0\n\
    1 [9];|\x01\x01\0\0\0\x01\x09\x7f\x05\n\
    # of any kind, and of any length\n\
    0 [];|\x01\0\0\0\0\0\0\n\
    255 [1, 0];|\x01\xff\0\0\0\x02\x01\0\x02\n\
    2 [1, 1];2 [];1 [0];|\x01\x02\0\0\0\x02\x01\x01\x01\x02\0\0\0\0\x01\x01\0\0\0\x01\0\0\x01\n\
    # the end before the next gate\n\
    Damaged|\x01\x01\n\
    Damaged|\x01\x01\0\0\0\0\n\
    Damaged|\x01\x01\0\0\0\x01\x09\n\
    Damaged|\x01\x01\xff\xff\xff\xff\x09\0\n\
    Damaged|\x01\x01\0\0\x01\0\x09\0\n\
    Damaged|\x01\x01\0\0\0\x01\x09\x01";

/// A file tells this, and keeps its bytes; one of at most one byte becomes that of a new log.
fn file_tells(rt: &impl Host, wanted: &[u8], file: &[u8]) {
    let (found, device) = read_file(rt, device_of(rt, file));
    assert!(rt; found.as_bytes() == wanted, "{file:?}: {found}");
    let is_kept = device.text() == file && file.len() > 1;
    let is_new = device.text() == [0].as_slice() && file.len() <= 1;
    assert!(rt; is_kept || is_new, "{file:?}");
}

#[test]
fn files_tell_records(rt: HostRuntime) {
    let rows = pieces(&rt, FILES, b'\n');
    assert_eq!(rt; rows.len(), 16);
    for row in &rows {
        let parts = pieces(&rt, row, b'|');
        let [wanted, file] = parts.as_slice() else {
            panic!(rt; "a row of other parts");
        };
        file_tells(&rt, wanted, file);
    }
}

/// Batches, each a line: its records, parted by `|`, each a byte for the kind and the text.
static BATCHES: &[u8] = b"\x02bb|\x01|\x09ccc\n\x01a\n\x05|\x02d";

/// What is told by none of the batches, by one, by two and by all three.
static TOLD: [&str; 4] = [
    "",
    "2 [98, 98];1 [];9 [99, 99, 99];",
    "2 [98, 98];1 [];9 [99, 99, 99];1 [97];",
    "2 [98, 98];1 [];9 [99, 99, 99];1 [97];5 [];2 [100];",
];

/// The file with all three of them.
static ALL: &[u8] = b"\
    \x01\x02\0\0\0\x02bb\x01\x01\0\0\0\0\x01\x09\0\0\0\x03ccc\
    \x01\x01\0\0\0\x01a\
    \x01\x05\0\0\0\0\x01\x02\0\0\0\x01d\0";

/// The records of a batch.
fn batch_of(rt: &impl Host, row: &'static [u8]) -> Vec<Record<Global>> {
    let alloc = rt.alloc();
    let mut batch = Vec::new(alloc);
    for piece in pieces(rt, row, b'|') {
        let [kind, text @ ..] = piece else {
            panic!(rt; "no kind");
        };
        let text = Vec::from_slice(alloc, text).expect(rt, "memory");
        let record = Record::new(*kind, text).expect(rt, "a short text");
        batch.push(record).expect(rt, "memory");
    }
    batch
}

/// By how many of the batches this is told, if it tells none in part.
fn count_told(told: &str) -> Option<usize> {
    for (count, known) in TOLD.iter().enumerate() {
        if *known == told {
            return Some(count);
        }
    }
    None
}

/// Opens a log and appends the batches from one on, while it can. Tells how many there are then, if all was well.
fn appended<S: Storage>(rt: &impl Host, storage: S, from: usize) -> (Option<usize>, S) {
    let mut log = match RecordLog::open(rt.alloc(), storage) {
        Ok((log, _)) => log,
        Err((_, storage)) => return (None, storage),
    };
    let mut count = from;
    for row in pieces(rt, BATCHES, b'\n').iter().skip(from) {
        if log.usable() {
            let added = log.append_all(rt.alloc(), &batch_of(rt, row));
            count = count.saturating_add(usize::from(added.is_ok()));
        }
    }
    let well = log.usable();
    (well.then_some(count), log.close())
}

/// How many calls a first open makes.
const OPEN_CALLS: u64 = 4;

/// How many calls a batch costs, of any size: two writes and two syncs.
const APPEND_CALLS: u64 = 4;

/// How many calls a new log makes for three batches.
const CALLS: u64 = OPEN_CALLS + 3 * APPEND_CALLS;

/// How many calls an open makes of a file with six records.
const LATER_CALLS: u64 = 2 + 6 * 3 + 1;

/// In how many ways a crash leaves an extent: old, new, or filled with one of four bytes; and what lies past the old
/// end whole, or cut short by a byte or by half.
const WAYS: usize = 6 * 3;

/// The device after a crash that leaves what wasn't synced in this way.
fn crashed(rt: &impl Host, device: MemoryDevice<Global>, way: usize) -> MemoryDevice<Global> {
    let mut left = Vec::from_slice(rt.alloc(), device.synced_text()).expect(rt, "memory");
    let least = left.len();
    for extent in device.unsynced() {
        leave(&mut left, extent, device.text(), way % 6).expect(rt, "memory");
    }
    let more = left.len().saturating_sub(least);
    let cut = match way / 6 {
        0 => 0,
        1 => 1,
        _ => more / 2,
    };
    left.truncate(least.saturating_add(more.saturating_sub(cut)));
    match device.crash(left) {
        Ok(device) => device,
        Err((error, _)) => panic!(rt; "{error}"),
    }
}

/// How many batches were answered Ok before the call that failed.
fn answered_before(failing: u64) -> usize {
    (failing.saturating_sub(OPEN_CALLS) / APPEND_CALLS) as usize
}

/// A new device to which batches are appended until a call fails. Tells how many there are then, if none failed.
fn after_appends(rt: &impl Host, failing: u64) -> (Option<usize>, MemoryDevice<Global>) {
    let mut device = device_of(rt, b"");
    device.fail_after(failing);
    let (well, storage) = appended(rt, DeviceStorage::new(device), 0);
    (well, storage.close())
}

#[test]
fn a_log_is_read_back(rt: HostRuntime) {
    let (well, storage) = appended(&rt, DeviceStorage::new(device_of(&rt, b"")), 0);
    let device = storage.close();
    assert!(rt; well == Some(3) && device.text() == ALL && device.unsynced().is_empty());
    let (told, device) = read_file(&rt, device);
    assert!(rt; told.as_str() == TOLD[3] && device.text() == ALL, "{told}");
}

#[test]
fn no_records_cost_no_call(rt: HostRuntime) {
    let mut device = device_of(&rt, ALL);
    device.fail_after(LATER_CALLS);
    let opened = RecordLog::open(rt.alloc(), DeviceStorage::new(device));
    let Ok((mut log, _)) = opened else {
        panic!(rt; "it is opened");
    };
    assert!(rt; log.append_all(rt.alloc(), &batch_of(&rt, b"#")).is_ok());
    assert!(rt; log.append_all(rt.alloc(), &batch_of(&rt, b"\x01a")) == Err(LogError::Device));
    assert!(rt; !log.usable() && log.storage().faults() == 1);
}

#[test]
fn a_failed_call_is_answered(rt: HostRuntime) {
    for failing in 0..=CALLS {
        let (well, _) = after_appends(&rt, failing);
        assert!(rt; well == (failing == CALLS).then_some(3), "call {failing}");
    }
}

/// A crash leaves the batches that were answered, or one more, none of them in part, and the log goes on from there.
fn leaves_batches(rt: &impl Host, failing: u64, way: usize) {
    let before = answered_before(failing);
    let (_, device) = after_appends(rt, failing);
    let (left, device) = read_file(rt, crashed(rt, device, way));
    let count = count_told(&left).expect(rt, "it tells whole batches");
    let (well, storage) = appended(rt, DeviceStorage::new(device), count);
    let (last, _) = read_file(rt, storage.close());
    assert!(rt;
        (count == before || count == before.saturating_add(1))
            && well == Some(3)
            && last.as_str() == TOLD[3],
        "call {failing}, way {way}: {count}, {last}"
    );
}

#[test]
fn crashes_leave_batches(rt: HostRuntime) {
    let mut cases: usize = 0;
    for failing in 0..=CALLS {
        for way in 0..WAYS {
            leaves_batches(&rt, failing, way);
            cases = cases.saturating_add(1);
        }
    }
    assert_eq!(rt; cases, 306);
}

/// Appends batches until a call fails, reads them, where another call may fail, and again after a crash. A reading that
/// fails tells nothing, and else the later one finds the same: the batches that were answered, or one more.
fn readings_agree(rt: &impl Host, failing: u64, later: u64, way: usize) {
    let (_, mut device) = after_appends(rt, failing);
    let faults = device.faults();
    device.fail_after(later);
    let (first, device) = read_file(rt, device);
    let failed = device.faults() > faults;
    let (second, _) = read_file(rt, crashed(rt, device, way));
    let agree = match first.as_str() {
        "Device" => failed,
        told => !failed && told == second.as_str(),
    };
    let before = answered_before(failing);
    let count = count_told(&second);
    let is_told = count == Some(before) || count == Some(before.saturating_add(1));
    assert!(rt;
        agree && (!failed || later < LATER_CALLS) && is_told,
        "calls {failing}, {later}, way {way}: {first}, {second}"
    );
}

#[test]
fn each_call_of_a_later_open_fails(rt: HostRuntime) {
    let mut cases: usize = 0;
    for failing in 0..=CALLS {
        for later in 0..=LATER_CALLS {
            for way in 0..WAYS {
                readings_agree(&rt, failing, later, way);
                cases = cases.saturating_add(1);
            }
        }
    }
    assert_eq!(rt; cases, 6_732);
}

/// A batch's gate was opened and not synced: a crash leaves 00, 01 and 7f, and so many batches are told then.
#[test]
fn gates_tell(rt: HostRuntime) {
    for (way, count) in [(2, 1usize), (3, 2), (4, 1)] {
        let (_, device) = after_appends(&rt, OPEN_CALLS + APPEND_CALLS + 3);
        let (found, _) = read_file(&rt, crashed(&rt, device, way));
        assert!(rt; count_told(&found) == Some(count), "way {way}");
    }
}

#[test]
fn errors_print(rt: HostRuntime) {
    let errors = [LogError::Device, LogError::Memory, LogError::Damaged];
    let lines = "the device failed\nout of memory\nthe log is damaged\n";
    print_lines(&rt, &errors, lines);
}

const FOLDER: &str = "record_log_file_test";

const PATH: &str = "record_log_file_test/log";

#[test]
fn a_log_in_a_file(rt: HostRuntime) {
    let _ = fs::remove_dir_all(&rt, FOLDER);
    fs::create_dir(&rt, FOLDER).expect(&rt, "the folder is made");
    let (well, _) = appended(
        &rt,
        FileStorage::open(&rt, FOLDER, PATH).expect(&rt, "it is opened"),
        0,
    );
    let bytes = fs::read(&rt, PATH).expect(&rt, "it is read");
    assert!(rt; well == Some(3) && bytes.as_slice() == ALL);
    let (told, storage) = told_by(
        &rt,
        FileStorage::open(&rt, FOLDER, PATH).expect(&rt, "it is opened"),
    );
    assert!(rt; told.as_str() == TOLD[3] && storage.faults() == 0, "{told}");
    // A file that ends before a gate is refused, and stays as it is.
    fs::write(&rt, PATH, &ALL[..20]).expect(&rt, "it is written");
    let (told, _) = told_by(
        &rt,
        FileStorage::open(&rt, FOLDER, PATH).expect(&rt, "it is opened"),
    );
    let bytes = fs::read(&rt, PATH).expect(&rt, "it is read");
    assert!(rt;
        told.as_str() == "Damaged" && bytes.as_slice() == &ALL[..20],
        "{told}"
    );
    let _ = fs::remove_dir_all(&rt, FOLDER);
}

/// The system's null device can't be synced.
#[test]
fn what_the_system_does_not_sync_is_no_log(rt: HostRuntime) {
    assert!(rt; FileStorage::open(&rt, "/dev", "/dev/null").is_err());
    let file = File::open(&rt, "/dev/null").expect(&rt, "it is opened");
    let (told, storage) = told_by(&rt, FileStorage::over(file));
    assert!(rt;
        told.as_str() == "Device" && storage.faults() == 1,
        "{told}"
    );
}
