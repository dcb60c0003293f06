//! A device over a real file beside one in memory, and what it takes of memory.

use client_journal::{Journal, Record};
use leaf_ledger::{Device, DeviceError, FileDevice, Ledger, MemoryDevice};
use lms_sign::{PublicKey, burn};
use std::alloc::Global;
use std::fs::{self, File};
use std::process::Abort;
use tests_refusing::Refusing;

const FOLDER: &str = "leaf_ledger_file_test";

const PATH: &str = "leaf_ledger_file_test/device";

const ROOM_FOLDER: &str = "leaf_ledger_room_test";

const ROOM_PATH: &str = "leaf_ledger_room_test/device";

const LEDGER_FOLDER: &str = "ledger_room_test";

const LEDGER_PATH: &str = "ledger_room_test/ledger";

const JOURNAL_FOLDER: &str = "journal_room_test";

const JOURNAL_PATH: &str = "journal_room_test/journal";

/// A call that a number draws, after one that asks for the length.
fn draw<D: Device>(
    device: &mut D,
    drawn: u64,
    buffer: &mut [u8; 32],
) -> Result<usize, DeviceError> {
    let size = device.len()?;
    let at = (drawn >> 32) as usize % (size + 1);
    let count = (drawn >> 8) as usize % 32;
    match drawn % 4 {
        0 => device.write_at(at, &buffer[..count])?,
        1 => device.sync()?,
        2 => device.read(at, &mut buffer[..count.min(size - at)])?,
        _ => {}
    }
    Ok(size)
}

/// Has a file and memory carry out the same calls, drawn by numbers, and compares what they answer.
fn run_both(rt: &impl Abort, file: &mut FileDevice<Global>, memory: &mut MemoryDevice<Global>) {
    let mut seed: u64 = 1;
    for turn in 0..1000 {
        seed = seed
            .wrapping_mul(6364136223846793005)
            .wrapping_add(1442695040888963407);
        let mut of_file = [seed.to_le_bytes()[3]; 32];
        let mut of_memory = of_file;
        let first = draw(file, seed >> 7, &mut of_file).ok();
        let second = draw(memory, seed >> 7, &mut of_memory).ok();
        assert!(rt;
            first.is_some() && first == second && of_file == of_memory,
            "turn {turn}"
        );
    }
}

#[test]
fn a_file_does_what_memory_does(rt: HostRuntime) {
    let alloc = rt.alloc();
    let _ = fs::remove_dir_all(&rt, FOLDER);
    fs::create_dir(&rt, FOLDER).expect(&rt, "the folder is made");
    let mut file = FileDevice::open(&rt, alloc, FOLDER, PATH).expect(&rt, "the file is made");
    let mut memory = MemoryDevice::new(alloc, Vec::new(alloc)).expect(&rt, "there is memory");
    run_both(&rt, &mut file, &mut memory);
    assert!(rt; file.faults() == 0 && memory.text().len() > 100);
    // Opened again it holds the same.
    let mut again = FileDevice::open(&rt, alloc, FOLDER, PATH).expect(&rt, "the file is opened");
    assert!(rt; again.text() == memory.text());
    // What another writes to it is a fault: other bytes where they are read, and another length.
    let size = again.text().len();
    let other = Vec::from_elem(alloc, 0x5a, size).expect(&rt, "there is memory");
    fs::write(&rt, PATH, other.as_slice()).expect(&rt, "it is written");
    let mut found = [0; 8];
    assert!(rt; again.read(0, &mut found[..size.min(8)]).is_err() && again.faults() == 1);
    fs::write(&rt, PATH, b"other".as_slice()).expect(&rt, "it is written");
    assert!(rt; again.len().is_err() && again.faults() == 2);
    // A folder that can't be synced.
    assert!(rt; FileDevice::open(&rt, alloc, "/proc", PATH).is_err());
    let _ = fs::remove_dir_all(&rt, FOLDER);
}

/// The system's null device takes every write, and can't be synced.
#[test]
fn what_the_system_does_not_sync_is_not_synced(rt: HostRuntime) {
    let alloc = rt.alloc();
    assert!(rt; FileDevice::open(&rt, alloc, "/dev", "/dev/null").is_err());
    let file = File::open(&rt, "/dev/null").expect(&rt, "it is opened");
    let mut device = FileDevice::over(file, Vec::new(alloc)).expect(&rt, "there is memory");
    assert!(rt; device.len().is_ok_and(|size| size == 0));
    assert!(rt; device.sync().is_err() && device.faults() == 1);
}

/// Writes so many bytes past the end, and syncs.
fn append<D: Device>(device: &mut D, bytes: &[u8]) -> Result<(), DeviceError> {
    let size = device.len()?;
    device.write_at(size, bytes)?;
    device.sync()?;
    device.write_at(0, b"ab")?;
    device.sync()
}

/// From the start on there is room for a new ledger, and where more is made, for that. Within it no write and no sync
/// takes memory.
#[test]
fn within_its_room_a_file_takes_no_memory(rt: HostRuntime) {
    let heap = Refusing::new(rt.alloc());
    let _ = fs::remove_dir_all(&rt, ROOM_FOLDER);
    fs::create_dir(&rt, ROOM_FOLDER).expect(&rt, "the folder is made");
    let opened = FileDevice::open(&rt, &heap, ROOM_FOLDER, ROOM_PATH);
    let mut device = opened.expect(&rt, "the file is made");
    heap.refuse_all();
    assert!(rt; append(&mut device, &[7; 1080]).is_ok());
    heap.refuse(0);
    assert!(rt; device.reserve(16_384).is_ok());
    heap.refuse_all();
    for _ in 0..128 {
        assert!(rt; append(&mut device, &[8; 128]).is_ok());
    }
    assert!(rt; device.faults() == 0 && device.text().len() == 1080 + 16_384);
    // Past it a write is a fault, and what is kept stays.
    assert!(rt; append(&mut device, &[9; 32_768]).is_err() && device.faults() == 1);
    assert!(rt; device.text().len() == 1080 + 16_384 && device.sync().is_ok());
    assert!(rt; device.reserve(32_768).is_err() && device.faults() == 1);
    let _ = fs::remove_dir_all(&rt, ROOM_FOLDER);
}

/// Takes a leaf and gives it back spent: its number. None where none is handed out.
fn burn_next<D: Device>(ledger: &mut Ledger<D>) -> Option<u32> {
    if !ledger.usable() {
        return None;
    }
    match ledger.take() {
        Ok(leaf) => {
            let number = leaf.number();
            ledger.settle(burn(leaf));
            Some(number)
        }
        Err(_) => None,
    }
}

/// A new ledger over a file is made without memory, and hands out leaves and takes them back.
#[test]
fn leaves_of_a_file_take_no_memory(rt: HostRuntime) {
    let heap = Refusing::new(rt.alloc());
    let _ = fs::remove_dir_all(&rt, LEDGER_FOLDER);
    fs::create_dir(&rt, LEDGER_FOLDER).expect(&rt, "the folder is made");
    let opened = FileDevice::open(&rt, &heap, LEDGER_FOLDER, LEDGER_PATH);
    let device = opened.expect(&rt, "the file is made");
    let mut bytes = [7; 56];
    bytes[..8].copy_from_slice(&[0, 0, 0, 6, 0, 0, 0, 3]);
    let key = PublicKey::from_bytes(bytes).expect(&rt, "a key");
    heap.refuse_all();
    let Ok(mut ledger) = Ledger::open(device, &key) else {
        panic!(rt; "the ledger isn't made");
    };
    for number in 0..3u32 {
        assert!(rt; burn_next(&mut ledger) == Some(number));
    }
    let text = ledger.device().text();
    assert!(rt; text.len() == 1080 && text[56..60] == [1, 1, 1, 0]);
    let _ = fs::remove_dir_all(&rt, LEDGER_FOLDER);
}

/// A new journal over a file is made without memory, and so is the record for which it made room.
#[test]
fn where_there_is_room_a_record_takes_no_memory(rt: HostRuntime) {
    let heap = Refusing::new(rt.alloc());
    let _ = fs::remove_dir_all(&rt, JOURNAL_FOLDER);
    fs::create_dir(&rt, JOURNAL_FOLDER).expect(&rt, "the folder is made");
    let opened = FileDevice::open(&rt, &heap, JOURNAL_FOLDER, JOURNAL_PATH);
    let device = opened.expect(&rt, "the file is made");
    heap.refuse_all();
    let Ok(mut journal) = Journal::open(device) else {
        panic!(rt; "the journal isn't made");
    };
    let text = [7; 20_000];
    assert!(rt; journal.reserve(text.len()).is_err());
    heap.refuse(0);
    assert!(rt; journal.reserve(text.len()).is_ok());
    heap.refuse_all();
    let kind = journal.next();
    let added = journal.append(Record { kind, text: &text });
    assert!(rt; added.is_ok() && journal.device().text().len() == 1 + 5 + text.len() + 1);
    let _ = fs::remove_dir_all(&rt, JOURNAL_FOLDER);
}
