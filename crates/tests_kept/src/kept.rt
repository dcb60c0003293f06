//! A server that keeps its log in a file; and the file's bytes, made by hand from the description of the formats.

use crate::here::Here;
use crate::history::Asked;
use crate::storages::{Host, Memory, copy};
use consistency_server::{Answer, CallKind, MemoryLog, Ordered};
use layout::let_go;
use leaf_ledger::MemoryDevice;
use lms_sign::PublicKey;
use record_log::{Record, RecordLog};
use server_log::{OpenError, open_order, record_of};
use std::alloc::Global;
use std::slice;
use storage::DeviceStorage;
use tests_aids::texts::joined;

/// An order, and the log that is kept of it.
pub(crate) type Kept = (Ordered<Global>, RecordLog<Memory>);

/// The order whose log a storage has.
pub(crate) fn opened(rt: &impl Host, storage: Memory, pinned: PublicKey) -> Kept {
    match open_order(rt.alloc(), storage, pinned) {
        Ok(kept) => kept,
        Err((error, _)) => panic!(rt; "{error}"),
    }
}

/// Opens a log of which this call of the device fails, if it makes so many: how many calls the log has, unless it
/// failed.
pub(crate) fn count_told(
    rt: &impl Host,
    device: MemoryDevice<Global>,
    pinned: PublicKey,
    failing: u64,
) -> (Option<usize>, MemoryDevice<Global>) {
    let mut device = device;
    device.fail_after(failing);
    match open_order(rt.alloc(), DeviceStorage::new(device), pinned) {
        Ok((order, log)) => {
            let count = order.call_count();
            let_go(order);
            (Some(count), log.close().close())
        }
        Err((error, storage)) => {
            assert!(rt; error == OpenError::Device, "{error}");
            (None, storage.close())
        }
    }
}

/// The records of these calls.
fn records(rt: &impl Host, calls: &[Asked]) -> Vec<Record<Global>> {
    let mut records = Vec::new(rt.alloc());
    for call in calls {
        let record = record_of(call.kind, copy(rt, &call.text)).expect(rt, "a short text");
        records.push(record).expect(rt, "memory");
    }
    records
}

/// Adds these records at once: whether the device took them.
fn takes(rt: &impl Host, log: &mut RecordLog<Memory>, added: &[Record<Global>]) -> bool {
    log.usable() && log.append_all(rt.alloc(), added).is_ok()
}

/// Adds the records of these calls at once: whether the device took them.
pub(crate) fn append(rt: &impl Host, log: &mut RecordLog<Memory>, calls: &[Asked]) -> bool {
    let added = records(rt, calls);
    let taken = takes(rt, log, &added);
    let_go(added);
    taken
}

/// An answer is the one that was given before.
fn is_same(rt: &impl Host, answer: &Answer<Global>, call: &Asked) {
    assert!(rt; answer.status() == call.status);
    assert!(rt; answer.payload() == call.payload.as_slice());
}

/// The order answers a call as it was answered: whether it went to the log.
fn is_told(rt: &impl Host, order: &mut Ordered<Global>, call: &Asked) -> bool {
    let mut log = MemoryLog::new(rt.alloc()).expect(rt, "memory");
    let answer = order.answer(&mut log, call.kind, &call.text, None);
    is_same(rt, &answer, call);
    let is_told = !log.calls().is_empty();
    let_go((answer, log));
    is_told
}

/// The order answers a call as it was answered, and the log is given it if it went to the log.
pub(crate) fn answers_alike(rt: &impl Host, kept: &mut Kept, call: &Asked) {
    let is_told = is_told(rt, &mut kept.0, call);
    assert!(rt; is_told == call.is_logged);
    if is_told {
        let is_taken = append(rt, &mut kept.1, slice::from_ref(call));
        assert!(rt; is_taken);
    }
}

/// A record after an open gate: its kind, and the length of its text, before that.
fn spelled(rt: &impl Host, kind: u8, text: &[u8]) -> Vec<u8> {
    let [.., a, b, c, d] = text.len().to_be_bytes();
    joined(&(rt, Here), &[&[1, kind, a, b, c, d], text])
}

/// Adds a record to the file of a log.
pub(crate) fn add(rt: &impl Host, file: &mut Vec<u8>, kind: u8, text: &[u8]) {
    file.extend_from_slice(&spelled(rt, kind, text))
        .expect(rt, "memory");
}

/// Adds the record of a call, if it went to the log.
pub(crate) fn add_call(rt: &impl Host, file: &mut Vec<u8>, call: &Asked) {
    let kind = match call.kind {
        CallKind::Update => 1,
        CallKind::Commit => 2,
    };
    if call.is_logged {
        add(rt, file, kind, &call.text);
    }
}

/// The records of the log of these calls: the first one names user 0's key.
pub(crate) fn records_of(rt: &impl Host, pinned: &PublicKey, calls: &[Asked]) -> Vec<u8> {
    let mut file = spelled(rt, 3, pinned.as_bytes());
    for call in calls {
        add_call(rt, &mut file, call);
    }
    file
}

/// The file that has these records: a closed gate comes after them.
pub(crate) fn ended(rt: &impl Host, records: &[u8]) -> Vec<u8> {
    joined(&(rt, Here), &[records, b"\0"])
}
