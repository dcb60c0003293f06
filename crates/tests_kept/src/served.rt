//! A server that keeps what it has, over devices in memory: what it answers, also where it is started again.

use crate::blocks::{ABC, ABD, NOTHING, ROOM, add_block, opened};
use crate::history::{Line, history, three_operations};
use crate::kept::{ended, records_of};
use crate::said::{Said, among_blocks, call, count_calls, count_replied, get, put, requests, sync};
use crate::storages::{Host, Memory, device_of};
use block_file::{BlockError, BlockFile};
use connection::MemoryConnection;
use kept_server::{Blocks, Kept, KeptServed, serve_kept};
use layout::{Digest, let_go};
use leaf_ledger::MemoryDevice;
use lms_sign::PublicKey;
use server_log::{OpenError, open_order};
use server_workers::{Gate, Limits};
use std::alloc::Global;
use std::process::Abort;
use std::sync::Wait;
use std::sync::atomic::{AtomicU64, Ordering};
use std::thread::Threads;
use std::time::Clock;
use storage::DeviceStorage;
use wire::Status;

/// What a server runs in.
pub(crate) trait ThreadHost: Alloc<A = Global> + Abort + Clock + Threads + Wait + Sync {}

impl<R: Alloc<A = Global> + Abort + Clock + Threads + Wait + Sync> ThreadHost for R {}

/// A gate that counts how often it is told that the server has stopped.
#[derive(Drop)]
struct Stops {
    count: AtomicU64,
}

impl Gate for Stops {
    fn pass(&self, _call: u64) {}

    fn stopped(&self) {
        self.count.fetch_add(1, Ordering::SeqCst);
    }
}

/// The devices of a server's log and of its blocks.
#[derive(Drop)]
pub(crate) struct Devices {
    pub(crate) log: MemoryDevice<Global>,
    pub(crate) blocks: MemoryDevice<Global>,
}

/// How much room the log is given at once: less than a call's record takes, so that each gets room anew.
const AHEAD: usize = 2000;

/// Devices without a byte.
pub(crate) fn new_devices(rt: &impl Host) -> Devices {
    Devices {
        log: device_of(rt, b""),
        blocks: device_of(rt, b""),
    }
}

/// What a server keeps on these devices, unless one of them fails.
pub(crate) fn begun(
    rt: &impl Host,
    devices: Devices,
    pinned: PublicKey,
) -> Result<Kept<Memory, Memory, Global>, Devices> {
    let Devices { log, blocks } = devices;
    let (ordered, log) = match open_order(rt.alloc(), DeviceStorage::new(log), pinned) {
        Ok(opened) => opened,
        Err((error, storage)) => {
            assert!(rt; error == OpenError::Device, "{error}");
            let log = storage.close();
            return Err(Devices { log, blocks });
        }
    };
    match BlockFile::open(rt.alloc(), DeviceStorage::new(blocks), ROOM) {
        Ok(blocks) => Ok(Kept {
            ordered,
            log,
            ahead: AHEAD,
            blocks,
        }),
        Err((error, storage)) => {
            assert!(rt; error == BlockError::Device, "{error}");
            let_go(ordered);
            Err(Devices {
                log: log.close().close(),
                blocks: storage.close(),
            })
        }
    }
}

/// As many connections as there are outputs, each of the same requests.
fn connections<'a>(
    rt: &impl Host,
    input: &'a [u8],
    outputs: &'a mut Vec<Vec<u8>>,
) -> Vec<MemoryConnection<'a>> {
    let mut connections = Vec::new(rt.alloc());
    for output in outputs.iter_mut() {
        let connection = MemoryConnection::new(input, 1000, output);
        connections.push(connection).expect(rt, "memory");
    }
    connections
}

/// How many calls a server answered, whether it has stopped, and its devices.
fn left_of(rt: &impl Host, served: KeptServed<Memory, Memory, Global>) -> (u64, bool, Devices) {
    let KeptServed {
        ordered,
        log,
        blocks,
        answered,
        unserved,
        stopped,
    } = served;
    let_go(ordered);
    assert!(rt; unserved == 0, "a thread");
    let devices = Devices {
        log: log.expect(rt, "the log").close().close(),
        blocks: blocks.close().close(),
    };
    (answered, stopped, devices)
}

/// Serves as many connections as there are outputs, at once, each of the same requests: how many calls were answered,
/// whether the server has stopped, which is told once, and its devices.
fn served_at_once<R: ThreadHost>(
    rt: &R,
    kept: Kept<Memory, Memory, Global>,
    input: &[u8],
    outputs: &mut Vec<Vec<u8>>,
) -> (u64, bool, Devices) {
    let count = u32::try_from(outputs.len()).expect(rt, "so many");
    let limits = Limits {
        most: count,
        at_once: count,
    };
    let gate = Stops {
        count: AtomicU64::new(0),
    };
    let connections = connections(rt, input, outputs).into_iter();
    let served = serve_kept(rt, rt.alloc(), &gate, connections, limits, kept);
    let left = left_of(rt, served.ok().expect(rt, "memory"));
    let times = gate.count.load(Ordering::SeqCst);
    assert!(rt; times == u64::from(left.1), "told once");
    left
}

/// Serves a connection of these requests: how many were replied to, each as is said, and the devices. Where it isn't all
/// of them, the server has stopped.
pub(crate) fn served<R: ThreadHost>(
    rt: &R,
    kept: Kept<Memory, Memory, Global>,
    said: &[Said],
) -> (usize, Devices) {
    let mut outputs = Vec::new(rt.alloc());
    outputs.push(Vec::new(rt.alloc())).expect(rt, "memory");
    let input = requests(rt, said);
    let (answered, stopped, devices) = served_at_once(rt, kept, &input, &mut outputs);
    let output = outputs.first().expect(rt, "one");
    let count = count_replied(rt, said, output);
    let replied = said.get(..count).unwrap_or(&[]);
    assert!(rt; stopped == (count < said.len()), "request {count}");
    assert!(rt; answered == count_calls(replied) as u64, "request {count}");
    (count, devices)
}

/// A server on these devices, none of which fails, replies to all of these requests.
pub(crate) fn replies_to_all<R: ThreadHost>(
    rt: &R,
    devices: Devices,
    pinned: PublicKey,
    said: &[Said],
) -> Devices {
    let Ok(kept) = begun(rt, devices, pinned) else {
        panic!(rt; "a device fails");
    };
    let (count, devices) = served(rt, kept, said);
    assert!(rt; count == said.len(), "request {count}");
    devices
}

/// The device has this text, and behind it zeros at most, and none of it waits for a sync.
fn has_text(rt: &impl Host, device: &MemoryDevice<Global>, wanted: &[u8]) {
    let behind = device.text().strip_prefix(wanted).expect(rt, "the text");
    assert!(rt; behind.iter().all(|byte| *byte == 0));
    assert!(rt; device.unsynced().is_empty());
}

/// The files of these calls among blocks are as the formats have them.
fn has_files(rt: &impl Host, devices: &Devices, line: &Line) {
    let log = ended(rt, &records_of(rt, &line.pinned, &line.calls));
    let mut blocks = Vec::new(rt.alloc());
    for (digest, block) in [(ABC, b"abc".as_slice()), (NOTHING, b""), (ABD, b"abd")] {
        add_block(rt, &mut blocks, &digest, block);
    }
    blocks
        .extend_from_slice(b"\xff\xff\xff\xff")
        .expect(rt, "memory");
    has_text(rt, &devices.log, &log);
    has_text(rt, &devices.blocks, &blocks);
}

/// The files have what was replied to, and nothing waits for a sync. A server that is started again with them has the
/// same blocks, and writes nothing where it is asked for them alone.
#[test]
fn what_is_replied_is_kept(rt: HostRuntime) {
    let line = three_operations(&rt);
    let said = among_blocks(&rt, &line);
    let devices = replies_to_all(&rt, new_devices(&rt), line.pinned, &said);
    has_files(&rt, &devices, &line);
    let again = said.get(7..).unwrap_or(&[]);
    assert!(rt; again.len() == 5, "two calls and three blocks");
    let devices = replies_to_all(&rt, devices, line.pinned, again);
    has_files(&rt, &devices, &line);
}

/// Each call of a history is answered by a server of its own, with the same bytes as by one that goes on: so a
/// certificate that is pending with its reply, and a structure that was committed with nothing.
#[test]
fn each_call_comes_to_another_server(rt: HostRuntime) {
    let line = history(&rt);
    let mut devices = new_devices(&rt);
    for asked in &line.calls {
        let said = [call(&rt, asked)];
        devices = replies_to_all(&rt, devices, line.pinned, &said);
    }
    has_text(
        &rt,
        &devices.log,
        &ended(&rt, &records_of(&rt, &line.pinned, &line.calls)),
    );
    assert!(rt; line.calls.len() == 26);
}

/// How many connections come at once.
const CONNECTIONS: usize = 8;

/// One certificate comes three times over each of eight connections, beside a block that is put, kept and got: all are
/// replied the same, and the certificate stands in the log once.
#[test]
fn connections_at_once(rt: HostRuntime) {
    let line = three_operations(&rt);
    let first = line.calls.get(..1).unwrap_or(&[]);
    let mut said = Vec::new(rt.alloc());
    for asked in first.iter().chain(first).chain(first) {
        said.push(put(&rt, b"abc", &ABC)).expect(&rt, "memory");
        said.push(sync(&rt)).expect(&rt, "memory");
        said.push(call(&rt, asked)).expect(&rt, "memory");
        said.push(get(&rt, &ABC, b"abc")).expect(&rt, "memory");
    }
    let mut outputs = Vec::new(rt.alloc());
    for _connection in 0..CONNECTIONS {
        outputs.push(Vec::new(rt.alloc())).expect(&rt, "memory");
    }
    let input = requests(&rt, &said);
    let Ok(kept) = begun(&rt, new_devices(&rt), line.pinned) else {
        panic!(rt; "a device fails");
    };
    let (answered, stopped, devices) = served_at_once(&rt, kept, &input, &mut outputs);
    assert!(rt; answered == 24 && !stopped);
    for output in &outputs {
        assert!(rt; count_replied(&rt, &said, output) == said.len());
    }
    has_text(
        &rt,
        &devices.log,
        &ended(&rt, &records_of(&rt, &line.pinned, first)),
    );
}

/// The status of the reply to a SYNC with which this goes, if there is one.
fn synced(rt: &impl Host, blocks: &mut Blocks<Memory, Global>, payload: &[u8]) -> Option<Status> {
    let reply = blocks.reply_to_sync(rt.alloc(), payload)?;
    Some(reply.status())
}

/// A SYNC is done where the device is synced, and where nothing waits; it is of no form with something else. After a
/// device failed there is no reply, and nothing is put, found or synced.
#[test]
fn a_sync_of_blocks(rt: HostRuntime) {
    let mut device = device_of(&rt, b"");
    // It is opened by two calls; a write and a sync come, and the next write fails.
    device.fail_after(4);
    let file = opened(&rt, DeviceStorage::new(device), ROOM);
    let mut blocks = Blocks::new(file);
    assert!(rt; synced(&rt, &mut blocks, b"x") == Some(Status::Form));
    assert!(rt; blocks.put(b"abc").is_ok());
    for _time in 0..3 {
        assert!(rt; synced(&rt, &mut blocks, b"") == Some(Status::Ok));
    }
    assert!(rt; blocks.put(b"abd") == Err(BlockError::Device));
    assert!(rt; synced(&rt, &mut blocks, b"").is_none());
    assert!(rt; blocks.put(b"abc") == Err(BlockError::Device));
    assert!(rt; blocks.fetch(&Digest::from_bytes(ABC)).is_err());
    assert!(rt; blocks.sync().is_err());
}
