//! What is said over a connection: requests, and what is replied to them.

use crate::blocks::{ABC, ABD, NOTHING};
use crate::here::Here;
use crate::history::{Asked, Line};
use crate::storages::Host;
use consistency_server::CallKind;
use tests_aids::texts::joined;

/// The kinds of requests.
const UPDATE: u8 = 1;

const COMMIT: u8 = 2;

const PUT: u8 = 3;

const GET: u8 = 4;

const SYNC: u8 = 6;

/// What is done.
const OK: u8 = 0;

/// A request's kind, and its frame and that of the reply.
#[derive(Drop)]
pub(crate) struct Said {
    kind: u8,
    pub(crate) request: Vec<u8>,
    pub(crate) reply: Vec<u8>,
}

impl Said {
    /// It is an UPDATE or a COMMIT.
    pub(crate) fn is_call(&self) -> bool {
        self.kind == UPDATE || self.kind == COMMIT
    }

    /// It is a PUT.
    pub(crate) fn is_put(&self) -> bool {
        self.kind == PUT
    }
}

/// The frame of this kind or status, and of what comes with it.
fn frame(rt: &impl Host, head: u8, payload: &[u8]) -> Vec<u8> {
    let [.., a, b, c, d] = payload.len().wrapping_add(1).to_be_bytes();
    joined(&(rt, Here), &[&[a, b, c, d, head], payload])
}

/// A request of this kind, to which this is replied.
fn exchange(rt: &impl Host, (kind, text): (u8, &[u8]), (status, payload): (u8, &[u8])) -> Said {
    Said {
        kind,
        request: frame(rt, kind, text),
        reply: frame(rt, status, payload),
    }
}

/// A call, and what was replied to it.
pub(crate) fn call(rt: &impl Host, asked: &Asked) -> Said {
    let kind = match asked.kind {
        CallKind::Update => UPDATE,
        CallKind::Commit => COMMIT,
    };
    exchange(
        rt,
        (kind, &asked.text),
        (asked.status.number(), &asked.payload),
    )
}

/// A PUT of a block, to which its digest is replied.
pub(crate) fn put(rt: &impl Host, block: &[u8], digest: &[u8; 32]) -> Said {
    exchange(rt, (PUT, block), (OK, digest))
}

/// A GET of a digest, to which its block is replied.
pub(crate) fn get(rt: &impl Host, digest: &[u8; 32], block: &[u8]) -> Said {
    exchange(rt, (GET, digest), (OK, block))
}

/// A SYNC, which is done.
pub(crate) fn sync(rt: &impl Host) -> Said {
    exchange(rt, (SYNC, b""), (OK, b""))
}

/// Puts these calls after others.
fn add_calls(rt: &impl Host, all: &mut Vec<Said>, calls: &[Asked]) {
    for asked in calls {
        all.push(call(rt, asked)).expect(rt, "memory");
    }
}

/// Puts these blocks after others.
fn add_blocks(rt: &impl Host, all: &mut Vec<Said>, blocks: &[(&[u8], [u8; 32])]) {
    for (block, digest) in blocks {
        all.push(put(rt, block, digest)).expect(rt, "memory");
    }
}

/// The calls of a line, with a block that is put and synced before the first two, two more that are put before the
/// others, and a GET of each at the end.
pub(crate) fn among_blocks(rt: &impl Host, line: &Line) -> Vec<Said> {
    let (first, others) = line.calls.split_at_checked(2).expect(rt, "two calls");
    let mut all = Vec::new(rt.alloc());
    add_blocks(rt, &mut all, &[(b"abc", ABC)]);
    all.push(sync(rt)).expect(rt, "memory");
    add_calls(rt, &mut all, first);
    add_blocks(rt, &mut all, &[(b"", NOTHING), (b"abd", ABD)]);
    add_calls(rt, &mut all, others);
    for (digest, block) in [(ABC, b"abc".as_slice()), (NOTHING, b""), (ABD, b"abd")] {
        all.push(get(rt, &digest, block)).expect(rt, "memory");
    }
    all
}

/// The requests, one after another.
pub(crate) fn requests(rt: &impl Host, said: &[Said]) -> Vec<u8> {
    let mut input = Vec::new(rt.alloc());
    for it in said {
        input.extend_from_slice(&it.request).expect(rt, "memory");
    }
    input
}

/// How many of these were replied to, and each as is said.
pub(crate) fn count_replied(rt: &impl Host, said: &[Said], output: &[u8]) -> usize {
    let mut rest = output;
    let mut count: usize = 0;
    for it in said {
        let Some(others) = rest.strip_prefix(it.reply.as_slice()) else {
            break;
        };
        rest = others;
        count = count.saturating_add(1);
    }
    assert!(rt; rest.is_empty(), "the reply to request {count}");
    count
}

/// How many of these are calls.
pub(crate) fn count_calls(said: &[Said]) -> usize {
    said.iter().filter(|it| it.is_call()).count()
}
