//! A server in memory, and what it answers.

use consistency_server::{MemoryLog, Ordered};
use lms_sign::PublicKey;
use std::alloc::Global;
use tests_aids::{Aided, check, check_text, given};
use wire::Status;

/// A server and its log.
#[derive(Drop)]
pub struct Server {
    /// Its one order.
    pub ordered: Ordered<Global>,
    /// What it logged.
    pub log: MemoryLog<Global>,
}

impl Server {
    /// How many events it made.
    pub fn events(&self) -> usize {
        self.log.calls().len()
    }
}

/// A server at the beginning, for which this is user 0's key.
pub fn server_of(rt: &impl Aided, key: PublicKey) -> Server {
    let ordered = Ordered::genesis(rt.alloc(), key);
    let log = given(rt, MemoryLog::new(rt.alloc()), "memory");
    Server { ordered, log }
}

/// The server answers this status to the certificate: the payload.
pub fn answers_update_so(
    rt: &impl Aided,
    server: &mut Server,
    text: &[u8],
    status: Status,
) -> Vec<u8> {
    let answer = server.ordered.update(&mut server.log, text);
    let found = answer.status();
    if found != status {
        rt.fail(format_args!("{found:?} and not {status:?}: {text:?}"));
    }
    given(rt, Vec::from_slice(rt.alloc(), answer.payload()), "memory")
}

/// The server answers this status and payload to the certificate.
pub fn answers_update(
    rt: &impl Aided,
    server: &mut Server,
    text: &[u8],
    status: Status,
    payload: &[u8],
) {
    let found = answers_update_so(rt, server, text, status);
    check_text(rt, &found, payload);
}

/// The server answers this status to the structure, and no payload.
pub fn answers_commit(rt: &impl Aided, server: &mut Server, text: &[u8], status: Status) {
    let answer = server.ordered.commit(&mut server.log, text);
    let found = answer.status();
    if found != status {
        rt.fail(format_args!("{found:?} and not {status:?}: {text:?}"));
    }
    check(rt, answer.payload().is_empty(), "no payload");
}
