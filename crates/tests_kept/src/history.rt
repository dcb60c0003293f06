//! The calls that a server was asked by users, and what it answered to each: one that goes on, and keeps no file.

use crate::here::Here;
use crate::signer::{NONE, Signer};
use crate::storages::{Host, copy};
use consistency_server::{CallKind, MemoryLog, Ordered};
use layout::let_go;
use lms_sign::PublicKey;
use std::alloc::Global;
use tests_aids::texts::{first_reply, joined};
use wire::Status;

/// A call, and how it was answered.
#[derive(Drop)]
pub(crate) struct Asked {
    pub(crate) kind: CallKind,
    pub(crate) text: Vec<u8>,
    pub(crate) status: Status,
    pub(crate) payload: Vec<u8>,
    /// It went to the log.
    pub(crate) is_logged: bool,
}

/// Calls, in their order, of a server for which this is user 0's key.
#[derive(Drop)]
pub(crate) struct Line {
    pub(crate) pinned: PublicKey,
    pub(crate) calls: Vec<Asked>,
}

/// A server in memory, and what it was asked so far.
#[derive(Drop)]
struct Server {
    order: Ordered<Global>,
    log: MemoryLog<Global>,
    calls: Vec<Asked>,
}

impl Server {
    /// It answers a call by this status: what comes with it.
    fn answers(&mut self, rt: &impl Host, kind: CallKind, text: &[u8], status: Status) -> Vec<u8> {
        let before = self.log.calls().len();
        let answer = self.order.answer(&mut self.log, kind, text, None);
        let found = answer.status();
        assert!(rt; found == status, "{found:?}: {text:?}");
        let asked = Asked {
            kind,
            text: copy(rt, text),
            status,
            payload: copy(rt, answer.payload()),
            is_logged: self.log.calls().len() > before,
        };
        self.calls.push(asked).expect(rt, "memory");
        copy(rt, answer.payload())
    }

    /// It answers a certificate by this status: the reply.
    fn updates(&mut self, rt: &impl Host, text: &[u8], status: Status) -> Vec<u8> {
        self.answers(rt, CallKind::Update, text, status)
    }

    /// It answers a structure by this status, and nothing comes with it.
    fn commits(&mut self, rt: &impl Host, text: &[u8], status: Status) {
        let payload = self.answers(rt, CallKind::Commit, text, status);
        assert!(rt; payload.is_empty());
    }
}

/// The first operation of user 0. Its certificate comes three times while it is pending, with the same reply, its
/// structure twice, and then its certificate once more.
fn operates_first(rt: &impl Host, server: &mut Server, zero: &mut Signer) {
    server.commits(rt, b"", Status::Form);
    let certificate = zero.certificate(rt, NONE);
    let reply = first_reply(&(rt, Here), &certificate);
    for _time in 0..3 {
        let found = server.updates(rt, &certificate, Status::Ok);
        assert!(rt; found == reply);
    }
    let structure = zero.structure(rt, &reply);
    server.commits(rt, &structure, Status::Ok);
    server.commits(rt, &structure, Status::Ok);
    let _ = server.updates(rt, &certificate, Status::WrongNumber);
}

/// One change that gives this user this key, after the count of changes: as a new user's, or as its next one.
fn gives_key(rt: &impl Host, kind: u8, user: u8, signer: &Signer) -> Vec<u8> {
    joined(&(rt, Here), &[&[1, kind, user], signer.public().as_bytes()])
}

/// User 0 declares an operation of these changes, and lets their text go: the reply.
fn changes(rt: &impl Host, server: &mut Server, zero: &mut Signer, changes: Vec<u8>) -> Vec<u8> {
    let certificate = zero.certificate(rt, &changes);
    server.updates(rt, &certificate, Status::Ok)
}

/// A user declares an operation without changes, which is answered by this status: the reply.
fn declares(rt: &impl Host, server: &mut Server, signer: &mut Signer, status: Status) -> Vec<u8> {
    let certificate = signer.certificate(rt, NONE);
    server.updates(rt, &certificate, status)
}

/// A user commits the operation to whose certificate this was replied, which is answered by this status.
fn commits(rt: &impl Host, server: &mut Server, signer: &mut Signer, reply: &[u8], status: Status) {
    let structure = signer.structure(rt, reply);
    server.commits(rt, &structure, status);
}

/// A certificate is placed, and comes once more while it is pending: the reply both times.
fn placed(rt: &impl Host, server: &mut Server, certificate: &[u8]) -> Vec<u8> {
    let reply = server.updates(rt, certificate, Status::Ok);
    let again = server.updates(rt, certificate, Status::Ok);
    assert!(rt; again == reply);
    reply
}

/// User 0 lists user 1, who operates while that is pending, and goes on pending: the reply.
fn operate_beside(
    rt: &impl Host,
    server: &mut Server,
    zero: &mut Signer,
    one: &mut Signer,
) -> Vec<u8> {
    let certificate = one.certificate(rt, NONE);
    let _ = server.updates(rt, &certificate, Status::UnknownUser);
    let listing = gives_key(rt, 6, 1, one);
    let listed = changes(rt, server, zero, listing);
    let reply = placed(rt, server, &certificate);
    commits(rt, server, zero, &listed, Status::Ok);
    reply
}

/// User 0 lists user 2, who operates beside users 0 and 1, and commits before user 0 does.
fn operates_third(rt: &impl Host, server: &mut Server, zero: &mut Signer, two: &mut Signer) {
    let listing = gives_key(rt, 6, 2, two);
    let listed = changes(rt, server, zero, listing);
    let reply = declares(rt, server, two, Status::Ok);
    commits(rt, server, two, &reply, Status::Ok);
    commits(rt, server, zero, &listed, Status::Ok);
}

/// User 1, to whose certificate this was replied, gets another key, and commits by the one before: the reply to user 0.
fn is_given_a_key(
    rt: &impl Host,
    server: &mut Server,
    zero: &mut Signer,
    (one, other): (&mut Signer, &mut Signer),
    reply: &[u8],
) -> Vec<u8> {
    let renewal = gives_key(rt, 9, 1, other);
    let renewed = changes(rt, server, zero, renewal);
    commits(rt, server, one, reply, Status::Ok);
    other.follow(one);
    renewed
}

/// User 1's next operation is by its other key alone. Its structure comes twice, and then another one over its plan.
fn uses_the_other_key(rt: &impl Host, server: &mut Server, one: &mut Signer, other: &mut Signer) {
    let _ = declares(rt, server, one, Status::BadSignature);
    let reply = declares(rt, server, other, Status::Ok);
    commits(rt, server, one, &reply, Status::BadSignature);
    let structure = other.structure(rt, &reply);
    server.commits(rt, &structure, Status::Ok);
    server.commits(rt, &structure, Status::Ok);
    commits(rt, server, other, &reply, Status::NotPending);
}

/// A server before the first call, for which this is user 0's key.
fn new_server(rt: &impl Host, pinned: PublicKey) -> Server {
    Server {
        order: Ordered::genesis(rt.alloc(), pinned),
        log: MemoryLog::new(rt.alloc()).expect(rt, "memory"),
        calls: Vec::new(rt.alloc()),
    }
}

/// What a server was asked.
fn calls_of(server: Server) -> Vec<Asked> {
    let Server { order, log, calls } = server;
    let_go((order, log));
    calls
}

/// What a server was asked that went to the log.
fn logged(pinned: PublicKey, server: Server) -> Line {
    let mut calls = calls_of(server);
    calls.retain(|call| call.is_logged);
    Line { pinned, calls }
}

/// Users 1 and 2 operate beside user 0, user 1 gets another key and operates by it, and user 2 goes on pending.
fn operate_all(
    rt: &impl Host,
    server: &mut Server,
    zero: &mut Signer,
    one: &mut Signer,
    two: &mut Signer,
) {
    let mut other = Signer::new(rt, 1, 3);
    let ones = operate_beside(rt, server, zero, one);
    operates_third(rt, server, zero, two);
    let renewed = is_given_a_key(rt, server, zero, (one, &mut other), &ones);
    uses_the_other_key(rt, server, one, &mut other);
    commits(rt, server, zero, &renewed, Status::Ok);
    let _ = declares(rt, server, two, Status::Ok);
}

/// The calls of users 0, 1 and 2.
pub(crate) fn history(rt: &impl Host) -> Line {
    let mut zero = Signer::new(rt, 0, 0);
    let mut one = Signer::new(rt, 1, 1);
    let mut two = Signer::new(rt, 2, 2);
    let pinned = zero.public();
    let mut server = new_server(rt, pinned);
    operates_first(rt, &mut server, &mut zero);
    operate_all(rt, &mut server, &mut zero, &mut one, &mut two);
    let calls = calls_of(server);
    Line { pinned, calls }
}

/// The calls that went to the log of user 0's first operation alone.
pub(crate) fn first_operation(rt: &impl Host) -> Line {
    let mut zero = Signer::new(rt, 0, 0);
    let pinned = zero.public();
    let mut server = new_server(rt, pinned);
    operates_first(rt, &mut server, &mut zero);
    logged(pinned, server)
}

/// The calls that went to the log of two operations of user 0 and one of user 1, who is pending: five.
pub(crate) fn three_operations(rt: &impl Host) -> Line {
    let (mut zero, mut one) = (Signer::new(rt, 0, 0), Signer::new(rt, 1, 1));
    let pinned = zero.public();
    let mut server = new_server(rt, pinned);
    operates_first(rt, &mut server, &mut zero);
    let _ = operate_beside(rt, &mut server, &mut zero, &mut one);
    logged(pinned, server)
}
