//! Texts of a user's operations, as a server in memory takes them, and what it answers.

use crate::by_hand::Host;
use crate::requests::{append, joined, put_frame};
use consistency_server::{CallKind, MemoryLog, Ordered, Verification};
use layout::let_go;
use std::alloc::Global;
use tests_plain_user::PlainUser;

/// What a server answers to a call: the number of its status, and the payload behind it.
pub(crate) fn answered<R: Host>(
    rt: &R,
    ordered: &mut Ordered<Global>,
    log: &mut MemoryLog<Global>,
    kind: CallKind,
    text: &[u8],
    known: Option<&Verification<'_>>,
) -> Vec<u8> {
    let answer = ordered.answer(log, kind, text, known);
    joined(rt, &[&[answer.status().number()], answer.payload()])
}

/// The payload behind the number of a status.
pub(crate) fn payload_of(answer: &[u8]) -> &[u8] {
    match answer {
        [_status, payload @ ..] => payload,
        [] => answer,
    }
}

/// Calls that a server took, one after another.
#[derive(Drop)]
pub(crate) struct Taken {
    /// The log of their texts: of each its kind, the size and the text itself.
    pub(crate) log: Vec<u8>,
    /// The frames that bring them.
    pub(crate) requests: Vec<u8>,
    /// The frames of what is answered.
    pub(crate) replies: Vec<u8>,
}

/// No calls.
pub(crate) fn no_calls<R: Host>(rt: &R) -> Taken {
    Taken {
        log: Vec::new(rt.alloc()),
        requests: Vec::new(rt.alloc()),
        replies: Vec::new(rt.alloc()),
    }
}

/// Adds a call of this kind, which is answered so.
fn add_call<R: Host>(rt: &R, taken: &mut Taken, kind: u8, text: &[u8], answer: &[u8]) {
    let [.., a, b, c, d] = text.len().to_be_bytes();
    append(rt, &mut taken.log, &[&[kind, a, b, c, d], text]);
    put_frame(rt, &mut taken.requests, kind, text);
    if let [status, payload @ ..] = answer {
        put_frame(rt, &mut taken.replies, *status, payload);
    }
}

/// Adds the calls of an operation of these changes.
fn add_operation<R: Host>(
    rt: &R,
    ordered: &mut Ordered<Global>,
    log: &mut MemoryLog<Global>,
    user: &mut PlainUser,
    changes: &[u8],
    taken: &mut Taken,
) {
    let certificate = user.certificate(changes).expect(rt, "a certificate");
    let lists = answered(rt, ordered, log, CallKind::Update, &certificate, None);
    assert!(rt; lists.first() == Some(&0), "placed");
    add_call(rt, taken, 1, &certificate, &lists);
    let structure = user.structure(payload_of(&lists)).expect(rt, "a structure");
    let nothing = answered(rt, ordered, log, CallKind::Commit, &structure, None);
    assert!(rt; nothing.as_slice() == [0].as_slice(), "committed");
    add_call(rt, taken, 2, &structure, &nothing);
}

/// The calls of so many operations of user 0, certificate and structure in turn, by a server that takes them. The first
/// ones have these changes, and the others none.
pub(crate) fn operations<R: Host>(
    rt: &R,
    user: &mut PlainUser,
    changes: &[&[u8]],
    count: usize,
) -> Taken {
    let mut ordered = Ordered::genesis(rt.alloc(), user.public());
    let mut log = MemoryLog::new(rt.alloc()).expect(rt, "memory");
    let mut taken = no_calls(rt);
    for number in 0..count {
        let changes = changes.get(number).copied().unwrap_or(b"\0");
        add_operation(rt, &mut ordered, &mut log, user, changes, &mut taken);
    }
    let_go((ordered, log));
    taken
}
