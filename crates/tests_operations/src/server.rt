//! The server: a long history of calls made by hand with their answers, in the order in which faults are told, and a
//! full log.

use crate::here::Here;
use consistency_server::{Call, CallKind, Log, MemoryLog};
use layout::{let_go, put_in};
use lms_sign::PrivateKey;
use std::alloc::Global;
use tests_aids::texts::{
    certificate_of, joined, key_of, listed, named, plan, reply_to, shown, signed, structure,
};
use tests_aids::{Host, check, check_text};
use tests_client_aids::servers::{Server, answers_commit, answers_update, server_of};
use wire::Status;

/// What is sent to the server, and the status of its answer, by seven letters: what it is, a user, a number, what that
/// names or has, by whose key it is signed, its changes, and the status.
///
/// - `c` is a certificate of this user and number, which names no structure, by zeros (`0`), the one that was committed
///   last (`c`), or one that nobody signed (`x`); it has no changes, or one of each kind (`e`).
/// - `s` is the structure of this user and number over the certificate that was placed last, with a handle of this byte
///   everywhere.
/// - `p` is the certificate that was placed last, and `k` the structure that was committed last, as they were sent.
/// - `g` is an update and a commit of no form.
///
/// A status is told by a letter of its name: Ok, Form, Unknown, Signature, Number, Pending or Busy.
type Calls = &'static [u8];

/// Of several faults the first one: who it is, the signature, the number.
const FAULTS: Calls = b"\
    g.....F\
    c1900.U\
    c1101.U\
    c0901.S\
    c0101.S\
    c0200.N\
    c0300.N\
    c01x0.N";

/// Nothing is pending.
const NONE_PENDING: Calls = b"\
    s1150.U\
    s0151.S\
    s0150.P";

/// The first operation is placed, and answered again as it was.
const PLACED: Calls = b"\
    c0100eO\
    p.....O";

/// While it is pending no other one is placed, whatever its number.
const BESIDE_PENDING: Calls = b"\
    c0100.N\
    c0200.N\
    c0101eS\
    c1100eU";

/// Its structure, and others.
const COMMITTED: Calls = b"\
    s0250.P\
    s0151.S\
    s1150.U\
    g.....F\
    p.....O\
    s0150.O\
    k.....O";

/// Another structure over the same plan, and what was pending.
const AFTER_COMMIT: Calls = b"\
    s0160.P\
    p.....N";

/// The second operation is placed after the structure of the first one alone.
const SECOND: Calls = b"\
    c0200.N\
    c02x0.N\
    c01c0.N\
    c03c0.N\
    c02c0.O\
    k.....O\
    p.....O\
    s0150.P\
    s0270.O\
    k.....O\
    c03c0eO\
    s0370.O\
    c04c0.O\
    p.....O";

/// No changes, and one of each kind.
const NONE: &[u8] = b"\0";

const EACH: &[u8] = b"\x05\
    \x01\0\0\x03abcdefghijklmnopqrstuvwxyz012345\
    \x02\x3f\x01\x04ABCDEFGHIJKLMNOPQRSTUVWXYZ543210\
    \x03\x5f\x0f\xff\
    \x04\0\0\x02\x01f\x40\0\x03\
    \x05\x40\0\x01\x04name";

/// The status of a letter.
fn status_of(rt: &impl Host, letter: u8) -> Status {
    match letter {
        b'O' => Status::Ok,
        b'F' => Status::Form,
        b'U' => Status::UnknownUser,
        b'S' => Status::BadSignature,
        b'N' => Status::WrongNumber,
        b'P' => Status::NotPending,
        b'B' => Status::Busy,
        _ => panic!(rt; "no status {letter}"),
    }
}

/// The number that a digit stands for.
fn digit(letter: u8) -> u8 {
    letter.wrapping_sub(b'0')
}

/// A server, the keys of users 0 and 1, and what was placed and committed last.
#[derive(Drop)]
struct Run {
    server: Server,
    keys: [PrivateKey<Global>; 2],
    /// The number and the text of the certificate that was placed last.
    number: u8,
    placed: Vec<u8>,
    /// The structure that was committed last, its digest, and the list that replies show of it.
    committed: Vec<u8>,
    last: [u8; 32],
    structures: Vec<u8>,
}

/// Before the first call.
fn new_run(rt: &impl Host) -> Run {
    let own = key_of(rt, 0);
    Run {
        server: server_of(rt, own.public()),
        keys: [own, key_of(rt, 1)],
        number: 0,
        placed: Vec::new(rt.alloc()),
        committed: Vec::new(rt.alloc()),
        last: [0; 32],
        structures: joined(rt, &[&[0]]),
    }
}

impl Run {
    /// The server answers this status to the certificate of a number, and where it places it, the reply made by hand.
    fn update(&mut self, rt: &impl Host, number: u8, text: Vec<u8>, status: Status) {
        if status == Status::Ok {
            let reply = reply_to(rt, &self.structures, number, &text);
            answers_update(rt, &mut self.server, &text, status, &reply);
            self.number = number;
            put_in(&mut self.placed, text);
        } else {
            answers_update(rt, &mut self.server, &text, status, &[]);
        }
    }

    /// The server answers this status to the structure.
    fn commit(&mut self, rt: &impl Host, text: Vec<u8>, status: Status) {
        answers_commit(rt, &mut self.server, &text, status);
        if status == Status::Ok {
            self.last = named(&text);
            put_in(&mut self.structures, listed(rt, &shown(rt, &text)));
            put_in(&mut self.committed, text);
        }
    }

    /// The certificate of this user and number, signed by this key.
    fn certificate(&self, rt: &impl Host, letters: [u8; 5]) -> Vec<u8> {
        let [user, number, last, key, changes] = letters;
        let last = match last {
            b'c' => self.last,
            b'x' => [1; 32],
            _ => [0; 32],
        };
        let changes = if changes == b'e' { EACH } else { NONE };
        let (user, number) = (digit(user), u32::from(digit(number)));
        let text = certificate_of(rt, user, number, &last, changes);
        let [own, other] = &self.keys;
        signed(rt, if key == b'1' { other } else { own }, 0, &text)
    }

    /// The structure of this user and number, with a handle of this byte, signed by this key.
    fn structure(&self, rt: &impl Host, letters: [u8; 4]) -> Vec<u8> {
        let [user, number, handle, key] = letters;
        let (user, number) = (digit(user), digit(number));
        let vector = [1, user, 0, 0, 0, number];
        let certificate = named(&self.placed);
        let plan = plan(rt, user, u32::from(number), &certificate, &vector, b"\0");
        let text = structure(rt, &plan, &[digit(handle); 32]);
        let [own, other] = &self.keys;
        signed(rt, if key == b'1' { other } else { own }, 0, &text)
    }

    /// The server answers a call by its status.
    fn answers(&mut self, rt: &impl Host, call: &[u8]) {
        let [what, user, number, named, key, changes, status] = call else {
            panic!(rt; "not seven letters");
        };
        let status = status_of(rt, *status);
        match what {
            b'c' => {
                let text = self.certificate(rt, [*user, *number, *named, *key, *changes]);
                self.update(rt, digit(*number), text, status);
            }
            b'p' => {
                let text = joined(rt, &[&self.placed]);
                self.update(rt, self.number, text, status);
            }
            b's' => {
                let text = self.structure(rt, [*user, *number, *named, *key]);
                self.commit(rt, text, status);
            }
            b'k' => {
                let text = joined(rt, &[&self.committed]);
                self.commit(rt, text, status);
            }
            _ => {
                answers_update(rt, &mut self.server, b"garbage", status, &[]);
                answers_commit(rt, &mut self.server, b"garbage", status);
            }
        }
    }

    /// The server answers each call by its status.
    fn answers_each(&mut self, rt: &impl Host, calls: &[u8]) {
        for call in calls.chunks(7) {
            self.answers(rt, call);
        }
    }
}

/// Four certificates are placed and three structures committed, which stand in the log, and each call is counted.
#[test]
fn each_call_of_a_long_history(rt: HostRuntime) {
    let rt = (rt, Here);
    let mut run = new_run(&rt);
    let history: [Calls; 7] = [
        FAULTS,
        NONE_PENDING,
        PLACED,
        BESIDE_PENDING,
        COMMITTED,
        AFTER_COMMIT,
        SECOND,
    ];
    for calls in history {
        run.answers_each(&rt, calls);
    }
    check(&rt, run.server.events() == 7, "seven events");
    let calls = run.server.ordered.call_count();
    check(&rt, calls == 42, "forty-two calls");
    let call = run.server.log.calls().last().expect(&rt, "a call");
    check(&rt, call.kind() == CallKind::Update, "an update");
    check_text(&rt, call.text(), &run.placed);
    let_go(run);
}

fn fill(rt: &impl Host, log: &mut MemoryLog<Global>) {
    for _ in log.calls().len()..1024 {
        let call = Call::new(CallKind::Update, Vec::new(rt.alloc()));
        log.try_push(call).expect(rt, "room");
    }
}

/// What a full log answers to before and after the first operation is placed: Busy alone to what would be an event.
const FULL: Calls = b"\
    c0100.B\
    c0200.N\
    s0150.P\
    g.....F";

const FULL_BESIDE: Calls = b"\
    s0150.B\
    p.....O\
    s0250.P\
    c0200.N\
    s0150.B";

/// After these calls the log is full, and these are answered so, of which four aren't Busy.
fn is_full_after(rt: &impl Host, before: Calls, calls: Calls) {
    let mut run = new_run(rt);
    run.answers_each(rt, before);
    fill(rt, &mut run.server.log);
    run.answers_each(rt, calls);
    check(rt, run.server.ordered.call_count() == 4, "not Busy");
    let_go(run);
}

#[test]
fn full_log_is_busy(rt: HostRuntime) {
    let rt = (rt, Here);
    is_full_after(&rt, b"", FULL);
    is_full_after(&rt, b"c0100.O", FULL_BESIDE);
}
