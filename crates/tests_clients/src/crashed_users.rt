//! User 1's client crashes once it has declared its first operation, and another server shows it another line than the
//! one before: a reply is accepted or refused by the rules, and one structure of that number is ever handed out.

use crate::here::Here;
use crate::script::play;
use crate::two_users::{BESIDE, LISTED};

/// User 1 declares, after user 2 has operated at the other server. The replies, made by hand, are the true ones of
/// both: x shows user 0's structure alone, y user 2's beside it. Text m has the structures of y, and the plan of x.
static FORK: &[u8] = b"\
    declare 1 u\n\
    text p 'SVP1 01 :1 %u 02 00 :1 01 :1 00\n\
    text x 'SRL1 01 *z z 01 *u u +p p\n\
    update 0 u ok r\n\
    equal r = x\n\
    text q 'SVP1 01 :1 %u 03 00 :1 01 :1 02 :1 00\n\
    text y 'SRL1 02 *z z *t t 01 *u u +q q\n\
    update 1 u ok r\n\
    equal r = y\n\
    text m 'SRL1 02 *z z *t t 01 *u u +p p\n";

/// It crashes, and accepts the first server's reply; then it crashes once more.
static ACCEPTS: &[u8] = b"\
    restart 1 synced\n\
    hear 1 x = 'accepted\n\
    restart 1 synced\n";

/// The client has declared, refuses what is mixed, accepts the other server's reply, and signs. The structure stands
/// after a restart: the other server commits it, and the first one doesn't.
static SIGNS_BESIDE: &[u8] = b"\
    now 1 v = 'declared :1\n\
    equal v = u\n\
    hear 1 m = 'Numbers\n\
    hear 1 y = 'accepted\n\
    issue 1 s\n\
    between w s 0 64\n\
    equal w = 'SVS1 +q q\n\
    restart 1 synced\n\
    now 1 v = 'signed :1\n\
    equal v = s\n\
    commit 0 s not_pending\n\
    commit 1 s ok\n";

#[test]
fn another_reply_after_a_crash(rt: HostRuntime) {
    play(&(rt, Here), &[LISTED, BESIDE, FORK, ACCEPTS, SIGNS_BESIDE]);
}

/// An open and what `sign` does before it has synced the record make 9 calls of a journal of one record. The next one
/// fails: nothing is handed out.
static RECORD_FAILS: &[u8] = b"\
    restart 1 synced journal 9\n\
    hear 1 x = 'accepted\n\
    issue 1 s = 'Device\n\
    now 1 v = 'failed\n\
    restart 1 synced\n";

#[test]
fn another_reply_after_a_crash_in_sign(rt: HostRuntime) {
    play(
        &(rt, Here),
        &[LISTED, BESIDE, FORK, RECORD_FAILS, SIGNS_BESIDE],
    );
}

/// Before it has synced the gate that opens the record they make 11. The structure over the first server's reply stands
/// in the journal, and is the one of its number: the first server commits it, and the other one doesn't.
static GATE_FAILS: &[u8] = b"\
    restart 1 synced journal 11\n\
    hear 1 x = 'accepted\n\
    issue 1 s = 'Device\n\
    now 1 v = 'failed\n\
    restart 1 written\n\
    now 1 s = 'signed :1\n\
    between w s 0 59\n\
    equal w = 'SVS1 +p p\n\
    commit 1 s not_pending\n\
    commit 0 s ok\n";

#[test]
fn no_other_reply_once_a_structure_stands(rt: HostRuntime) {
    play(&(rt, Here), &[LISTED, BESIDE, FORK, GATE_FAILS]);
}
