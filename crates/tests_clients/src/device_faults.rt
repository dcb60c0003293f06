//! Each call of a device in `begin` and in `sign` fails, and a crash comes: nothing is handed out, and the client,
//! opened again, is as its journal tells and goes on. Under which leaf it signs then is counted by hand: never under
//! one whose mark the crash left.

use crate::here::Here;
use crate::restarts::{FIRST, SIGNS};
use crate::script::{new_actors, new_stage, play_on};
use crate::words::words_of;
use layout::let_go;
use tests_aids::Host;
use tests_aids::texts::joined;

/// Scripts of a call that fails: two in which it does, one in which what it would have handed out stands once the
/// client is opened again, two in which it doesn't stand and is handed out at last, and one by which it is compared in
/// the end.
type Call<'a> = [&'a [u8]; 6];

/// Calls of the devices in `begin` that fail: the device, how many calls of it go well before, what the crash leaves,
/// whether what is handed out stands or is lost, and the leaf under which it is signed at last. Before `begin`, where
/// both devices are made anew, come 5 calls of the ledger and 4 of the journal.
///
/// The calls of a ledger: a mark is written, and synced. Those of a journal: a header, a text and a closed gate are
/// written, and synced; then the gate before them is opened, and synced.
static IN_BEGIN: &[u8] = b"\
    ledger 5 synced lost 0\n\
    ledger 5 written lost 0\n\
    ledger 6 synced lost 0\n\
    ledger 6 written lost 1\n\
    journal 4 synced lost 1\n\
    journal 4 written lost 1\n\
    journal 5 synced lost 1\n\
    journal 5 written lost 1\n\
    journal 6 synced lost 1\n\
    journal 6 written lost 1\n\
    journal 7 synced lost 1\n\
    journal 7 written lost 1\n\
    journal 8 synced lost 1\n\
    journal 8 written lost 1\n\
    journal 9 synced lost 1\n\
    journal 9 written stands 0";

/// Those in `sign`, before which come 7 calls of the ledger and 10 of the journal. The certificate has the first leaf.
static IN_SIGN: &[u8] = b"\
    ledger 7 synced lost 1\n\
    ledger 7 written lost 1\n\
    ledger 8 synced lost 1\n\
    ledger 8 written lost 2\n\
    journal 10 synced lost 2\n\
    journal 10 written lost 2\n\
    journal 11 synced lost 2\n\
    journal 11 written lost 2\n\
    journal 12 synced lost 2\n\
    journal 12 written lost 2\n\
    journal 13 synced lost 2\n\
    journal 13 written lost 2\n\
    journal 14 synced lost 2\n\
    journal 14 written lost 2\n\
    journal 15 synced lost 2\n\
    journal 15 written stands 1";

/// Nothing is handed out, and the client is to be opened again.
static FAILS_TO_BEGIN: &[u8] = b"\
    declare 0 u = 'Device\n\
    now 0 x = 'failed\n";

/// The reply is accepted.
static FAILS_TO_SIGN: &[u8] = b"\
    hear 0 r = 'accepted\n\
    equal Z =\n\
    equal Y = 00\n\
    issue 0 s = 'Device\n\
    now 0 x = 'failed\n";

/// The certificate stands: text u.
static IS_DECLARED: &[u8] = b"\
    now 0 u = 'declared :1\n";

/// No certificate stands, and another one is declared: text u.
static BEGINS: &[u8] = b"\
    now 0 x = 'idle :0\n\
    declare 0 u\n";

/// The structure stands: text s.
static IS_SIGNED: &[u8] = b"\
    now 0 s = 'signed :1\n";

/// No structure stands, and the certificate is declared still.
static STILL_DECLARED: &[u8] = b"\
    now 0 x = 'declared :1\n\
    equal x = u\n";

/// The certificate begins so, under leaf L, and the client tells of it when it is opened again.
static CERTIFICATE: &[u8] = b"\
    between y u 0 46\n\
    equal y = 'SUC1 00 :1 $0 00 L\n\
    restart 0 closed\n\
    now 0 x = 'declared :1\n\
    equal x = u\n";

/// The structure begins so.
static STRUCTURE: &[u8] = b"\
    between y s 0 91\n\
    equal y = 'SVS1 0030 p $B 00 L\n\
    restart 0 closed\n\
    now 0 x = 'signed :1\n\
    equal x = s\n";

/// The script of a row.
fn script_of(rt: &impl Host, call: &Call, row: &[u8]) -> Vec<u8> {
    let words = words_of(rt, row);
    let [device, calls, left, what, leaf] = words.as_slice() else {
        panic!(rt; "not five words");
    };
    let [first, fails, stands, still, lost, is_told] = call;
    let (before, after) = match *what {
        b"stands" => (*stands, b"".as_slice()),
        _ => (*still, *lost),
    };
    joined(
        rt,
        &[
            b"restart 0 anew ",
            device,
            b" ",
            calls,
            b"\n",
            first,
            fails,
            b"restart 0 ",
            left,
            b"\ntext L :",
            leaf,
            b"\n",
            before,
            after,
            is_told,
        ],
    )
}

/// The call fails in each of these rows.
fn goes_on_after_each(rt: &impl Host, call: &Call, rows: &[u8]) {
    let mut stage = new_stage(rt);
    let mut actors = new_actors(rt, &stage);
    for row in rows.split(|byte| *byte == b'\n') {
        let script = script_of(rt, call, row);
        play_on(rt, &mut actors, &mut stage, &script);
    }
    let_go((actors, stage));
}

#[test]
fn each_call_of_begin_fails(rt: HostRuntime) {
    let call: Call = [b"", FAILS_TO_BEGIN, IS_DECLARED, b"", BEGINS, CERTIFICATE];
    goes_on_after_each(&(rt, Here), &call, IN_BEGIN);
}

#[test]
fn each_call_of_sign_fails(rt: HostRuntime) {
    let call: Call = [
        FIRST,
        FAILS_TO_SIGN,
        IS_SIGNED,
        STILL_DECLARED,
        SIGNS,
        STRUCTURE,
    ];
    goes_on_after_each(&(rt, Here), &call, IN_SIGN);
}
