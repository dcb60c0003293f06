//! User 0's client, closed and opened again in each phase over devices in memory: it goes on with what its journal
//! tells. How many bytes the journal has is counted by hand from the formats.

use crate::here::Here;
use crate::script::play;

/// User 0 declares its first operation without changes, text u. The reply to it is text r.
pub(crate) static FIRST: &[u8] = b"\
    declare 0 u\n\
    text p 'SVP1 00 :1 %u 01 00 :1 00\n\
    text r 'SRL1 00 01 *u u +p p\n";

/// Nothing stands in the journal but its gate.
static NEW: &[u8] = b"\
    restart 0 closed\n\
    equal Y = :1\n\
    now 0 x = 'idle :0\n";

/// A gate, a header of 5 bytes, 42 bytes of certificate, its signature of 2,508, and a gate.
static DECLARED: &[u8] = b"\
    restart 0 closed\n\
    equal Y = :2557\n\
    now 0 x = 'declared :1\n\
    equal x = u\n";

/// The client accepts the reply to its first certificate, which asks for no block and has nothing stored, and signs:
/// text s.
pub(crate) static SIGNS: &[u8] = b"\
    hear 0 r = 'accepted\n\
    equal Z =\n\
    equal Y = 00\n\
    issue 0 s\n";

/// After the certificate a header, 87 bytes of structure, its signature, and a gate. No view is left, and no record
/// tells of the commit.
static SIGNED: &[u8] = b"\
    restart 0 closed\n\
    equal Y = :5158\n\
    now 0 x = 'signed :1\n\
    equal x = s\n\
    query 0 =\n\
    over 0\n";

/// After the structure a header, 42 bytes of certificate, its signature, and a gate.
static SECOND: &[u8] = b"\
    declare 0 v\n\
    restart 0 closed\n\
    equal Y = :7714\n\
    now 0 x = 'declared :2\n\
    equal x = v\n";

#[test]
fn restarts_in_each_phase(rt: HostRuntime) {
    let scripts = [NEW, FIRST, DECLARED, SIGNS, SIGNED, SIGNED, SECOND];
    play(&(rt, Here), &scripts);
}

/// A reply in which the own operation isn't pending is refused.
static NOT_PENDING: &[u8] = b"\
    text n 'SRL1 0000\n\
    hear 0 n = 'OwnPending\n\
    equal Z =\n";

/// It is refused after a restart as before, and the true one accepted.
#[test]
fn judges_after_a_restart(rt: HostRuntime) {
    let scripts = [FIRST, NOT_PENDING, DECLARED, NOT_PENDING, SIGNS];
    play(&(rt, Here), &scripts);
}

/// The first operation is over.
static OVER: &[u8] = b"\
    over 0\n";

/// Replies to the second certificate that show no structure, or another than the client's last one, are refused, and
/// one with it is accepted.
pub(crate) static KNOWS_ITS_LAST: &[u8] = b"\
    text p 'SVP1 00 :2 %v 01 00 :2 00\n\
    text r 'SRL1 00 01 *v v +p p\n\
    hear 0 r = 'OwnLast\n\
    equal Z =\n\
    flip y s 2594\n\
    text r 'SRL1 01 *y y 01 *v v +p p\n\
    hear 0 r = 'OwnLast\n\
    equal Z =\n\
    text r 'SRL1 01 *s s 01 *v v +p p\n\
    hear 0 r = 'accepted\n\
    equal Z =\n\
    equal Y = 00\n\
    issue 0 t\n";

/// A server that shows no structure of the client's, or another than its last one, is found out after a restart, too.
#[test]
fn knows_its_last_structure_after_a_restart(rt: HostRuntime) {
    play(&(rt, Here), &[FIRST, SIGNS, OVER, SECOND, KNOWS_ITS_LAST]);
}

/// A ledger in which each leaf but the last one is used: the key, and a mark of each leaf.
static ONE_LEAF: &[u8] = b"\
    text l !0 $1 00\n\
    restart 0 over l\n";

/// A ledger in which each leaf is used.
static NO_LEAF: &[u8] = b"\
    text l !0 $1 01\n\
    restart 0 over l\n";

/// The client has accepted a reply, and no leaf is left for the structure: it stays declared.
static SIGNS_NOTHING: &[u8] = b"\
    hear 0 r = 'accepted\n\
    equal Z =\n\
    equal Y = 00\n\
    issue 0 s = 'NoLeaf\n\
    now 0 x = 'declared :1\n\
    equal x = u\n";

#[test]
fn one_leaf_declares_and_none_signs(rt: HostRuntime) {
    let scripts = [ONE_LEAF, FIRST, SIGNS_NOTHING, DECLARED, SIGNS_NOTHING];
    play(&(rt, Here), &scripts);
}

/// No leaf is left for the certificate.
static DECLARES_NOTHING: &[u8] = b"\
    declare 0 u = 'NoLeaf\n\
    now 0 x = 'idle :0\n";

#[test]
fn no_leaf_declares(rt: HostRuntime) {
    play(&(rt, Here), &[NO_LEAF, DECLARES_NOTHING, NEW]);
}

/// No client of another user is opened over these, which are handed back.
static OF_ANOTHER_USER: &[u8] = b"\
    restart 0 closed user 1 = 'Damaged :2557\n\
    now 0 x = 'declared :1\n";

#[test]
fn no_user_opens_anothers_journal(rt: HostRuntime) {
    play(&(rt, Here), &[FIRST, OF_ANOTHER_USER]);
}

/// No client with another key is opened over these, nor one where the first call of the journal fails, and the devices
/// are handed back.
static BY_ANOTHER_KEY: &[u8] = b"\
    restart 0 closed key 1 = 'Foreign :2557\n\
    restart 0 closed journal 0 = 'Device :2557\n\
    now 0 x = 'declared :1\n";

#[test]
fn no_key_opens_anothers_ledger(rt: HostRuntime) {
    play(&(rt, Here), &[FIRST, BY_ANOTHER_KEY]);
}
