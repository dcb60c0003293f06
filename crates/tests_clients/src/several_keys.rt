//! A client of several keys: the newest one signs its certificates, and of its structures each is signed by the key that
//! the table of principals has at its plan's version of user 0. A declared certificate is signed once more by the one
//! that is asked for.

use crate::here::Here;
use crate::script::play;
use crate::two_users::LISTED;

/// User 0 gives user 1 a second key, that which others have as user 3's.
static RENEWED: &[u8] = b"\
    plan set 3 1\n\
    declare 0 a\n\
    update 0 a ok r\n\
    hear 0 r = 'accepted\n\
    issue 0 z\n\
    commit 0 z ok\n\
    over 0\n\
    text a 'STR1 01 00\n";

/// User 1's client gets it, too. Its next operation is declared and signed by the second key's first leaves.
static NEWEST: &[u8] = b"\
    restart 1 gains 3\n\
    declare 1 u\n\
    text c 'SUC1 01 :1 $0 00\n\
    key x c 0 3\n\
    equal u = x\n\
    update 0 u ok r\n\
    hear 1 r = 'accepted\n\
    issue 1 s\n\
    text q 'SVP1 01 :1 %u 02 00 :2 01 :1 00\n\
    text y 'SVS1 +q q #a 00\n\
    key x y 1 3\n\
    equal s = x\n\
    commit 0 s ok\n\
    over 1\n";

#[test]
fn newest_key_signs(rt: HostRuntime) {
    play(&(rt, Here), &[LISTED, RENEWED, NEWEST]);
}

/// User 1's operation is placed before the second key is.
static PLACED: &[u8] = b"\
    declare 1 u\n\
    update 0 u ok v\n";

/// Its structure is signed by the first key, which the table has at its plan's version, though the client has both.
static FIRST_SIGNS: &[u8] = b"\
    restart 1 gains 3\n\
    hear 1 v = 'accepted\n\
    issue 1 s\n\
    text q 'SVP1 01 :1 %u 02 00 :1 01 :1 00\n\
    text y 'SVS1 +q q #a 00\n\
    key x y 1 1\n\
    equal s = x\n\
    commit 0 s ok\n\
    over 1\n";

#[test]
fn key_of_the_plans_version_signs(rt: HostRuntime) {
    play(&(rt, Here), &[LISTED, PLACED, RENEWED, FIRST_SIGNS]);
}

/// A client that lacks the second key tells so where it is to sign, and is as before.
static LACKING: &[u8] = b"\
    restart 1 gains 3\n\
    declare 1 u\n\
    update 0 u ok r\n\
    restart 1 loses\n\
    hear 1 r = 'accepted\n\
    issue 1 s = 'NoKey\n\
    issue 1 s = 'NoKey\n\
    now 1 x = 'declared :1\n\
    equal x = u\n";

#[test]
fn key_is_lacking(rt: HostRuntime) {
    play(&(rt, Here), &[LISTED, RENEWED, LACKING]);
}

/// User 1 declares under its first key, gets the second one, and signs its certificate once more by that and by the
/// first one, each time by the next leaf of the key.
static BY_EACH: &[u8] = b"\
    declare 1 u\n\
    who 1 = 00 01 :1023\n\
    restart 1 gains 3\n\
    who 1 = 00 02 :1024\n\
    text c 'SUC1 01 :1 $0 00\n\
    declare 1 v 1\n\
    key x c 0 3\n\
    equal v = x\n\
    who 1 = 01 02 :1023\n\
    declare 1 w 0\n\
    key x c 1 1\n\
    equal w = x\n\
    who 1 = 00 02 :1023\n\
    declare 1 v 1\n\
    key x c 1 3\n\
    equal v = x\n\
    now 1 x = 'declared :1\n\
    equal x = v\n\
    restart 1 loses\n\
    who 1 = 01 :1022\n\
    now 1 x = 'declared :1\n\
    equal x = v\n";

#[test]
fn each_key_signs_once_more(rt: HostRuntime) {
    play(&(rt, Here), &[LISTED, BY_EACH]);
}

/// A reply is under check, or accepted, as the certificate is signed once more: it is dropped, and only one to the new
/// text is accepted.
static DROPS: &[u8] = b"\
    declare 1 u\n\
    restart 1 gains 3\n\
    text p 'SVP1 01 :1 %u 02 00 :2 01 :1 00\n\
    text r 'SRL1 01 *z z 01 *u u +p p\n\
    between h z 54 86\n\
    ask 1 r = 'need h\n\
    query 1 = 'wants\n\
    declare 1 v 1\n\
    query 1 =\n\
    hear 1 r = 'OwnPending\n\
    text r 'SRL1 01 *z z 01 *v v +p p\n\
    hear 1 r = 'accepted\n\
    declare 1 w 1\n\
    hear 1 r = 'OwnPending\n\
    text r 'SRL1 01 *z z 01 *w w +p p\n\
    hear 1 r = 'accepted\n\
    issue 1 s\n\
    text y 'SVS1 +p p #a 00\n\
    key x y 2 3\n\
    equal s = x\n";

#[test]
fn replies_to_the_text_before_are_dropped(rt: HostRuntime) {
    play(&(rt, Here), &[LISTED, RENEWED, DROPS]);
}

/// The server places no certificate that is signed by the key before, and one that is signed once more.
static DECLINED: &[u8] = b"\
    declare 1 u\n\
    update 0 u bad_signature r\n\
    restart 1 gains 3\n\
    declare 1 v 1\n\
    update 0 v ok r\n\
    hear 1 r = 'accepted\n\
    issue 1 s\n\
    commit 0 s ok\n\
    over 1\n";

#[test]
fn signed_once_more_after_it_was_declined(rt: HostRuntime) {
    play(&(rt, Here), &[LISTED, RENEWED, DECLINED]);
}

/// No leaf of the second key is left: the client is as before, and signs by the first key.
static USED_UP: &[u8] = b"\
    declare 1 u\n\
    text l !3 $1 01\n\
    restart 1 gains 3 l\n\
    who 1 = 00 02 :0\n\
    declare 1 v 1 = 'NoLeaf\n\
    now 1 x = 'declared :1\n\
    equal x = u\n\
    declare 1 v 0\n\
    text c 'SUC1 01 :1 $0 00\n\
    key x c 1 1\n\
    equal v = x\n";

#[test]
fn no_leaf_signs_once_more(rt: HostRuntime) {
    play(&(rt, Here), &[LISTED, USED_UP]);
}
