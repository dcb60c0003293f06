//! The client of another user, to which user 0's structure is shown.

use crate::here::Here;
use crate::script::play;

/// User 1 declares. Text s is the structure of user 0's first operation, with an invented handle.
static STRUCTURE: &[u8] = b"\
    declare 1 u\n\
    text q 'SVP1 01 :1 %u 02 00 :1 01 :1 00\n\
    text w 'SUC1 00 :1 $0 00\n\
    text P 'SVP1 00 :1 #w 01 00 :1 00\n\
    text s 'SVS1 +P P $5 00\n";

/// With no signature.
static UNSIGNED: &[u8] = b"\
    text S s $S\n\
    text r 'SRL1 01 *S S 01 *u u +q q\n\
    hear 1 r = 'SuperSignature\n\
    equal Z =\n";

/// With another user's.
static BY_ANOTHER: &[u8] = b"\
    key S s 1 1\n\
    text r 'SRL1 01 *S S 01 *u u +q q\n\
    hear 1 r = 'SuperSignature\n\
    equal Z =\n";

#[test]
fn forged_structure_of_user_0(rt: HostRuntime) {
    let rt = (rt, Here);
    play(&rt, &[STRUCTURE, UNSIGNED]);
    play(&rt, &[STRUCTURE, BY_ANOTHER]);
}

/// With user 0's own signature, over the table of the beginning, which each client knows, the first broken rule is that
/// user 1 isn't listed.
static OWN_TABLE: &[u8] = b"\
    text T 'SPT1 01 0000000000 !0 0000\n\
    text I 'SIN1 01 :68 0001 #T\n\
    text e $E\n\
    text C 'STC1 00 02 0001 #I 0002 #e\n\
    text R 'STR1 00 01 00 #C\n\
    text P 'SVP1 00 :1 $7 01 00 :1 00\n\
    text S 'SVS1 +P P #R 00\n\
    key S S 1 0\n\
    text r 'SRL1 01 *S S 01 *u u +q q\n\
    hear 1 r = 'UnknownUser\n\
    equal Z =\n";

#[test]
fn true_structure_of_user_0(rt: HostRuntime) {
    play(&(rt, Here), &[STRUCTURE, OWN_TABLE]);
}

/// Over another handle its root is asked for first.
static OTHER_TABLE: &[u8] = b"\
    key S s 1 0\n\
    text r 'SRL1 01 *S S 01 *u u +q q\n\
    ask 1 r = 'need $5\n\
    give 1 - = 'Block\n";

#[test]
fn table_of_another_handle(rt: HostRuntime) {
    play(&(rt, Here), &[STRUCTURE, OTHER_TABLE]);
}
