//! A key that was stolen before its user got another one: it counts as before where the plan's version of user 0 is one
//! of then, and nowhere else. Replies to user 1, made by hand over a table of principals made by hand, that show what a
//! thief signs with user 2's first key.

use crate::here::Here;
use crate::renewed_keys::BEGINNING;
use crate::script::play;

/// A part of user 2 in which the thief's file stands at 2:5. Text n is its i-node, and x the root.
static FILE: &[u8] = b"\
    text n $H\n\
    text m 'STC1 00 01 0005 #n\n\
    text x 'STR1 02 01 00 #m\n\
    store x m n $h\n";

/// A structure over that part: signed at the number of the second key it is refused, and at the one before it is taken
/// for what user 2 signed then.
static STRUCTURE: &[u8] = b"\
    text P 'SVP1 00 :4 $7 02 00 :4 02 :1 00\n\
    text S 'SVS1 +P P #R 00\n\
    key S S 1 0\n\
    text p 'SVP1 02 :1 #c 02 00 :3 02 :1 00\n\
    text s 'SVS1 +p p #x 00\n\
    key v s 3 2\n\
    text r 'SRL1 02 *S S *v v 01 *u u +q q\n\
    hear 1 r = 'Signature\n\
    text p 'SVP1 02 :1 #c 02 00 :2 02 :1 00\n\
    text s 'SVS1 +p p #x 00\n\
    key v s 3 2\n\
    text r 'SRL1 02 *S S *v v 01 *u u +q q\n\
    hear 1 r = 'accepted\n\
    issue 1 t\n\
    look 1 2 5 = 'file $h\n";

/// A certificate that makes the file: pending since the number of the second key it is refused, and since the one
/// before it has effect.
static PENDING: &[u8] = b"\
    text c 'SUC1 02 :1 $0 01 01 02 0005 #n\n\
    key v c 2 2\n\
    text p 'SVP1 02 :1 %v 02 00 :3 02 :1 00\n\
    text P 'SVP1 00 :4 $7 02 00 :4 02 :1 01 02 :1 #p\n\
    text S 'SVS1 +P P #R 00\n\
    key S S 1 0\n\
    text q 'SVP1 01 :1 %u 03 00 :4 01 :1 02 :1 01 02 :1 #p\n\
    text r 'SRL1 01 *S S 02 *v v +p p *u u +q q\n\
    hear 1 r = 'Certificate\n\
    text p 'SVP1 02 :1 %v 02 00 :2 02 :1 00\n\
    text P 'SVP1 00 :4 $7 02 00 :4 02 :1 01 02 :1 #p\n\
    text S 'SVS1 +P P #R 00\n\
    key S S 1 0\n\
    text q 'SVP1 01 :1 %u 03 00 :4 01 :1 02 :1 01 02 :1 #p\n\
    text r 'SRL1 01 *S S 02 *v v +p p *u u +q q\n\
    hear 1 r = 'accepted\n\
    issue 1 t\n\
    look 1 2 5 = 'file $h\n";

#[test]
fn structure_by_a_stolen_key(rt: HostRuntime) {
    play(&(rt, Here), &[BEGINNING, FILE, STRUCTURE]);
}

#[test]
fn certificate_by_a_stolen_key(rt: HostRuntime) {
    play(&(rt, Here), &[BEGINNING, FILE, PENDING]);
}
