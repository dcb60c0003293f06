//! Blocks of parts of others, which user 1's client asks for by handles that others signed: of a group's part, which
//! its own operation raises, and of parts that it looks at.

use crate::here::Here;
use crate::script::play;
use crate::several_users::{BEGINNING, CERTIFICATES};

/// User 1's operation removes 64:5.
static REMOVES: &[u8] = b"\
    plan remove 64 5\n";

/// The reply is after user 2's structure with the handle of a part in the record of the group. The part has one
/// i-number, 5 of chunk 0 or 69 of chunk 1: n is its i-node, m its chunk, and o its root, of which some are stored.
static PARTS: &[u8] = b"\
    text p 'SVP1 02 :1 #j 03 00 :2 02 :1 40 :1 00\n\
    text q 'SVP1 01 :1 %u 04 00 :2 01 :1 02 :1 40 :2 00\n\
    # the part of group 64, with a file at 64:5\n\
    text n $H\n\
    text m 'STC1 00 01 0005 #n\n\
    text o 'STR1 40 01 00 #m\n\
    store o m n $h\n\
    text s 'SVS1 +p p #a 01 40 :1 :2 #o\n\
    key v s 3 2\n\
    text r 'SRL1 02 *S S *v v 01 *u u +q q\n\
    hear 1 r = 'accepted\n\
    # no root\n\
    text n 'absent_root\n\
    text m 'STC1 00 01 0005 #n\n\
    text o 'STR1 40 01 00 #m\n\
    text s 'SVS1 +p p #a 01 40 :1 :2 #o\n\
    key v s 3 2\n\
    text r 'SRL1 02 *S S *v v 01 *u u +q q\n\
    hear 1 r = 'Block\n\
    # a root of another group\n\
    text n $H\n\
    text m 'STC1 00 01 0005 #n\n\
    text o 'STR1 41 01 00 #m\n\
    store o m n $h\n\
    text s 'SVS1 +p p #a 01 40 :1 :2 #o\n\
    key v s 3 2\n\
    text r 'SRL1 02 *S S *v v 01 *u u +q q\n\
    hear 1 r = 'Content\n\
    # no chunk\n\
    text n 'absent_chunk\n\
    text m 'STC1 00 01 0005 #n\n\
    text o 'STR1 40 01 00 #m\n\
    store o\n\
    text s 'SVS1 +p p #a 01 40 :1 :2 #o\n\
    key v s 3 2\n\
    text r 'SRL1 02 *S S *v v 01 *u u +q q\n\
    hear 1 r = 'Block\n\
    # another chunk than its root lists\n\
    text n $H\n\
    text m 'STC1 01 01 0045 #n\n\
    text o 'STR1 40 01 00 #m\n\
    store o m n $h\n\
    text s 'SVS1 +p p #a 01 40 :1 :2 #o\n\
    key v s 3 2\n\
    text r 'SRL1 02 *S S *v v 01 *u u +q q\n\
    hear 1 r = 'Content\n\
    # a chunk without 64:5 isn't asked for\n\
    text n $H\n\
    text m 'STC1 01 01 0045 #n\n\
    text o 'STR1 40 01 01 #m\n\
    store o\n\
    text s 'SVS1 +p p #a 01 40 :1 :2 #o\n\
    key v s 3 2\n\
    text r 'SRL1 02 *S S *v v 01 *u u +q q\n\
    hear 1 r = 'accepted\n\
    # no i-node\n\
    text n 'absent\n\
    text m 'STC1 00 01 0005 #n\n\
    text o 'STR1 40 01 00 #m\n\
    store o m\n\
    text s 'SVS1 +p p #a 01 40 :1 :2 #o\n\
    key v s 3 2\n\
    text r 'SRL1 02 *S S *v v 01 *u u +q q\n\
    hear 1 r = 'Block\n\
    # a text that is no i-node\n\
    text n $h\n\
    text m 'STC1 00 01 0005 #n\n\
    text o 'STR1 40 01 00 #m\n\
    store o m n $h\n\
    text s 'SVS1 +p p #a 01 40 :1 :2 #o\n\
    key v s 3 2\n\
    text r 'SRL1 02 *S S *v v 01 *u u +q q\n\
    hear 1 r = 'Content\n";

#[test]
fn part_of_a_raised_group(rt: HostRuntime) {
    play(&(rt, Here), &[BEGINNING, REMOVES, CERTIFICATES, PARTS]);
}

/// The reply to a certificate without changes is after structures of users 2 and 3: user 2's root is one of user 5's,
/// user 3's isn't stored, and the group has a file.
static LOOKED_AT: &[u8] = b"\
    text n $H\n\
    text m 'STC1 00 01 0005 #n\n\
    text x 'STR1 05 01 00 #m\n\
    text y 'STR1 03 01 00 #m\n\
    text o 'STR1 40 01 00 #m\n\
    store x o m n $h\n\
    text p 'SVP1 02 :1 #j 03 00 :2 02 :1 40 :1 00\n\
    text s 'SVS1 +p p #x 01 40 :1 :2 #o\n\
    key v s 3 2\n\
    text p 'SVP1 03 :1 #f 04 00 :2 02 :1 03 :1 40 :1 00\n\
    text s 'SVS1 +p p #y 00\n\
    key w s 3 3\n\
    text q 'SVP1 01 :1 %u 05 00 :2 01 :1 02 :1 03 :1 40 :1 00\n\
    text r 'SRL1 03 *S S *v v *w w 01 *u u +q q\n\
    hear 1 r = 'accepted\n\
    issue 1 t\n\
    look 1 2 5 = 'Content\n\
    look 1 3 5 = 'Block\n\
    look 1 64 5 = 'file $h\n";

#[test]
fn parts_that_are_looked_at(rt: HostRuntime) {
    play(&(rt, Here), &[BEGINNING, CERTIFICATES, LOOKED_AT]);
}
