//! Replies to user 1 that show structures and pending operations of several users, made by hand over a table of
//! principals made by hand: replies that break no rule, and replies that differ from those in one part and break the
//! rule of that part.

use crate::here::Here;
use crate::script::play;

/// User 0's i-table, which is stored, with a table of principals: users 1 and 2 are members of group 64 from number 1
/// of user 0's on, user 3 is at number 1 alone, and user 2 is one of group 65 from number 2 on. Text S is user 0's
/// second structure, over that i-table, signed. Texts a, b, d, g and h are the roots that users 2, 3 and 4 and groups
/// 64 and 65 have at the beginning. User 1 has declared: text u.
pub(crate) static BEGINNING: &[u8] = b"\
    text T 'SPT1 05 0000000000 !0 0100000001 !1 0200000001 !2 0300000001 !3 0400000002 $F 0004 \
        40010000000100000000 40020000000100000000 40030000000100000002 41020000000200000000\n\
    measure T = :352\n\
    text I 'SIN1 01 :352 0001 #T\n\
    text e $E\n\
    text C 'STC1 00 02 0001 #I 0002 #e\n\
    text R 'STR1 00 01 00 #C\n\
    store R C I T\n\
    text P 'SVP1 00 :2 $7 01 00 :2 00\n\
    text S 'SVS1 +P P #R 00\n\
    key S S 1 0\n\
    text a 'STR1 02 00\n\
    text b 'STR1 03 00\n\
    text d 'STR1 04 00\n\
    text g 'STR1 40 00\n\
    text h 'STR1 41 00\n";

/// User 1 declares, text u, and other users' first operations have these certificates: without changes those of user
/// 2 (c), 3 (f) and 4 (i); with one that removes 64:5 those of user 2 (j) and 3 (k); with one that links it in 2:2 that
/// of user 2 (l).
pub(crate) static CERTIFICATES: &[u8] = b"\
    declare 1 u\n\
    text c 'SUC1 02 :1 $0 00\n\
    text f 'SUC1 03 :1 $0 00\n\
    text i 'SUC1 04 :1 $0 00\n\
    text j 'SUC1 02 :1 $0 01 03 40 0005\n\
    text k 'SUC1 03 :1 $0 01 03 40 0005\n\
    text l 'SUC1 02 :1 $0 01 04 02 0002 01 'n 40 0005\n";

/// Each reply shows a structure beside user 0's. The own plan, q, has the versions of all.
static STRUCTURES: &[u8] = b"\
    # a structure\n\
    text p 'SVP1 02 :1 #c 02 00 :2 02 :1 00\n\
    text s 'SVS1 +p p #a 00\n\
    key v s 3 2\n\
    text q 'SVP1 01 :1 %u 03 00 :2 01 :1 02 :1 00\n\
    text r 'SRL1 02 *S S *v v 01 *u u +q q\n\
    hear 1 r = 'accepted\n\
    # a structure signed by another user\n\
    key v s 3 3\n\
    text r 'SRL1 02 *S S *v v 01 *u u +q q\n\
    hear 1 r = 'Signature\n\
    # a user before it was listed: user 4 is since number 2 of user 0's\n\
    text p 'SVP1 04 :1 #i 02 00 :1 04 :1 00\n\
    text s 'SVS1 +p p #d 00\n\
    key v s 3 2\n\
    text q 'SVP1 01 :1 %u 03 00 :2 01 :1 04 :1 00\n\
    text r 'SRL1 02 *S S *v v 01 *u u +q q\n\
    hear 1 r = 'UnknownUser\n";

/// Each reply shows a structure with a record of a group: the group, its version, that of the table, and the handle.
static RECORDS: &[u8] = b"\
    # a record\n\
    text p 'SVP1 02 :1 #j 03 00 :2 02 :1 40 :1 00\n\
    text s 'SVS1 +p p #a 01 40 :1 :2 #g\n\
    key v s 3 2\n\
    text q 'SVP1 01 :1 %u 04 00 :2 01 :1 02 :1 40 :1 00\n\
    text r 'SRL1 02 *S S *v v 01 *u u +q q\n\
    hear 1 r = 'accepted\n\
    # a record's version above its structure's\n\
    text s 'SVS1 +p p #a 01 40 :2 :2 #g\n\
    key w s 3 2\n\
    text r 'SRL1 02 *S S *w w 01 *u u +q q\n\
    hear 1 r = 'GroupRecord\n\
    # a record's table above its structure's version of user 0\n\
    text s 'SVS1 +p p #a 01 40 :1 :3 #g\n\
    key w s 3 2\n\
    text r 'SRL1 02 *S S *w w 01 *u u +q q\n\
    hear 1 r = 'GroupRecord\n\
    # a version in no record\n\
    text s 'SVS1 +p p #a 00\n\
    key w s 3 2\n\
    text r 'SRL1 02 *S S *w w 01 *u u +q q\n\
    hear 1 r = 'GroupRecord\n\
    # a version in two records\n\
    text p 'SVP1 03 :1 #k 04 00 :2 02 :1 03 :1 40 :1 00\n\
    text s 'SVS1 +p p #b 01 40 :1 :1 #g\n\
    key w s 3 3\n\
    text q 'SVP1 01 :1 %u 05 00 :2 01 :1 02 :1 03 :1 40 :1 00\n\
    text r 'SRL1 03 *S S *v v *w w 01 *u u +q q\n\
    hear 1 r = 'GroupRecord\n\
    # a record of who is a member\n\
    text p 'SVP1 02 :1 #c 03 00 :2 02 :1 41 :1 00\n\
    text s 'SVS1 +p p #a 01 41 :1 :2 #h\n\
    key v s 3 2\n\
    text q 'SVP1 01 :1 %u 04 00 :2 01 :1 02 :1 41 :1 00\n\
    text r 'SRL1 02 *S S *v v 01 *u u +q q\n\
    hear 1 r = 'accepted\n\
    # a record of who is no member yet\n\
    text s 'SVS1 +p p #a 01 41 :1 :1 #h\n\
    key v s 3 2\n\
    text r 'SRL1 02 *S S *v v 01 *u u +q q\n\
    hear 1 r = 'GroupRecord\n\
    # a record of who was a member\n\
    text p 'SVP1 03 :1 #k 03 00 :2 03 :1 40 :1 00\n\
    text s 'SVS1 +p p #b 01 40 :1 :1 #g\n\
    key v s 3 3\n\
    text q 'SVP1 01 :1 %u 04 00 :2 01 :1 03 :1 40 :1 00\n\
    text r 'SRL1 02 *S S *v v 01 *u u +q q\n\
    hear 1 r = 'accepted\n\
    # a record of who is no member any more\n\
    text s 'SVS1 +p p #b 01 40 :1 :2 #g\n\
    key v s 3 3\n\
    text r 'SRL1 02 *S S *v v 01 *u u +q q\n\
    hear 1 r = 'GroupRecord\n";

/// Each reply shows an operation that is pending before the own one, of which the own plan has an entry.
static PENDING: &[u8] = b"\
    # a pending operation\n\
    key v c 2 2\n\
    text p 'SVP1 02 :1 %v 02 00 :2 02 :1 00\n\
    text q 'SVP1 01 :1 %u 03 00 :2 01 :1 02 :1 01 02 :1 #p\n\
    text r 'SRL1 01 *S S 02 *v v +p p *u u +q q\n\
    hear 1 r = 'accepted\n\
    # a certificate signed by another user\n\
    key v c 2 3\n\
    text r 'SRL1 01 *S S 02 *v v +p p *u u +q q\n\
    hear 1 r = 'Certificate\n\
    # a certificate signed by user 0\n\
    key v c 2 0\n\
    text r 'SRL1 01 *S S 02 *v v +p p *u u +q q\n\
    hear 1 r = 'Certificate\n\
    # a member raises the group\n\
    key v j 2 2\n\
    text p 'SVP1 02 :1 %v 03 00 :2 02 :1 40 :1 00\n\
    text q 'SVP1 01 :1 %u 04 00 :2 01 :1 02 :1 40 :1 01 02 :1 #p\n\
    text r 'SRL1 01 *S S 02 *v v +p p *u u +q q\n\
    hear 1 r = 'accepted\n\
    # a member doesn't raise the group\n\
    text p 'SVP1 02 :1 %v 02 00 :2 02 :1 00\n\
    text q 'SVP1 01 :1 %u 03 00 :2 01 :1 02 :1 01 02 :1 #p\n\
    text r 'SRL1 01 *S S 02 *v v +p p *u u +q q\n\
    hear 1 r = 'Vector\n\
    # who is no member any more raises the group\n\
    key v k 2 3\n\
    text p 'SVP1 03 :1 %v 03 00 :2 03 :1 40 :1 00\n\
    text q 'SVP1 01 :1 %u 04 00 :2 01 :1 03 :1 40 :1 01 03 :1 #p\n\
    text r 'SRL1 01 *S S 02 *v v +p p *u u +q q\n\
    hear 1 r = 'Vector\n\
    # who is no member any more doesn't raise the group\n\
    text p 'SVP1 03 :1 %v 02 00 :2 03 :1 00\n\
    text q 'SVP1 01 :1 %u 03 00 :2 01 :1 03 :1 01 03 :1 #p\n\
    text r 'SRL1 01 *S S 02 *v v +p p *u u +q q\n\
    hear 1 r = 'accepted\n\
    # a link's target raises its group\n\
    key v l 2 2\n\
    text p 'SVP1 02 :1 %v 03 00 :2 02 :1 40 :1 00\n\
    text q 'SVP1 01 :1 %u 04 00 :2 01 :1 02 :1 40 :1 01 02 :1 #p\n\
    text r 'SRL1 01 *S S 02 *v v +p p *u u +q q\n\
    hear 1 r = 'Vector\n";

#[test]
fn each_reply(rt: HostRuntime) {
    let scripts = [BEGINNING, CERTIFICATES, STRUCTURES, RECORDS, PENDING];
    play(&(rt, Here), &scripts);
}
