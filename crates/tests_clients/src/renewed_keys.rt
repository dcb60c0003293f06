//! Signatures of users who get a second key. Replies to user 1 that show what user 2 signed before and after, made by
//! hand over a table of principals made by hand: each signature counts under the key at its plan's version of user 0,
//! and under no other. And calls to a server, by which key it judges each.

use crate::here::Here;
use crate::script::play;

/// User 0's i-table, which is stored, with a table of principals: users 1 and 2 are listed since number 1 of user 0's,
/// and user 2 has a second key since number 3, that which others have as user 3's. Text R is the root. User 1 has
/// declared, text u, and text c is the certificate of user 2's first operation.
pub(crate) static BEGINNING: &[u8] = b"\
    text T 'SPT2 03 00 01 00000000 !0 01 01 00000001 !1 02 02 00000001 !2 00000003 !3 0000\n\
    measure T = :253\n\
    text I 'SIN1 01 :253 0001 #T\n\
    text e $E\n\
    text C 'STC1 00 02 0001 #I 0002 #e\n\
    text R 'STR1 00 01 00 #C\n\
    store R C I T\n\
    text a 'STR1 02 00\n\
    declare 1 u\n\
    text c 'SUC1 02 :1 $0 00\n\
    text q 'SVP1 01 :1 %u 03 00 :4 01 :1 02 :1 00\n";

/// User 2's structure, over its operation after number 2, 3 and 4 of user 0's, with a signature by each key. The last
/// structure of user 0 is that of number 4.
static STRUCTURES: &[u8] = b"\
    # before the second key: by the first one, and by the second one\n\
    text P 'SVP1 00 :4 $7 02 00 :4 02 :1 00\n\
    text S 'SVS1 +P P #R 00\n\
    key S S 1 0\n\
    text p 'SVP1 02 :1 #c 02 00 :2 02 :1 00\n\
    text s 'SVS1 +p p #a 00\n\
    key v s 3 2\n\
    text r 'SRL1 02 *S S *v v 01 *u u +q q\n\
    hear 1 r = 'accepted\n\
    key v s 3 3\n\
    text r 'SRL1 02 *S S *v v 01 *u u +q q\n\
    hear 1 r = 'Signature\n\
    # at its number: by the second key, and by the first one\n\
    text p 'SVP1 02 :1 #c 02 00 :3 02 :1 00\n\
    text s 'SVS1 +p p #a 00\n\
    key v s 3 3\n\
    text r 'SRL1 02 *S S *v v 01 *u u +q q\n\
    hear 1 r = 'accepted\n\
    key v s 3 2\n\
    text r 'SRL1 02 *S S *v v 01 *u u +q q\n\
    hear 1 r = 'Signature\n\
    # after it\n\
    text P 'SVP1 00 :4 $7 01 00 :4 00\n\
    text S 'SVS1 +P P #R 00\n\
    key S S 1 0\n\
    text p 'SVP1 02 :1 #c 02 00 :4 02 :1 00\n\
    text s 'SVS1 +p p #a 00\n\
    key v s 3 3\n\
    text r 'SRL1 02 *S S *v v 01 *u u +q q\n\
    hear 1 r = 'accepted\n\
    key v s 3 2\n\
    text r 'SRL1 02 *S S *v v 01 *u u +q q\n\
    hear 1 r = 'Signature\n\
    # before the user was listed there is no key, and the user is told first\n\
    text p 'SVP1 02 :1 #c 01 02 :1 00\n\
    text s 'SVS1 +p p #a 00\n\
    key v s 3 2\n\
    text r 'SRL1 02 *S S *v v 01 *u u +q q\n\
    hear 1 r = 'UnknownUser\n";

/// User 2's operation is pending, placed after number 2, 3 and 4 of user 0's, with its certificate signed by each key.
static PENDING: &[u8] = b"\
    # before the second key: by the first one, and by the second one\n\
    key v c 2 2\n\
    text p 'SVP1 02 :1 %v 02 00 :2 02 :1 00\n\
    text P 'SVP1 00 :4 $7 02 00 :4 02 :1 01 02 :1 #p\n\
    text S 'SVS1 +P P #R 00\n\
    key S S 1 0\n\
    text q 'SVP1 01 :1 %u 03 00 :4 01 :1 02 :1 01 02 :1 #p\n\
    text r 'SRL1 01 *S S 02 *v v +p p *u u +q q\n\
    hear 1 r = 'accepted\n\
    key v c 2 3\n\
    text r 'SRL1 01 *S S 02 *v v +p p *u u +q q\n\
    hear 1 r = 'Certificate\n\
    # at its number: by the second key, and by the first one\n\
    text p 'SVP1 02 :1 %v 02 00 :3 02 :1 00\n\
    text P 'SVP1 00 :4 $7 02 00 :4 02 :1 01 02 :1 #p\n\
    text S 'SVS1 +P P #R 00\n\
    key S S 1 0\n\
    text q 'SVP1 01 :1 %u 03 00 :4 01 :1 02 :1 01 02 :1 #p\n\
    text r 'SRL1 01 *S S 02 *v v +p p *u u +q q\n\
    hear 1 r = 'accepted\n\
    key v c 2 2\n\
    text r 'SRL1 01 *S S 02 *v v +p p *u u +q q\n\
    hear 1 r = 'Certificate\n\
    # after it: above top\n\
    text P 'SVP1 00 :4 $7 01 00 :4 00\n\
    text S 'SVS1 +P P #R 00\n\
    key S S 1 0\n\
    text p 'SVP1 02 :1 %v 02 00 :4 02 :1 00\n\
    text q 'SVP1 01 :1 %u 03 00 :4 01 :1 02 :1 01 02 :1 #p\n\
    key v c 2 3\n\
    text r 'SRL1 01 *S S 02 *v v +p p *u u +q q\n\
    hear 1 r = 'accepted\n\
    key v c 2 2\n\
    text r 'SRL1 01 *S S 02 *v v +p p *u u +q q\n\
    hear 1 r = 'Certificate\n";

/// User 0 lists user 1, which has an operation placed; then user 0 gives it a second key, that which others have as user
/// 2's.
static RENEWED: &[u8] = b"\
    text c 'SUC1 00 :1 $0 01 06 01 !1\n\
    key a c 0 0\n\
    update 0 a ok z\n\
    text p 'SVP1 00 :1 %a 01 00 :1 00\n\
    text s 'SVS1 +p p $0 00\n\
    key S s 1 0\n\
    commit 0 S ok\n\
    text c 'SUC1 01 :1 $0 00\n\
    key b c 0 1\n\
    update 0 b ok y\n\
    text q 'SVP1 01 :1 %b 02 00 :1 01 :1 00\n\
    text c 'SUC1 00 :2 %S 01 09 01 !2\n\
    key d c 2 0\n\
    update 0 d ok z\n\
    text p 'SVP1 00 :2 %d 02 00 :2 01 :1 01 01 :1 #q\n\
    text s 'SVS1 +p p $0 00\n\
    key T s 3 0\n\
    commit 0 T ok\n";

/// What was placed is answered as it was. Another certificate counts by the last key. The structure of what was placed
/// counts by the key at its plan's number, and one without user 0's number by none.
static JUDGED: &[u8] = b"\
    update 0 b ok x\n\
    equal x = y\n\
    text c 'SUC1 01 :1 $0 01 03 01 0005\n\
    key e c 1 1\n\
    update 0 e bad_signature z\n\
    key e c 1 2\n\
    update 0 e wrong_number z\n\
    text p 'SVP1 01 :1 %b 01 01 :1 00\n\
    text s 'SVS1 +p p $0 00\n\
    key v s 1 1\n\
    commit 0 v bad_signature\n\
    text s 'SVS1 +q q $0 00\n\
    key v s 1 2\n\
    commit 0 v bad_signature\n\
    key v s 1 1\n\
    commit 0 v ok\n\
    # the next operation, whose plan has the number of the second key\n\
    text c 'SUC1 01 :2 %v 00\n\
    key b c 2 1\n\
    update 0 b bad_signature z\n\
    key b c 2 2\n\
    update 0 b ok z\n\
    text q 'SVP1 01 :2 %b 02 00 :2 01 :2 00\n\
    text s 'SVS1 +q q $0 00\n\
    key v s 3 1\n\
    commit 0 v bad_signature\n\
    key v s 3 2\n\
    commit 0 v ok\n\
    # a user who isn't listed\n\
    text c 'SUC1 02 :1 $0 00\n\
    key b c 0 2\n\
    update 0 b unknown_user z\n\
    text q 'SVP1 02 :1 %b 02 00 :2 02 :1 00\n\
    text s 'SVS1 +q q $0 00\n\
    key v s 1 2\n\
    commit 0 v unknown_user\n";

#[test]
fn each_call(rt: HostRuntime) {
    play(&(rt, Here), &[RENEWED, JUDGED]);
}

#[test]
fn each_reply(rt: HostRuntime) {
    play(&(rt, Here), &[BEGINNING, STRUCTURES, PENDING]);
}
