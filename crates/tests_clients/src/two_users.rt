//! Users 1 and 2 at once, with servers in memory: the reply to both byte for byte, and what a server shows of forks, of
//! an older structure and of a plan that it swapped.

use crate::here::Here;
use crate::script::play;

/// User 0 lists users 1 and 2, each by its key, at one server and in the same way at the other. Text z is its
/// structure.
pub(crate) static LISTED: &[u8] = b"\
    plan list 1 1\n\
    plan list 2 2\n\
    declare 0 a\n\
    update 0 a ok r\n\
    hear 0 r = 'accepted\n\
    issue 0 z\n\
    commit 0 z ok\n\
    over 0\n\
    update 1 a ok r\n\
    commit 1 z ok\n";

/// User 1 makes an operation without changes. Text o is its structure.
pub(crate) static OPERATES: &[u8] = b"\
    declare 1 a\n\
    update 0 a ok r\n\
    hear 1 r = 'accepted\n\
    issue 1 o\n\
    commit 0 o ok\n\
    over 1\n";

/// User 2 makes one at the other server: text t.
pub(crate) static BESIDE: &[u8] = b"\
    declare 2 a\n\
    update 1 a ok r\n\
    hear 2 r = 'accepted\n\
    issue 2 t\n\
    commit 1 t ok\n\
    over 2\n";

/// Both are pending, and the reply to the second one has both plans, the second one's with an entry of the first.
static BOTH_PENDING: &[u8] = b"\
    declare 1 a\n\
    update 0 a ok r\n\
    declare 2 b\n\
    update 0 b ok r\n\
    text p 'SVP1 01 :1 %a 02 00 :1 01 :1 00\n\
    text e 01 01 :1 #p\n\
    measure e = :38\n\
    text q 'SVP1 02 :1 %b 03 00 :1 01 :1 02 :1 e\n\
    measure q = :95\n\
    equal r = 'SRL1 01 *z z 02 *a a +p p *b b +q q\n\
    hear 2 r = 'accepted\n\
    issue 2 s\n";

#[test]
fn reply_to_two_pending_byte_for_byte(rt: HostRuntime) {
    play(&(rt, Here), &[LISTED, BOTH_PENDING]);
}

/// User 1 is shown the structures of its line alone, and refuses those of both lines.
static JOINED: &[u8] = b"\
    declare 1 u\n\
    update 0 u ok r\n\
    text p 'SVP1 01 :2 %u 02 00 :1 01 :2 00\n\
    equal r = 'SRL1 02 *z z *o o 01 *u u +p p\n\
    text x 'SRL1 03 *z z *o o *t t 01 *u u +p p\n\
    hear 1 x = 'Numbers\n\
    hear 1 r = 'accepted\n\
    issue 1 s\n";

#[test]
fn forks_that_are_joined(rt: HostRuntime) {
    play(&(rt, Here), &[LISTED, OPERATES, BESIDE, JOINED]);
}

/// The structure that was the last one is text x from now on.
static OLDEST: &[u8] = b"\
    text x o\n";

/// User 1 is shown its last structure of three, and refuses its oldest.
static AGO: &[u8] = b"\
    declare 1 u\n\
    update 0 u ok r\n\
    text p 'SVP1 01 :4 %u 02 00 :1 01 :4 00\n\
    equal r = 'SRL1 02 *z z *o o 01 *u u +p p\n\
    text y 'SRL1 02 *z z *x x 01 *u u +p p\n\
    hear 1 y = 'OwnLast\n\
    hear 1 r = 'accepted\n\
    issue 1 s\n";

#[test]
fn own_structure_of_two_commits_ago(rt: HostRuntime) {
    play(
        &(rt, Here),
        &[LISTED, OPERATES, OLDEST, OPERATES, OPERATES, AGO],
    );
}

/// User 2 accepts a reply in which user 1's operation is pending with another plan than its own: one that has an entry
/// of an operation that was committed before it. The next one of user 2's finds that out by the true structure of user
/// 1, and is accepted where the operation is pending still.
static SWAPPED: &[u8] = b"\
    declare 1 a\n\
    update 0 a ok r\n\
    between y z 6 54\n\
    text p 'SVP1 01 :1 %a 02 00 :1 01 :1 01 00 :1 #y\n\
    text e 01 01 :1 #p\n\
    declare 2 b\n\
    text q 'SVP1 02 :1 %b 03 00 :1 01 :1 02 :1 e\n\
    text x 'SRL1 01 *z z 02 *a a +p p *b b +q q\n\
    hear 2 x = 'accepted\n\
    issue 2 t\n\
    over 2\n\
    hear 1 r = 'accepted\n\
    issue 1 o\n\
    declare 2 c\n\
    text q 'SVP1 02 :2 %c 03 00 :1 01 :1 02 :2 00\n\
    text x 'SRL1 03 *z z *o o *t t 01 *c c +q q\n\
    hear 2 x = 'Entries\n\
    text q 'SVP1 02 :2 %c 03 00 :1 01 :1 02 :2 e\n\
    text x 'SRL1 02 *z z *t t 02 *a a +p p *c c +q q\n\
    hear 2 x = 'accepted\n\
    issue 2 s\n";

#[test]
fn plan_that_was_swapped(rt: HostRuntime) {
    play(&(rt, Here), &[LISTED, SWAPPED]);
}
