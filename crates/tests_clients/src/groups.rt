//! User 0's operations with a group, of which it is a member and then isn't: the table's text, the records of the group
//! that its structures have, which changes are lost, and what stands in the view. A hostile store changes nothing of
//! it.

use crate::here::Here;
use crate::script::play_both;

/// The records after the first operation that raised the group (f), and after the last one (l), each after their count.
/// The digests in them, of the roots of the group's i-table, are another program's SHA-256.
static RECORDS: &[u8] = b"\
    text f 0140000000010000000177579c156efe40f87a93ee80830275c8933e9302c6fd 3f053bdfcb3a9ad6a31e\n\
    text l 014000000002000000024ecaf68c57da815d3500fbb306f4309a6fcbc495be05 9f726a4d6fbdc85ae403\n";

/// User 0 lists user 1, and once more, and makes users 0 and 2 members of group 64. Each structure's text has a size,
/// and ends with its records; the signature after it has 2,508 bytes.
static LISTS: &[u8] = b"\
    plan list 1 form\n\
    plan list 1 form\n\
    plan member 64 0\n\
    plan member 64 2\n\
    declare 0 u\n\
    update 0 u ok v\n\
    hear 0 v = 'accepted\n\
    issue 0 s\n\
    commit 0 s ok\n\
    over 0\n\
    query 0 x = 'view 02 04\n\
    measure x = :2595\n\
    between y x 86 87\n\
    equal y = 00\n\
    text T 'SPT1 02 0000000000 !0 0100000001 $F 0001 40 00 :1 :0\n\
    measure T = :139\n\
    look 0 0 1 = 'file T\n";

/// It makes and changes files of the group's, takes itself out of the group, and changes nothing of the group's any
/// more.
static OF_GROUP: &[u8] = b"\
    plan make 64 1 'a\n\
    plan make 64 64 'b\n\
    declare 0 u\n\
    update 0 u ok v\n\
    hear 0 v = 'accepted\n\
    issue 0 s\n\
    commit 0 s ok\n\
    over 0\n\
    query 0 x = 'view 02\n\
    measure x = :2641\n\
    between y x 91 133\n\
    equal y = f\n\
    plan drop 64 0\n\
    plan put 64 1 'c\n\
    declare 0 u\n\
    update 0 u ok v\n\
    hear 0 v = 'accepted\n\
    issue 0 s\n\
    commit 0 s ok\n\
    over 0\n\
    query 0 x = 'view\n\
    measure x = :2641\n\
    between y x 91 133\n\
    equal y = l\n\
    plan put 64 1 'd\n\
    declare 0 u\n\
    update 0 u ok v\n\
    hear 0 v = 'accepted\n\
    issue 0 s\n\
    commit 0 s ok\n\
    over 0\n\
    query 0 x = 'view 01\n\
    measure x = :2641\n\
    between y x 91 133\n\
    equal y = l\n\
    text T 'SPT1 02 0000000000 !0 0100000001 $F 0001 40 00 :1 :3\n\
    measure T = :139\n\
    look 0 0 1 = 'file T\n\
    look 0 64 1 = 'file 'c\n";

#[test]
fn member_and_then_none(rt: HostRuntime) {
    play_both(&(rt, Here), &[RECORDS, LISTS, OF_GROUP]);
}
