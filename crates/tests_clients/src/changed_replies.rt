//! Replies that show what others signed, cut, or with one bit changed: before the honest one is accepted, and after
//! that, when the client doesn't verify again what it verified.

use crate::here::Here;
use crate::script::play;
use crate::two_users::{LISTED, OPERATES};

/// User 2's operation is pending, and user 0 declares its second one. The honest reply is text r.
static BEFORE_SUPERUSER: &[u8] = b"\
    declare 2 a\n\
    update 0 a ok r\n\
    declare 0 u\n\
    update 0 u ok r\n\
    measure r = :10466\n";

/// The reply to user 0 shows its own structure at 5 and user 1's at 2,602, of 92 bytes, and then the pending operations
/// of user 2 at 5,205 and of user 0 at 7,817. Changed are bytes of each text and each signature, and the counts.
static TO_SUPERUSER: &[u8] = b"\
    flip x r 0\n\
    hear 0 x = 'Form\n\
    flip x r 4\n\
    hear 0 x = 'Form\n\
    flip x r 17\n\
    hear 0 x = 'Lists\n\
    flip x r 94\n\
    hear 0 x = 'OwnLast\n\
    flip x r 2601\n\
    hear 0 x = 'OwnLast\n\
    # of user 1's structure: the last byte of its handle, and its signature\n\
    flip x r 2694\n\
    hear 0 x = 'Signature\n\
    flip x r 2696\n\
    hear 0 x = 'Signature\n\
    flip x r 3700\n\
    hear 0 x = 'Signature\n\
    flip x r 5203\n\
    hear 0 x = 'Signature\n\
    flip x r 5204\n\
    hear 0 x = 'Form\n\
    # of user 2's certificate: the digest of no structure, and its signature\n\
    flip x r 5216\n\
    hear 0 x = 'Certificate\n\
    flip x r 5249\n\
    hear 0 x = 'Certificate\n\
    flip x r 7756\n\
    hear 0 x = 'Certificate\n\
    # of the own one\n\
    flip x r 7828\n\
    hear 0 x = 'OwnPending\n\
    flip x r 7861\n\
    hear 0 x = 'OwnPending\n\
    flip x r 10368\n\
    hear 0 x = 'OwnPending\n\
    # cut in signatures of structures and of certificates, and in the last plan\n\
    between x r 0 100\n\
    hear 0 x = 'Form\n\
    between x r 0 4000\n\
    hear 0 x = 'Form\n\
    between x r 0 6000\n\
    hear 0 x = 'Form\n\
    between x r 0 9000\n\
    hear 0 x = 'Form\n\
    between x r 0 10455\n\
    hear 0 x = 'Form\n";

/// User 0's second operation is pending, and user 1 declares its second one.
static BEFORE_FIRST: &[u8] = b"\
    declare 0 a\n\
    update 0 a ok r\n\
    declare 1 u\n\
    update 0 u ok r\n\
    measure r = :10456\n";

/// The reply to user 1 shows user 0's structure at 5 and its own at 2,602, and then the pending operations of user 0 at
/// 5,205 and its own at 7,812.
static TO_FIRST: &[u8] = b"\
    # of user 0's structure: its certificate's digest, its handle, and its signature\n\
    flip x r 22\n\
    hear 1 x = 'SuperSignature\n\
    flip x r 61\n\
    hear 1 x = 'SuperSignature\n\
    flip x r 94\n\
    hear 1 x = 'SuperSignature\n\
    flip x r 2601\n\
    hear 1 x = 'SuperSignature\n\
    flip x r 2694\n\
    hear 1 x = 'OwnLast\n\
    flip x r 5203\n\
    hear 1 x = 'OwnLast\n\
    # of user 0's certificate\n\
    flip x r 5216\n\
    hear 1 x = 'SuperSignature\n\
    flip x r 5249\n\
    hear 1 x = 'SuperSignature\n\
    flip x r 7756\n\
    hear 1 x = 'SuperSignature\n\
    # cut in signatures of structures and of certificates, and in the last plan\n\
    between x r 0 100\n\
    hear 1 x = 'Form\n\
    between x r 0 4000\n\
    hear 1 x = 'Form\n\
    between x r 0 6000\n\
    hear 1 x = 'Form\n\
    between x r 0 9000\n\
    hear 1 x = 'Form\n\
    between x r 0 10455\n\
    hear 1 x = 'Form\n";

static SUPERUSER_ACCEPTS: &[u8] = b"\
    hear 0 r = 'accepted\n";

static SUPERUSER_SIGNS: &[u8] = b"\
    issue 0 s\n";

static FIRST_ACCEPTS: &[u8] = b"\
    hear 1 r = 'accepted\n";

static FIRST_SIGNS: &[u8] = b"\
    issue 1 s\n";

/// User 1 has committed. User 0 refuses each change of the honest reply, accepts that, refuses each change once more,
/// and accepts and signs it still.
#[test]
fn changes_shown_to_user_0(rt: HostRuntime) {
    let (changed, honest) = (TO_SUPERUSER, SUPERUSER_ACCEPTS);
    let scripts = [
        LISTED,
        OPERATES,
        BEFORE_SUPERUSER,
        changed,
        honest,
        changed,
        honest,
        SUPERUSER_SIGNS,
    ];
    play(&(rt, Here), &scripts);
}

/// User 1 does so.
#[test]
fn changes_shown_to_user_1(rt: HostRuntime) {
    let (changed, honest) = (TO_FIRST, FIRST_ACCEPTS);
    let scripts = [
        LISTED,
        OPERATES,
        BEFORE_FIRST,
        changed,
        honest,
        changed,
        honest,
        FIRST_SIGNS,
    ];
    play(&(rt, Here), &scripts);
}
