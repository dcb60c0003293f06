//! Histories of operations with changes: which blocks each asks for, the texts by which it is stored, which of its
//! changes are lost, and what stands in the view after it. The digests in the texts are another program's LMS and
//! SHA-256. A hostile store changes nothing of it.

use crate::here::Here;
use crate::script::{client_in, new_actors, new_stage, play_both, play_each, play_on};
use client_verify::{Look, Rule};
use layout::let_go;
use tests_aids::check;
use tests_client_aids::clients::look_at;

/// A directory with an entry f for 0:3 and its i-node (f and g); chunk 0 and the root of user 0's i-table after the
/// first operation (c and r), and after the second one (d and t), and the handles then (h and i).
static TEXTS: &[u8] = b"\
    text f $f\n\
    text g $g\n\
    text c 'STC1 0003000196bfe583011962f86708ecfe5e408060429be8861b3dcfe9ef9cd6cb \
        e729a6920002be1818a95b669ac3f017e725e2c9399a497ba2909b5ede69cafd \
        04722bb7661c00039acbb162842ec39d61d2836af826c92a67370e1c0a1f6f59 04bb86d5c068e59a\n\
    text r 'STR1 000100a156afd74856303c2b2496ff79c74040dfccf28aeab6a65e002e0d10f0 6b0261\n\
    text d 'STC1 0003000196bfe583011962f86708ecfe5e408060429be8861b3dcfe9ef9cd6cb \
        e729a6920002be1818a95b669ac3f017e725e2c9399a497ba2909b5ede69cafd \
        04722bb7661c00030bc1e762a7daf588526e71a8231c32107d9c9a6c7dafbb26 08cbcfb710608c28\n\
    text t 'STR1 000100e258c47348312c0d0602d55e1c65dc3c4a7940b1a3314b3659a51bb8cc dc5e18\n\
    text h ee8fb430266bd37e667a365fce3ae57aea1e6dd5552e4db3c28e467fd912c9b4\n\
    text i 439db1ae0be0393c0990e54a1a965b3a74a047d55fa714b92f2f8d61d4cfd7d8\n";

/// The first operation makes a file, and links it in the root directory. A look at the file asks for nothing, since the
/// client laid it out, and one at the directory neither, since the client has its entries from the change.
static FIRST: &[u8] = b"\
    plan make 0 3 'hello\n\
    plan link 0 2 'f 3\n\
    declare 0 u\n\
    update 0 u ok v\n\
    hear 0 v = 'accepted\n\
    equal Z =\n\
    equal Y = 04 +f f +g g +c c +r r\n\
    issue 0 s\n\
    commit 0 s ok\n\
    over 0\n\
    query 0 x = 'view\n\
    between y x 54 86\n\
    equal y = h\n";

/// What is seen then.
static SEEN: &[u8] = b"\
    look 0 0 3 = 'file 'hello\n\
    equal Z =\n\
    look 0 0 2 = 'directory 'f 00 0003\n\
    equal Z =\n";

/// Only the second change of these has an effect.
static SECOND: &[u8] = b"\
    plan make 0 3 'x\n\
    plan put 0 3 'y\n\
    plan remove 0 2\n\
    plan unlink 0 2 'g\n\
    declare 0 u\n\
    update 0 u ok v\n";

/// The second operation is accepted.
static SECOND_IS_ACCEPTED: &[u8] = b"\
    hear 0 v = 'accepted\n\
    equal Z = #r #c #g #f\n\
    equal Y = 02 +d d +t t\n\
    issue 0 s\n\
    commit 0 s ok\n\
    over 0\n\
    query 0 x = 'view 01 03 04\n\
    between y x 54 86\n\
    equal y = i\n\
    look 0 0 3 = 'file 'y\n\
    equal Z =\n";

/// One without changes; and one after which the directory is as before: nothing has to be stored.
static OTHERS: &[u8] = b"\
    look 0 0 2 = 'directory 'f 00 0003\n\
    equal Z =\n\
    declare 0 u\n\
    update 0 u ok v\n\
    hear 0 v = 'accepted\n\
    equal Z = #t #d\n\
    equal Y = 00\n\
    issue 0 s\n\
    commit 0 s ok\n\
    over 0\n\
    query 0 x = 'view\n\
    between y x 54 86\n\
    equal y = i\n\
    plan unlink 0 2 'f\n\
    plan link 0 2 'f 3\n\
    declare 0 u\n\
    update 0 u ok v\n\
    hear 0 v = 'accepted\n\
    equal Z =\n\
    equal Y = 00\n\
    issue 0 s\n\
    commit 0 s ok\n\
    over 0\n\
    query 0 x = 'view\n\
    between y x 54 86\n\
    equal y = i\n\
    look 0 0 2 = 'directory 'f 00 0003\n\
    equal Z =\n";

#[test]
fn four_operations(rt: HostRuntime) {
    let scripts = [TEXTS, FIRST, SEEN, SECOND, SECOND_IS_ACCEPTED, OTHERS];
    play_both(&(rt, Here), &scripts);
}

/// A directory is made, filled, emptied and removed again, so that the i-table is that of the beginning. It isn't
/// stored the second time. Its text with an entry a for 0:4 and its i-node are j and k; chunk 0 and the root with both
/// l and m, and those of the beginning n and o.
static MADE_AND_REMOVED: &[u8] = b"\
    text j 'SDI1 00010161000004\n\
    text k 'SIN1 020000000b000123580f0fe66cd3010c94d8433f068dad6aa3c0566e9cf77ae1 efae7c659f05a2\n\
    text l 'STC1 0004000196bfe583011962f86708ecfe5e408060429be8861b3dcfe9ef9cd6cb \
        e729a6920002404a8f17285d1469e6d47f1fd0d394a1c8992c44fb35d3b4cec2 \
        ad5264d6298500037c7d0dc090916d38949507bac216bb6664cd2340d0ab537f \
        4bfe1dab7218614d00049acbb162842ec39d61d2836af826c92a67370e1c0a1f 6f5904bb86d5c068e59a\n\
    text m 'STR1 000100a6fc0267adb8ca6c89f00fef85909fc1a727d6379aef7f0aac335a087b 5efa06\n\
    text n 'STC1 0002000196bfe583011962f86708ecfe5e408060429be8861b3dcfe9ef9cd6cb \
        e729a6920002404a8f17285d1469e6d47f1fd0d394a1c8992c44fb35d3b4cec2 ad5264d62985\n\
    text o 'STR1 000100579852ce5f1ba61fe9355cc4bf14eaff7420b8e5b6a72ad34251b0cc4e de2fcc\n\
    text h d0f928f458618f5c29773bd0a30dcf4aa0577e811023008f5aadc67fdd766a6f\n\
    text i $B\n\
    plan mkdir 0 3\n\
    plan make 0 4 'hello\n\
    plan link 0 3 'a 4\n\
    declare 0 u\n\
    update 0 u ok v\n\
    hear 0 v = 'accepted\n\
    equal Z =\n\
    equal Y = 04 +j j +k k +l l +m m\n\
    issue 0 s\n\
    commit 0 s ok\n\
    over 0\n\
    query 0 x = 'view\n\
    between y x 54 86\n\
    equal y = h\n\
    plan remove 0 3\n\
    plan unlink 0 3 'a\n\
    plan remove 0 3\n\
    plan remove 0 4\n\
    declare 0 u\n\
    update 0 u ok v\n\
    hear 0 v = 'accepted\n\
    equal Z = #m #l #k #j\n\
    equal Y = 02 +n n +o o\n\
    issue 0 s\n\
    commit 0 s ok\n\
    over 0\n\
    query 0 x = 'view 01\n\
    between y x 54 86\n\
    equal y = i\n\
    look 0 0 3 = 'nothing\n\
    equal Z =\n\
    look 0 0 4 = 'nothing\n\
    equal Z =\n";

#[test]
fn directory_is_made_and_removed(rt: HostRuntime) {
    play_both(&(rt, Here), &[MADE_AND_REMOVED]);
}

/// The reply to the second operation, where the directory wasn't looked at before, asks for a block. A reply that
/// breaks a rule leaves it: each block is asked for still, and handed in after no block, that without its last byte,
/// that with its last bit changed, and another one.
static BROKEN_BETWEEN: &[u8] = b"\
    ask 0 v = 'need #r\n\
    text n 'SRL1 0000\n\
    text w 'hello\n\
    hear 0 n = 'OwnLast\n\
    equal Z =\n\
    between x r 0 38\n\
    flip y r 38\n\
    give 0 - = 'Block\n\
    give 0 x = 'Block\n\
    give 0 y = 'Block\n\
    give 0 w = 'Block\n\
    give 0 r = 'need #c\n\
    between x c 0 107\n\
    flip y c 107\n\
    give 0 - = 'Block\n\
    give 0 x = 'Block\n\
    give 0 y = 'Block\n\
    give 0 w = 'Block\n\
    give 0 c = 'need #g\n\
    between x g 0 42\n\
    flip y g 42\n\
    give 0 - = 'Block\n\
    give 0 x = 'Block\n\
    give 0 y = 'Block\n\
    give 0 w = 'Block\n\
    give 0 g = 'need #f\n\
    between x f 0 10\n\
    flip y f 10\n\
    give 0 - = 'Block\n\
    give 0 x = 'Block\n\
    give 0 y = 'Block\n\
    give 0 w = 'Block\n\
    give 0 f = 'accepted\n\
    equal Y = 02 +d d +t t\n\
    issue 0 s\n\
    commit 0 s ok\n\
    over 0\n\
    query 0 x = 'view 01 03 04\n\
    between y x 54 86\n\
    equal y = i\n\
    look 0 0 3 = 'file 'y\n\
    equal Z =\n";

#[test]
fn broken_reply_before_the_blocks(rt: HostRuntime) {
    let rt = (rt, Here);
    check(&rt, Rule::Block.number() == 6, "the rule's number");
    let mut stage = new_stage(&rt);
    let mut actors = new_actors(&rt, &stage);
    stage.is_hostile = true;
    let scripts = [TEXTS, FIRST, SECOND, BROKEN_BETWEEN];
    play_each(&rt, &mut actors, &mut stage, &scripts);
    let_go((actors, stage));
}

/// An operation without changes.
static UNCHANGED: &[u8] = b"\
    declare 0 u\n\
    update 0 u ok v\n\
    hear 0 v = 'accepted\n\
    issue 0 s\n\
    commit 0 s ok\n\
    over 0\n";

/// The file is seen.
static SEES_FILE: &[u8] = b"\
    look 0 0 3 = 'file 'hello\n";

/// Another look begins in the place of one that asks for a block.
#[test]
fn another_look_in_the_place_of_one(rt: HostRuntime) {
    let rt = &(rt, Here);
    let mut stage = new_stage(rt);
    let mut actors = new_actors(rt, &stage);
    stage.is_hostile = true;
    play_each(rt, &mut actors, &mut stage, &[TEXTS, FIRST, UNCHANGED]);
    let client = client_in(rt, &mut actors.users, 0);
    let look = look_at(rt, client, 0, 2);
    check(rt, matches!(look, Look::Need(_)), "a block is asked for");
    let_go(look);
    check(rt, client.looking(), "the look is under way");
    play_on(rt, &mut actors, &mut stage, SEES_FILE);
    let is_over = !client_in(rt, &mut actors.users, 0).looking();
    check(rt, is_over, "both looks are over");
    let_go((actors, stage));
}
