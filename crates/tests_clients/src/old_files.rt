//! Files as they stood before a user could have a second key: a table of principals `SPT1`, and ledgers and journals
//! without a certificate that was signed again. Clients are opened over them, and go on; then one gets a second key.
//! Another program, which makes keys and signatures by RFC 8554 and the files by the formats, told their digests.

use crate::here::Here;
use crate::script::play;

/// User 0 listed user 1, under the table of text t: its certificate and its structure are texts a and z.
static LISTED: &[u8] = b"\
    text a 'SUC1 00 :1 $0 01 0601 !1\n\
    key a a 0 0\n\
    text t 'SPT1 02 00 :0 !0 01 :1 !1 0000\n\
    text i 'SIN1 01 :129 0001 #t\n\
    text e $E\n\
    text c 'STC1 00 02 0001 #i 0002 #e\n\
    text h 'STR1 00 01 00 #c\n\
    text p 'SVP1 00 :1 %a 01 00 :1 00\n\
    text z 'SVS1 +p p #h 00\n\
    key z z 1 0\n\
    store t i c h\n\
    update 0 a ok r\n\
    commit 0 z ok\n";

/// User 1 made a file, by texts b and y, and declared that it has no bytes, by text v.
static MADE: &[u8] = b"\
    text f $h\n\
    text g $H\n\
    text n $N\n\
    text b 'SUC1 01 :1 $0 01 0101 0005 #g\n\
    key b b 0 1\n\
    text d 'STC1 00 01 0005 #g\n\
    text k 'STR1 01 01 00 #d\n\
    text q 'SVP1 01 :1 %b 02 00 :1 01 :1 00\n\
    text y 'SVS1 +q q #k 00\n\
    key y y 1 1\n\
    text v 'SUC1 01 :2 %y 01 0201 0005 #n\n\
    key v v 2 1\n\
    store f g n d k\n\
    update 0 b ok r\n\
    commit 0 y ok\n";

/// The table, and the ledgers and journals of users 0 and 1: texts K, I, L and J.
static FILES: &[u8] = b"\
    text S $S\n\
    between s S 0 1022\n\
    text K !0 0101 s\n\
    text I 01 01 :2608 a 01 02 :2595 z 00\n\
    between s S 0 1021\n\
    text L !1 010101 s\n\
    text J 01 01 :2586 b 01 02 :2600 y 01 01 :2586 v 00\n\
    text x #t\n\
    equal x = 2f841084844d94b5ec1e4bae62e53100c1e9152c72b735826a1d2298c405e35b\n\
    text x #K\n\
    equal x = 52e2129bd1d728decf5b54cc941f62abcd63729a32af5058a44f73a4bcfc7b14\n\
    text x #I\n\
    equal x = 3bcc44a9703a78459fb89988b597a9684813ea53988372b45189a716e976dda7\n\
    text x #L\n\
    equal x = 9e22e9817bd8ecd34c174697afe1dcb69eb46295056bc04a2f71c793fbebbe10\n\
    text x #J\n\
    equal x = 665202101d19ca995760d29b7916cec8fc844d87c35018506457e3d9255d05d7\n";

/// User 1's client sends what it had declared, and makes one operation more.
static GOES_ON: &[u8] = b"\
    restart 1 holds L J\n\
    now 1 x = 'declared :2\n\
    equal x = v\n\
    update 0 v ok r\n\
    text q 'SVP1 01 :2 %v 02 00 :1 01 :2 00\n\
    equal r = 'SRL1 02 *z z *y y 01 *v v +q q\n\
    hear 1 r = 'accepted\n\
    issue 1 s\n\
    text d 'STC1 00 01 0005 #n\n\
    text k 'STR1 01 01 00 #d\n\
    text w 'SVS1 +q q #k 00\n\
    key w w 3 1\n\
    equal s = w\n\
    look 1 1 5 = 'file\n\
    commit 0 s ok\n\
    over 1\n\
    declare 1 u\n\
    text c 'SUC1 01 :3 %s 00\n\
    key x c 4 1\n\
    equal u = x\n\
    update 0 u ok r\n\
    hear 1 r = 'accepted\n\
    issue 1 s\n\
    commit 0 s ok\n\
    over 1\n";

/// User 0's client goes on, too, and gives user 1 a second key, that which others have as user 3's. The table is
/// written as `SPT2` from then on.
static RENEWS: &[u8] = b"\
    restart 0 holds K I\n\
    now 0 x = 'signed :1\n\
    equal x = z\n\
    commit 0 z ok\n\
    over 0\n\
    plan set 3 1\n\
    declare 0 a\n\
    text c 'SUC1 00 :2 %z 01 0901 !3\n\
    key x c 2 0\n\
    equal a = x\n\
    update 0 a ok r\n\
    hear 0 r = 'accepted\n\
    issue 0 z\n\
    text t 'SPT2 02 00 01 :0 !0 01 02 :1 !1 :2 !3 0000\n\
    text i 'SIN1 01 :191 0001 #t\n\
    text c 'STC1 00 02 0001 #i 0002 #e\n\
    text h 'STR1 00 01 00 #c\n\
    text p 'SVP1 00 :2 %a 02 00 :2 01 :3 00\n\
    text w 'SVS1 +p p #h 00\n\
    key w w 3 0\n\
    equal z = w\n\
    commit 0 z ok\n\
    over 0\n";

/// User 1's client signs by it from then on.
static BY_SECOND: &[u8] = b"\
    restart 1 gains 3\n\
    now 1 x = 'signed :3\n\
    equal x = s\n\
    over 1\n\
    declare 1 u\n\
    text c 'SUC1 01 :4 %s 00\n\
    key x c 0 3\n\
    equal u = x\n\
    update 0 u ok r\n\
    hear 1 r = 'accepted\n\
    issue 1 s\n\
    text q 'SVP1 01 :4 %u 02 00 :2 01 :4 00\n\
    text y 'SVS1 +q q #k 00\n\
    key x y 1 3\n\
    equal s = x\n";

#[test]
fn files_of_before_are_read_on(rt: HostRuntime) {
    let scripts = [LISTED, MADE, FILES, GOES_ON, RENEWS, BY_SECOND];
    play(&(rt, Here), &scripts);
}
