//! A table of principals of two blocks, through a client: each of its blocks absent, cut, flipped and another one, in
//! the place of what was asked for, and named by the i-node itself; and an i-table with a second chunk, which nobody
//! hands out.

use crate::here::Here;
use crate::script::play;

/// The table's text, T, of 64 users and 19 rows: user 0 is a member of the groups 64 to 82. Its blocks are texts A and
/// B. User 1 has declared: text u.
static TABLE: &[u8] = b"\
    text T 'SPT1 40 0000000000 !0 0100000001 !1 0200000001 $F 0300000001 $F 0400000001 $F 0500000001 $F 0600000001 \
        $F 0700000001 $F 0800000001 $F 0900000001 $F 0a00000001 $F 0b00000001 $F 0c00000001 $F 0d00000001 $F \
        0e00000001 $F 0f00000001 $F 1000000001 $F 1100000001 $F 1200000001 $F 1300000001 $F 1400000001 $F 1500000001 \
        $F 1600000001 $F 1700000001 $F 1800000001 $F 1900000001 $F 1a00000001 $F 1b00000001 $F 1c00000001 $F \
        1d00000001 $F 1e00000001 $F 1f00000001 $F 2000000001 $F 2100000001 $F 2200000001 $F 2300000001 $F 2400000001 \
        $F 2500000001 $F 2600000001 $F 2700000001 $F 2800000001 $F 2900000001 $F 2a00000001 $F 2b00000001 $F \
        2c00000001 $F 2d00000001 $F 2e00000001 $F 2f00000001 $F 3000000001 $F 3100000001 $F 3200000001 $F 3300000001 \
        $F 3400000001 $F 3500000001 $F 3600000001 $F 3700000001 $F 3800000001 $F 3900000001 $F 3a00000001 $F \
        3b00000001 $F 3c00000001 $F 3d00000001 $F 3e00000001 $F 3f00000001 $F\n\
    text T T 0013 40000000000100000000 41000000000100000000 42000000000100000000 43000000000100000000 \
        44000000000100000000 45000000000100000000 46000000000100000000 47000000000100000000 48000000000100000000 \
        49000000000100000000 4a000000000100000000 4b000000000100000000 4c000000000100000000 4d000000000100000000 \
        4e000000000100000000 4f000000000100000000 50000000000100000000 51000000000100000000 52000000000100000000\n\
    measure T = :4101\n\
    between A T 0 4096\n\
    between B T 4096 4101\n\
    text e $E\n\
    declare 1 u\n\
    text P 'SVP1 00 :1 $7 01 00 :1 00\n\
    text q 'SVP1 01 :1 %u 02 00 :1 01 :1 00\n";

/// The blocks that the i-node names are those of the table.
static WHOLE: &[u8] = b"\
    text x A\n\
    text y B\n";

/// The reply over the i-table whose i-node names texts x and y as blocks.
static OVER: &[u8] = b"\
    text I 'SIN1 01 :4101 0002 #x #y\n\
    text C 'STC1 00 02 0001 #I 0002 #e\n\
    text R 'STR1 00 01 00 #C\n\
    text S 'SVS1 +P P #R 00\n\
    key S S 1 0\n\
    text r 'SRL1 01 *S S 01 *u u +q q\n";

/// Each block is asked for, and is handed in after no block, the block without its last byte, that with the lowest bit
/// of its first byte changed, and another block, each in its place.
static FAULTS: &[u8] = b"\
    ask 1 r = 'need #R\n\
    between x R 0 38\n\
    flip y R 0\n\
    give 1 - = 'Block\n\
    give 1 x = 'Block\n\
    give 1 y = 'Block\n\
    give 1 C = 'Block\n\
    give 1 R = 'need #C\n\
    between x C 0 73\n\
    flip y C 0\n\
    give 1 - = 'Block\n\
    give 1 x = 'Block\n\
    give 1 y = 'Block\n\
    give 1 R = 'Block\n\
    give 1 C = 'need #I\n\
    between x I 0 74\n\
    flip y I 0\n\
    give 1 - = 'Block\n\
    give 1 x = 'Block\n\
    give 1 y = 'Block\n\
    give 1 C = 'Block\n\
    give 1 I = 'need #A\n\
    between x A 0 4095\n\
    flip y A 0\n\
    give 1 - = 'Block\n\
    give 1 x = 'Block\n\
    give 1 y = 'Block\n\
    give 1 B = 'Block\n\
    give 1 A = 'need #B\n\
    between x B 0 4\n\
    flip y B 0\n\
    give 1 - = 'Block\n\
    give 1 x = 'Block\n\
    give 1 y = 'Block\n\
    give 1 A = 'Block\n\
    give 1 B = 'accepted\n";

#[test]
fn faults_in_the_place_of_blocks(rt: HostRuntime) {
    play(&(rt, Here), &[TABLE, WHOLE, OVER, FAULTS]);
}

/// The reply is accepted, with the stored blocks.
static ACCEPTED: &[u8] = b"\
    store R C I x y\n\
    hear 1 r = 'accepted\n";

/// The reply is refused, with the stored blocks.
static REFUSED: &[u8] = b"\
    store R C I x y\n\
    hear 1 r = 'Content\n";

/// The blocks in the place of each other.
static TURNED: &[u8] = b"\
    text x B\n\
    text y A\n";

/// The first one without its last byte.
static FIRST_CUT: &[u8] = b"\
    between c A 0 4095\n\
    text x c\n\
    text y B\n";

/// The first one with a bit changed.
static FIRST_FLIPPED: &[u8] = b"\
    flip a A 0\n\
    text x a\n\
    text y B\n";

/// The last one without its last byte.
static LAST_CUT: &[u8] = b"\
    between d B 0 4\n\
    text x A\n\
    text y d\n";

/// The last one with a bit changed.
static LAST_FLIPPED: &[u8] = b"\
    flip b B 0\n\
    text x A\n\
    text y b\n";

/// The first one twice.
static TWICE: &[u8] = b"\
    text x A\n\
    text y A\n";

/// The i-node names these blocks.
#[test]
fn faults_that_the_inode_names(rt: HostRuntime) {
    let scripts = [
        TABLE,
        WHOLE,
        OVER,
        ACCEPTED,
        TURNED,
        OVER,
        REFUSED,
        FIRST_CUT,
        OVER,
        REFUSED,
        FIRST_FLIPPED,
        OVER,
        REFUSED,
        LAST_CUT,
        OVER,
        REFUSED,
        LAST_FLIPPED,
        OVER,
        REFUSED,
        TWICE,
        OVER,
        REFUSED,
    ];
    play(&(rt, Here), &scripts);
}

/// The root of chunk 0 and of a chunk 1 with a file at i-number 64 is asked for by each reply. A vector that counts one
/// operation of user 0's too many breaks its rule, and once it follows the same root is enough to accept the reply.
static SECOND_CHUNK: &[u8] = b"\
    text n $H\n\
    text D 'STC1 01 01 0040 #n\n\
    text L 'STR1 00 02 00 #C 01 #D\n\
    text S 'SVS1 +P P #L 00\n\
    key S S 1 0\n\
    text q 'SVP1 01 :1 %u 02 00 :2 01 :1 00\n\
    text r 'SRL1 01 *S S 01 *u u +q q\n\
    ask 1 r = 'need #L\n\
    give 1 L = 'Vector\n\
    text q 'SVP1 01 :1 %u 02 00 :1 01 :1 00\n\
    text r 'SRL1 01 *S S 01 *u u +q q\n\
    ask 1 r = 'need #L\n\
    give 1 L = 'accepted\n";

/// User 1's client, which holds the chunk that the table of principals is in, judges the lists without the second one.
#[test]
fn lists_are_judged_without_the_second_chunk(rt: HostRuntime) {
    play(&(rt, Here), &[TABLE, WHOLE, OVER, ACCEPTED, SECOND_CHUNK]);
}
