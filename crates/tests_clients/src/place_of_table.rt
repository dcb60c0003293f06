//! User 0's i-table, handed to user 1's client, where no table of principals stands at i-number 1: the block at which
//! that is seen breaks the rule on contents, and is the last one that is asked for.

use crate::here::Here;
use crate::script::play;

/// The i-node, the chunk and the root of each case are texts I, C and R, over which user 0's structure is.
static PLACES: &[u8] = b"\
    declare 1 u\n\
    text h $h\n\
    text P 'SVP1 00 :1 $7 01 00 :1 00\n\
    text q 'SVP1 01 :1 %u 02 00 :1 01 :1 00\n\
    # a root without chunks\n\
    text I $H\n\
    text C 'STC1 00 01 0001 #I\n\
    text R 'STR1 00 00\n\
    store R C I $h\n\
    text S 'SVS1 +P P #R 00\n\
    key S S 1 0\n\
    text r 'SRL1 01 *S S 01 *u u +q q\n\
    hear 1 r = 'Content\n\
    equal Z = #R\n\
    # one without chunk 0\n\
    text I $H\n\
    text C 'STC1 00 01 0001 #I\n\
    text R 'STR1 00 01 01 #C\n\
    store R C I $h\n\
    text S 'SVS1 +P P #R 00\n\
    key S S 1 0\n\
    text r 'SRL1 01 *S S 01 *u u +q q\n\
    hear 1 r = 'Content\n\
    equal Z = #R\n\
    # a chunk 0 without i-number 1\n\
    text I $H\n\
    text C 'STC1 00 01 0002 #I\n\
    text R 'STR1 00 01 00 #C\n\
    store R C I $h\n\
    text S 'SVS1 +P P #R 00\n\
    key S S 1 0\n\
    text r 'SRL1 01 *S S 01 *u u +q q\n\
    hear 1 r = 'Content\n\
    equal Z = #R #C\n\
    # a directory there\n\
    text I $E\n\
    text C 'STC1 00 01 0001 #I\n\
    text R 'STR1 00 01 00 #C\n\
    store R C I $h\n\
    text S 'SVS1 +P P #R 00\n\
    key S S 1 0\n\
    text r 'SRL1 01 *S S 01 *u u +q q\n\
    hear 1 r = 'Content\n\
    equal Z = #R #C #I\n\
    # a file without bytes\n\
    text I $N\n\
    text C 'STC1 00 01 0001 #I\n\
    text R 'STR1 00 01 00 #C\n\
    store R C I $h\n\
    text S 'SVS1 +P P #R 00\n\
    key S S 1 0\n\
    text r 'SRL1 01 *S S 01 *u u +q q\n\
    hear 1 r = 'Content\n\
    equal Z = #R #C #I\n\
    # no i-node\n\
    text I $h\n\
    text C 'STC1 00 01 0001 #I\n\
    text R 'STR1 00 01 00 #C\n\
    store R C I $h\n\
    text S 'SVS1 +P P #R 00\n\
    key S S 1 0\n\
    text r 'SRL1 01 *S S 01 *u u +q q\n\
    hear 1 r = 'Content\n\
    equal Z = #R #C #I\n\
    # a file that is no table\n\
    text I $H\n\
    text C 'STC1 00 01 0001 #I\n\
    text R 'STR1 00 01 00 #C\n\
    store R C I $h\n\
    text S 'SVS1 +P P #R 00\n\
    key S S 1 0\n\
    text r 'SRL1 01 *S S 01 *u u +q q\n\
    hear 1 r = 'Content\n\
    equal Z = #R #C #I #h\n";

#[test]
fn no_table_in_its_place(rt: HostRuntime) {
    play(&(rt, Here), &[PLACES]);
}
