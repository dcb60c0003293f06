//! How many blocks are asked for: for a reply, for a look, and for questions about i-numbers, of which the blocks of
//! files are nowhere. Each digest of what was asked for has 32 bytes.

use crate::acts::Stage;
use crate::here::Here;
use crate::script::{new_actors, new_stage, play, play_on};
use crate::several_users::{BEGINNING, CERTIFICATES};
use crate::two_users::LISTED;
use crate::words::{push, put_text};
use client_tree::Held;
use layout::{Digest, let_go};
use std::alloc::Global;
use tests_aids::Host;
use tests_aids::texts::joined;
use tests_client_aids::changes::{lay, nothing};
use tree_parts::Blocks;

/// User 1 makes four files, each in a chunk of its own, in one operation that is committed.
pub(crate) static FILES: &[u8] = b"\
    plan make 1 1 'a\n\
    plan make 1 64 'a\n\
    plan make 1 128 'a\n\
    plan make 1 192 'a\n\
    declare 1 a\n\
    update 0 a ok r\n\
    hear 1 r = 'accepted\n\
    issue 1 o\n\
    commit 0 o ok\n\
    over 1\n";

/// User 2, who just opened its client, makes an operation without changes, and asks for four blocks: the root, the
/// chunk, the i-node and the block of the table of principals.
pub(crate) static GOES_ON: &[u8] = b"\
    declare 2 b\n\
    update 0 b ok r\n\
    hear 2 r = 'accepted\n\
    measure Z = :128\n\
    issue 2 s\n";

/// User 2 sees the file at 1:64: the root, the chunk, the i-node and the block.
pub(crate) static SEES: &[u8] = b"\
    look 2 1 64 = 'file 'a\n\
    measure Z = :128\n";

/// A second look asks for nothing more.
static SEES_AGAIN: &[u8] = b"\
    look 2 1 64 = 'file 'a\n\
    measure Z = :0\n";

#[test]
fn eight_blocks(rt: HostRuntime) {
    play(&(rt, Here), &[LISTED, FILES, GOES_ON, SEES, SEES_AGAIN]);
}

/// User 1 replaces the files in an operation that stays pending.
static REPLACED: &[u8] = b"\
    plan put 1 1 'b\n\
    plan put 1 64 'b\n\
    plan put 1 128 'b\n\
    plan put 1 192 'b\n\
    declare 1 a\n\
    update 0 a ok r\n";

/// Of it the change at an i-number alone asks for something: the look for the root, the chunk, the i-node that the
/// change meets, and the new one with its block; the others each for a chunk more.
static PENDING: &[u8] = b"\
    look 2 1 64 = 'file 'b\n\
    measure Z = :160\n\
    what 2 1 128 = 'file :1\n\
    measure Z = :32\n\
    vacant 2 1 1 4095 = 'free 0002\n\
    measure Z = :32\n\
    vacant 2 1 192 4095 = 'free 00c1\n\
    measure Z = :32\n";

#[test]
fn pending_elsewhere(rt: HostRuntime) {
    play(&(rt, Here), &[LISTED, FILES, REPLACED, GOES_ON, PENDING]);
}

// ---- questions

/// The bytes of a file.
pub(crate) fn bytes_at(owner: u8, number: u16) -> [u8; 3] {
    let [high, low] = number.to_be_bytes();
    [owner, high, low]
}

/// Stores the file at an i-number: the digest of its i-node.
fn store_file(rt: &impl Host, store: &mut Held<Global>, owner: u8, number: u16) -> Digest {
    let mut planned = nothing(rt);
    let inode = lay(rt, &mut planned, &bytes_at(owner, number));
    store.keep_all(planned.laid).expect(rt, "memory");
    inode
}

/// Stores a chunk of such a table as `store_table` does: its digest.
fn store_chunk(
    rt: &impl Host,
    store: &mut Held<Global>,
    (owner, chunk): (u8, u8),
    last: u16,
    inode: &Option<Digest>,
) -> Digest {
    let first = u16::from(chunk) * 64;
    let mut pairs = Vec::new(rt.alloc());
    let mut count = 0u8;
    for number in first.max(1)..first + 64 {
        if number <= last {
            let inode = match inode {
                Some(inode) => *inode,
                None => store_file(rt, store, owner, number),
            };
            push(rt, &mut pairs, &number.to_be_bytes());
            push(rt, &mut pairs, inode.as_bytes());
            count = count.wrapping_add(1);
        }
    }
    keep(rt, store, joined(rt, &[b"STC1", &[chunk, count], &pairs]))
}

/// Stores a text: its digest.
fn keep(rt: &impl Host, store: &mut Held<Global>, text: Vec<u8>) -> Digest {
    store.keep(text).expect(rt, "memory")
}

/// Stores a user's i-table, which has the i-numbers from 1 to this one: the handle. At each of them stands this i-node,
/// or if there is none, a file of its own bytes, which is stored.
pub(crate) fn store_table(
    rt: &impl Host,
    store: &mut Held<Global>,
    owner: u8,
    last: u16,
    inode: &Option<Digest>,
) -> Digest {
    let chunks = u8::try_from(last / 64 + 1).expect(rt, "a count");
    let mut root = joined(rt, &[b"STR1", &[owner, chunks]]);
    for chunk in 0..chunks {
        let digest = store_chunk(rt, store, (owner, chunk), last, inode);
        push(rt, &mut root, &[chunk]);
        push(rt, &mut root, digest.as_bytes());
    }
    keep(rt, store, root)
}

/// Stores user 2's i-table of the i-numbers 1 to 1,000 in 16 chunks, and one i-node: that of a file of the largest
/// size, whose 1,024 blocks are nowhere. Text M is the handle.
fn store_thousand(rt: &impl Host, stage: &mut Stage) {
    let mut inode = joined(rt, &[b"SIN1\x01\0\x40\0\0\x04\0"]);
    inode.resize(11 + 1024 * 32, 7).expect(rt, "memory");
    let inode = Some(keep(rt, &mut stage.store, inode));
    let handle = store_table(rt, &mut stage.store, 2, 1000, &inode);
    put_text(
        rt,
        &mut stage.by_hand.texts,
        b'M',
        joined(rt, &[handle.as_bytes()]),
    );
}

/// User 1 sees user 2's structure with handle M.
static OF_SECOND: &[u8] = b"\
    text p 'SVP1 02 :1 #c 02 00 :2 02 :1 00\n\
    text s 'SVS1 +p p M 00\n\
    key v s 3 2\n\
    text q 'SVP1 01 :1 %u 03 00 :2 01 :1 02 :1 00\n\
    text r 'SRL1 02 *S S *v v 01 *u u +q q\n\
    hear 1 r = 'accepted\n\
    issue 1 t\n";

/// The root, the chunk and the i-node, and no block of the file. The empty directory is of the beginning.
static KINDS: &[u8] = b"\
    what 1 2 700 = 'file :4194304\n\
    measure Z = :96\n\
    what 1 2 1000 = 'file :4194304\n\
    measure Z = :32\n\
    what 1 2 1001 = 'nothing :0\n\
    measure Z = :0\n\
    what 1 0 2 = 'directory :6\n\
    measure Z = :0\n\
    what 1 0 1 = 'file :352\n\
    measure Z = :0\n";

/// The root, and the chunks up to the one that has the answer, and no i-node.
static FREE: &[u8] = b"\
    vacant 1 2 640 650 = 'full\n\
    measure Z = :64\n\
    vacant 1 2 1 4095 = 'free 03e9\n\
    measure Z = :480\n\
    vacant 1 2 1002 4095 = 'free 03ea\n\
    measure Z = :0\n\
    vacant 1 0 1 1 = 'full\n\
    measure Z = :0\n\
    vacant 1 0 1 63 = 'free 0003\n\
    measure Z = :0\n";

/// These questions are answered.
fn asks(rt: &impl Host, questions: &[u8]) {
    let mut stage = new_stage(rt);
    let mut actors = new_actors(rt, &stage);
    play_on(rt, &mut actors, &mut stage, BEGINNING);
    play_on(rt, &mut actors, &mut stage, CERTIFICATES);
    store_thousand(rt, &mut stage);
    play_on(rt, &mut actors, &mut stage, OF_SECOND);
    play_on(rt, &mut actors, &mut stage, questions);
    let_go((actors, stage));
}

#[test]
fn kinds_and_sizes(rt: HostRuntime) {
    asks(&(rt, Here), KINDS);
}

#[test]
fn least_free_numbers(rt: HostRuntime) {
    asks(&(rt, Here), FREE);
}
