//! Which blocks a client keeps once a look is over, and how many.

use crate::acts::{Stage, no_lists, see};
use crate::here::Here;
use crate::needed_blocks::{FILES, GOES_ON, SEES, bytes_at, store_table};
use crate::script::{Actors, client_in, new_actors, new_stage, play_each, play_on};
use crate::several_users::{BEGINNING, CERTIFICATES};
use crate::two_users::LISTED;
use crate::words::put_text;
use client_tree::Held;
use client_verify::Look;
use layout::let_go;
use std::alloc::Global;
use tests_aids::texts::joined;
use tests_aids::{Host, check, check_text};
use tests_client_aids::clients::{MemoryClient, give, look_at};
use tree_parts::Blocks;

/// How many blocks the client holds of a reply or a look under way, and how many there are in its cache.
fn counts(client: &MemoryClient) -> (usize, usize) {
    (client.blocks().held_len(), client.blocks().cached_len())
}

/// Its cache has room for one block from now on.
fn with_small_cache(client: &mut MemoryClient) {
    client.cache(1);
}

// ---- a small cache

/// User 2 has seen a file of user 1's.
fn second_has_seen(rt: &impl Host, actors: &mut Actors, stage: &mut Stage) {
    play_each(rt, actors, stage, &[LISTED, FILES, GOES_ON]);
}

/// The chunk alone is asked for, since the root, the i-node and the block are known.
static KNOWN: &[u8] = b"\
    look 2 1 64 = 'file 'a\n\
    measure Z = :96\n";

/// Of a cache of one block the newest is known in the next look; the others are asked for again.
#[test]
fn cache_of_one_block(rt: HostRuntime) {
    let rt = &(rt, Here);
    let mut stage = new_stage(rt);
    let mut actors = new_actors(rt, &stage);
    second_has_seen(rt, &mut actors, &mut stage);
    with_small_cache(client_in(rt, &mut actors.users, 2));
    play_on(rt, &mut actors, &mut stage, SEES);
    let (_held, cached) = counts(client_in(rt, &mut actors.users, 2));
    check(rt, cached == 1, "one block");
    play_on(rt, &mut actors, &mut stage, KNOWN);
    let_go((actors, stage));
}

/// A cache that is made smaller in the middle of a look keeps all until the look is over: the chunk alone is asked for,
/// since the root, the i-node and the block are known.
fn gets_smaller(rt: &impl Host, client: &mut MemoryClient, store: &Held<Global>) {
    let begun = look_at(rt, client, 1, 128);
    with_small_cache(client);
    let (_held, before) = counts(client);
    let mut lists = no_lists(rt, false);
    let told = see(rt, client, store, &mut lists, begun);
    check(rt, lists.asked.len() == 32, "the chunk alone");
    check(rt, told.as_slice() == b"filea".as_slice(), "a file");
    let (_held, after) = counts(client);
    check(rt, before > 1, "all are there");
    check(rt, after == 1, "one block");
}

#[test]
fn cache_gets_smaller_after_a_look(rt: HostRuntime) {
    let rt = &(rt, Here);
    let mut stage = new_stage(rt);
    let mut actors = new_actors(rt, &stage);
    second_has_seen(rt, &mut actors, &mut stage);
    play_on(rt, &mut actors, &mut stage, SEES);
    gets_smaller(rt, client_in(rt, &mut actors.users, 2), &stage.store);
    let_go((actors, stage));
}

// ---- many looks

/// How many files each of users 2 and 3 has, each of its own bytes.
const FILES_OF_EACH: u16 = 2_500;

/// How many blocks a look asks for at most: a root, a chunk, an i-node, and the one block of a file.
const ONE_LOOK: usize = 4;

/// Stores the files of a user. The text of a letter is the handle of its i-table.
fn store_files(rt: &impl Host, stage: &mut Stage, owner: u8, letter: u8) {
    let handle = store_table(rt, &mut stage.store, owner, FILES_OF_EACH, &None);
    let handle = joined(rt, &[handle.as_bytes()]);
    put_text(rt, &mut stage.by_hand.texts, letter, handle);
}

/// Users 2 and 3 have i-tables of handles M and N in user 1's view.
static SHOWN: &[u8] = b"\
    text p 'SVP1 02 :1 #c 02 00 :2 02 :1 00\n\
    text s 'SVS1 +p p M 00\n\
    key v s 3 2\n\
    text p 'SVP1 03 :1 #f 03 00 :2 02 :1 03 :1 00\n\
    text s 'SVS1 +p p N 00\n\
    key w s 3 3\n\
    text q 'SVP1 01 :1 %u 04 00 :2 01 :1 02 :1 03 :1 00\n\
    text r 'SRL1 03 *S S *v v *w w 01 *u u +q q\n\
    hear 1 r = 'accepted\n\
    issue 1 t\n";

/// The client sees a file; while the look goes on it holds the blocks of this look alone, and then it lets them go.
fn sees_file(
    rt: &impl Host,
    client: &mut MemoryClient,
    store: &Held<Global>,
    owner: u8,
    number: u16,
) {
    let mut look = look_at(rt, client, owner, number);
    for _ in 0..=ONE_LOOK {
        let Look::Need(digest) = look else {
            is_file(rt, &look, &bytes_at(owner, number));
            let_go(look);
            let (held, cached) = counts(client);
            check(rt, held == 0, "nothing is held");
            return check(rt, cached <= 1_024, "the cache");
        };
        let (held, _cached) = counts(client);
        check(rt, held < ONE_LOOK, "one look");
        let next = give(rt, client, store.get(digest));
        let_go(look);
        look = next;
    }
    panic!(rt; "too many blocks")
}

/// A file of these bytes is seen.
fn is_file(rt: &impl Host, look: &Look<Global>, bytes: &[u8]) {
    match look {
        Look::File(seen) => check_text(rt, seen, bytes),
        _ => panic!(rt; "no file"),
    }
}

/// In 10,000 looks over 5,000 files a client holds at most its cache and the blocks of one look.
fn sees_ten_thousand(rt: &impl Host, client: &mut MemoryClient, store: &Held<Global>) {
    for look in 0..10_000u16 {
        let owner = if look / FILES_OF_EACH % 2 == 0 { 2 } else { 3 };
        sees_file(
            rt,
            client,
            store,
            owner,
            (look % FILES_OF_EACH).wrapping_add(1),
        );
    }
}

#[test]
fn ten_thousand_looks(rt: HostRuntime) {
    let rt = &(rt, Here);
    let mut stage = new_stage(rt);
    let mut actors = new_actors(rt, &stage);
    play_each(rt, &mut actors, &mut stage, &[BEGINNING, CERTIFICATES]);
    store_files(rt, &mut stage, 2, b'M');
    store_files(rt, &mut stage, 3, b'N');
    play_on(rt, &mut actors, &mut stage, SHOWN);
    sees_ten_thousand(rt, client_in(rt, &mut actors.users, 1), &stage.store);
    let_go((actors, stage));
}
