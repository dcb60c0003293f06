//! Replies that break a rule, each of which leaves the client as it was. None of them asks for a block.

use crate::here::Here;
use crate::restarts::{FIRST, KNOWS_ITS_LAST, SIGNS};
use crate::script::{client_in, new_actors, new_stage, play_each, play_on};
use crate::words::text_at;
use client_verify::Rule;
use layout::{let_go, put_in};
use tests_aids::Host;
use tests_client_aids::clients::{MemoryClient, breaks, client_of};

/// The honest reply is accepted, still.
static HONEST: &[u8] = b"\
    measure r = :2608\n\
    hear 0 r = 'accepted\n\
    equal Z =\n\
    equal Y = 00\n";

/// The reply with a byte more is of no form.
static LONGER: &[u8] = b"\
    text y r 00\n\
    measure y = :2609\n\
    hear 0 y = 'Form\n\
    equal Z =\n";

/// Nothing is pending, or another certificate than the own one, or a structure is shown that the client never signed.
static OWN_TEXTS: &[u8] = b"\
    text y 'SRL1 0000\n\
    hear 0 y = 'OwnPending\n\
    equal Z =\n\
    flip v u 2549\n\
    text y 'SRL1 00 01 *v v +p p\n\
    hear 0 y = 'OwnPending\n\
    equal Z =\n\
    text s 'SVS1 +p p $5 00 $S\n\
    text y 'SRL1 01 *s s 01 *u u +p p\n\
    hear 0 y = 'OwnLast\n\
    equal Z =\n";

/// The plan of user 0's first certificate differs in one part, or names another certificate.
static PLANS: &[u8] = b"\
    # another number\n\
    text q 'SVP1 00 :2 %u 01 00 :2 00\n\
    text y 'SRL1 00 01 *u u +q q\n\
    hear 0 y = 'Lists\n\
    equal Z =\n\
    # another own version\n\
    text q 'SVP1 00 :1 %u 01 00 :2 00\n\
    text y 'SRL1 00 01 *u u +q q\n\
    hear 0 y = 'Numbers\n\
    equal Z =\n\
    # no own version\n\
    text q 'SVP1 00 :1 %u 00 00\n\
    text y 'SRL1 00 01 *u u +q q\n\
    hear 0 y = 'Numbers\n\
    equal Z =\n\
    # a version of a group\n\
    text q 'SVP1 00 :1 %u 02 00 :1 40 :1 00\n\
    text y 'SRL1 00 01 *u u +q q\n\
    hear 0 y = 'Vector\n\
    equal Z =\n\
    # an entry of a plan of user 1's that nobody made\n\
    text q 'SVP1 00 :1 %u 01 00 :1 01 01 :1 'inventedinventedinventedinvented\n\
    text y 'SRL1 00 01 *u u +q q\n\
    hear 0 y = 'Entries\n\
    equal Z =\n\
    # another certificate\n\
    text q 'SVP1 00 :1 $7 01 00 :1 00\n\
    text y 'SRL1 00 01 *u u +q q\n\
    hear 0 y = 'Link\n\
    equal Z =\n";

/// User 1's first operation is pending before the own one, as it would be if user 1 were listed.
static OTHER_USER: &[u8] = b"\
    text o 'SUC1 01 :1 $0 00\n\
    key o o 0 1\n\
    text n 'SVP1 01 :1 %o 01 01 :1 00\n\
    text q 'SVP1 00 :1 %u 02 00 :1 01 :1 01 01 :1 #n\n\
    text y 'SRL1 00 02 *o o +n n *u u +q q\n\
    hear 0 y = 'UnknownUser\n\
    equal Z =\n";

/// The structure is committed, and user 0 declares its second operation, text v.
static SECOND: &[u8] = b"\
    over 0\n\
    declare 0 v\n";

/// Each proper prefix of the first reply is of no form.
fn refuses_fronts(rt: &impl Host, client: &mut MemoryClient, honest: &[u8]) {
    for size in 0..2608 {
        let front = honest.get(..size).expect(rt, "a front");
        breaks(rt, client, front, Some(Rule::Form));
    }
}

/// Replies that break a rule leave the client so that it accepts the true one.
#[test]
fn own_client(rt: HostRuntime) {
    let rt = &(rt, Here);
    let mut stage = new_stage(rt);
    let mut actors = new_actors(rt, &stage);
    play_on(rt, &mut actors, &mut stage, FIRST);
    let honest = text_at(rt, &stage.by_hand.texts, b'r');
    refuses_fronts(rt, client_in(rt, &mut actors.users, 0), honest);
    let scripts = [
        LONGER,
        HONEST,
        OWN_TEXTS,
        HONEST,
        PLANS,
        HONEST,
        OTHER_USER,
        SIGNS,
        SECOND,
        KNOWS_ITS_LAST,
    ];
    play_each(rt, &mut actors, &mut stage, &scripts);
    let_go((actors, stage));
}

/// A client of user 0 with another key than the first one, which it takes for user 0's, refuses its first reply.
static BY_ANOTHER_KEY: &[u8] = b"\
    declare 0 u\n\
    text p 'SVP1 00 :1 %u 01 00 :1 00\n\
    text r 'SRL1 00 01 *u u +p p\n\
    hear 0 r = 'SuperSignature\n\
    equal Z =\n";

/// A client of user 1, who isn't listed, refuses its first reply.
static NOT_LISTED: &[u8] = b"\
    declare 1 u\n\
    text p 'SVP1 01 :1 %u 01 01 :1 00\n\
    text r 'SRL1 00 01 *u u +p p\n\
    hear 1 r = 'UnknownUser\n\
    equal Z =\n";

#[test]
fn other_clients(rt: HostRuntime) {
    let rt = &(rt, Here);
    let mut stage = new_stage(rt);
    let mut actors = new_actors(rt, &stage);
    put_in(client_in(rt, &mut actors.users, 0), client_of(rt, 0, 5));
    play_each(rt, &mut actors, &mut stage, &[BY_ANOTHER_KEY, NOT_LISTED]);
    let_go((actors, stage));
}
