//! Sessions of a user of several keys, of which the server has one: where it declines the signature of a certificate,
//! the other keys that have leaves for an operation sign it again, from the newest to the first.

use crate::here::Here;
use crate::town::{Town, town_of};
use crate::words::all_end;
use commands::{Answer, Command};
use file_session::Session;
use layout::{User, let_go};
use leaf_ledger::MemoryDevice;
use lms_sign::{KEY_SIZE, LEAF_COUNT, PublicKey};
use std::alloc::Global;
use tests_aids::texts::{joined, key_of};
use tests_aids::{Aided, check, found, given};
use tests_client_aids::clients::{ClientParts, device_of, open_parts};
use wire::{RequestKind, Status};

/// User 1 is listed by the key whose seed is 1.
const LISTED: &str = "0 adduser 1 KEY1 -> 0 done|";

/// A key, by its seed, and how many of its leaves are free.
type Own = (u8, usize);

/// The ledger of a key of which the last leaves are free, so many.
fn ledger_of(rt: &impl Aided, key: &PublicKey, free: usize) -> MemoryDevice<Global> {
    let mut marks = given(rt, vec![in rt.alloc(); 1u8; LEAF_COUNT as usize], "memory");
    for mark in marks.iter_mut().rev().take(free) {
        *mark = 0;
    }
    device_of(rt, &joined(rt, &[key.as_bytes(), &marks]))
}

/// What user 1's client is opened over, with these keys.
fn parts_of(rt: &impl Aided, own: &[Own]) -> ClientParts {
    let mut keys = Vec::new(rt.alloc());
    for (seed, free) in own {
        let key = key_of(rt, *seed);
        let ledger = ledger_of(rt, &key.public(), *free);
        given(rt, keys.push((key, ledger)), "memory");
    }
    ClientParts {
        keys,
        journal: device_of(rt, b""),
    }
}

/// How many leaves of a ledger's file are free.
fn free_in(text: &[u8]) -> usize {
    let marks = &text[KEY_SIZE.min(text.len())..];
    marks.iter().filter(|mark| **mark == 0).count()
}

/// How a session of user 1 ends.
#[derive(Clone, Copy, Debug, PartialEq, Eq)]
enum End {
    Listed,
    Declined,
    NoLeaf,
    Another,
}

fn end_of(answer: &Answer<Global>) -> End {
    match answer {
        Answer::Listing(_) => End::Listed,
        Answer::Declined(Status::BadSignature) => End::Declined,
        Answer::Refused(commands::Refusal::NoLeaf) => End::NoLeaf,
        _ => End::Another,
    }
}

/// How many certificates were sent.
fn updates_in(sent: &[RequestKind]) -> usize {
    sent.iter()
        .filter(|kind| **kind == RequestKind::Update)
        .count()
}

/// How many texts were stored after the last commit.
fn stored_last(sent: &[RequestKind]) -> usize {
    sent.iter()
        .rev()
        .take_while(|kind| **kind != RequestKind::Commit)
        .filter(|kind| **kind == RequestKind::Put)
        .count()
}

/// A session of user 1 over these parts ends so, sends so many certificates, stores nothing that it doesn't commit, and
/// leaves so many leaves of each key.
fn ends(
    rt: &impl Aided,
    town: &mut Town,
    parts: ClientParts,
    command: &Command<'_>,
    (end, updates, left): (End, usize, &[usize]),
) -> ClientParts {
    let user = found(rt, User::new(1), "a user");
    let client = open_parts(rt, user, town.pinned, parts);
    let mut session = Session::new(rt.alloc(), client, town.leave_server(rt));
    let answer = session.run(command);
    check(rt, end_of(&answer) == end, "it ends so");
    let (client, server) = session.close();
    check(
        rt,
        updates_in(server.sent()) == updates,
        "so many certificates are sent",
    );
    check(
        rt,
        stored_last(server.sent()) == 0,
        "nothing more is stored",
    );
    town.bring_back(server);
    let parts = client.close();
    check(rt, parts.keys.len() == left.len(), "so many keys are there");
    for ((_, ledger), left) in parts.keys.iter().zip(left) {
        check(
            rt,
            free_in(ledger.text()) == *left,
            "so many leaves are left",
        );
    }
    parts
}

/// So a session ends with this command over new parts of these keys, in a town in which the key of user 1 is listed
/// whose seed is 1.
fn one_ends(rt: &impl Aided, own: &[Own], command: &Command<'_>, wanted: (End, usize, &[usize])) {
    let mut town = town_of(rt, 2);
    all_end(rt, &mut town, LISTED);
    let parts = parts_of(rt, own);
    let parts = ends(rt, &mut town, parts, command, wanted);
    let_go(parts);
    let_go(town);
}

/// The same with a look at the root directory.
fn one_looks(rt: &impl Aided, own: &[Own], wanted: (End, usize, &[usize])) {
    one_ends(rt, own, &Command::Ls("/"), wanted);
}

#[test]
fn newest_key_is_listed(rt: HostRuntime) {
    one_looks(&(rt, Here), &[(3, 9), (1, 9)], (End::Listed, 1, &[9, 7]));
}

#[test]
fn key_before_it_is_listed(rt: HostRuntime) {
    one_looks(&(rt, Here), &[(1, 9), (3, 9)], (End::Listed, 2, &[7, 8]));
}

#[test]
fn first_of_three_keys_is_listed(rt: HostRuntime) {
    one_looks(
        &(rt, Here),
        &[(1, 9), (3, 9), (4, 9)],
        (End::Listed, 3, &[7, 8, 8]),
    );
}

#[test]
fn no_key_is_listed(rt: HostRuntime) {
    one_looks(
        &(rt, Here),
        &[(3, 9), (4, 9), (5, 9)],
        (End::Declined, 3, &[8, 8, 8]),
    );
}

/// A look at the root directory is declined, while neither of user 1's keys is listed.
fn is_declined(rt: &impl Aided, town: &mut Town) -> ClientParts {
    let parts = parts_of(rt, &[(3, 9), (2, 9)]);
    let wanted = (End::Declined, 2, [8usize, 8].as_slice());
    ends(rt, town, parts, &Command::Ls("/"), wanted)
}

/// What was declined is signed again by the newest key, which is listed by now, and then comes the look, which that key
/// signs, too. The first certificate that is sent is the one that was declined last, by the first key.
fn is_finished(rt: &impl Aided, town: &mut Town, parts: ClientParts) {
    let wanted = (End::Listed, 3, [8usize, 4].as_slice());
    let parts = ends(rt, town, parts, &Command::Ls("/"), wanted);
    let_go(parts);
}

/// What is declared by a key that isn't the last one any more is signed again once another session finishes it.
#[test]
fn each_is_tried_again_later(rt: HostRuntime) {
    let rt = (rt, Here);
    let mut town = town_of(&rt, 3);
    all_end(&rt, &mut town, LISTED);
    let parts = is_declined(&rt, &mut town);
    all_end(&rt, &mut town, "0 setkey 1 KEY2 -> 0 done|");
    is_finished(&rt, &mut town, parts);
    let_go(town);
}

/// With one leaf a key could sign the certificate, and not the structure.
#[test]
fn key_with_one_leaf_is_not_tried(rt: HostRuntime) {
    one_looks(&(rt, Here), &[(1, 1), (3, 9)], (End::Declined, 1, &[1, 8]));
}

#[test]
fn key_with_two_leaves_is_tried(rt: HostRuntime) {
    one_looks(&(rt, Here), &[(1, 2), (3, 9)], (End::Listed, 2, &[0, 8]));
}

#[test]
fn nothing_is_begun_with_one_leaf(rt: HostRuntime) {
    one_looks(&(rt, Here), &[(3, 9), (1, 1)], (End::NoLeaf, 0, &[9, 1]));
}

/// The same with a file that is put.
fn one_writes(rt: &impl Aided, own: &[Own], wanted: (End, usize, &[usize])) {
    let put = Command::Put {
        path: "/f",
        content: b"hello",
    };
    one_ends(rt, own, &put, wanted);
}

/// The look takes two of three leaves, and the write isn't begun.
#[test]
fn nothing_is_written_with_one_leaf(rt: HostRuntime) {
    one_writes(&(rt, Here), &[(1, 3)], (End::NoLeaf, 1, &[1]));
}
