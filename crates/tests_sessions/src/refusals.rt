//! Refusals of a user's own client: its ledger fails, has no free leaf or is another key's, its journal is damaged or
//! another user's, and no i-number is free, or no further number.

use crate::here::Here;
use crate::memory::Trouble;
use crate::town::{Town, town_of};
use crate::words::{all_end, ends, is_end};
use commands::Command;
use layout::{let_go, put_in};
use lms_sign::PrivateKey;
use std::alloc::Global;
use tests_aids::texts::{
    FIRST_HANDLE, certificate, joined, key_of, named, plan, signed, structure,
};
use tests_aids::{Aided, check, given};
use tests_client_aids::clients::device_of;
use wire::RequestKind;

/// User 0's process is opened over a ledger of a key with these leaves.
fn with_ledger(rt: &impl Aided, town: &mut Town, key: &[u8], leaves: u8) {
    let ledger = device_of(rt, &joined(rt, &[key, &[leaves; 1024]]));
    put_in(&mut town.home_of_0(rt).ledger, ledger);
}

/// A ledger without a free leaf, and then another key's.
fn ledgers_are_refused(rt: &impl Aided, town: &mut Town) {
    all_end(rt, town, "0 ls / -> 0");
    let key = town.pinned;
    with_ledger(rt, town, key.as_bytes(), 1);
    all_end(rt, town, "0 ls / -> 4 no leaf|");
    let other = key_of(rt, 1).public();
    with_ledger(rt, town, other.as_bytes(), 0);
    all_end(rt, town, "0 ls / -> 4 foreign|");
}

#[test]
fn no_leaf_is_free_and_another_keys_ledger(rt: HostRuntime) {
    let rt = (rt, Here);
    let mut town = town_of(&rt, 1);
    ledgers_are_refused(&rt, &mut town);
    let_go(town);
}

/// How many calls an opening makes of a new ledger.
const CALLS_OF_OPENING: u64 = 5;

/// User 0's ledger fails once its next client is open.
fn fail_ledger(rt: &impl Aided, town: &mut Town) {
    town.home_of_0(rt).ledger.fail_after(CALLS_OF_OPENING);
}

#[test]
fn the_ledger_fails(rt: HostRuntime) {
    let rt = (rt, Here);
    let mut town = town_of(&rt, 1);
    fail_ledger(&rt, &mut town);
    all_end(&rt, &mut town, "0 ls / -> 4 device|");
    let_go(town);
}

/// A device fails in the first command of a session. The second one is told so at once, and nothing is sent for either.
/// A new process goes on.
fn goes_on_with_nothing(rt: &impl Aided, town: &mut Town) {
    fail_ledger(rt, town);
    let (first, second) = town.run_both(rt, (&Command::Ls("/"), &Command::Cat("/f")));
    is_end(rt, &first, "ls", "4 device|");
    is_end(rt, &second, "cat", "4 device|");
    check(rt, town.sent(rt).is_empty(), "nothing is sent");
    all_end(rt, town, "0 ls / -> 0");
}

#[test]
fn a_failed_session_goes_on_with_nothing(rt: HostRuntime) {
    let rt = (rt, Here);
    let mut town = town_of(&rt, 1);
    goes_on_with_nothing(&rt, &mut town);
    let_go(town);
}

/// User 0's process is opened over a journal with this text.
fn with_journal(rt: &impl Aided, town: &mut Town, text: &[u8]) {
    let journal = device_of(rt, text);
    put_in(&mut town.home_of_0(rt).journal, journal);
}

/// A journal that is damaged, and then another user's.
fn journals_are_refused(rt: &impl Aided, town: &mut Town) {
    with_journal(rt, town, b"\x01\x07");
    let table = "0 ls / -> 4 damaged|\n1 ls / -> 3 declined 2|\n";
    all_end(rt, town, table);
    let other = joined(rt, &[town.home(rt, 1).journal.text()]);
    with_journal(rt, town, &other);
    all_end(rt, town, "0 ls / -> 4 damaged|");
}

#[test]
fn damaged_journals(rt: HostRuntime) {
    let rt = (rt, Here);
    let mut town = town_of(&rt, 3);
    journals_are_refused(&rt, &mut town);
    let_go(town);
}

/// A journal's gate that is open, the record of this kind behind it, which is a signed text, and its size before that.
fn record(rt: &impl Aided, kind: u8, text: &[u8]) -> Vec<u8> {
    let [.., a, b, c, d] = text.len().to_be_bytes();
    joined(rt, &[&[1, kind, a, b, c, d], text])
}

/// A journal of user 0's with the operation of the last number, which was signed.
fn last_journal(rt: &impl Aided, key: &PrivateKey<Global>) -> Vec<u8> {
    let last = u32::MAX;
    let update = signed(rt, key, 0, &certificate(rt, 0, last, &[9; 32]));
    let plan = plan(
        rt,
        0,
        last,
        &named(&update),
        b"\x01\0\xff\xff\xff\xff",
        b"\0",
    );
    let commit = signed(rt, key, 1, &structure(rt, &plan, &FIRST_HANDLE));
    joined(
        rt,
        &[&record(rt, 1, &update), &record(rt, 2, &commit), b"\0"],
    )
}

/// After the operation of the last number, which the server takes, there is no further one. The commit alone is sent.
fn has_no_further_number(rt: &impl Aided, town: &mut Town) {
    let journal = last_journal(rt, &town.home(rt, 0).key);
    with_journal(rt, town, &journal);
    town.set(rt, Trouble::Lies(RequestKind::Commit, &[0]));
    all_end(rt, town, "0 ls / -> 4 no number| # 1");
}

#[test]
fn no_further_number(rt: HostRuntime) {
    let rt = (rt, Here);
    let mut town = town_of(&rt, 1);
    has_no_further_number(&rt, &mut town);
    let_go(town);
}

/// Where all i-numbers are taken, what is to be made without one in words has none there.
const FULL: &str = "\
0 mkdir @64:1/d -> 4 no number|
0 put @64:1/f FILE < f -> 4 no number|
0 rm @64:63 -> 0 done|
0 mkdir @64:1/d -> 0 done|
0 ls @64:1 -> 0 d 64:63|
";

/// User 0 makes something at each i-number of its own in a group, which are 1 to 63.
fn has_no_free_number(rt: &impl Aided, town: &mut Town) {
    all_end(rt, town, "0 addmember 64 0 -> 0 done|");
    for number in 1..64u8 {
        let command = format!(in rt.alloc(); "0 mkdir @64:{number}");
        let command = given(rt, command, "memory");
        let _requests = ends(rt, town, &command, b"", "0 done|");
    }
    all_end(rt, town, FULL);
}

#[test]
fn no_number_is_free(rt: HostRuntime) {
    let rt = (rt, Here);
    let mut town = town_of(&rt, 1);
    has_no_free_number(&rt, &mut town);
    let_go(town);
}
