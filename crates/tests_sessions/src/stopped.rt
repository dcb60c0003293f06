//! A process that puts a new file is stopped at each of its exchanges, whose request is lost or carried out. The next
//! process finishes an operation that was declared and not signed, and says so.

use crate::here::Here;
use crate::memory::Trouble;
use crate::town::{Outcome, Town, town_of};
use crate::words::{all_end, all_end_in_town, ends, run};
use layout::let_go;
use std::alloc::Global;
use tests_aids::{Aided, check, check_text, given};

/// How many operations a process has declared when it has one of its exchanges, and whether the last of them is still
/// to be signed then.
///
/// What was committed last goes out again. Then comes the look: its certificate, and two blocks; its structure; two
/// blocks of the root directory, and the two texts of the file, which are stored and then synced. Then comes the
/// operation that puts the file: its certificate, and the four texts of the own part, which are stored and synced; its
/// structure.
static DECLARED: &[u8; EXCHANGES] = b"01111111112222222";

static UNSIGNED: &[u8; EXCHANGES] = b"-yyy------yyyyyy-";

/// What is said of an operation of this number where one was declared.
fn resumed(rt: &impl Aided, declared: bool, number: u32) -> String {
    if !declared {
        return String::new(rt.alloc());
    }
    given(rt, format!(in rt.alloc(); "resumed {number}\n"), "memory")
}

/// User 0's words of a command, and behind them the name of the file of this number.
fn words(rt: &impl Aided, command: &str, number: usize, rest: &str) -> String {
    let words = format!(in rt.alloc(); "0 {command} /f{number}{rest}");
    given(rt, words, "memory")
}

/// Whether the listing has a line for the file of this number.
fn lists(rt: &impl Aided, outcome: &Outcome, number: usize) -> bool {
    let name = given(rt, format!(in rt.alloc(); "f{number} "), "memory");
    let text = given(rt, std::str::from_utf8(&outcome.printed), "a text");
    for line in text.lines() {
        if line.starts_with(name.as_str()) {
            return true;
        }
    }
    false
}

/// After so many operations, a process that puts the file of this number has such trouble when it has declared so many,
/// and has the last of them still to sign or not; the next ones go on. Gives how many operations there are then.
fn goes_on(
    rt: &impl Aided,
    town: &mut Town,
    operations: u32,
    number: usize,
    (begun, unsigned): (u32, bool),
    trouble: Trouble,
) -> u32 {
    let put = words(rt, "put", number, " FILE");
    town.set(rt, trouble);
    let _requests = ends(rt, town, &put, b"text", "4 cut|");
    town.set(rt, Trouble::Nothing);
    let operations = operations.saturating_add(begun);
    let said = resumed(rt, unsigned, operations);
    let outcome = run(rt, town, "0 ls /", b"");
    check_text(rt, &outcome.resumed, said.as_bytes());
    check(rt, outcome.status == 0, "a listing");
    // The first of its operations is the look, and the second one puts the file.
    let is_there = lists(rt, &outcome, number);
    check(rt, is_there == (begun == 2), "what was declared is there");
    let _requests = ends(rt, town, &put, b"text", "0 done|");
    let cat = words(rt, "cat", number, "");
    let _requests = ends(rt, town, &cat, b"", "0 text");
    // The listing is one operation, the put are two, and what was printed then is one.
    operations.saturating_add(4)
}

/// A process that puts a new file of one block has so many exchanges.
const EXCHANGES: usize = 17;

/// User 0 did three operations, and its root directory has a file.
pub(crate) const SETTLED: &str = "\
0 put /f FILE < text -> 0 done|
0 ls / -> 0 f 0:3|
";

/// A process that isn't stopped has so many exchanges: `EXCHANGES`.
const NOT_STOPPED: &str = "\
0 put /f FILE < text -> 0 done|
0 ls / -> 0 f 0:3|
0 put /g FILE < text -> 0 done| # 17
";

/// A process is stopped at each of its exchanges, whose request is lost, or is carried out.
pub(crate) fn all_go_on(rt: &impl Aided, town: &mut Town, is_carried_out: bool) {
    all_end(rt, town, SETTLED);
    let mut operations = 3;
    for number in 0..EXCHANGES {
        let begun = u32::from(DECLARED[number].saturating_sub(b'0'));
        let stage = (begun, UNSIGNED[number] == b'y');
        let trouble = if is_carried_out {
            Trouble::CarriedOut(number)
        } else {
            Trouble::Lost(number)
        };
        operations = goes_on(rt, town, operations, number, stage, trouble);
    }
}

#[test]
fn stopped_before_each_exchange(rt: HostRuntime) {
    let rt = (rt, Here);
    let mut town = town_of(&rt, 1);
    all_go_on(&rt, &mut town, false);
    let_go(town);
}

#[test]
fn stopped_after_each_request(rt: HostRuntime) {
    let rt = (rt, Here);
    let mut town = town_of(&rt, 1);
    all_go_on(&rt, &mut town, true);
    let_go(town);
}

/// What an operation lost that is finished later is told then. User 1's first process has nine exchanges before it
/// sends the certificate of what it removes: its look, with four blocks of the table of principals, then the i-node and
/// the block of the root directory, and the i-node of the file.
const LOST: &str = "\
0 adduser 1 KEY1 -> 0 done|
0 put /f FILE < text -> 0 done|
~ lost 9
1 rm /f -> 4 cut|
~ nothing
1 ls / -> 0 resumed 2 lost 1 2|f 0:3|
1 ls / -> 0 f 0:3|
";

#[test]
fn all_exchanges_are_tried_and_what_was_lost_is_told_later(rt: HostRuntime) {
    let rt = (rt, Here);
    all_end_in_town(&rt, 1, NOT_STOPPED);
    all_end_in_town(&rt, 3, LOST);
}
