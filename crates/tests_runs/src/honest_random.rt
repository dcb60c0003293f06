//! An honest run of some hundred steps, drawn by a small generator of numbers: four users, of whom one is listed only
//! later, whose operations, looks, restarts and crashes come in any order, with answers that get lost and devices that
//! fail. No answer is refused, each status is one that an honest server may give, and at the end each user's operation
//! goes through.

use crate::acts::row_of;
use crate::answers::{count_told, count_views};
use crate::dice::Dice;
use crate::hashed::add;
use crate::here::Here;
use crate::honest::{Rows, SERVED, answers_of, does, goes_on, judges, looks, operates};
use crate::honest_devices::crash;
use crate::planning::keys;
use lms_sign::PublicKey;
use tests_aids::texts::joined;
use tests_aids::{Aided, Host, check, check_text, found, given};

/// User 3 is listed in the middle of the run. The devices of users 0 and 3 fail at times, and the clients of the others
/// crash.
const USERS: u8 = 4;

const LATE: u8 = 3;

/// How many things happen before user 3 is listed, and as many after.
const HAPPENINGS: u8 = 100;

/// What user 0 lists at first.
const FIRST: &[u8] = b"u\x01;u\x02;m\x40\x01;m\x40\x02";

/// And later.
const LATER: &[u8] = b"u\x03;m\x40\x03";

/// The changes of operations, whoever makes them: what a user may not do has no effect.
static CHANGES: [&[u8]; 8] = [
    b"",
    b"f\x01\x05of user 1;f\x40\x40shared",
    b"p\x01\x05again;r\x40\x40",
    b"f\x02\x05of user 2;p\x40\x40of both",
    b"r\x02\x05;f\x40\x41",
    b"l\x00\x02\x01\x05one",
    b"n\x00\x02one;p\x40\x41other",
    b"f\x03\x05of user 3;d\x40\x02",
];

/// Places that are looked at: a principal and an i-number.
static PLACES: [&[u8]; 8] = [
    b"\x00\x01",
    b"\x00\x02",
    b"\x01\x05",
    b"\x02\x05",
    b"\x03\x05",
    b"\x40\x40",
    b"\x40\x41",
    b"\x01\x07",
];

/// A free i-number is looked for up to this one.
const LAST: u8 = 70;

// ---- what happens

/// Each client is opened, and user 0 lists users 1 and 2.
fn begins(rt: &impl Host, rows: &mut Rows) {
    for number in 0..USERS {
        goes_on(rt, rows, number, b"o");
    }
    operates(rt, rows, 0, FIRST);
}

/// A user's client, in whatever phase, is opened again, and ends what it had begun.
fn ends(rt: &impl Host, rows: &mut Rows, number: u8) {
    goes_on(rt, rows, number, b"kou");
    judges(rt, rows, number, b"sc");
}

/// A user's certificate is sent. While blocks are asked for, the client's cache gets another size.
fn updates(rt: &impl Host, rows: &mut Rows, dice: &mut Dice, number: u8) {
    let letter = dice.delivery(b'u', b'U');
    goes_on(rt, rows, number, &letter);
    goes_on(rt, rows, number, b"2");
    judges(rt, rows, number, b"");
}

/// And mostly what was accepted is signed.
fn updates_and_signs(rt: &impl Host, rows: &mut Rows, dice: &mut Dice, number: u8) {
    updates(rt, rows, dice, number);
    if dice.roll() < 192 {
        goes_on(rt, rows, number, b"s");
    }
}

/// A user looks somewhere, in one of the three ways. In the middle of it the client's cache gets another size.
fn looks_somewhere(rt: &impl Host, rows: &mut Rows, dice: &mut Dice, number: u8) {
    let place = dice.one_of(rt, &PLACES);
    match dice.roll() % 3 {
        0 => looks(rt, rows, number, (b'v', place), b"1"),
        1 => looks(rt, rows, number, (b'q', place), b"1"),
        _ => looks(
            rt,
            rows,
            number,
            (b'f', &joined(rt, &[place, &[LAST]])),
            b"1",
        ),
    }
}

/// A user's device fails after so many calls of this step, and the client is opened again.
fn fails(rt: &impl Host, rows: &mut Rows, dice: &mut Dice, number: u8, letter: u8) {
    let calls = dice.roll() % 6;
    let fails = if dice.roll() < 64 {
        [(calls % 2).wrapping_add(b'0'), b'-']
    } else {
        [b'-', calls.wrapping_add(b'0')]
    };
    add(rt, rows, row_of(rt, number, &fails, letter, b""));
    goes_on(rt, rows, number, b"ko");
}

/// A user can't declare an operation, or can't sign one.
fn fails_at_something(rt: &impl Host, rows: &mut Rows, dice: &mut Dice, number: u8) {
    if dice.roll() < 128 {
        ends(rt, rows, number);
        fails(rt, rows, dice, number, b'd');
    } else {
        updates(rt, rows, dice, number);
        fails(rt, rows, dice, number, b's');
    }
}

/// A user's client restarts, or, where its devices fail at times, fails.
fn stops(rt: &impl Host, rows: &mut Rows, dice: &mut Dice, number: u8) {
    match number {
        0 | LATE => fails_at_something(rt, rows, dice, number),
        _ => goes_on(rt, rows, number, b"ko"),
    }
}

/// Something happens.
fn happens(rt: &impl Host, rows: &mut Rows, dice: &mut Dice) {
    let number = dice.roll() % USERS;
    match dice.roll() % 16 {
        0..=3 => does(rt, rows, number, b'd', dice.one_of(rt, &CHANGES)),
        4..=7 => updates_and_signs(rt, rows, dice, number),
        8..=11 => goes_on(rt, rows, number, &dice.delivery(b'c', b'C')),
        12..=14 => looks_somewhere(rt, rows, dice, number),
        _ => stops(rt, rows, dice, number),
    }
}

/// Much happens, and at the end the clients of users 1 and 2 crash.
fn much_happens(rt: &impl Host, rows: &mut Rows, dice: &mut Dice, keys: &[PublicKey]) {
    for _ in 0..HAPPENINGS {
        happens(rt, rows, dice);
    }
    crash(rt, rows, keys, &[1, 2]);
}

/// A user ends what it had begun, and makes one more operation: where that begins, and where it ends.
fn goes_on_alone(rt: &impl Host, rows: &mut Rows, number: u8, changes: &[u8]) -> (usize, usize) {
    ends(rt, rows, number);
    let first = rows.len();
    operates(rt, rows, number, changes);
    (first, rows.len())
}

// ---- what was answered

/// A letter for what was seen of an answer to this step by this user: `s`, a view; `u`, a refusal of who isn't listed;
/// `l`, a lost answer; `e`, a failure of a device; `x`, a crash; `F`, a file, a directory or nothing; `K`, a kind; `P`,
/// a free i-number; `-`, what counts for nothing. None for what may not come: memory suffices, the log has room, and
/// only devices fail.
fn seen(number: u8, letter: u8, told: &[u8]) -> Option<u8> {
    match (letter, told) {
        (b'U' | b'C', b"v\x00") => Some(b'l'),
        (b'c', b"v\x00") => Some(b'-'),
        (b'u' | b'U', b"v\x02") if number == LATE => Some(b'u'),
        (_, [b'v' | b'!', ..]) => None,
        (_, b"edd" | b"esd") => Some(b'e'),
        (_, [b'e', ..]) => None,
        (_, [b'F' | b'D' | b'0', ..]) => Some(b'F'),
        (_, [b's' | b'x' | b'K' | b'P', ..]) => told.first().copied(),
        _ => Some(b'-'),
    }
}

/// What was seen of each answer.
fn all_seen(rt: &impl Host, rows: &[Vec<u8>], told: &[Vec<u8>]) -> Vec<u8> {
    let mut all = Vec::new(rt.alloc());
    for (row, told) in rows.iter().zip(told) {
        let [number, _, _, letter, ..] = row.as_slice() else {
            rt.fail("no step")
        };
        match seen(*number, *letter, told) {
            Some(letter) => given(rt, all.push(letter), "memory"),
            None => rt.fail(format_args!("{row:?}: {told:?}")),
        }
    }
    all
}

/// How often a letter stands among these.
fn count_of(all: &[u8], letter: u8) -> usize {
    let mut count = 0usize;
    for seen in all {
        if *seen == letter {
            count = count.wrapping_add(1);
        }
    }
    count
}

/// How often each letter is seen at least, and, of the last one, how often.
static WANTED: [(u8, usize); 8] = [
    (b's', 10),
    (b'u', 1),
    (b'l', 4),
    (b'e', 1),
    (b'F', 2),
    (b'K', 2),
    (b'P', 2),
    (b'x', 4),
];

/// No answer is refused, and all that may come did.
fn are_honest(rt: &impl Host, rows: &[Vec<u8>], told: &[Vec<u8>]) {
    let all = all_seen(rt, rows, told);
    for (letter, least) in &WANTED {
        let count = count_of(&all, *letter);
        let is_so = count == *least || (count > *least && *letter != b'x');
        assert!(rt; is_so, "{count} of {letter}");
    }
}

/// The operation of these answers went through.
fn went_through(rt: &impl Host, told: &[Vec<u8>]) {
    let begun = found(rt, told.first(), "a step");
    check(rt, begun.first() == Some(&b'b'), "it is declared");
    check(rt, count_views(told) == 1, "it is accepted");
    let last = found(rt, told.last(), "a step");
    check_text(rt, last, SERVED);
}

/// Each user's last operation goes through, and no certificate is refused once all are listed, after so many steps.
fn all_go_through(rt: &impl Host, rows: &mut Rows, keys: &[PublicKey], listed: usize) {
    let mut places = Vec::new(rt.alloc());
    for number in 0..USERS {
        let place = goes_on_alone(rt, rows, number, b"");
        given(rt, places.push(place), "memory");
    }
    let told = answers_of(rt, keys, rows);
    for (first, end) in &places {
        went_through(rt, found(rt, told.get(*first..*end), "steps"));
    }
    let later = found(rt, told.get(listed..), "steps");
    check(rt, count_told(later, b"v\x02") == 0, "all are listed");
    are_honest(rt, rows, &told);
}

#[test]
fn some_hundred_steps_of_an_honest_run(rt: HostRuntime) {
    let rt = &(rt, Here);
    let (keys, mut dice, mut rows) = (keys(rt, USERS), Dice { state: 45 }, Vec::new(rt.0.alloc()));
    begins(rt, &mut rows);
    much_happens(rt, &mut rows, &mut dice, &keys);
    let (_, listed) = goes_on_alone(rt, &mut rows, 0, LATER);
    much_happens(rt, &mut rows, &mut dice, &keys);
    all_go_through(rt, &mut rows, &keys, listed);
}
