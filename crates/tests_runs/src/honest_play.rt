//! An honest run beside a script: operations and restarts of users in one order, drawn by a small generator of numbers,
//! come to the honest server, and to the plain one of scripts. Both answer alike: each status, what is accepted, and
//! what has no effect.

use crate::answers::{count_told, count_views, view_in};
use crate::dice::Dice;
use crate::here::Here;
use crate::honest::{Rows, answers_of, does, goes_on};
use crate::planning::keys;
use crate::scripts::prints;
use std::io::Write;
use tests_aids::{Aided, Host, check, found, given};

/// How many commands come after the first operation.
const COMMANDS: u8 = 100;

/// Changes, as they are planned and as a script says them. User 3 is listed by one of them.
type Changes = (&'static [u8], &'static str);

/// What user 0 does first.
const FIRST: Changes = (
    b"u\x01;u\x02;m\x40\x01;m\x40\x02",
    " adduser 1; adduser 2; addmember 64 1; addmember 64 2",
);

static CHANGES: [Changes; 8] = [
    (b"", ""),
    (
        b"f\x01\x05one;f\x40\x40shared",
        " make 1 5 file one; make 64 64 file shared",
    ),
    (b"p\x01\x05again;r\x40\x40", " put 1 5 again; remove 64 64"),
    (
        b"f\x02\x05two;p\x40\x40both",
        " make 2 5 file two; put 64 64 both",
    ),
    (
        b"r\x02\x05;f\x40\x41late",
        " remove 2 5; make 64 65 file late",
    ),
    (b"l\x00\x02\x01\x05name", " link 0 2 name 1 5"),
    (b"n\x00\x02name;u\x03", " unlink 0 2 name; adduser 3"),
    (
        b"d\x40\x02;f\x03\x05three",
        " dropmember 64 2; make 3 5 file three",
    ),
];

/// The letters of an update's steps: a reply is handed ten blocks.
const UPDATE: &[u8] = b"ubbbbbbbbbbs";

/// A command of a user: where its steps begin, and where those of the next command do.
#[derive(Clone, Copy)]
struct Line {
    user: u8,
    first: usize,
    end: usize,
}

/// The steps of an honest run, and the commands that they are, in a script.
#[derive(Drop)]
struct Both {
    rows: Rows,
    lines: Vec<Line>,
    script: Vec<u8>,
}

impl Both {
    /// A user's command of these words before and after the user, whose steps are those from this one on.
    fn add(&mut self, rt: &impl Host, user: u8, first: usize, (before, after): (&str, &str)) {
        let end = self.rows.len();
        given(rt, self.lines.push(Line { user, first, end }), "memory");
        given(
            rt,
            write!(self.script, "{before} {user}{after}\n"),
            "memory",
        );
    }

    /// A user declares an operation of these changes.
    fn begins(&mut self, rt: &impl Host, user: u8, (changes, words): Changes) {
        let first = self.rows.len();
        does(rt, &mut self.rows, user, b'd', changes);
        self.add(rt, user, first, ("begin", words));
    }

    /// Another command of a user.
    fn goes_on(&mut self, rt: &impl Host, user: u8, letters: &[u8], words: (&str, &str)) {
        let first = self.rows.len();
        goes_on(rt, &mut self.rows, user, letters);
        self.add(rt, user, first, words);
    }

    /// A command that is drawn.
    fn draws(&mut self, rt: &impl Host, dice: &mut Dice) {
        let user = dice.roll() % 4;
        match dice.roll() % 8 {
            0..=1 => {
                let place = usize::from(dice.roll() % 8);
                self.begins(rt, user, *found(rt, CHANGES.get(place), "changes"));
            }
            2..=4 => self.goes_on(rt, user, UPDATE, ("update", " a")),
            5..=6 => self.goes_on(rt, user, b"c", ("commit", " a")),
            _ => self.goes_on(rt, user, b"ko", ("restart", "")),
        }
    }

    /// All commands.
    fn new(rt: &impl Host, dice: &mut Dice) -> Both {
        let mut both = Both {
            rows: Vec::new(rt.alloc()),
            lines: Vec::new(rt.alloc()),
            script: Vec::new(rt.alloc()),
        };
        for user in 0..4 {
            goes_on(rt, &mut both.rows, user, b"o");
        }
        both.begins(rt, 0, FIRST);
        both.goes_on(rt, 0, UPDATE, ("update", " a"));
        both.goes_on(rt, 0, b"c", ("commit", " a"));
        for _ in 0..COMMANDS {
            both.draws(rt, dice);
        }
        both
    }
}

/// What came of an operation that was accepted: its number, and what had no effect.
fn write_accepted(rt: &impl Host, text: &mut Vec<u8>, number: u32, lost: &[u8]) {
    given(rt, write!(text, "accepted {number}"), "memory");
    for (place, lost) in lost.iter().enumerate() {
        let before = if place == 0 { " lost" } else { "" };
        given(rt, write!(text, "{before} {lost}"), "memory");
    }
}

/// What came of a command, where that is one word.
fn word_of(first: &[u8], last: &[u8]) -> Option<&'static str> {
    match (first, last) {
        (b"-", _) => Some("busy"),
        (b"v\x00", _) => Some("committed"),
        (_, [b'o', b'i', ..]) => Some("idle"),
        (_, [b'o', b'd', ..]) => Some("declared"),
        (_, [b'o', b's', ..]) => Some("signed"),
        _ => None,
    }
}

/// What a script should print of a command that was answered so, where the user's last operation has this number.
fn write_outcome(rt: &impl Host, text: &mut Vec<u8>, number: u32, told: &[Vec<u8>]) {
    let first = found(rt, told.first(), "an answer").as_slice();
    let last = found(rt, told.last(), "an answer").as_slice();
    if let Some(word) = word_of(first, last) {
        given(rt, text.extend_from_slice(word.as_bytes()), "memory");
        return;
    }
    match first {
        [b'v', status] => given(rt, write!(text, "status {status}"), "memory"),
        [b'b', ..] => given(rt, write!(text, "begin {number}"), "memory"),
        _ => match view_in(rt, last) {
            Some(view) => write_accepted(rt, text, number, view.lost),
            None => rt.fail("no outcome"),
        },
    }
}

/// What a script should print of the commands by what an honest run answered.
fn lines_of(rt: &impl Host, lines: &[Line], told: &[Vec<u8>]) -> Vec<u8> {
    let mut text = Vec::new(rt.alloc());
    let mut numbers = [0u32; 4];
    for Line { user, first, end } in lines {
        let own = found(rt, told.get(*first..*end), "steps");
        let number = found(rt, numbers.get_mut(usize::from(*user)), "a user");
        if own.len() == 1 && count_told(own, b"b") == 1 {
            *number = number.wrapping_add(1);
        }
        given(rt, write!(text, "{user} "), "memory");
        write_outcome(rt, &mut text, *number, own);
        given(rt, text.push(b'\n'), "memory");
    }
    text
}

/// Views are accepted, and who isn't listed is refused.
fn tells_much(rt: &impl Host, told: &[Vec<u8>]) {
    check(rt, count_views(told) >= 3, "views are accepted");
    let refused = count_told(told, b"v\x02") > 0;
    check(rt, refused, "who isn't listed is refused");
}

#[test]
fn a_script_prints_what_an_honest_run_answers(rt: HostRuntime) {
    let here = &(rt, Here);
    let both = Both::new(here, &mut Dice { state: 7 });
    let told = answers_of(here, &keys(here, 4), &both.rows);
    tells_much(here, &told);
    let lines = lines_of(here, &both.lines, &told);
    prints(&here.0, &both.script, &lines);
}
