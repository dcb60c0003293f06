//! Commands by their words, and what they end with, as rows of a table. The words of a command stand behind the number
//! of its user.

use crate::line::{Line as Connected, Turn};
use crate::memory::Trouble;
use crate::town::{Deed, Outcome, Town, town_of};
use commands::Command;
use file_commands::{Line, Request, Wanted};
use layout::{User, let_go};
use std::alloc::Global;
use tests_aids::texts::joined;
use tests_aids::{Aided, check, found, given};
use transport::{Framed, Transport};

/// What stands before the number of the user.
const OPTIONS: &str = "sundr --dir home --server here:1 --user";

/// The text of a command line. What stands for the key of user 1 or 2 is `KEY1` or `KEY2`, the last word.
fn line_text(rt: &impl Aided, town: &Town, command: &str) -> String {
    let Some((before, user)) = command.split_once(" KEY") else {
        return given(rt, format!(in rt.alloc(); "{OPTIONS} {command}"), "memory");
    };
    let user = given(rt, user.parse::<usize>(), "a user");
    let key = town.home(rt, user).key.public();
    let digits = given(rt, hex::encode(rt.alloc(), key.as_bytes()), "memory");
    let text = format!(in rt.alloc(); "{OPTIONS} {before} {digits}");
    given(rt, text, "memory")
}

/// A user's process puts this content at a path, over this transport.
fn put<'a, T: Transport<Global>>(
    rt: &impl Aided,
    town: &mut Town,
    user: User,
    (path, content): (&'a str, &'a [u8]),
    transport: T,
) -> (Outcome, T) {
    town.run_over(rt, user, &Command::Put { path, content }, transport)
}

/// A user's process carries a line out over this transport, with this as the content of the file that it puts.
fn run_line<'a, T: Transport<Global>>(
    rt: &impl Aided,
    town: &mut Town,
    line: &Line<'a>,
    content: &'a [u8],
    transport: T,
) -> (Outcome, T) {
    match &line.wanted {
        Wanted::Run(command) => town.run_over(rt, line.user, command, transport),
        Wanted::Put { path, file: _ } => put(rt, town, line.user, (path, content), transport),
        Wanted::Get { path, file: _ } => town.run_over(
            rt,
            line.user,
            &Command::Cat(path),
            transport,
        ),
        Wanted::Move { path, to } => town.do_over(rt, line.user, Deed::Rename(path, to), transport),
        Wanted::Key | Wanted::Status | Wanted::Renew { .. } => rt.fail("no command over a server"),
        Wanted::Batch { .. } | Wanted::Admin(_) => rt.fail("several commands"),
        Wanted::PutTree { .. } | Wanted::GetTree { .. } => rt.fail("several commands"),
        Wanted::Users => rt.fail("no command of a session"),
    }
}

/// A process carries out what these words say over this transport, with this as the content of the file that it puts.
pub(crate) fn run_over<T: Transport<Global>>(
    rt: &impl Aided,
    town: &mut Town,
    command: &str,
    content: &[u8],
    transport: T,
) -> (Outcome, T) {
    let text = line_text(rt, town, command);
    let mut words = Vec::new(rt.alloc());
    for word in text.split(' ') {
        given(rt, words.push(word), "memory");
    }
    match &Request::read(rt.alloc(), &words) {
        Ok(Request::Line(line)) => run_line(rt, town, line, content, transport),
        Ok(Request::Init(_)) => rt.fail("no command over a server"),
        Err(error) => rt.fail(format_args!("{command}: {error}")),
    }
}

/// A process does so over a connection to the server in memory, whose replies come so.
fn run_ahead(
    rt: &impl Aided,
    town: &mut Town,
    command: &str,
    content: &[u8],
    turn: Turn,
) -> Outcome {
    let line = Connected::new(rt.alloc(), town.leave_server(rt), turn);
    let framed = given(rt, Framed::going_ahead(rt.alloc(), line, true), "memory");
    let (outcome, framed) = run_over(rt, town, command, content, framed);
    town.bring_back(framed.into_connection().into_server());
    outcome
}

/// A process does so over the server in memory.
fn run_in_order(rt: &impl Aided, town: &mut Town, command: &str, content: &[u8]) -> Outcome {
    let server = town.leave_server(rt);
    let (outcome, server) = run_over(rt, town, command, content, server);
    town.bring_back(server);
    outcome
}

/// A process does so, with requests that go ahead where the town has a connection.
pub(crate) fn run(rt: &impl Aided, town: &mut Town, command: &str, content: &[u8]) -> Outcome {
    match town.turn {
        Some(turn) => run_ahead(rt, town, command, content, turn),
        None => run_in_order(rt, town, command, content),
    }
}

/// A text with a bar for each end of a line.
pub(crate) fn on_one_line(rt: &impl Aided, text: &[u8]) -> Vec<u8> {
    let mut line = Vec::new(rt.alloc());
    for byte in text {
        let byte = if *byte == b'\n' { b'|' } else { *byte };
        given(rt, line.push(byte), "memory");
    }
    line
}

/// The process of a command ended with this status, and behind it with what it printed, first of an operation that it
/// finished.
pub(crate) fn is_end(rt: &impl Aided, outcome: &Outcome, command: &str, end: &str) {
    let status = outcome.status;
    let mut text = given(rt, format!(in rt.alloc(); "{status}"), "memory");
    if !outcome.resumed.is_empty() || !outcome.printed.is_empty() {
        given(rt, text.push(' '), "memory");
    }
    let parts: [&[u8]; 3] = [text.as_bytes(), &outcome.resumed, &outcome.printed];
    let line = on_one_line(rt, &joined(rt, &parts));
    if line.as_slice() != end.as_bytes() {
        let line = std::str::from_utf8(&line).unwrap_or("no text");
        rt.fail(format_args!("{command}: {line}"));
    }
}

/// The process of a command ends so: how many requests it sent.
pub(crate) fn ends(
    rt: &impl Aided,
    town: &mut Town,
    command: &str,
    content: &[u8],
    end: &str,
) -> usize {
    let outcome = run(rt, town, command, content);
    is_end(rt, &outcome, command, end);
    town.sent(rt).len()
}

/// The words of a command, the content of the file that it puts, and what it ends with.
pub(crate) fn row_of<'a>(rt: &impl Aided, row: &'a str) -> (&'a str, &'a [u8], &'a str) {
    let (command, end) = found(rt, row.split_once(" -> "), "a command and its end");
    let (command, content) = command.split_once(" < ").unwrap_or((command, ""));
    (command, content.as_bytes(), end)
}

/// The command of a row ends as stands behind it, and sends as many requests, if that stands there.
fn row_ends(rt: &impl Aided, town: &mut Town, row: &str) {
    let (command, content, end) = row_of(rt, row);
    match end.split_once(" # ") {
        Some((end, requests)) => {
            let requests = given(rt, requests.parse::<usize>(), "a number");
            check(rt, ends(rt, town, command, content, end) == requests, row);
        }
        None => {
            let _requests = ends(rt, town, command, content, end);
        }
    }
}

/// What is wrong with the server from a row on, which has a word and a number of requests.
fn trouble_of(rt: &impl Aided, row: &str) -> Trouble {
    let (word, number) = row.split_once(' ').unwrap_or((row, "0"));
    let number = given(rt, number.parse::<usize>(), "a number");
    match word {
        "nothing" => Trouble::Nothing,
        "lost" => Trouble::Lost(number),
        "memory" => Trouble::NoMemory(number),
        "absent" => Trouble::LiesAt(number, b"\x08"),
        "another" => Trouble::LiesAt(number, b"\0another"),
        _ => rt.fail(format_args!("{row}: no trouble")),
    }
}

/// Each command of a table ends as stands behind it. A row that begins with `~` says what is wrong with the server from
/// then on.
pub(crate) fn all_end(rt: &impl Aided, town: &mut Town, table: &str) {
    for row in table.lines() {
        match row.strip_prefix("~ ") {
            Some(trouble) => town.set(rt, trouble_of(rt, trouble)),
            None => row_ends(rt, town, row),
        }
    }
}

/// The same in a town of so many users.
pub(crate) fn all_end_in_town<R: Aided>(rt: &R, users: u8, table: &str) {
    let mut town = town_of(rt, users);
    all_end(rt, &mut town, table);
    let_go(town);
}
