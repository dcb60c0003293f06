//! Each exchange of a command fails in turn, and its request is lost or carried out: the command ends with `cut`. The
//! next command, of the same session or of a new one, first finishes an operation that was declared and not signed, says
//! so, and ends as it does where what was declared is done, or isn't.

use crate::here::Here;
use crate::memory::Trouble;
use crate::stopped::SETTLED;
use crate::town::{Outcome, Town, town_of};
use crate::words::{all_end, is_end};
use commands::Command;
use layout::{User, let_go};
use lms_sign::PublicKey;
use tests_aids::{Aided, found, given};
use wire::RequestKind;

/// So many users there may be.
const USERS: u8 = 64;

/// What is asked for.
#[derive(Clone, Copy)]
enum Asked {
    Ls,
    Cat,
    Put,
    Mkdir,
    Rm,
    Link,
    AddUser,
}

/// A command that is cut, and the one that comes next, each about a name or a user of its own; how the next one ends
/// where the first one isn't done, and where it is; how many exchanges the first one has.
struct Row {
    cut: Asked,
    next: Asked,
    undone: &'static str,
    done: &'static str,
    exchanges: usize,
}

/// A process begins with a commit again and a look: its certificate, two blocks of the table of principals, which are
/// the root of the i-table and its chunk, and its structure; and the i-node and the block of the root directory, where
/// a path is walked. Where users were added it asks for the two blocks of the table, too.
static ROWS: [Row; 7] = [
    Row {
        cut: Asked::Ls,
        next: Asked::Ls,
        undone: "0 f 0:3|",
        done: "",
        exchanges: 5 + 2,
    },
    // The i-node and the block of the file.
    Row {
        cut: Asked::Cat,
        next: Asked::Cat,
        undone: "0 text",
        done: "",
        exchanges: 5 + 2 + 2,
    },
    // The i-node and the block are stored and synced, then come the certificate, the four texts of the own part, which
    // are stored and synced, and the structure.
    Row {
        cut: Asked::Put,
        next: Asked::Cat,
        undone: "4 no path|",
        done: "0 text",
        exchanges: 5 + 2 + 2 + 1 + 1 + 4 + 1 + 1,
    },
    // The i-node of an empty directory is known.
    Row {
        cut: Asked::Mkdir,
        next: Asked::Mkdir,
        undone: "0 done|",
        done: "4 there|",
        exchanges: 5 + 2 + 1 + 4 + 1 + 1,
    },
    // The i-node of what is removed is asked for.
    Row {
        cut: Asked::Rm,
        next: Asked::Rm,
        undone: "0 done|",
        done: "4 no path|",
        exchanges: 5 + 2 + 1 + 1 + 4 + 1 + 1,
    },
    Row {
        cut: Asked::Link,
        next: Asked::Link,
        undone: "0 done|",
        done: "4 there|",
        exchanges: 5 + 2 + 1 + 4 + 1 + 1,
    },
    Row {
        cut: Asked::AddUser,
        next: Asked::AddUser,
        undone: "0 done|",
        done: "1 lost 1|",
        exchanges: 5 + 2 + 1 + 4 + 1 + 1,
    },
];

/// What is asked for about a path or a user.
fn command_of<'a>(asked: Asked, path: &'a str, user: User, key: PublicKey) -> Command<'a> {
    match asked {
        Asked::Ls => Command::Ls("/"),
        Asked::Cat => Command::Cat(path),
        Asked::Put => Command::Put {
            path,
            content: b"text",
        },
        Asked::Mkdir => Command::Mkdir(path),
        Asked::Rm => Command::Rm(path),
        Asked::Link => Command::Link {
            path,
            target: "@0:9",
        },
        Asked::AddUser => Command::AddUser { user, key },
    }
}

/// How many certificates these requests have.
fn updates(sent: &[RequestKind]) -> u32 {
    let mut count = 0u32;
    for kind in sent {
        if *kind == RequestKind::Update {
            count = count.wrapping_add(1);
        }
    }
    count
}

/// Whether they end with an operation that is declared and not signed: no structure comes after its certificate.
fn is_unsigned(sent: &[RequestKind]) -> bool {
    let mut unsigned = false;
    for kind in sent {
        match kind {
            RequestKind::Update => unsigned = true,
            RequestKind::Commit => unsigned = false,
            _ => {}
        }
    }
    unsigned
}

/// An exchange of a command that fails.
#[derive(Clone, Copy)]
struct Cut {
    /// The command sends so many requests before.
    place: usize,
    /// The request is carried out.
    is_carried_out: bool,
    /// The next command is one of the same session.
    is_same: bool,
}

impl Cut {
    fn trouble(self) -> Trouble {
        if self.is_carried_out {
            Trouble::CarriedOutAt(self.place)
        } else {
            Trouble::LostAt(self.place)
        }
    }
}

/// What two commands end with, and what is known by their requests: how many operations the first one declared before it
/// was cut, and whether the last of them isn't signed; how many certificates the second one sent.
#[derive(Drop)]
struct Went {
    first: Outcome,
    second: Outcome,
    begun: u32,
    is_unsigned: bool,
    sent_later: u32,
}

/// The requests up to the cut, and those after it.
fn parts_of(sent: &[RequestKind], place: usize) -> (&[RequestKind], &[RequestKind]) {
    let end = place.wrapping_add(1).min(sent.len());
    (&sent[..end], &sent[end..])
}

/// One session carries out both.
fn in_one(
    rt: &impl Aided,
    town: &mut Town,
    one: &Command<'_>,
    other: &Command<'_>,
    cut: Cut,
) -> Went {
    let (first, second) = town.run_both(rt, (one, other));
    let (before, after) = parts_of(town.sent(rt), cut.place);
    Went {
        first,
        second,
        begun: updates(before),
        is_unsigned: is_unsigned(before),
        sent_later: updates(after),
    }
}

/// Two sessions carry out one each.
fn in_two(rt: &impl Aided, town: &mut Town, one: &Command<'_>, other: &Command<'_>) -> Went {
    let first = town.run_one(rt, one);
    let (begun, is_unsigned) = (updates(town.sent(rt)), is_unsigned(town.sent(rt)));
    town.set(rt, Trouble::Nothing);
    let second = town.run_one(rt, other);
    Went {
        first,
        second,
        begun,
        is_unsigned,
        sent_later: updates(town.sent(rt)),
    }
}

/// What a command ends with that finished an operation of this number first, if it did.
fn end_of(rt: &impl Aided, resumed: Option<u32>, end: &str) -> String {
    let (status, rest) = end.split_once(' ').unwrap_or((end, ""));
    let text = match resumed {
        Some(number) => format!(in rt.alloc(); "{status} resumed {number}|{rest}"),
        None => format!(in rt.alloc(); "{end}"),
    };
    given(rt, text, "memory")
}

/// What a sweep goes over: a town, how many operations user 0 did there, and how many names were taken.
#[derive(Drop)]
struct Course {
    town: Town,
    operations: u32,
    names: u8,
}

/// A file is there for what reads or removes it. User 0's processes do so many operations more.
fn prepare(rt: &impl Aided, course: &mut Course, asked: Asked, path: &str) {
    course.town.set(rt, Trouble::Nothing);
    if matches!(asked, Asked::Cat | Asked::Rm) {
        let put = Command::Put {
            path,
            content: b"text",
        };
        let outcome = course.town.run_one(rt, &put);
        is_end(rt, &outcome, path, "0 done|");
        let count = updates(course.town.sent(rt));
        course.operations = course.operations.wrapping_add(count);
    }
}

/// The command is cut, and the next one ends as it has to. The number of operations is that of all certificates, but for
/// those that were sent once more.
fn goes_on(rt: &impl Aided, course: &mut Course, row: &Row, went: &Went) {
    is_end(rt, &went.first, "cut", "4 cut|");
    let begun = course.operations.wrapping_add(went.begun);
    // The first operation is the look, and the second one does what is asked for.
    let is_done = went.begun == 2;
    let end = if is_done { row.done } else { row.undone };
    let resumed = went.is_unsigned.then_some(begun);
    is_end(rt, &went.second, "next", &end_of(rt, resumed, end));
    let again = u32::from(went.is_unsigned);
    course.operations = begun.wrapping_add(went.sent_later).wrapping_sub(again);
}

/// One cut. None comes where the command has fewer exchanges: false.
fn is_cut(rt: &impl Aided, course: &mut Course, row: &Row, cut: Cut) -> bool {
    course.names = course.names.wrapping_add(1);
    let name = course.names;
    let path = given(rt, format!(in rt.alloc(); "/f{name}"), "memory");
    prepare(rt, course, row.cut, &path);
    let user = found(rt, User::new(name % USERS), "a user");
    let key = course.town.pinned;
    let one = command_of(row.cut, &path, user, key);
    let other = command_of(row.next, &path, user, key);
    course.town.set(rt, cut.trouble());
    let went = if cut.is_same {
        in_one(rt, &mut course.town, &one, &other, cut)
    } else {
        in_two(rt, &mut course.town, &one, &other)
    };
    if went.first.status == 0 {
        return false;
    }
    goes_on(rt, course, row, &went);
    true
}

/// Whether the request is carried out, and whether the next command is one of the same session.
static WAYS: [(bool, bool); 4] = [(false, false), (true, false), (false, true), (true, true)];

/// No command has so many exchanges.
const MOST: usize = 100;

/// Cuts a command at each of its exchanges in each way: at how many.
fn sweep(rt: &impl Aided, course: &mut Course, row: &Row) -> usize {
    for place in 0..MOST {
        for (is_carried_out, is_same) in &WAYS {
            let cut = Cut {
                place,
                is_carried_out: *is_carried_out,
                is_same: *is_same,
            };
            if !is_cut(rt, course, row, cut) {
                return place;
            }
        }
    }
    rt.fail("too many exchanges")
}

/// User 0 did three operations, and its root directory has a file.
fn settled(rt: &impl Aided) -> Course {
    let mut town = town_of(rt, 1);
    all_end(rt, &mut town, SETTLED);
    Course {
        town,
        operations: 3,
        names: 0,
    }
}

/// Each command of these rows is cut at each of its exchanges.
fn all_are_cut(rt: &impl Aided, rows: &[Row]) {
    for row in rows {
        let mut course = settled(rt);
        let exchanges = sweep(rt, &mut course, row);
        if exchanges != row.exchanges {
            rt.fail(format_args!("{exchanges} exchanges"));
        }
        let_go(course);
    }
}

/// At 7 and at 9 exchanges, each in four ways: 64 cases.
#[test]
fn looks_are_cut(rt: HostRuntime) {
    all_are_cut(&(rt, Here), &ROWS[..2]);
}

/// At 17, 14, 15 and 14 exchanges, each in four ways: 240 cases.
#[test]
fn what_writes_is_cut(rt: HostRuntime) {
    all_are_cut(&(rt, Here), &ROWS[2..6]);
}

/// At 14 exchanges, each in four ways: 56 cases.
#[test]
fn what_lists_a_user_is_cut(rt: HostRuntime) {
    all_are_cut(&(rt, Here), &ROWS[6..]);
}
