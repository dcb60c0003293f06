//! How many exchanges a process has. It opens a client that holds nothing but the beginning, and commits again what the
//! last process committed.

use crate::files::blocks_of;
use crate::here::Here;
use crate::operations::{Many, make_many};
use crate::town::{Town, town_of};
use crate::words::{all_end, ends, is_end, run};
use commands::Command;
use layout::let_go;
use tests_aids::{Aided, check, given};
use wire::RequestKind;

/// A commit again, then the look: the certificate, four blocks of the table of principals (the root of user 0's
/// i-table, its chunk, the i-node and the block of the file), and the commit.
const LOOK: usize = 1 + 1 + 4 + 1;

/// What tells the entries of the root directory, whose root and chunk are there by then: its i-node and its block.
const ROOT: usize = 2;

/// What else an operation has that writes: its certificate, SYNC once the texts of the own part are stored, and its
/// commit.
const OPERATION: usize = 3;

/// SYNC once the texts of a file are stored, before its operation begins.
const LAID: usize = 1;

/// The root of an i-table and its chunk, which are stored for each change.
const TABLE: usize = 2;

/// The i-node and the block of a directory that changes, which are stored.
const DIRECTORY: usize = 2;

/// The i-node of a file, which is stored or asked for.
const INODE: usize = 1;

/// What is asked for again once the largest file was laid out, which pushes what was read for the look out of the
/// cache: four blocks of the table of principals, and the i-node of the file that is replaced.
const AGAIN: usize = 4 + INODE;

/// Users 0 and 1 are listed, the root directory has a file, and each of both has a process behind it.
const BEGINNING: &str = "\
0 adduser 1 KEY1 -> 0 done|
0 put /first FILE < first -> 0 done|
1 ls / -> 0 first 0:3|
";

/// A process carries a command out with status 0, and has so many exchanges.
fn costs(rt: &impl Aided, town: &mut Town, command: &str, content: &[u8], exchanges: usize) {
    let outcome = run(rt, town, command, content);
    let found = town.sent(rt).len();
    if outcome.status != 0 || found != exchanges {
        let status = outcome.status;
        rt.fail(format_args!("{command}: {status}, {found} and not {exchanges}"));
    }
}

/// What is looked at, by who put it and by another.
fn looks(rt: &impl Aided, town: &mut Town) {
    all_end(rt, town, BEGINNING);
    for command in ["0 ls /", "1 ls /"] {
        costs(rt, town, command, b"", LOOK + ROOT);
    }
    let file = blocks_of(rt, 3);
    let _exchanges = ends(rt, town, "0 put /f FILE", &file, "0 done|");
    for command in ["0 cat /f", "1 cat /f"] {
        costs(rt, town, command, b"", LOOK + ROOT + INODE + 3);
    }
}

#[test]
fn of_looks(rt: HostRuntime) {
    let rt = (rt, Here);
    let mut town = town_of(&rt, 3);
    looks(&rt, &mut town);
    let_go(town);
}

/// What is new takes its blocks, an i-node and a name.
fn makes_new(rt: &impl Aided, town: &mut Town) {
    all_end(rt, town, BEGINNING);
    let most = LOOK + ROOT + INODE + OPERATION + TABLE + DIRECTORY;
    for blocks in [0, 1, 3] {
        let command = format!(in rt.alloc(); "0 put /f{blocks} FILE");
        let command = given(rt, command, "memory");
        let file = blocks_of(rt, blocks);
        costs(rt, town, &command, &file, most + LAID + usize::from(blocks));
    }
    // An empty directory is known from the beginning.
    costs(rt, town, "0 mkdir /d", b"", most - INODE);
}

#[test]
fn of_what_is_new(rt: HostRuntime) {
    let rt = (rt, Here);
    let mut town = town_of(&rt, 3);
    makes_new(&rt, &mut town);
    let_go(town);
}

/// What is replaced or removed isn't read, but for its i-node: the largest file costs no more than any other.
fn replaces(rt: &impl Aided, town: &mut Town) {
    all_end(rt, town, BEGINNING);
    let large = blocks_of(rt, 1024);
    let put = "0 put /f FILE";
    let _exchanges = ends(rt, town, put, &large, "0 done|");
    let most = LOOK + ROOT + INODE + OPERATION + TABLE;
    costs(rt, town, put, &blocks_of(rt, 1), most + INODE + 1 + LAID);
    costs(rt, town, put, &large, most + INODE + 1024 + LAID + AGAIN);
    costs(rt, town, "0 rm /f", b"", most + DIRECTORY);
}

#[test]
fn of_what_is_old(rt: HostRuntime) {
    let rt = (rt, Here);
    let mut town = town_of(&rt, 3);
    replaces(&rt, &mut town);
    let_go(town);
}

/// A new file of one block in a directory of one block.
const NEW: usize = LOOK + ROOT + 1 + INODE + LAID + OPERATION + TABLE + DIRECTORY;

/// How many blocks more a directory of 1,000 names of five bytes has than one of ten: each name takes nine bytes, so
/// that it has three blocks of 4,096 bytes. In one block at most 818 names have room, since the shortest take five
/// bytes.
const MORE_BLOCKS: usize = 2;

/// A directory is read and stored as a whole: its further blocks are asked for, and stored again. Nothing else is more
/// in a directory of 1,000 names than in one of ten.
fn makes_a_long_directory(rt: &impl Aided, town: &mut Town) {
    all_end(rt, town, BEGINNING);
    make_many(rt, town, Many::Names, 1000, (1, 9));
    costs(rt, town, "0 put /new FILE", b"new", NEW);
    make_many(rt, town, Many::Names, 1009, (61, 16));
    make_many(rt, town, Many::Names, 1985, (1, 13));
    let exchanges = NEW + 2 * MORE_BLOCKS;
    costs(rt, town, "0 put /newer FILE", b"newer", exchanges);
    check(rt, names(rt, town) == 1001, "so many names");
}

#[test]
fn of_a_long_directory(rt: HostRuntime) {
    let rt = (rt, Here);
    let mut town = town_of(&rt, 3);
    makes_a_long_directory(&rt, &mut town);
    let_go(town);
}

/// How many names the root directory has.
fn names(rt: &impl Aided, town: &mut Town) -> usize {
    let outcome = run(rt, town, "0 ls /", b"");
    let mut names = 0usize;
    for byte in &outcome.printed {
        if *byte == b'\n' {
            names = names.saturating_add(1);
        }
    }
    names
}

/// Where something stands at each i-number of a chunk of 64, the next chunk is asked for, too, and stored beside the
/// one that has the directory.
fn fills_a_chunk(rt: &impl Aided, town: &mut Town) {
    all_end(rt, town, BEGINNING);
    make_many(rt, town, Many::Files, 4, (4, 16));
    costs(rt, town, "0 put /new FILE", b"new", NEW + 2);
    all_end(rt, town, "0 ls / -> 0 first 0:3|new 0:68|");
}

#[test]
fn of_a_full_chunk(rt: HostRuntime) {
    let rt = (rt, Here);
    let mut town = town_of(&rt, 3);
    fills_a_chunk(&rt, &mut town);
    let_go(town);
}

/// What the second command of a session sends: it has nothing to finish, and asks for what the first one stored, the
/// two blocks of the i-table and the two of the directory, but not for what that laid out, the i-node and the block of
/// the file.
const SECOND: [RequestKind; 6] = [
    RequestKind::Update,
    RequestKind::Get,
    RequestKind::Get,
    RequestKind::Commit,
    RequestKind::Get,
    RequestKind::Get,
];

/// A session puts a file, and reads it.
fn asks_a_second_time(rt: &impl Aided, town: &mut Town) {
    let put = Command::Put {
        path: "/f",
        content: b"hello",
    };
    let (first, second) = town.run_both(rt, (&put, &Command::Cat("/f")));
    is_end(rt, &first, "put", "0 done|");
    is_end(rt, &second, "cat", "0 hello");
    let is_short = town.sent(rt).ends_with(&SECOND);
    check(rt, is_short, "six exchanges, four of them for blocks");
}

#[test]
fn of_a_second_command(rt: HostRuntime) {
    let rt = (rt, Here);
    let mut town = town_of(&rt, 1);
    asks_a_second_time(&rt, &mut town);
    let_go(town);
}
