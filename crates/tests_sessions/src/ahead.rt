//! Processes whose requests go ahead of replies: commands end as they do without, also where a process is stopped at any
//! of its exchanges; and where replies don't come in their turn, none is taken for another's.

use crate::by_words::{DIRECTORIES, FILES};
use crate::files::blocks_of;
use crate::here::Here;
use crate::line::Turn;
use crate::stopped::all_go_on;
use crate::town::{Town, town_of};
use crate::words::{all_end, ends, is_end, run};
use layout::let_go;
use tests_aids::{Aided, check_text};

/// More blocks than go ahead at once.
const LONG: u16 = 300;

/// A file of more blocks than go ahead at once is put, and read.
fn goes_ahead(rt: &impl Aided, town: &mut Town) {
    let file = blocks_of(rt, LONG);
    let _requests = ends(rt, town, "0 put /long FILE", &file, "0 done|");
    check_text(rt, &run(rt, town, "0 cat /long", b"").printed, &file);
}

/// Commands end as without.
#[test]
fn commands_end_as_without(rt: HostRuntime) {
    let rt = (rt, Here);
    for table in [FILES, DIRECTORIES] {
        let mut town = town_of(&rt, 1);
        town.turn = Some(Turn::Kept);
        all_end(&rt, &mut town, table);
        let_go(town);
    }
    let mut town = town_of(&rt, 1);
    town.turn = Some(Turn::Kept);
    goes_ahead(&rt, &mut town);
    let_go(town);
}

/// A process is stopped at each of its exchanges, whose request is lost, or is carried out.
#[test]
fn stopped_at_each_exchange(rt: HostRuntime) {
    let rt = (rt, Here);
    for is_carried_out in [false, true] {
        let mut town = town_of(&rt, 1);
        town.turn = Some(Turn::Kept);
        all_go_on(&rt, &mut town, is_carried_out);
        let_go(town);
    }
}

/// So many replies come before those that come ahead, of blocks that are read or of texts that are stored: to what was
/// committed last, the certificate, the root of the i-table and its chunk, the structure, the i-node and the block of the
/// root directory, and the i-node of the file.
const BEFORE: usize = 8;

/// How the replies come to a process that reads a file of three blocks, and what it ends with, but for the file. Another
/// block than the one that is asked for is refused, and the way is cut where none comes.
static READ: [(Turn, &str); 7] = [
    (Turn::Swapped(BEFORE), "2 broken 6 Block|"),
    (Turn::Swapped(BEFORE + 1), "2 broken 6 Block|"),
    (Turn::Missing(BEFORE), "2 broken 6 Block|"),
    (Turn::Missing(BEFORE + 2), "4 cut|"),
    (Turn::Twice(BEFORE), "2 broken 6 Block|"),
    (Turn::Ended(BEFORE), "4 cut|"),
    (Turn::Ended(BEFORE + 1), "4 cut|"),
];

/// How the replies come to a process that puts a file of three blocks, whose four texts it stores and has synced, and
/// what it ends with. The reply to a text tells nothing that is used but its status; that of a server that keeps nothing
/// to SYNC is status 1, which no text is answered with, nor a certificate.
static WRITTEN: [(Turn, &str); 7] = [
    (Turn::Swapped(BEFORE), "0 done|"),
    (Turn::Missing(BEFORE), "3 declined 1|"),
    (Turn::Missing(BEFORE + 3), "3 declined 1|"),
    (Turn::Missing(BEFORE + 4), "4 cut|"),
    (Turn::Twice(BEFORE), "3 declined 1|"),
    (Turn::Ended(BEFORE), "4 cut|"),
    (Turn::Ended(BEFORE + 2), "4 cut|"),
];

/// The file is read as it was put.
fn is_read(rt: &impl Aided, town: &mut Town, file: &[u8]) {
    town.turn = Some(Turn::Kept);
    check_text(rt, &run(rt, town, "0 cat /f", b"").printed, file);
}

/// Each row ends as stands in it, and the next process goes on.
fn turns_are_told(rt: &impl Aided, town: &mut Town) {
    let file = blocks_of(rt, 3);
    let put = "0 put /f FILE";
    let _requests = ends(rt, town, put, &file, "0 done|");
    for (turn, end) in &READ {
        town.turn = Some(*turn);
        is_end(rt, &run(rt, town, "0 cat /f", b""), "cat", end);
        is_read(rt, town, &file);
    }
    for (turn, end) in &WRITTEN {
        town.turn = Some(*turn);
        is_end(rt, &run(rt, town, put, &file), "put", end);
        is_read(rt, town, &file);
    }
}

#[test]
fn replies_out_of_turn_are_no_others(rt: HostRuntime) {
    let rt = (rt, Here);
    let mut town = town_of(&rt, 1);
    turns_are_told(&rt, &mut town);
    let_go(town);
}
