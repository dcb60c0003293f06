//! The largest file that is put, and read back, and one byte more.

use crate::files::blocks_of;
use crate::here::Here;
use crate::town::{Town, town_of};
use crate::words::{ends, run};
use layout::let_go;
use tests_aids::texts::joined;
use tests_aids::{Aided, check, check_text, given};

/// So many blocks of 4,096 bytes has the largest file.
const MOST: u16 = 1024;

/// What user 0's ledger and its journal hold.
fn devices_of_0(rt: &impl Aided, town: &Town) -> Vec<u8> {
    let home = town.home(rt, 0);
    joined(rt, &[home.ledger.text(), home.journal.text()])
}

/// The largest file is put, and read back.
fn takes_the_largest(rt: &impl Aided, town: &mut Town) {
    let file = blocks_of(rt, MOST);
    let _requests = ends(rt, town, "0 put /f FILE", &file, "0 done|");
    let outcome = run(rt, town, "0 cat /f", b"");
    check(rt, outcome.status == 0, "it is read");
    check(rt, outcome.printed == file, "the same bytes");
}

#[test]
fn the_largest_file_is_put_and_read(rt: HostRuntime) {
    let rt = (rt, Here);
    let mut town = town_of(&rt, 1);
    takes_the_largest(&rt, &mut town);
    let_go(town);
}

/// One that is larger by a byte is refused, and nothing is sent or written.
fn refuses_larger(rt: &impl Aided, town: &mut Town) {
    let put = "0 put /f FILE";
    let _requests = ends(rt, town, put, b"hello", "0 done|");
    let before = devices_of_0(rt, town);
    let mut file = blocks_of(rt, MOST);
    given(rt, file.push(0), "memory");
    let requests = ends(rt, town, put, &file, "4 too large|");
    check(rt, requests == 0, "nothing was sent");
    check_text(rt, &devices_of_0(rt, town), &before);
    let _requests = ends(rt, town, "0 put //f FILE", &file, "4 no path|");
}

#[test]
fn a_larger_file_is_refused_at_once(rt: HostRuntime) {
    let rt = (rt, Here);
    let mut town = town_of(&rt, 1);
    refuses_larger(&rt, &mut town);
    let_go(town);
}
