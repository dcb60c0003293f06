//! A file gets another name, and each exchange of that fails in turn: one of both names stands for the file at any time,
//! and to do it again ends it.

use crate::here::Here;
use crate::memory::Trouble;
use crate::stopped::SETTLED;
use crate::town::{Deed, Outcome, Town, town_of};
use crate::words::{all_end, is_end};
use commands::Command;
use layout::{User, let_go};
use tests_aids::{Aided, check, given};

/// A process of user 0 gives a file another name over the server in memory: what it ends with.
fn rename(rt: &impl Aided, town: &mut Town, path: &str, to: &str) -> Outcome {
    let server = town.leave_server(rt);
    let deed = Deed::Rename(path, to);
    let (outcome, server) = town.do_over(rt, User::superuser(), deed, server);
    town.bring_back(server);
    outcome
}

/// Whether a path leads to the file.
fn reads(rt: &impl Aided, town: &mut Town, path: &str) -> bool {
    let outcome = town.run_one(rt, &Command::Cat(path));
    outcome.status == 0 && outcome.printed.as_slice() == b"text".as_slice()
}

/// It was cut: the file has one of both names, and the new one alone once it is done again.
fn goes_on(rt: &impl Aided, town: &mut Town, path: &str, to: &str) {
    let is_old = reads(rt, town, path);
    let is_new = reads(rt, town, to);
    check(rt, is_old || is_new, "the file has no name");
    let again = rename(rt, town, path, to);
    is_end(
        rt,
        &again,
        path,
        if is_old { "0 done|" } else { "4 no path|" },
    );
    let is_moved = reads(rt, town, to) && !reads(rt, town, path);
    check(rt, is_moved, "the file isn't moved");
}

/// A file is cut as it gets another name. None comes where that has fewer exchanges: false.
fn is_cut(rt: &impl Aided, town: &mut Town, place: usize, trouble: Trouble) -> bool {
    let path = given(rt, format!(in rt.alloc(); "/f{place}"), "memory");
    let to = given(rt, format!(in rt.alloc(); "/g{place}"), "memory");
    let put = Command::Put {
        path: &path,
        content: b"text",
    };
    is_end(rt, &town.run_one(rt, &put), &path, "0 done|");
    town.set(rt, trouble);
    let first = rename(rt, town, &path, &to);
    town.set(rt, Trouble::Nothing);
    if first.status == 0 {
        return false;
    }
    is_end(rt, &first, &path, "4 cut|");
    goes_on(rt, town, &path, &to);
    true
}

/// Cuts it at each of its exchanges, of which the request is carried out or not: at how many.
fn sweep(rt: &impl Aided, town: &mut Town, is_carried_out: bool) -> usize {
    for place in 0..100 {
        let trouble = if is_carried_out {
            Trouble::CarriedOutAt(place)
        } else {
            Trouble::LostAt(place)
        };
        if !is_cut(rt, town, place, trouble) {
            return place;
        }
    }
    rt.fail("too many exchanges")
}

/// A look takes five exchanges as a process begins, and the root directory two; the file's i-node is asked for. Then come
/// the certificate, the four texts of the own part, which are stored and synced, and the structure. Of these texts the
/// next look asks for all: two with its certificate and its structure, and two for the root directory. Then the same is
/// written once more.
const EXCHANGES: usize = 5 + 2 + 1 + 7 + 4 + 2 + 7;

/// At 28 exchanges, each in two ways: 56 cases.
#[test]
fn a_file_keeps_a_name(rt: HostRuntime) {
    let rt = (rt, Here);
    for is_carried_out in [false, true] {
        let mut town = town_of(&rt, 1);
        all_end(&rt, &mut town, SETTLED);
        let exchanges = sweep(&rt, &mut town, is_carried_out);
        if exchanges != EXCHANGES {
            rt.fail(format_args!("{exchanges} exchanges"));
        }
        let_go(town);
    }
}
