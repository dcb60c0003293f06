//! What a command ends with whose server declines, answers with what breaks a rule, or with what is no reply, over a
//! way that fails, or where memory runs out; that it sends nothing after that; and that the next process goes on.

use crate::here::Here;
use crate::memory::Trouble;
use crate::operations::answered;
use crate::town::{Town, town_of};
use crate::words::{all_end, all_end_in_town, ends, on_one_line, run};
use layout::{digest, let_go};
use tests_aids::texts::{certificate, named, plan, signed, structure, vector_of};
use tests_aids::{Aided, check, check_text, given};
use wire::RequestKind;

/// The kind of requests that a server answers with this body, and what a command ends with.
type Lie = (RequestKind, &'static [u8], &'static str);

/// How many lies there are about requests of a kind.
const LIES: usize = 16;

/// Each lie in turn: a status alone, a status that there isn't, no status, a payload beside another status than 0, and
/// texts that are no reply, or not the block that was asked for.
fn lie(number: usize) -> Lie {
    match number {
        0 => (RequestKind::Commit, b"\x05", "3 declined 5|"),
        1 => (RequestKind::Commit, b"\x0a", "4 cut|"),
        2 => (RequestKind::Update, b"\x03", "3 declined 3|"),
        3 => (RequestKind::Update, b"\x08", "3 declined 8|"),
        4 => (RequestKind::Update, b"\x00", "2 broken 1 Form|"),
        5 => (RequestKind::Update, b"\0SRL1", "2 broken 1 Form|"),
        6 => (RequestKind::Update, b"", "4 cut|"),
        7 => (RequestKind::Get, b"\x08", "2 broken 6 Block|"),
        8 => (RequestKind::Get, b"\0another", "2 broken 6 Block|"),
        9 => (RequestKind::Get, b"\x06", "3 declined 6|"),
        10 => (RequestKind::Get, b"\x08\x00", "4 cut|"),
        11 => (RequestKind::Get, b"\xff", "4 cut|"),
        12 => (RequestKind::Put, b"\x07", "3 declined 7|"),
        13 => (RequestKind::Put, b"", "4 cut|"),
        14 => (RequestKind::Sync, b"\x09", "3 declined 9|"),
        _ => (RequestKind::Sync, b"\x01\0", "4 cut|"),
    }
}

/// Whether an operation is declared and not signed where requests of this kind fail.
fn leaves_it_declared(kind: RequestKind) -> bool {
    match kind {
        RequestKind::Update | RequestKind::Get => true,
        RequestKind::Commit | RequestKind::Put | RequestKind::Sync => false,
    }
}

/// A process sent nothing after its first request of a kind.
fn ends_at(rt: &impl Aided, town: &Town, kind: RequestKind) {
    let sent = town.sent(rt);
    let first = sent.iter().position(|sent| *sent == kind);
    check(
        rt,
        first == sent.len().checked_sub(1),
        "nothing more is sent",
    );
}

/// User 0's root directory has a file.
const SETTLED: &str = "0 put /f FILE < hello -> 0 done|";

/// The command ends so, and sends nothing after the request that is answered so; and the next one finds what stood
/// there before, and finishes what was declared.
fn is_told(rt: &impl Aided, town: &mut Town, (kind, body, end): Lie) {
    town.set(rt, Trouble::Lies(kind, body));
    let _requests = ends(rt, town, "0 put /f FILE", b"again", end);
    ends_at(rt, town, kind);
    town.set(rt, Trouble::Nothing);
    let outcome = run(rt, town, "0 cat /f", b"");
    let finished = !outcome.resumed.is_empty();
    check(rt, finished == leaves_it_declared(kind), "it is finished");
    check_text(rt, &outcome.printed, b"hello");
}

/// So is each lie, one after another.
fn all_are_told(rt: &impl Aided, town: &mut Town) {
    all_end(rt, town, SETTLED);
    for number in 0..LIES {
        is_told(rt, town, lie(number));
    }
}

#[test]
fn each_lie_is_told(rt: HostRuntime) {
    let rt = (rt, Here);
    let mut town = town_of(&rt, 1);
    all_are_told(&rt, &mut town);
    let_go(town);
}

/// The request of a process that is answered with a lie, by how many come before it; the body of the lie; and what the
/// process ends with.
type LieAt = (usize, &'static [u8], &'static str);

/// What a process that puts a new file of one block sends before the commit of its look: the commit again, the
/// certificate, and two blocks.
const BEFORE_LOOKS_COMMIT: usize = 1 + 1 + 2;

/// What it sends before the certificate of the operation that puts the file: the commit of the look, two blocks of the
/// root directory, the two texts of the file, and SYNC.
const BEFORE_UPDATE: usize = BEFORE_LOOKS_COMMIT + 1 + 2 + 2 + 1;

/// What it sends before the SYNC of that operation: the certificate, and four texts.
const BEFORE_SYNC: usize = BEFORE_UPDATE + 1 + 4;

/// What it sends before the commit of that operation.
const BEFORE_COMMIT: usize = BEFORE_SYNC + 1;

/// How many lies there are about single requests.
const LIES_AT: usize = 13;

/// Each lie about the operations of a process that puts a new file. A server that tells a commit that it doesn't carry
/// out is told it again.
fn lie_at(number: usize) -> LieAt {
    match number {
        0 => (BEFORE_LOOKS_COMMIT, b"\x05", "3 declined 5|"),
        1 => (BEFORE_LOOKS_COMMIT, b"\x0a", "4 cut|"),
        2 => (BEFORE_UPDATE, b"\x03", "3 declined 3|"),
        3 => (BEFORE_UPDATE, b"\x04", "3 declined 4|"),
        4 => (BEFORE_UPDATE, b"\x00", "2 broken 1 Form|"),
        5 => (BEFORE_UPDATE, b"\0SRL1", "2 broken 1 Form|"),
        6 => (BEFORE_UPDATE, b"", "4 cut|"),
        7 => (BEFORE_COMMIT, b"\x05", "3 declined 5|"),
        8 => (BEFORE_COMMIT, b"\x09", "3 declined 9|"),
        9 => (BEFORE_COMMIT, b"\x09\x00", "4 cut|"),
        10 => (BEFORE_SYNC, b"\x09", "3 declined 9|"),
        11 => (BEFORE_SYNC, b"", "4 cut|"),
        _ => (BEFORE_COMMIT, b"\0more", "0 done|"),
    }
}

/// The file of this number is put with such a lie. Then it is there where its operation was declared, which the next
/// process finishes, and says so unless it was signed.
fn is_told_at(rt: &impl Aided, town: &mut Town, number: usize, (at, body, end): LieAt) {
    let put = given(
        rt,
        format!(in rt.alloc(); "0 put /g{number} FILE"),
        "memory",
    );
    let cat = given(rt, format!(in rt.alloc(); "0 cat /g{number}"), "memory");
    town.set(rt, Trouble::LiesAt(at, body));
    let requests = ends(rt, town, &put, b"text", end);
    check(rt, requests == at.saturating_add(1), "nothing more is sent");
    town.set(rt, Trouble::Nothing);
    let outcome = run(rt, town, &cat, b"");
    let finished = !outcome.resumed.is_empty();
    let is_unsigned = at == BEFORE_UPDATE || at == BEFORE_SYNC;
    check(rt, finished == is_unsigned, "it is finished");
    let printed = if at == BEFORE_LOOKS_COMMIT {
        "no path|"
    } else {
        "text"
    };
    let text = on_one_line(rt, &outcome.printed);
    check_text(rt, &text, printed.as_bytes());
}

/// So is each lie, one after another. A server that says that it synced what it stored is believed.
fn all_are_told_at(rt: &impl Aided, town: &mut Town) {
    all_end(rt, town, SETTLED);
    for number in 0..LIES_AT {
        is_told_at(rt, town, number, lie_at(number));
    }
    town.set(rt, Trouble::Lies(RequestKind::Sync, b"\0"));
    let requests = ends(rt, town, "0 put /synced FILE", b"text", "0 done|");
    check(
        rt,
        requests == BEFORE_COMMIT.saturating_add(1),
        "it is done",
    );
}

#[test]
fn each_lie_about_an_operation_is_told(rt: HostRuntime) {
    let rt = (rt, Here);
    let mut town = town_of(&rt, 1);
    all_are_told_at(&rt, &mut town);
    let_go(town);
}

/// A way that fails. Behind each command is how many requests it sends.
const LOST: &str = "\
~ lost 0
0 ls / -> 4 cut| # 1
~ nothing
0 ls / -> 0 resumed 1|
";

/// Each block of a look is refused where another comes, or none: the i-node and the block of the root directory, and
/// those of the file. Five requests come before them: what was committed last again, the certificate, the root of the
/// i-table and its chunk, and the structure. The next process finds the file.
const BLOCKS: &str = "\
0 put /f FILE < hello -> 0 done|
~ another 5
0 cat /f -> 2 broken 6 Block| # 6
~ absent 5
0 cat /f -> 2 broken 6 Block| # 6
~ another 6
0 cat /f -> 2 broken 6 Block| # 7
~ absent 6
0 cat /f -> 2 broken 6 Block| # 7
~ another 7
0 cat /f -> 2 broken 6 Block| # 8
~ absent 7
0 cat /f -> 2 broken 6 Block| # 8
~ another 8
0 cat /f -> 2 broken 6 Block| # 9
~ absent 8
0 cat /f -> 2 broken 6 Block| # 9
~ nothing
0 cat /f -> 0 hello
";

/// Memory runs out at each exchange of a process in turn: the certificate, two blocks, the structure and two blocks.
const MEMORY: &str = "\
0 put /f FILE < hello -> 0 done|
~ memory 0
0 ls / -> 4 memory| # 1
~ memory 1
0 ls / -> 4 memory| # 2
~ memory 2
0 ls / -> 4 memory| # 3
~ memory 3
0 ls / -> 4 memory| # 4
~ memory 4
0 ls / -> 4 memory| # 5
~ memory 5
0 ls / -> 4 memory| # 6
~ memory 6
0 ls / -> 4 memory| # 7
";

#[test]
fn a_way_that_fails_blocks_of_a_look_and_want_of_memory_are_told(rt: HostRuntime) {
    let rt = (rt, Here);
    for table in [LOST, BLOCKS, MEMORY] {
        all_end_in_town(&rt, 1, table);
    }
}

/// User 1's first operation, which it signs by hand: the handle of its structure is the digest of a text that is no
/// root of an i-table. Before it are four operations of user 0.
fn signs_no_root(rt: &impl Aided, town: &mut Town, text: &[u8]) {
    let kept = town.leave_home(rt, 1);
    let mut server = town.leave_server(rt);
    let update = signed(rt, &kept.key, 0, &certificate(rt, 1, 1, &[0; 32]));
    let _reply = answered(rt, &mut server, RequestKind::Update, &update);
    let vector = vector_of(rt, &[(0, 4), (1, 1)]);
    let plan = plan(rt, 1, 1, &named(&update), &vector, b"\0");
    let structure = structure(rt, &plan, digest(text).as_bytes());
    let commit = signed(rt, &kept.key, 1, &structure);
    let _nothing = answered(rt, &mut server, RequestKind::Commit, &commit);
    town.come_home(1, kept);
    town.bring_back(server);
}

/// What stands there before user 1's first operation.
const BEGINNING: &str = "\
0 adduser 1 KEY1 -> 0 done|
0 put /f FILE < hello -> 0 done|
";

/// A block that has its digest, and is none for its place, breaks the rule on contents.
fn is_none_for_its_place(rt: &impl Aided, town: &mut Town) {
    all_end(rt, town, BEGINNING);
    signs_no_root(rt, town, b"hello");
    let _requests = ends(rt, town, "0 cat @1:5", b"", "2 broken 7 Content|");
    let last = town.sent(rt).last().copied();
    check(rt, last == Some(RequestKind::Get), "nothing more is sent");
    all_end(rt, town, "0 cat /f -> 0 hello");
}

#[test]
fn a_block_of_a_look_is_none_for_its_place(rt: HostRuntime) {
    let rt = (rt, Here);
    let mut town = town_of(&rt, 3);
    is_none_for_its_place(&rt, &mut town);
    let_go(town);
}
