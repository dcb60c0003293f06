//! Clients that stand alone, over devices in memory. Each step is written down with what the client answers.

use crate::acts::{NEVER, fails_of, row_of};
use crate::answers::{fields, look_text, opened_text, step_text, view_text};
use crate::notes::{Notes, USERS};
use crate::planning::{later_key, planned_of, user};
use client_verify::{Look, Phase, Step};
use layout::{let_go, put_in};
use lms_sign::PublicKey;
use std::alloc::Global;
use tests_aids::texts::{joined, key_of};
use tests_aids::{Aided, Host, check_text, found, given};
use tests_client_aids::changes::Planned;
use tests_client_aids::clients::{
    ClientParts, Kept, MemoryClient, begun, client_with, device_of, end, give, hand, look_at,
    open_over, open_parts, signed, signed_again, step_on,
};
use tests_client_aids::crashes::{Left, after_crash, bytes_left, has_failed};
use wire::Status;

/// How many blocks are handed in at most for one reply or one look.
const BOUND: usize = 100;

/// How many calls an opening makes of the device of a ledger that is there.
const OPENING_LEDGER: u64 = 4;

/// Each user's client; it is there but while it crashes.
pub(crate) type Clients = Vec<Option<MemoryClient>>;

/// A user's client.
fn client_in<'a>(
    rt: &impl Aided,
    clients: &'a mut [Option<MemoryClient>],
    number: u8,
) -> &'a mut MemoryClient {
    let client = found(rt, clients.get_mut(usize::from(number)), "a user");
    found(rt, client.as_mut(), "a client")
}

// ---- what a client does

/// It declares an operation of these changes: the certificate, or the error, where a device fails.
fn declares(
    rt: &impl Aided,
    client: &mut MemoryClient,
    notes: &mut Notes,
    changes: &[u8],
) -> Vec<u8> {
    let Planned {
        changes: planned,
        laid,
    } = planned_of(rt, &notes.keys, changes);
    let answer = begun(rt, client, &planned, &laid);
    let_go((planned, laid));
    if let Ok(update) = &answer {
        notes.store_laid(rt, changes);
        return joined(rt, &[b"b", update]);
    }
    has_failed(rt, client, &answer);
    joined(rt, &[b"edd"])
}

/// It signs its certificate once more, by its key of this number.
fn resigns(rt: &impl Aided, client: &mut MemoryClient, number: &[u8]) -> Vec<u8> {
    let number = usize::from(*found(rt, number.first(), "a number"));
    let update = given(rt, signed_again(rt, client, number), "a certificate");
    joined(rt, &[b"b", &update])
}

/// It signs what it accepted: the structure, or the error, where a device fails.
fn signs(rt: &impl Host, client: &mut MemoryClient) -> Vec<u8> {
    let answer = signed(rt, client);
    if let Ok(text) = &answer {
        assert!(rt; client.has_view());
        return view_text(rt, text, client.structures(), client.table(), client.lost());
    }
    has_failed(rt, client, &answer);
    joined(rt, &[b"esd"])
}

/// What it answers that judges a reply.
fn told_step(rt: &impl Aided, step: Step<Global>) -> Vec<u8> {
    let told = step_text(rt, &step);
    let_go(step);
    told
}

/// What it answers that looks.
fn told_look(rt: &impl Aided, look: Look<Global>) -> Vec<u8> {
    let told = look_text(rt, &look);
    let_go(look);
    told
}

/// It begins to look.
fn looks(rt: &impl Aided, client: &mut MemoryClient, rest: &[u8]) -> Vec<u8> {
    let [owner, number] = rest else {
        rt.fail("no i-number")
    };
    told_look(rt, look_at(rt, client, *owner, u16::from(*number)))
}

/// What it answers to this.
fn does(
    rt: &impl Host,
    client: &mut MemoryClient,
    notes: &mut Notes,
    letter: u8,
    rest: &[u8],
) -> Vec<u8> {
    match letter {
        b'd' => declares(rt, client, notes, rest),
        b'a' => resigns(rt, client, rest),
        b's' => signs(rt, client),
        b'r' => told_step(rt, step_on(rt, client, rest)),
        b'b' => told_step(rt, hand(rt, client, Some(rest))),
        b'v' => looks(rt, client, rest),
        b'g' => told_look(rt, give(rt, client, Some(rest))),
        b'c' => {
            end(rt, client, Status::Ok);
            joined(rt, &[b"c"])
        }
        _ => rt.fail("no letter"),
    }
}

/// A user's client does this, and in the run a device fails so.
pub(crate) fn acts_failing(
    rt: &impl Host,
    clients: &mut Clients,
    notes: &mut Notes,
    (number, fails): (u8, &[u8; 2]),
    letter: u8,
    rest: &[u8],
) {
    let client = client_in(rt, clients, number);
    let told = does(rt, client, notes, letter, rest);
    notes.add(rt, number, row_of(rt, number, fails, letter, rest), told);
}

/// A user's client does this.
pub(crate) fn acts(
    rt: &impl Host,
    clients: &mut Clients,
    notes: &mut Notes,
    number: u8,
    letter: u8,
    rest: &[u8],
) {
    acts_failing(rt, clients, notes, (number, NEVER), letter, rest);
}

/// A user's client is handed this, and then by the other letter each block that it asks for.
pub(crate) fn goes_through(
    rt: &impl Host,
    clients: &mut Clients,
    notes: &mut Notes,
    number: u8,
    (first, next): (u8, u8),
    rest: &[u8],
) {
    acts(rt, clients, notes, number, first, rest);
    for _ in 0..BOUND {
        match notes.asked(rt) {
            Some(block) => acts(rt, clients, notes, number, next, &block),
            None => return,
        }
    }
    rt.fail("too many blocks")
}

/// Of its accepted view these changes are lost.
pub(crate) fn has_lost(rt: &impl Host, clients: &mut Clients, number: u8, lost: &[u8]) {
    let client = client_in(rt, clients, number);
    assert!(rt; client.has_view());
    check_text(rt, client.lost(), lost);
}

// ---- openings and crashes

/// A user's client was opened.
fn is_opened(rt: &impl Host, notes: &mut Notes, number: u8, client: &MemoryClient) {
    let phase = client.phase();
    let again = match phase {
        Phase::Declared => client.declared(),
        Phase::Signed => client.signed(),
        _ => &[],
    };
    let told = opened_text(rt, phase, again);
    notes.add(rt, number, row_of(rt, number, NEVER, b'o', b""), told);
}

/// The clients are open, over devices on which nothing stands.
pub(crate) fn open_all(rt: &impl Host, notes: &mut Notes) -> Clients {
    let pinned = notes.pinned(rt);
    let mut clients = Vec::new(rt.alloc());
    for number in 0..USERS {
        let client = client_with(rt, number, key_of(rt, number), pinned);
        is_opened(rt, notes, number, &client);
        given(rt, clients.push(Some(client)), "memory");
    }
    clients
}

/// A user's client in the place of one that was closed: it has the key of this number, too, and a new ledger.
fn opened_with(
    rt: &impl Host,
    pinned: PublicKey,
    number: u8,
    count: usize,
    parts: ClientParts,
) -> MemoryClient {
    let [.., before] = count.to_be_bytes();
    let mut parts = parts;
    let key = (later_key(rt, number, before), device_of(rt, b""));
    given(rt, parts.keys.push(key), "memory");
    open_parts(rt, user(rt, number), pinned, parts)
}

/// A user's client is closed, gains its next key, and is opened again.
pub(crate) fn gains(rt: &impl Host, clients: &mut Clients, notes: &mut Notes, number: u8) {
    let place = found(rt, clients.get_mut(usize::from(number)), "a user");
    let client = found(rt, place.take(), "a client");
    let count = client.key_count();
    for (letter, told) in [(b'k', b"k"), (b'n', b"y")] {
        let row = row_of(rt, number, NEVER, letter, b"");
        notes.add(rt, number, row, joined(rt, &[told]));
    }
    let client = opened_with(rt, notes.pinned(rt), number, count, client.close());
    is_opened(rt, notes, number, &client);
    put_in(place, Some(client));
}

/// How many calls an opening makes of the device of a journal of this size, which tells this phase of the first
/// operation. It syncs, and asks for the size; then it makes the file anew, by a write and a sync, or reads the first
/// gate. After an open one it reads a header, the next gate, and the certificate.
fn opening_journal(phase: Phase, size: usize) -> u64 {
    if phase == Phase::Declared {
        return 6;
    }
    if size > 1 { 3 } else { 4 }
}

/// Of a client that was in this phase devices fail, after an opening and so many calls.
fn fail_later(kept: &mut Kept, phase: Phase, [ledger, journal]: [u8; 2]) {
    if let Some(calls) = fails_of(ledger) {
        kept.ledger.fail_after(OPENING_LEDGER.saturating_add(calls));
    }
    if let Some(calls) = fails_of(journal) {
        let opening = opening_journal(phase, kept.journal.text().len());
        kept.journal.fail_after(opening.saturating_add(calls));
    }
}

/// A user's client crashes, which leaves this: what is kept of it.
fn crashed(
    rt: &impl Host,
    notes: &mut Notes,
    number: u8,
    client: MemoryClient,
    left: Left,
) -> Kept {
    client.type_invariant();
    let ledger = bytes_left(rt, client.ledger_of(0), left);
    let journal = bytes_left(rt, client.journal(), left);
    let row = row_of(rt, number, NEVER, b'x', b"");
    let row = joined(rt, &[&row, &fields(rt, &[&ledger, &journal])]);
    notes.add(rt, number, row, joined(rt, &[b"x"]));
    after_crash(rt, client, left)
}

/// A user's client crashes, which leaves what is synced, `s`, or all that is written, `w`. It is opened again over
/// devices that fail so after the opening.
pub(crate) fn restarts(
    rt: &impl Host,
    clients: &mut Clients,
    notes: &mut Notes,
    number: u8,
    left: u8,
    fails: [u8; 2],
) {
    let left = if left == b's' {
        Left::Synced
    } else {
        Left::Written
    };
    let place = found(rt, clients.get_mut(usize::from(number)), "a user");
    let client = found(rt, place.take(), "a client");
    let phase = client.phase();
    let mut kept = crashed(rt, notes, number, client, left);
    fail_later(&mut kept, phase, fails);
    let client = open_over(rt, user(rt, number), notes.pinned(rt), kept);
    is_opened(rt, notes, number, &client);
    put_in(place, Some(client));
}
