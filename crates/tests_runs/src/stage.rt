//! Scripts of clients that stand alone, at servers. Each row is a user, in a digit, and letters; `run` answers all
//! their steps as the clients did.
//!
//! One step a letter: `d`, the user declares an operation without changes; `p`, that is placed; `a`, its client accepts
//! the reply; `j`, it judges the reply; `s`, it signs; `c`, the structure is committed; `e`, the client is told so
//! without a server; `r` and `w`, the client crashes, which leaves what is synced or all that is written, and is opened
//! again; `q` and `z`, the server that can lie places the operation or commits the structure; `x`, the server declines
//! the certificate's signature; `G`, the client gains its next key. `F`, the user goes to a new server, which has
//! answered the same calls so far as the first one.
//!
//! Rows that go on after the letter:
//!
//! - `D`: the changes of an operation that is declared;
//! - `A`: a letter, `d` or `s`, and after how many calls devices are to fail in it, so late that none does;
//! - `X`: a letter, `d` or `s`, a device, `l` or `j`, and which of its calls fails; what a crash leaves then, `s` or
//!   `w`;
//! - `R`: the number of a key, in a byte, by which the client signs its certificate once more;
//! - `L`: a principal and an i-number that are looked at; `T`: the lost changes of the view;
//! - `H`: a reply by hand (`Notes::is_answered`);
//! - `B`: `u` for a certificate or `c` for a structure; which one: `-`, no bytes, `l`, the last one, `x`, that one
//!   changed, else a place among those that were signed; and the status that both servers answer;
//! - `K`: the user's stolen key signs a structure, with these versions (`thief.rt`);
//! - `I`: another user, an entry of whose last operation is invented; `O`: the structure is forced;
//! - `=`: the last answer; `~`: its beginning.

use crate::acts::{NEVER, answers_of};
use crate::clients::{
    Clients, acts, acts_failing, gains, goes_through, has_lost, open_all, restarts,
};
use crate::notes::{Notes, Place, latest, new_notes, place_in};
use crate::planning::user;
use crate::servers::{Servers, new_servers};
use crate::thief;
use layout::{let_go, put_in};
use tests_aids::texts::{changed, joined};
use tests_aids::{Host, check, check_text, found, given};
use wire::Status;

/// The last answer begins with this letter.
fn is_told(rt: &impl Host, notes: &Notes, letter: u8) {
    let told = notes.last();
    if told.first() != Some(&letter) {
        rt.fail(format_args!("{told:?} and not {letter}"));
    }
}

/// A user's client does this, and its answer begins with a letter.
fn does(
    rt: &impl Host,
    clients: &mut Clients,
    notes: &mut Notes,
    number: u8,
    (letter, wanted): (u8, u8),
    rest: &[u8],
) {
    acts(rt, clients, notes, number, letter, rest);
    is_told(rt, notes, wanted);
}

/// A user's client is handed its reply, and each block that it asks for.
fn judges(rt: &impl Host, clients: &mut Clients, notes: &mut Notes, number: u8) {
    let reply = joined(rt, &[&place_in(rt, &mut notes.places, number).reply]);
    goes_through(rt, clients, notes, number, (b'r', b'b'), &reply);
}

/// A user's client accepts its reply.
fn accepts(rt: &impl Host, clients: &mut Clients, notes: &mut Notes, number: u8) {
    judges(rt, clients, notes, number);
    is_told(rt, notes, b't');
}

/// What a client does by a letter.
fn client_does(rt: &impl Host, clients: &mut Clients, notes: &mut Notes, number: u8, letter: u8) {
    match letter {
        b'd' => does(rt, clients, notes, number, (b'd', b'b'), b""),
        b'a' => accepts(rt, clients, notes, number),
        b'j' => judges(rt, clients, notes, number),
        b's' => does(rt, clients, notes, number, (b's', b's'), b""),
        b'e' => does(rt, clients, notes, number, (b'c', b'c'), b""),
        b'r' => restarts(rt, clients, notes, number, b's', *NEVER),
        b'w' => restarts(rt, clients, notes, number, b'w', *NEVER),
        b'G' => gains(rt, clients, notes, number),
        _ => rt.fail("no letter"),
    }
}

/// What a server does by a letter: whether that letter is one.
fn server_does(
    rt: &impl Host,
    servers: &mut Servers,
    notes: &mut Notes,
    number: u8,
    letter: u8,
) -> bool {
    let pinned = notes.pinned(rt);
    let place = place_in(rt, &mut notes.places, number);
    match letter {
        b'p' => put_in(
            &mut place.reply,
            servers.asked(rt, place.server, b'u', &place.update),
        ),
        b'q' => put_in(
            &mut place.reply,
            servers.lying_asked(rt, b'u', &place.update),
        ),
        b'x' => servers.declines(rt, place.server, &place.update),
        b'F' => place.server = servers.fork(rt, pinned),
        b'c' | b'z' => {
            let text = found(rt, place.structures.last(), "a structure");
            let payload = match letter {
                b'c' => servers.asked(rt, place.server, b'c', text),
                _ => servers.lying_asked(rt, b'c', text),
            };
            check(rt, payload.is_empty(), "no payload");
        }
        _ => return false,
    }
    true
}

/// A user does what these letters say, in turn.
fn goes_on(
    rt: &impl Host,
    clients: &mut Clients,
    servers: &mut Servers,
    notes: &mut Notes,
    number: u8,
    letters: &[u8],
) {
    for letter in letters {
        let is_served = server_does(rt, servers, notes, number, *letter);
        if matches!(letter, b'c' | b'z') {
            client_does(rt, clients, notes, number, b'e');
        }
        if !is_served {
            client_does(rt, clients, notes, number, *letter);
        }
    }
}

/// The client restarts, can't declare an operation, or can't sign over its reply, since a device fails so, and restarts
/// after a crash.
fn goes_on_in_vain(
    rt: &impl Host,
    clients: &mut Clients,
    notes: &mut Notes,
    number: u8,
    [letter, device, call, left]: [u8; 4],
) {
    let fails = if device == b'l' {
        [call, b'-']
    } else {
        [b'-', call]
    };
    restarts(rt, clients, notes, number, b's', fails);
    if letter == b's' {
        accepts(rt, clients, notes, number);
    }
    acts_failing(rt, clients, notes, (number, &fails), letter, b"");
    check_text(rt, notes.last(), &[b'e', letter, b'd']);
    restarts(rt, clients, notes, number, left, *NEVER);
}

/// The last structure of a user, where that was sent and there is one, or else the last certificate.
fn last_sent(place: &Place, call: u8) -> &[u8] {
    if call == b'c'
        && let Some(structure) = place.structures.last()
    {
        return structure;
    }
    &place.update
}

/// What both servers are asked: a certificate or a structure of a user.
fn asked_of(rt: &impl Host, notes: &mut Notes, number: u8, call: u8, which: u8) -> Vec<u8> {
    let place = place_in(rt, &mut notes.places, number);
    match which {
        b'-' => Vec::new(rt.alloc()),
        b'l' => joined(rt, &[last_sent(place, call)]),
        b'x' => changed(rt, last_sent(place, call)),
        _ => {
            let at = usize::from(which.wrapping_sub(b'0'));
            let structure = found(rt, place.structures.get(at), "a structure");
            joined(rt, &[structure])
        }
    }
}

/// Both servers answer this status: to a certificate that is placed the reply.
fn both_answer(
    rt: &impl Host,
    servers: &mut Servers,
    notes: &mut Notes,
    number: u8,
    [call, which, status]: [u8; 3],
) {
    let text = asked_of(rt, notes, number, call, which);
    let status = found(
        rt,
        Status::from_number(status.wrapping_sub(b'0')),
        "a status",
    );
    match (call, status) {
        (b'u', Status::Ok) => {
            let reply = &place_in(rt, &mut notes.places, number).reply;
            servers.both_answer(rt, (call, &text), status, reply);
        }
        _ => servers.both_answer(rt, (call, &text), status, &[]),
    }
}

/// A row of servers, or of what was answered: whether it is one.
fn is_row_of_servers(
    rt: &impl Host,
    servers: &mut Servers,
    notes: &mut Notes,
    number: u8,
    row: &[u8],
) -> bool {
    match row {
        [b'B', call, which, status] => {
            both_answer(rt, servers, notes, number, [*call, *which, *status]);
        }
        [b'I', other] => {
            let invented = servers.lying.invent(user(rt, number), user(rt, *other));
            check(rt, given(rt, invented, "memory"), "an entry");
        }
        [b'O'] => {
            let forced = servers.lying.force(latest(rt, &notes.places, number));
            check(rt, given(rt, forced, "memory"), "a structure");
        }
        [b'H', reply @ ..] => notes.is_answered(rt, number, reply),
        [b'K', table, versions @ ..] => thief::signs(rt, notes, number, *table, versions),
        [b'=', told @ ..] => check_text(rt, notes.last(), told),
        [b'~', told @ ..] => check(rt, notes.last().starts_with(told), "the last answer"),
        _ => return false,
    }
    true
}

/// A row of clients: whether it is one.
fn is_row_of_clients(
    rt: &impl Host,
    clients: &mut Clients,
    notes: &mut Notes,
    number: u8,
    row: &[u8],
) -> bool {
    match row {
        [b'D', changes @ ..] => does(rt, clients, notes, number, (b'd', b'b'), changes),
        [b'A', letter, ledger, journal] => {
            acts_failing(
                rt,
                clients,
                notes,
                (number, &[*ledger, *journal]),
                *letter,
                b"",
            );
            check(rt, notes.last().first() != Some(&b'e'), "no device fails");
        }
        [b'R', key] => does(rt, clients, notes, number, (b'a', b'b'), &[*key]),
        [b'X', letter, device, call, left] => {
            goes_on_in_vain(rt, clients, notes, number, [*letter, *device, *call, *left]);
        }
        [b'L', place @ ..] => goes_through(rt, clients, notes, number, (b'v', b'g'), place),
        [b'T', lost @ ..] => has_lost(rt, clients, number, lost),
        _ => return false,
    }
    true
}

/// A row of a script.
fn does_row(
    rt: &impl Host,
    clients: &mut Clients,
    servers: &mut Servers,
    notes: &mut Notes,
    row: &[u8],
) {
    let [digit, rest @ ..] = row else {
        rt.fail("no row")
    };
    let number = digit.wrapping_sub(b'0');
    if !is_row_of_clients(rt, clients, notes, number, rest)
        && !is_row_of_servers(rt, servers, notes, number, rest)
    {
        goes_on(rt, clients, servers, notes, number, rest);
    }
}

/// The clients of users 0 to 2 are opened, and what the script says happens. Then `run` carries all their steps out,
/// and answers each as the clients did.
pub(crate) fn plays(rt: &impl Host, script: &[&[u8]]) -> Notes {
    plays_on(rt, new_notes(rt), script)
}

/// The same from notes in which nothing was done yet.
pub(crate) fn plays_on(rt: &impl Host, notes: Notes, script: &[&[u8]]) -> Notes {
    let mut notes = notes;
    let mut clients = open_all(rt, &mut notes);
    let mut servers = new_servers(rt, notes.pinned(rt));
    for row in script {
        does_row(rt, &mut clients, &mut servers, &mut notes, row);
    }
    let_go((clients, servers));
    is_carried_out(rt, &notes);
    notes
}

/// `run` answers each step as was told.
fn is_carried_out(rt: &impl Host, notes: &Notes) {
    let answers = answers_of(rt, &notes.keys, &notes.rows);
    for (place, (answer, told)) in answers.iter().zip(&notes.told).enumerate() {
        assert!(rt; answer.as_slice() == told.as_slice(), "at {place}");
    }
}
