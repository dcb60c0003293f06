//! Runs in which users get further keys. What a user declared by an older key than the listed one is declined, and
//! signed again by another key; what is pending is signed by the key under which it was placed. And an honest run with
//! a renewal before each command in turn, which comes to what it comes to without.

use crate::answers::view_in;
use crate::here::Here;
use crate::honest::{Rows, answers_of, does};
use crate::notes::new_notes;
use crate::planning::{add_second_key, keys};
use crate::stage::plays_on;
use layout::let_go;
use lms_sign::PublicKey;
use std::ops::Range;
use tests_aids::texts::joined;
use tests_aids::{Host, check, found};

// ---- clients that stand alone, and the same in a run

/// User 1's second key stands behind the keys of users 0 to 2. What the first key signed is declined, and signed by the
/// second one, which signs from then on. A third one, which nobody lists, is declined, as is the first, and the second
/// one signs.
static RENEWED: [&[u8]; 24] = [
    b"0Du\x01",
    b"0pasc",
    b"1Df\x01\x05first",
    b"0Dk\x01\x03",
    b"0pasc",
    b"1x",
    b"1G",
    b"1~od",
    b"1R\x01",
    b"1pasc",
    b"1Dp\x01\x05second",
    b"1pasc",
    b"1L\x01\x05",
    b"1=Fsecond",
    b"1G",
    b"1~os",
    b"1edx",
    b"1R\x00",
    b"1x",
    b"1R\x01",
    b"1pasc",
    b"0dpasc",
    b"0L\x01\x05",
    b"0=Fsecond",
];

#[test]
fn keys_are_renewed_in_a_run(rt: HostRuntime) {
    let rt = &(rt, Here);
    let mut notes = new_notes(rt);
    add_second_key(rt, &mut notes.keys, 1);
    let_go(plays_on(rt, notes, &RENEWED));
}

// ---- honest runs, as commands

/// A user, the letters of its steps, and what each of these takes, as `honest.rt` says; and what one of them comes to,
/// as `seen` tells it.
type Command = (u8, &'static [u8], &'static [u8], &'static [u8]);

/// The letters of an update: a reply is handed ten blocks.
const UPDATES: &[u8] = b"ubbbbbbbbbbs";

/// The same by a user who may have to sign its certificate again. Where that wasn't declined nothing is signed, and it
/// is sent twice.
const TRIES: &[u8] = b"uaubbbbbbbbbbs";

/// The number of the key by which it is signed again.
const SECOND: &[u8] = b"\x01";

/// The letters of a look.
const LOOKS: &[u8] = b"vgggggggggg";

/// User 1's second key stands behind the keys of users 0 and 1. It signs what was declined once it was declined, and
/// nothing else. A third key isn't listed: the first one is declined, too, and the second one signs.
static ONE_RENEWED: [Command; 29] = [
    (0, b"o", b"", b"oi"),
    (1, b"o", b"", b"oi"),
    (0, b"d", b"u\x01", b"b"),
    (0, UPDATES, b"", b"s"),
    (0, b"c", b"", b"v\0"),
    (1, b"d", b"f\x01\x05first", b"b"),
    (0, b"d", b"k\x01\x02", b"b"),
    (0, UPDATES, b"", b"s"),
    (0, b"c", b"", b"v\0"),
    (1, b"n", b"", b"-"),
    (1, b"k", b"", b"k"),
    (1, b"n", b"", b"y"),
    (1, b"o", b"", b"od"),
    (1, b"a", SECOND, b"-"),
    (1, b"u", b"", b"v\x03"),
    (1, b"a", SECOND, b"b"),
    (1, b"a", b"\0", b"-"),
    (1, UPDATES, b"", b"s"),
    (1, b"c", b"", b"v\0"),
    (1, b"kn", b"", b"y"),
    (1, b"o", b"", b"os"),
    (1, b"c", b"", b"v\0"),
    (1, b"d", b"p\x01\x05second", b"b"),
    (1, b"u", b"", b"v\x03"),
    (1, b"a", b"\0", b"b"),
    (1, b"u", b"", b"v\x03"),
    (1, TRIES, SECOND, b"s"),
    (1, b"c", b"", b"v\0"),
    (1, LOOKS, b"\x01\x05", b"Fsecond"),
];

/// Adds a command's steps.
fn add_steps(rt: &impl Host, rows: &mut Rows, (user, letters, rest, _): &Command) {
    for letter in *letters {
        does(rt, rows, *user, *letter, rest);
    }
}

/// What is seen of an answer: of a view the numbers of its lost changes, of a client that is open its phase, of a
/// certificate that it is one, and of another answer all.
fn seen(rt: &impl Host, told: &[u8]) -> Vec<u8> {
    if let Some(view) = view_in(rt, told) {
        return joined(rt, &[b"s", view.lost]);
    }
    match told {
        [b'o', phase, ..] => joined(rt, &[&[b'o', *phase]]),
        [b'b', ..] => joined(rt, &[b"b"]),
        _ => joined(rt, &[told]),
    }
}

/// Whether one of these answers is seen so.
fn come_to(rt: &impl Host, told: &[Vec<u8>], wanted: &[u8]) -> bool {
    for told in told {
        if seen(rt, told).as_slice() == wanted {
            return true;
        }
    }
    false
}

/// Adds the steps of these commands.
fn add_all(rt: &impl Host, rows: &mut Rows, commands: &[Command]) {
    for command in commands {
        add_steps(rt, rows, command);
    }
}

/// These commands come to what stands beside them, by the answers from this place on: behind which place the last of
/// these answers stands.
fn part_comes_to(rt: &impl Host, told: &[Vec<u8>], first: usize, commands: &[Command]) -> usize {
    let mut first = first;
    for (place, (_, letters, _, wanted)) in commands.iter().enumerate() {
        let end = first.wrapping_add(letters.len());
        let own = found(rt, told.get(first..end), "steps");
        assert!(rt; come_to(rt, own, wanted), "at {place}: {wanted:?}");
        first = end;
    }
    first
}

/// In an honest run each command comes to what stands beside it, where these are the keys of the users from 0 on, and
/// then others.
fn all_come_to(rt: &impl Host, keys: &[PublicKey], commands: &[Command]) {
    let mut rows = Vec::new(rt.alloc());
    add_all(rt, &mut rows, commands);
    let told = answers_of(rt, keys, &rows);
    let _end = part_comes_to(rt, &told, 0, commands);
}

#[test]
fn keys_are_renewed_in_an_honest_run(rt: HostRuntime) {
    let rt = &(rt, Here);
    let mut keys = keys(rt, 2);
    add_second_key(rt, &mut keys, 1);
    all_come_to(rt, &keys, &ONE_RENEWED);
}

// ---- a renewal before each command in turn

/// How many commands there are.
const COUNT: usize = 31;

/// Users 1 and 2 write beside one another, user 0 reads what they have pending, and user 1 is dropped from a group
/// before its write is placed.
static COMMANDS: [Command; COUNT] = [
    (0, b"o", b"", b"oi"),
    (1, b"o", b"", b"oi"),
    (2, b"o", b"", b"oi"),
    (0, b"d", b"u\x01;u\x02;m\x40\x01;m\x40\x02", b"b"),
    (0, UPDATES, b"", b"s"),
    (0, b"c", b"", b"v\0"),
    (1, b"d", b"f\x01\x05one;f\x40\x40shared", b"b"),
    (2, b"d", b"f\x02\x05two", b"b"),
    (1, TRIES, SECOND, b"s"),
    (2, TRIES, SECOND, b"s"),
    (2, b"c", b"", b"v\0"),
    (0, b"d", b"", b"b"),
    (0, UPDATES, b"", b"s"),
    (0, b"c", b"", b"v\0"),
    (0, LOOKS, b"\x01\x05", b"Fone"),
    (0, LOOKS, b"\x02\x05", b"Ftwo"),
    (1, b"c", b"", b"v\0"),
    (1, b"d", b"p\x40\x40late", b"b"),
    (0, b"d", b"d\x40\x01", b"b"),
    (0, UPDATES, b"", b"s"),
    (0, b"c", b"", b"v\0"),
    (1, TRIES, SECOND, b"s\x01"),
    (2, b"d", b"p\x40\x40both;p\x02\x05again", b"b"),
    (2, TRIES, SECOND, b"s"),
    (1, b"c", b"", b"v\0"),
    (2, b"c", b"", b"v\0"),
    (0, b"d", b"", b"b"),
    (0, UPDATES, b"", b"s"),
    (0, b"c", b"", b"v\0"),
    (0, LOOKS, b"\x40\x40", b"Fboth"),
    (0, LOOKS, b"\x02\x05", b"Fagain"),
];

/// User 0 sets the second keys of users 1 and 2, which stand behind the keys of users 0 to 2.
static RENEWAL: [Command; 3] = [
    (0, b"d", b"k\x01\x03;k\x02\x04", b"b"),
    (0, UPDATES, b"", b"s"),
    (0, b"c", b"", b"v\0"),
];

/// Whether a user has no operation under way after these commands.
fn is_idle(commands: &[Command], user: u8) -> bool {
    for (of, letters, _, _) in commands.iter().rev() {
        match letters.first() {
            Some(b'c') if *of == user => return true,
            Some(b'd' | b'u') if *of == user => return false,
            _ => {}
        }
    }
    true
}

/// A user's client gains its second key. One that is idle is opened again where it had signed last, and so what it
/// signed is committed again.
fn gaining(user: u8, is_idle: bool) -> Command {
    let letters: &[u8] = if is_idle { b"knoc" } else { b"kno" };
    (user, letters, b"", b"y")
}

/// All commands come to what they come to without a renewal, where it stands between these.
fn come_to_the_same(rt: &impl Host, keys: &[PublicKey], before: &[Command], after: &[Command]) {
    let gains = [
        gaining(1, is_idle(before, 1)),
        gaining(2, is_idle(before, 2)),
    ];
    let mut rows = Vec::new(rt.alloc());
    add_all(rt, &mut rows, before);
    add_all(rt, &mut rows, &RENEWAL);
    add_all(rt, &mut rows, &gains);
    add_all(rt, &mut rows, after);
    let told = answers_of(rt, keys, &rows);
    let renewal = part_comes_to(rt, &told, 0, before);
    let gain = part_comes_to(rt, &told, renewal, &RENEWAL);
    let rest = part_comes_to(rt, &told, gain, &gains);
    let _end = part_comes_to(rt, &told, rest, after);
}

/// So they do where it stands before the one of any of these places at which user 0 has no operation under way: how
/// many places that are.
fn renewed_before(rt: &impl Host, places: Range<usize>) -> usize {
    let mut keys = keys(rt, 3);
    add_second_key(rt, &mut keys, 1);
    add_second_key(rt, &mut keys, 2);
    let mut count = 0usize;
    for place in places {
        let (before, after) = COMMANDS.split_at(place.min(COMMANDS.len()));
        if is_idle(before, 0) {
            come_to_the_same(rt, &keys, before, after);
            count = count.wrapping_add(1);
        }
    }
    count
}

/// Before that users 1 and 2 aren't listed, and have no key to be renewed.
const LISTED: usize = 6;

/// The places are parted, so that each test has four of them. At the others user 0 has an operation under way.
fn four_renewed(rt: &impl Host, places: Range<usize>) {
    check(rt, renewed_before(rt, places) == 4, "four places");
}

#[test]
fn keys_are_renewed_before_first_certificates(rt: HostRuntime) {
    four_renewed(&(rt, Here), LISTED..10);
}

#[test]
fn keys_are_renewed_while_a_write_is_pending(rt: HostRuntime) {
    four_renewed(&(rt, Here), 10..16);
}

#[test]
fn keys_are_renewed_before_a_member_is_dropped(rt: HostRuntime) {
    four_renewed(&(rt, Here), 16..22);
}

#[test]
fn keys_are_renewed_after_a_member_was_dropped(rt: HostRuntime) {
    four_renewed(&(rt, Here), 22..26);
}

#[test]
fn keys_are_renewed_before_the_last_looks(rt: HostRuntime) {
    four_renewed(&(rt, Here), 26..COUNT + 1);
}

#[test]
fn no_key_is_renewed(rt: HostRuntime) {
    let rt = &(rt, Here);
    all_come_to(rt, &keys(rt, 3), &COMMANDS);
}
