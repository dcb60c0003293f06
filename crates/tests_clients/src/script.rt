//! A test as a script: a line an act, which says after `=` what comes of it, as a text. Where something else does, the
//! test fails. An act is named by the first letter of its first word; clients and keys are named by a digit, that of
//! their user, and texts by a letter. A line that begins with `#` is a comment.
//!
//! Texts that are made by hand:
//!
//! - `text X WORDS`: text X is that of these words.
//! - `key X Y LEAF KEY`: text Y, and its signature. `between X Y FROM TO`: the bytes of Y from one place to another.
//!   `flip X Y PLACE`: Y with the lowest bit of this byte changed.
//! - `equal X` tells the text, and `measure X` its size in four bytes. `store WORDS` stores the text of each word.
//!
//! A word stands for these bytes: `X` for text X; `'letters` for letters, and pairs of hexadecimal digits for bytes;
//! `:7` for a number in four bytes; `#X` for the digest of X, and `%X` for that of what stands before its signature;
//! `+X` and `*X` for the sizes of the same, in two bytes; `!0` for user 0's public key; `$X` for a text that each
//! script knows.
//!
//! What clients do:
//!
//! - `plan make OWNER NUMBER FILE`, `put`, `remove OWNER NUMBER`, `mkdir`, `link OWNER NUMBER NAME TARGET`, `unlink
//!   OWNER NUMBER NAME`, `list USER KEY`, `set KEY USER`, `member GROUP USER` and `drop GROUP USER` plan changes.
//!   `declare USER X`: text X is the certificate of the user's next operation, of these changes. `declare USER X KEY`:
//!   it is the declared one, signed once more by the own key of this number.
//! - `hear USER X`: a reply is judged, with the stored blocks. `ask USER X` hands in the reply alone, and `give USER X`
//!   then a block; `give USER -` none.
//! - `issue USER X`: text X is the structure that the client signs. `over USER`: it was committed.
//! - `now USER X` tells in which phase the client is, and its number; text X is what it has declared or signed. `query
//!   USER X` tells whether it has a view, and its lost changes; text X is the view's only structure.
//! - `who USER` tells by which own key the declared certificate is signed, if by one, and how many keys the client has,
//!   each in a byte, and how many leaves of the newest aren't used.
//! - `restart USER closed`: it is closed, and opened again. Other words say what is left of it, and what changes then.
//!   `restart USER gains KEY LEDGER`: it has this key more, with a ledger of this text, or an empty one; `restart USER
//!   loses`: its newest key is gone. `restart USER holds LEDGER JOURNAL`: it is opened over files of these texts.
//! - `look USER OWNER NUMBER`, `what USER OWNER NUMBER`, `vacant USER OWNER FIRST LAST`: a look with the stored blocks,
//!   at what stands there, at its kind, and for the least i-number at which nothing stands.
//!
//! `hear` and the looks leave in text Z the digests of the blocks that were asked for, and in text Y how many texts are
//! new, in a byte, and these, each after its size.
//!
//! What two servers do, of which a digit names one: `update SERVER X STATUS Y`: the answer to a certificate has this
//! status, and text Y is its payload. `commit SERVER X STATUS`: that to a structure has this status, and no payload.
//! `yield 0` tells how many events the first one has made.

use crate::acts::{Stage, client_acts};
use crate::reopening::{open_over_files, open_with_keys, restart};
use crate::words::{
    ByHand, byte, key_in, letter_of, makes, nothing_by_hand, put_text, short, text_at, text_of,
    words_of,
};
use client_tree::Held;
use layout::{Group, User, digest, let_go};
use lms_sign::PublicKey;
use std::alloc::Global;
use tests_aids::blocks::EMPTY_INODE;
use tests_aids::numbers::{entry, i_number, name, principal};
use tests_aids::tables::FORM;
use tests_aids::texts::{joined, key_of};
use tests_aids::{Host, found};
use tests_client_aids::changes::{Planned, lay, nothing, plan_change};
use tests_client_aids::clients::{MemoryClient, client_with};
use tests_client_aids::servers::{Server, answers_commit, answers_update_so, server_of};
use tree_parts::Blocks;
use update_cert::{Action, Change, TableChange};
use wire::Status;

/// The place of a user's client, which is empty while the client is opened again.
fn slot_of<'a>(
    rt: &impl Host,
    users: &'a mut [Option<MemoryClient>],
    user: u8,
) -> &'a mut Option<MemoryClient> {
    users.get_mut(usize::from(user)).expect(rt, "a user")
}

/// A user's client.
pub(crate) fn client_in<'a>(
    rt: &impl Host,
    users: &'a mut [Option<MemoryClient>],
    user: u8,
) -> &'a mut MemoryClient {
    slot_of(rt, users, user).as_mut().expect(rt, "a client")
}

/// A status by its name.
fn status_of(rt: &impl Host, word: &[u8]) -> Status {
    match word {
        b"ok" => Status::Ok,
        b"unknown_user" => Status::UnknownUser,
        b"bad_signature" => Status::BadSignature,
        b"wrong_number" => Status::WrongNumber,
        b"not_pending" => Status::NotPending,
        _ => panic!(rt; "no status"),
    }
}

/// A server answers an update or a commit.
fn server_acts(rt: &impl Host, servers: &mut [Server; 2], texts: &mut [Vec<u8>], words: &[&[u8]]) {
    let [who, sent, status, rest @ ..] = words else {
        panic!(rt; "no status");
    };
    let place = usize::from(letter_of(who) != b'0');
    let server = servers.get_mut(place).expect(rt, "a server");
    let status = status_of(rt, status);
    let sent = text_at(rt, texts, letter_of(sent));
    if let [answer] = rest {
        let payload = answers_update_so(rt, server, sent, status);
        put_text(rt, texts, letter_of(answer), payload);
    } else {
        answers_commit(rt, server, sent, status);
    }
}

/// A change at an i-number of a principal: of a file or a name, this text.
fn change_at(
    rt: &impl Host,
    planned: &mut Planned,
    task: &[u8],
    (owner, at): (u8, u16),
    (text, target): (&[u8], u16),
) -> Change<Global> {
    let action = match task {
        b"make" => Action::Make(lay(rt, planned, text)),
        b"put" => Action::Put(lay(rt, planned, text)),
        b"remove" => Action::Remove,
        b"mkdir" => Action::Make(digest(EMPTY_INODE)),
        b"link" => Action::Link(entry(rt, text, (0, target))),
        b"unlink" => Action::Unlink(name(rt, text)),
        _ => panic!(rt; "no task"),
    };
    Change::new(principal(rt, owner), i_number(rt, at), action)
}

/// The key of a word: a form of one under which nothing is signed, or that of a digit.
fn public_key(rt: &impl Host, by_hand: &ByHand, word: &[u8]) -> PublicKey {
    match word {
        b"form" => PublicKey::from_bytes(*FORM).expect(rt, "a key"),
        _ => key_in(&by_hand.keys, word).public(),
    }
}

/// A change of the table: a user is listed with a key, is a member of a group, or isn't any more.
fn table_change(rt: &impl Host, by_hand: &ByHand, task: &[u8], words: &[&[u8]]) -> Change<Global> {
    let [first, second] = words else {
        panic!(rt; "not two words");
    };
    let user = if let b"list" = task { first } else { second };
    let user = found(rt, User::new(byte(user)), "a user");
    let change = match task {
        b"list" => TableChange::AddUser(user, public_key(rt, by_hand, second)),
        b"set" => TableChange::SetKey(user, public_key(rt, by_hand, first)),
        b"member" => TableChange::AddMember(group(rt, first), user),
        _ => TableChange::DropMember(group(rt, first), user),
    };
    Change::of_table(change)
}

/// The group of a number.
fn group(rt: &impl Host, word: &[u8]) -> Group {
    found(rt, Group::new(byte(word)), "a group")
}

/// Plans a change.
fn plan(rt: &impl Host, planned: &mut Planned, by_hand: &ByHand, words: &[&[u8]]) {
    let [task, rest @ ..] = words else {
        panic!(rt; "no change");
    };
    let change = match (*task, rest) {
        (b"list" | b"set" | b"member" | b"drop", _) => table_change(rt, by_hand, task, rest),
        (_, [owner, at, more @ ..]) => {
            let at = (byte(owner), short(at));
            plan_at(rt, planned, by_hand, (task, at), more)
        }
        _ => panic!(rt; "at what"),
    };
    plan_change(rt, planned, change);
}

/// A change at an i-number, where these words tell of a file or a name, and of what a name is linked to.
fn plan_at(
    rt: &impl Host,
    planned: &mut Planned,
    by_hand: &ByHand,
    (task, at): (&[u8], (u8, u16)),
    words: &[&[u8]],
) -> Change<Global> {
    let (text, target) = match words {
        [text, target] => (text_of(rt, by_hand, &[*text]), short(target)),
        [text] => (text_of(rt, by_hand, &[*text]), 0),
        _ => (Vec::new(rt.alloc()), 0),
    };
    change_at(rt, planned, task, at, (&text, target))
}

/// How many events the first server has made.
fn events(rt: &impl Host, servers: &[Server; 2]) -> Vec<u8> {
    let [first, _] = servers;
    joined(rt, &[&[(first.events() % 256) as u8]])
}

/// Stores the text of each word.
fn store(rt: &impl Host, store: &mut Held<Global>, by_hand: &ByHand, words: &[&[u8]]) {
    for word in words {
        let text = text_of(rt, by_hand, &[*word]);
        let _digest = store.keep(text).expect(rt, "memory");
    }
}

/// Who act in scripts.
#[derive(Drop)]
pub(crate) struct Actors {
    pub(crate) users: Vec<Option<MemoryClient>>,
    servers: [Server; 2],
}

/// Carries out an act: what it tells.
fn act(
    rt: &impl Host,
    actors: &mut Actors,
    stage: &mut Stage,
    verb: u8,
    words: &[&[u8]],
) -> Vec<u8> {
    match verb {
        b't' | b'k' | b'b' | b'f' | b'e' | b'm' => return makes(
            rt,
            &mut stage.by_hand,
            verb,
            words,
        ),
        b's' => store(rt, &mut stage.store, &stage.by_hand, words),
        b'p' => plan(rt, &mut stage.planned, &stage.by_hand, words),
        _ => return actor_acts(rt, actors, stage, verb, words),
    }
    Vec::new(rt.alloc())
}

/// A client or a server acts.
fn actor_acts(
    rt: &impl Host,
    actors: &mut Actors,
    stage: &mut Stage,
    verb: u8,
    words: &[&[u8]],
) -> Vec<u8> {
    let [who, rest @ ..] = words else {
        panic!(rt; "who");
    };
    let Actors { users, servers } = actors;
    let user = byte(who);
    match verb {
        b'u' | b'c' => server_acts(rt, servers, &mut stage.by_hand.texts, words),
        b'y' => return events(rt, servers),
        b'r' => {
            let slot = slot_of(rt, users, user);
            match rest {
                [b"gains" | b"loses", key @ ..] => {
                    open_with_keys(rt, slot, &stage.by_hand, user, key);
                }
                [b"holds", files @ ..] => {
                    open_over_files(rt, slot, &stage.by_hand, user, files);
                }
                _ => return restart(rt, slot, &mut stage.by_hand, user, rest),
            }
        }
        _ => {
            let client = client_in(rt, users, user);
            return client_acts(rt, client, stage, verb, rest);
        }
    }
    Vec::new(rt.alloc())
}

/// Carries out the act of a line, and compares what comes of it.
fn play_line(rt: &impl Host, actors: &mut Actors, stage: &mut Stage, line: &[u8]) {
    let mut halves = line.split(|byte| *byte == b'=');
    let act_words = words_of(rt, halves.next().unwrap_or(&[]));
    let wanted = words_of(rt, halves.next().unwrap_or(&[]));
    let [verb, rest @ ..] = act_words.as_slice() else {
        return;
    };
    let verb = letter_of(verb);
    if verb == b'#' {
        return;
    }
    let found = act(rt, actors, stage, verb, rest);
    let wanted = text_of(rt, &stage.by_hand, &wanted);
    let line = std::str::from_utf8(line).unwrap_or("no text");
    assert!(rt; found.as_slice() == wanted.as_slice(), "{line}: {found:?}");
}

/// Plays the lines of a script.
pub(crate) fn play_on(rt: &impl Host, actors: &mut Actors, stage: &mut Stage, script: &[u8]) {
    for line in script.split(|byte| *byte == b'\n') {
        play_line(rt, actors, stage, line);
    }
}

/// The clients of users 0 to 2, and two servers, at the beginning.
pub(crate) fn new_actors(rt: &impl Host, stage: &Stage) -> Actors {
    let key = key_in(&stage.by_hand.keys, b"0").public();
    let mut users = Vec::new(rt.alloc());
    for user in 0..3 {
        let client = client_with(rt, user, key_of(rt, user), key);
        users.push(Some(client)).expect(rt, "memory");
    }
    let servers = [server_of(rt, key), server_of(rt, key)];
    Actors { users, servers }
}

/// No text is made or stored, and no change planned.
pub(crate) fn new_stage(rt: &impl Host) -> Stage {
    Stage {
        by_hand: nothing_by_hand(rt),
        store: Held::empty(rt.alloc()),
        planned: nothing(rt),
        is_hostile: false,
    }
}

/// Plays scripts, one after another.
pub(crate) fn play_each(rt: &impl Host, actors: &mut Actors, stage: &mut Stage, scripts: &[&[u8]]) {
    for script in scripts {
        play_on(rt, actors, stage, script);
    }
}

/// Plays scripts from the beginning, where the store hands in the true blocks, and where it is hostile.
pub(crate) fn play_both(rt: &impl Host, scripts: &[&[u8]]) {
    for is_hostile in [false, true] {
        let mut stage = new_stage(rt);
        let mut actors = new_actors(rt, &stage);
        stage.is_hostile = is_hostile;
        play_each(rt, &mut actors, &mut stage, scripts);
        let_go((actors, stage));
    }
}

/// Plays scripts from the beginning, at which the clients of users 0 to 2 have done nothing.
pub(crate) fn play(rt: &impl Host, scripts: &[&[u8]]) {
    let mut stage = new_stage(rt);
    let mut actors = new_actors(rt, &stage);
    play_each(rt, &mut actors, &mut stage, scripts);
    let_go((actors, stage));
}
