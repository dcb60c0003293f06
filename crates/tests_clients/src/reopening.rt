//! How a script closes a client, or crashes it, and opens it again; and what it tells of itself then.

use crate::words::{ByHand, byte, letter_of, number, put_text, text_of};
use client_verify::{ClientError, Phase};
use layout::{Text, User, let_go, put_in};
use lms_sign::PrivateKey;
use std::alloc::Global;
use tests_aids::Host;
use tests_aids::texts::{joined, key_of};
use tests_client_aids::clients::{
    Kept, MemoryClient, device_of, first_key, only_structure, open_over, open_parts, opened,
};
use tests_client_aids::crashes::{Left, after_crash, closed, declared, structure};

/// The name of an error.
pub(crate) fn error_name(rt: &impl Host, error: ClientError) -> Vec<u8> {
    let name = match error {
        ClientError::NoLeaf => b"NoLeaf".as_slice(),
        ClientError::Device => b"Device".as_slice(),
        ClientError::Foreign => b"Foreign".as_slice(),
        ClientError::Damaged => b"Damaged".as_slice(),
        ClientError::NoKey => b"NoKey".as_slice(),
        _ => panic!(rt; "another error"),
    };
    joined(rt, &[name])
}

/// The key of what was kept.
fn key_kept(kept: Kept) -> PrivateKey<Global> {
    let Kept {
        key,
        ledger,
        journal,
    } = kept;
    let_go((ledger, journal));
    key
}

/// What is kept of a client: once it is closed (`closed`), after a crash that leaves what was there at the last sync
/// (`synced`) or all that was written (`written`), or its key alone, with a ledger of this text and an empty journal.
fn left_of(rt: &impl Host, client: MemoryClient, left: &[u8], ledger: &[u8]) -> Kept {
    match left {
        b"closed" => closed(rt, client),
        b"synced" => after_crash(rt, client, Left::Synced),
        b"written" => after_crash(rt, client, Left::Written),
        _ => Kept {
            key: key_kept(closed(rt, client)),
            ledger: device_of(rt, ledger),
            journal: device_of(rt, b""),
        },
    }
}

/// The ledger or the journal fails after so many calls, or another user's key stands in the place of the own one.
fn change_kept(rt: &impl Host, kept: &mut Kept, what: u8, count: u32) {
    match what {
        b'l' => kept.ledger.fail_after(u64::from(count)),
        b'j' => kept.journal.fail_after(u64::from(count)),
        b'k' => put_in(&mut kept.key, key_of(rt, (count % 256) as u8)),
        _ => {}
    }
}

/// The size of the journal.
fn journal_size(rt: &impl Host, kept: &Kept) -> Vec<u8> {
    let [.., first, second, third, last] = kept.journal.text().len().to_be_bytes();
    joined(rt, &[&[first, second, third, last]])
}

/// The client of a user over what was kept, opened for this user first. Where that is refused, the error and the size
/// of the journal that is handed back are told, and it is opened for the user with its own key.
fn opened_for(rt: &impl Host, user: u8, first: u8, kept: Kept) -> (MemoryClient, Vec<u8>) {
    let pinned = if user == 0 {
        kept.key.public()
    } else {
        first_key(rt)
    };
    let first = User::new(first).expect(rt, "a user");
    match opened(rt, first, pinned, kept) {
        Ok(client) => (client, Vec::new(rt.alloc())),
        Err((error, kept)) => {
            let told = joined(rt, &[&error_name(rt, error), &journal_size(rt, &kept)]);
            (opened_at_last(rt, user, kept), told)
        }
    }
}

/// The client of a user over what was kept, with its own key.
fn opened_at_last(rt: &impl Host, user: u8, kept: Kept) -> MemoryClient {
    let mut kept = kept;
    put_in(&mut kept.key, key_of(rt, user));
    let user = User::new(user).expect(rt, "a user");
    open_over(rt, user, first_key(rt), kept)
}

/// What a crash leaves, what is changed then, by the first letter of its name, and a number; no change is told by an
/// empty letter.
fn change_of<'a>(words: &[&'a [u8]]) -> (&'a [u8], u8, u32) {
    match words {
        [left, what, count] => (*left, letter_of(what), number(count)),
        [left, ..] => (*left, 0, 0),
        [] => (&[], 0, 0),
    }
}

/// A client is closed, or crashes, and is opened again: why it isn't opened, or nothing. Text Y is the size that its
/// journal has between.
pub(crate) fn restart(
    rt: &impl Host,
    slot: &mut Option<MemoryClient>,
    by_hand: &mut ByHand,
    user: u8,
    words: &[&[u8]],
) -> Vec<u8> {
    let client = slot.take().expect(rt, "a client");
    let (left, what, count) = change_of(words);
    let ledger = match words {
        [_, ledger] => text_of(rt, by_hand, &[*ledger]),
        _ => Vec::new(rt.alloc()),
    };
    let mut kept = left_of(rt, client, left, &ledger);
    change_kept(rt, &mut kept, what, count);
    let size = journal_size(rt, &kept);
    let first = if what == b'u' {
        (count % 256) as u8
    } else {
        user
    };
    let (client, told) = opened_for(rt, user, first, kept);
    put_in(slot, Some(client));
    put_text(rt, &mut by_hand.texts, b'Y', size);
    told
}

/// A client is closed, and opened again with one key more, which others have as this user's, and a ledger that holds
/// the text of the words after it; where none is named, without its newest key.
pub(crate) fn open_with_keys(
    rt: &impl Host,
    slot: &mut Option<MemoryClient>,
    by_hand: &ByHand,
    user: u8,
    key: &[&[u8]],
) {
    let mut parts = slot.take().expect(rt, "a client").close();
    match key {
        [key, ledger @ ..] => {
            let ledger = device_of(rt, &text_of(rt, by_hand, ledger));
            let own = (key_of(rt, byte(key)), ledger);
            parts.keys.push(own).expect(rt, "memory");
        }
        _ => let_go(parts.keys.pop()),
    }
    let user = User::new(user).expect(rt, "a user");
    put_in(slot, Some(open_parts(rt, user, first_key(rt), parts)));
}

/// A client is closed, and opened again by its key over a ledger and a journal of these texts.
pub(crate) fn open_over_files(
    rt: &impl Host,
    slot: &mut Option<MemoryClient>,
    by_hand: &ByHand,
    user: u8,
    files: &[&[u8]],
) {
    let [ledger, journal] = files else {
        panic!(rt; "not two files");
    };
    let client = slot.take().expect(rt, "a client");
    let kept = Kept {
        key: key_kept(closed(rt, client)),
        ledger: device_of(rt, &text_of(rt, by_hand, &[*ledger])),
        journal: device_of(rt, &text_of(rt, by_hand, &[*journal])),
    };
    let user = User::new(user).expect(rt, "a user");
    put_in(slot, Some(open_over(rt, user, first_key(rt), kept)));
}

/// In which phase a client is, and the number of its operation: the text of a letter is what it has declared or signed.
pub(crate) fn now(
    rt: &impl Host,
    client: &MemoryClient,
    texts: &mut [Vec<u8>],
    letter: u8,
) -> Vec<u8> {
    let number = client.number().to_be_bytes();
    let (text, told) = match client.phase() {
        Phase::Idle => (Vec::new(rt.alloc()), joined(rt, &[b"idle", &number])),
        Phase::Declared => (declared(rt, client), joined(rt, &[b"declared", &number])),
        Phase::Signed => (structure(rt, client), joined(rt, &[b"signed", &number])),
        Phase::Failed => return joined(rt, &[b"failed"]),
    };
    put_text(rt, texts, letter, text);
    told
}

/// Whether a client asks for a block, has a view, and which changes are lost in it. Where it has, the text of a letter
/// is the signed text of the only structure in the view.
pub(crate) fn view(
    rt: &impl Host,
    client: &MemoryClient,
    texts: &mut [Vec<u8>],
    letter: u8,
) -> Vec<u8> {
    let wants = if client.wants() {
        b"wants".as_slice()
    } else {
        b"".as_slice()
    };
    if !client.has_view() {
        return joined(rt, &[wants]);
    }
    let own = only_structure(rt, client).text(rt.alloc());
    put_text(rt, texts, letter, own.expect(rt, "memory"));
    joined(rt, &[wants, b"view", client.lost()])
}
