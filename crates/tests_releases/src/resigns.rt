//! A certificate that is signed again, by the second of two keys, over devices in memory: what it comes to, and a crash
//! after each call of a device.

ghost use Rattle.std.specs.Prelude.{◌≡◌};
ghost use Rattle.update_cert.specs.Cert.{Cert as PureCert, cert};

use crate::crashes::{Host, crashed, device_of};
use client_releases::{ClientError, Parts, Phase, Releases, Unsigned};
use layout::{Digest, User, Version, let_go};
use leaf_ledger::MemoryDevice;
use lms_sign::{PrivateKey, SIGNATURE_SIZE, verify};
use std::alloc::Global;
use update_cert::cert_text;

/// Releases over devices in memory.
type InMemory = Releases<MemoryDevice<Global>, MemoryDevice<Global>, Global>;

/// What they are opened over, and hand back.
type AllParts = Parts<MemoryDevice<Global>, MemoryDevice<Global>, Global>;

/// Two keys, and devices of which nothing was made yet.
fn nothing_yet(rt: &impl Host) -> AllParts {
    let mut keys = Vec::new(rt.alloc());
    for byte in [7, 8] {
        let key = PrivateKey::from_seed(rt.alloc(), [byte; 32], [byte; 16]).expect(rt, "memory");
        keys.push((key, device_of(rt, b""))).expect(rt, "memory");
    }
    let journal = device_of(rt, b"");
    Parts { keys, journal }
}

/// What user 5 released over these.
fn opened(rt: &impl Host, parts: AllParts) -> InMemory {
    let Parts { keys, journal } = parts;
    assert!(rt; !keys.is_empty());
    let user = User::new(5).expect(rt, "a user");
    match Releases::open(rt.alloc(), user, keys, journal) {
        Ok(releases) => releases,
        Err((error, _)) => panic!(rt; "{error}"),
    }
}

/// The certificate of an operation without changes, not signed yet.
fn certificate(rt: &impl Host, user: User, number: Version, last: Digest) -> Unsigned<Global>
    ensures { (c : PureCert) × (result ≡ cert.spell c) × cert.Fits c × (c.user ≡ user) × (c.number ≡ number) }
{
    let text = cert_text(rt.alloc(), user, number, last, &[]).expect(rt, "memory");
    Unsigned::new(rt.alloc(), text).expect(rt, "memory")
}

/// Declares the first operation under the first key.
fn declare(rt: &impl Host, releases: &mut InMemory) -> Vec<u8> {
    let number = Version::new(1).expect(rt, "a number");
    let text = certificate(rt, releases.user(), number, Digest::from_bytes([3; 32]));
    assert!(rt; releases.phase() == Phase::Idle);
    releases.type_invariant();
    assert!(rt; releases.has_free_leaf(0));
    releases.declare(0, number, text).expect(rt, "declared")
}

/// Signs the declared certificate again, under the second key.
fn resign(rt: &impl Host, releases: &mut InMemory) -> Result<Vec<u8>, ClientError> {
    let text = releases.text();
    let size = text.len().saturating_sub(SIGNATURE_SIZE);
    let text = Vec::from_slice(rt.alloc(), &text[..size]).expect(rt, "memory");
    let text = Unsigned::new(rt.alloc(), text).expect(rt, "memory");
    assert!(rt; releases.phase() == Phase::Declared);
    assert!(rt; releases.key_count() == 2);
    assert!(rt; releases.has_free_leaf(1));
    releases.resign(1, text)
}

/// Which key signed a text, and by which leaf, whose number begins the signature.
fn signed_by(rt: &impl Host, releases: &InMemory, text: &[u8]) -> (usize, Vec<u8>) {
    let size = text.len().saturating_sub(SIGNATURE_SIZE);
    let (unsigned, signature) = text.split_at(size);
    let mut signers = Vec::new(rt.alloc());
    for key in 0..releases.key_count() {
        if verify(&releases.key(key), unsigned, signature) {
            signers.push(key).expect(rt, "memory");
        }
    }
    let [key] = signers.as_slice() else {
        panic!(rt; "not signed by one key");
    };
    let leaf = signature.get(..4).expect(rt, "a signature");
    (*key, Vec::from_slice(rt.alloc(), leaf).expect(rt, "memory"))
}

/// The first operation is declared, and this is the text that was released last.
fn tells(rt: &impl Host, releases: &InMemory, text: &[u8]) {
    let found = (releases.phase(), releases.number());
    assert!(rt; found == (Phase::Declared, 1), "{found:?}");
    assert!(rt; releases.last().is_none() && releases.text() == text);
}

#[test]
fn a_certificate_is_signed_by_another_key(rt: HostRuntime) {
    let mut releases = opened(&rt, nothing_yet(&rt));
    let first = declare(&rt, &mut releases);
    let second = resign(&rt, &mut releases).expect(&rt, "signed");
    tells(&rt, &releases, &second);
    assert!(rt; first.len() == 2550 && second.len() == 2550);
    assert!(rt; first.get(..42) == second.get(..42));
    let (key, leaf) = signed_by(&rt, &releases, &first);
    assert!(rt; key == 0 && leaf.as_slice() == [0, 0, 0, 0].as_slice());
    let (key, leaf) = signed_by(&rt, &releases, &second);
    assert!(rt; key == 1 && leaf.as_slice() == [0, 0, 0, 0].as_slice());
    // The journal has both, each after a gate and a header of 5 bytes, and a gate, and tells of the second.
    let mut releases = opened(&rt, releases.close());
    tells(&rt, &releases, &second);
    assert!(rt; releases.journal().text().len() == 5113);
    let third = resign(&rt, &mut releases).expect(&rt, "signed");
    let (key, leaf) = signed_by(&rt, &releases, &third);
    assert!(rt; key == 1 && leaf.as_slice() == [0, 0, 0, 1].as_slice());
}

/// The texts of the devices of a client that has declared its first operation.
#[derive(Drop)]
struct Files {
    ledgers: Vec<Vec<u8>>,
    journal: Vec<u8>,
}

/// What has been declared, and what it was declared over.
fn declared(rt: &impl Host) -> (Files, AllParts) {
    let mut releases = opened(rt, nothing_yet(rt));
    let _text = declare(rt, &mut releases);
    let parts = releases.close();
    let mut ledgers = Vec::new(rt.alloc());
    for (_, ledger) in parts.keys.iter() {
        let text = Vec::from_slice(rt.alloc(), ledger.text()).expect(rt, "memory");
        ledgers.push(text).expect(rt, "memory");
    }
    let journal = Vec::from_slice(rt.alloc(), parts.journal.text()).expect(rt, "memory");
    (Files { ledgers, journal }, parts)
}

/// The same keys, with devices of these texts.
fn over(rt: &impl Host, parts: AllParts, texts: &Files) -> AllParts {
    let Parts { keys, journal } = parts;
    let_go(journal);
    let mut before = keys;
    let mut keys = Vec::new(rt.alloc());
    for text in texts.ledgers.iter() {
        if !before.is_empty() {
            let (key, ledger) = before.remove(0);
            let_go(ledger);
            keys.push((key, device_of(rt, text))).expect(rt, "memory");
        }
    }
    let_go(before);
    let journal = device_of(rt, &texts.journal);
    Parts { keys, journal }
}

/// The devices after a crash with this outcome, or as they are.
fn left(rt: &impl Host, parts: AllParts, outcome: Option<usize>) -> AllParts {
    let Some(outcome) = outcome else {
        return parts;
    };
    let Parts { keys, journal } = parts;
    let mut before = keys;
    let mut keys = Vec::new(rt.alloc());
    for _ in 0..before.len() {
        if !before.is_empty() {
            let (key, ledger) = before.remove(0);
            keys.push((key, crashed(rt, ledger, outcome)))
                .expect(rt, "memory");
        }
    }
    let_go(before);
    let journal = crashed(rt, journal, outcome);
    Parts { keys, journal }
}

/// In how many ways a crash leaves the devices: each extent in six.
fn ways(rt: &impl Host, parts: &AllParts) -> usize {
    let mut extents = parts.journal.unsynced().len();
    for (_, ledger) in parts.keys.iter() {
        extents = extents.saturating_add(ledger.unsynced().len());
    }
    let ways = [1usize, 6, 36, 216];
    ways.get(extents).copied().expect(rt, "a few extents")
}

/// How many calls an open makes of a ledger, and of a journal with a certificate.
const OPEN_CALLS: (u64, u64) = (4, 6);

/// This call of a second signature fails: two are of the ledger, and then six of the journal. There is no ninth.
fn fail(rt: &impl Host, parts: &mut AllParts, call: u64) {
    if call < 2 {
        let (_, ledger) = parts.keys.last_mut().expect(rt, "a key");
        ledger.fail_after(OPEN_CALLS.0.saturating_add(call));
    } else if call < 8 {
        let before = OPEN_CALLS.1.saturating_add(call - 2);
        parts.journal.fail_after(before);
    }
}

/// The declared certificate is signed again while a call fails. Then the client is opened, after a crash or without
/// one, and a third time after a crash: it tells the same. What it signs then has this leaf, or one after it. Tells
/// whether the second text was told, and hands the parts back.
fn signs_once(
    rt: &impl Host,
    parts: AllParts,
    first: &[u8],
    outcome: Option<usize>,
    least: &[u8],
) -> (bool, AllParts) {
    let releases = opened(rt, left(rt, parts, outcome));
    let second = Vec::from_slice(rt.alloc(), releases.text()).expect(rt, "memory");
    let parts = releases.close();
    let mut releases = opened(rt, left(rt, parts, Some(0)));
    tells(rt, &releases, &second);
    let third = resign(rt, &mut releases).expect(rt, "signed");
    let is_new = second.as_slice() != first;
    let before = signed_by(rt, &releases, &second);
    let after = signed_by(rt, &releases, &third);
    assert!(rt;
        before.0 == usize::from(is_new) && after.0 == 1,
        "another key"
    );
    assert!(rt;
        !is_new || before.1.as_slice() < after.1.as_slice(),
        "a leaf twice"
    );
    assert!(rt; after.1.as_slice() >= least, "a leaf that was marked");
    (is_new, releases.close())
}

/// The leaf that is free for good: the first, and once both calls of the ledger went well the second.
fn least_free(call: usize) -> &'static [u8] {
    if call < 2 {
        &[0, 0, 0, 0]
    } else {
        &[0, 0, 0, 1]
    }
}

/// In how many ways the client is opened after each call failed, and after none: after each crash, and after none. In so
/// many of them it tells the second text: where the byte that opens its gate is there.
static CALLS: [(usize, usize); 9] = [
    (7, 0),
    (7, 0),
    (7, 0),
    (37, 0),
    (217, 0),
    (217, 0),
    (7, 1),
    (7, 3),
    (2, 2),
];

#[test]
fn crashes_leave_one_of_two_texts(rt: HostRuntime) {
    let (texts, parts) = declared(&rt);
    let mut kept = parts;
    let mut cases = 0usize;
    for (call, (count, wanted)) in CALLS.iter().enumerate() {
        let mut told = 0usize;
        for way in 0..*count {
            let mut parts = over(&rt, kept, &texts);
            fail(&rt, &mut parts, call as u64);
            let mut releases = opened(&rt, parts);
            let first = Vec::from_slice(rt.alloc(), releases.text()).expect(&rt, "memory");
            let answer = resign(&rt, &mut releases);
            assert!(rt; answer.is_ok() == (call == 8), "call {call}");
            let parts = releases.close();
            assert!(rt;
                ways(&rt, &parts).saturating_add(1) == *count,
                "call {call}"
            );
            let outcome = (way.saturating_add(1) < *count).then_some(way);
            let least = least_free(call);
            let (is_new, parts) = signs_once(&rt, parts, &first, outcome, least);
            told = told.saturating_add(usize::from(is_new));
            cases = cases.saturating_add(1);
            kept = parts;
        }
        assert!(rt; told == *wanted, "call {call}: {told}");
    }
    assert_eq!(rt; cases, 508);
}
