//! One user's releases over devices in memory: an operation with a restart in each of its phases, each call of a device
//! failing in turn, and what isn't opened. How long a journal is was counted by hand from the formats.

ghost use Rattle.std.specs.Prelude.{◌≡◌};
ghost use Rattle.version_order.specs.Structure.{structure as structure_format};
ghost use Rattle.update_cert.specs.Cert.{Cert as PureCert, cert};

use crate::crashes::{Host, device_of, print_lines};
use client_releases::{ClientError, Parts, Phase, Releases, Unsigned};
use layout::{Digest, Text, User, Version};
use leaf_ledger::MemoryDevice;
use lms_sign::{PrivateKey, SIGNATURE_SIZE, verify};
use std::alloc::Global;
use tests_aids::stops::Kept;
use update_cert::cert_text;
use version_order::{Entries, GroupRecords, Plan, Structure, Vector};

/// Releases over devices in memory.
pub(crate) type InMemory = Releases<MemoryDevice<Global>, MemoryDevice<Global>, Global>;

/// What they are opened over, and hand back.
type AllParts = Parts<MemoryDevice<Global>, MemoryDevice<Global>, Global>;

/// What is kept of what was handed back.
pub(crate) fn kept_of(rt: &impl Host, parts: AllParts) -> Kept {
    let (key, ledger, journal) = parts.last().expect(rt, "a key");
    Kept {
        key,
        ledger,
        journal,
    }
}

/// A key and devices of which nothing was made yet.
fn nothing_yet(rt: &impl Host) -> Kept {
    Kept {
        key: PrivateKey::from_seed(rt.alloc(), [7; 32], [7; 16]).expect(rt, "memory"),
        ledger: device_of(rt, b""),
        journal: device_of(rt, b""),
    }
}

/// What a user released over these, or why that isn't opened, and these.
pub(crate) fn open(rt: &impl Host, user: u8, parts: Kept) -> Result<InMemory, (ClientError, Kept)> {
    let Kept {
        key,
        ledger,
        journal,
    } = parts;
    let user = User::new(user).expect(rt, "a user");
    let parts = Parts::of_one(rt.alloc(), key, ledger, journal);
    let Parts { keys, journal } = parts.expect(rt, "memory");
    match Releases::open(rt.alloc(), user, keys, journal) {
        Ok(releases) => Ok(releases),
        Err((error, parts)) => Err((error, kept_of(rt, parts))),
    }
}

/// What user 0 released over these.
fn opened(rt: &impl Host, parts: Kept) -> InMemory {
    match open(rt, 0, parts) {
        Ok(releases) => releases,
        Err((error, _)) => panic!(rt; "{error}"),
    }
}

/// The certificate of an operation without changes, not signed yet.
fn certificate(rt: &impl Host, user: User, number: Version, last: Digest) -> Unsigned<Global>
    ensures { (c : PureCert) × (result ≡ cert.spell c) × cert.Fits c × (c.user ≡ user) × (c.number ≡ number) }
{
    let text = cert_text(rt.alloc(), user, number, last, &[]).expect(rt, "memory");
    Unsigned::new(rt.alloc(), text).expect(rt, "memory")
}

/// The structure of an operation, over an empty vector.
fn structure(rt: &impl Host, user: User, number: Version) -> Structure<Global>
    ensures user { result.plan.user ≡ user }
    ensures number { result.plan.number ≡ number }
{
    let alloc = rt.alloc();
    let certificate = Digest::from_bytes([1; 32]);
    let plan = Plan::new(
        user,
        number,
        certificate,
        Vector::new(alloc),
        Entries::new(alloc),
    );
    Structure::new(plan, Digest::from_bytes([2; 32]), GroupRecords::new(alloc))
}

/// Declares the operation of this number.
pub(crate) fn declare(
    rt: &impl Host,
    releases: &mut InMemory,
    number: u32,
) -> Result<Vec<u8>, ClientError> {
    let number = Version::new(number).expect(rt, "a number");
    let text = certificate(rt, releases.user(), number, Digest::from_bytes([3; 32]));
    assert!(rt; releases.phase() == Phase::Idle);
    releases.type_invariant();
    assert!(rt; releases.has_free_leaf(0));
    releases.declare(0, number, text)
}

/// Signs the structure of the declared operation.
pub(crate) fn sign(rt: &impl Host, releases: &mut InMemory) -> Result<Vec<u8>, ClientError> {
    let number = Version::new(releases.number()).expect(rt, "a number");
    let structure = structure(rt, releases.user(), number);
    let text = structure.text(rt.alloc()).expect(rt, "memory");
    let text = Unsigned::new(rt.alloc(), text).expect(rt, "memory");
    assert!(rt; releases.phase() == Phase::Declared);
    releases.type_invariant();
    assert!(rt; releases.has_free_leaf(0));
    let (text, _) = releases.sign(0, structure, text)?;
    Ok(text)
}

/// What is done to releases.
enum Step {
    /// The next operation is declared.
    Declare,
    /// The structure of the declared operation is signed.
    Sign,
    /// The structure is committed.
    Commit,
    /// It is told after a restart, over a journal of so many bytes.
    Reopen(usize),
}

/// The releases after a step, and the text that it releases.
fn after(rt: &impl Host, releases: InMemory, step: &Step, text: &mut Vec<u8>) -> InMemory {
    let mut releases = releases;
    match step {
        Step::Declare => {
            let number = releases.number().wrapping_add(1);
            *text = declare(rt, &mut releases, number).expect(rt, "declared");
        }
        Step::Sign => *text = sign(rt, &mut releases).expect(rt, "signed"),
        Step::Commit => {
            assert!(rt; releases.phase() == Phase::Signed);
            releases.commit();
        }
        Step::Reopen(size) => {
            let parts = kept_of(rt, releases.close());
            let found = parts.journal.text().len();
            assert!(rt; found == *size, "{found} bytes and not {size}");
            return opened(rt, parts);
        }
    }
    releases
}

/// Checks that this text was released last, and that its signature verifies.
fn is_last(rt: &impl Host, releases: &InMemory, text: &[u8]) {
    assert!(rt; releases.text() == text, "another text");
    let size = text.len().saturating_sub(SIGNATURE_SIZE);
    let (unsigned, signature) = text.split_at(size);
    releases.type_invariant();
    assert!(rt; verify(&releases.key(0), unsigned, signature), "not signed");
}

/// What is done, and then how far it is, the number, and whether a structure was signed.
static STEPS: [(Step, Phase, u32, bool); 10] = [
    (Step::Reopen(1), Phase::Idle, 0, false),
    (Step::Declare, Phase::Declared, 1, false),
    // A gate, a header of 5 bytes, 42 bytes of certificate, its signature, and a gate.
    (Step::Reopen(2557), Phase::Declared, 1, false),
    (Step::Sign, Phase::Signed, 1, true),
    // Then a header, 82 bytes of structure, its signature, and a gate.
    (Step::Reopen(5153), Phase::Signed, 1, true),
    (Step::Commit, Phase::Idle, 1, true),
    // No record tells of the commit.
    (Step::Reopen(5153), Phase::Signed, 1, true),
    (Step::Commit, Phase::Idle, 1, true),
    (Step::Declare, Phase::Declared, 2, true),
    (Step::Reopen(7709), Phase::Declared, 2, true),
];

#[test]
fn restarts_in_each_phase(rt: HostRuntime) {
    let mut releases = opened(&rt, nothing_yet(&rt));
    let mut text = Vec::new(rt.alloc());
    for (step, phase, number, signed) in &STEPS {
        releases = after(&rt, releases, step, &mut text);
        let found = (
            releases.phase(),
            releases.number(),
            releases.last().is_some(),
        );
        assert!(rt; found == (*phase, *number, *signed), "{found:?}");
        if *number > 0 {
            is_last(&rt, &releases, &text);
        }
    }
}

/// How many calls an open makes of a new ledger, and of a new journal.
const OPEN_CALLS: (u64, u64) = (5, 4);

/// Declares the first operation on devices of which one fails at a call, and tells how far it is after a restart.
fn after_fault(rt: &impl Host, parts: Kept) -> Phase {
    let mut releases = opened(rt, parts);
    let declared = declare(rt, &mut releases, 1);
    assert!(rt; matches!(declared, Err(ClientError::Device)), "no fault");
    let found = (
        releases.phase(),
        releases.number(),
        releases.last().is_some(),
    );
    assert!(rt; found == (Phase::Failed, 0, false), "{found:?}");
    opened(rt, kept_of(rt, releases.close())).phase()
}

/// Each call of a declaration fails: two of the ledger, and six of the journal. By the last of them the gate is open,
/// and isn't synced.
#[test]
fn each_call_of_a_device_fails(rt: HostRuntime) {
    for call in 0..8u64 {
        let mut parts = nothing_yet(&rt);
        if call < 2 {
            parts.ledger.fail_after(OPEN_CALLS.0 + call);
        } else {
            parts.journal.fail_after(OPEN_CALLS.1 + (call - 2));
        }
        let phase = after_fault(&rt, parts);
        let is_declared = phase == Phase::Declared;
        assert!(rt; is_declared == (call == 7), "call {call}");
        assert!(rt; call >= 2 || phase == Phase::Idle, "call {call}");
    }
}

/// User 1 doesn't open these, for this reason. They are handed back.
fn refused(rt: &impl Host, parts: Kept, why: &str) -> Kept {
    match open(rt, 1, parts) {
        Ok(_) => panic!(rt; "it is opened"),
        Err((error, parts)) => {
            let found = format!(in rt.alloc(); "{error:?}").expect(rt, "memory");
            assert!(rt; found.as_str() == why, "{error}");
            parts
        }
    }
}

#[test]
fn what_is_not_opened(rt: HostRuntime) {
    let mut releases = opened(&rt, nothing_yet(&rt));
    let _update = declare(&rt, &mut releases, 1).expect(&rt, "declared");
    // A journal of user 0.
    let mut parts = refused(&rt, kept_of(&rt, releases.close()), "Damaged");
    assert!(rt; parts.journal.text().len() == 2557);
    // A third kind of record.
    parts.journal = device_of(&rt, &[1, 3, 0, 0, 0, 1, 9, 0]);
    let mut parts = refused(&rt, parts, "Damaged");
    parts.journal.fail_after(0);
    let mut parts = refused(&rt, parts, "Device");
    parts.ledger = device_of(&rt, b"another file");
    let parts = refused(&rt, parts, "Foreign");
    assert!(rt; parts.ledger.text() == b"another file".as_slice());
}

#[test]
fn the_last_leaf_declares(rt: HostRuntime) {
    let mut parts = nothing_yet(&rt);
    let key = parts.key.public();
    let mut file = Vec::from_slice(rt.alloc(), key.as_bytes()).expect(&rt, "memory");
    file.extend_from_slice(&[1; 1023]).expect(&rt, "memory");
    file.push(0).expect(&rt, "memory");
    parts.ledger = device_of(&rt, &file);
    let mut releases = opened(&rt, parts);
    let _update = declare(&rt, &mut releases, 1).expect(&rt, "declared");
    assert!(rt; releases.phase() == Phase::Declared);
    releases.type_invariant();
    assert!(rt; !releases.has_free_leaf(0));
}

#[test]
fn errors_print(rt: HostRuntime) {
    let errors = [
        ClientError::Memory,
        ClientError::NoLeaf,
        ClientError::Device,
        ClientError::NoNumber,
        ClientError::Foreign,
        ClientError::Damaged,
        ClientError::NoKey,
    ];
    let lines = "out of memory\nno leaf is left\na device failed\nno number is left\n\
        the ledger is another key's\nthe journal is damaged\nthe key isn't there\n";
    print_lines(&rt, &errors, lines);
}
