//! A client, and what it answers. Most tests call it by these few functions: the proof of each function that calls it
//! itself loads what it promises.

use client_verify::{Client, ClientError, Look, Parts, Phase, Rule, Step, are_laid};
use layout::User;
use leaf_ledger::MemoryDevice;
use lms_sign::{PrivateKey, PublicKey};
use pending_list::Signed;
use std::alloc::Global;
use tests_aids::numbers::{i_number, principal};
pub use tests_aids::stops::{Kept, device_of, nothing_yet};
use tests_aids::texts::key_of;
use tests_aids::{Aided, check, found, given};
use update_cert::{Change, MOST_CHANGES};
use version_order::Structure;
use wire::Status;

/// A client whose devices are in memory.
pub type MemoryClient = Client<MemoryDevice<Global>, MemoryDevice<Global>, Global>;

/// What it is opened over, and hands back.
pub type ClientParts = Parts<MemoryDevice<Global>, MemoryDevice<Global>, Global>;

/// What is kept of a client that handed this back.
pub(crate) fn kept_of(rt: &impl Aided, parts: ClientParts) -> Kept {
    match parts.last() {
        Some((key, ledger, journal)) => Kept {
            key,
            ledger,
            journal,
        },
        None => rt.fail("no key"),
    }
}

/// What comes of opening the client of a user over what was kept, which is handed back where it fails. It takes this
/// key for user 0's.
pub fn opened(
    rt: &impl Aided,
    user: User,
    pinned: PublicKey,
    kept: Kept,
) -> Result<MemoryClient, (ClientError, Kept)> {
    let Kept {
        key,
        ledger,
        journal,
    } = kept;
    let parts = Parts::of_one(rt.alloc(), key, ledger, journal);
    let Parts { keys, journal } = given(rt, parts, "memory");
    match Client::open(rt.alloc(), user, keys, pinned, journal) {
        Ok(client) => Ok(client),
        Err((error, parts)) => Err((error, kept_of(rt, parts))),
    }
}

/// The client of a user over keys with their ledgers, and a journal.
pub fn open_parts(
    rt: &impl Aided,
    user: User,
    pinned: PublicKey,
    parts: ClientParts,
) -> MemoryClient {
    let Parts { keys, journal } = parts;
    if keys.is_empty() {
        rt.fail("no key");
    }
    match Client::open(rt.alloc(), user, keys, pinned, journal) {
        Ok(client) => client,
        Err((error, _)) => rt.fail(error),
    }
}

/// The client of a user over what was kept.
pub fn open_over(rt: &impl Aided, user: User, pinned: PublicKey, kept: Kept) -> MemoryClient {
    match opened(rt, user, pinned, kept) {
        Ok(client) => client,
        Err((error, _)) => rt.fail(error),
    }
}

/// The client of a user by this key, over devices on which nothing stands. It takes the other key for user 0's.
pub fn client_with(
    rt: &impl Aided,
    user: u8,
    own: PrivateKey<Global>,
    pinned: PublicKey,
) -> MemoryClient {
    let user = found(rt, User::new(user), "a user");
    open_over(rt, user, pinned, nothing_yet(rt, own))
}

/// The client of a user by its key, which takes the first key for user 0's.
pub fn client_of(rt: &impl Aided, user: u8, key: u8) -> MemoryClient {
    let own = key_of(rt, key);
    let pinned = if key == 0 {
        own.public()
    } else {
        first_key(rt)
    };
    client_with(rt, user, own, pinned)
}

/// The key that every client knows, user 0's.
pub fn first_key(rt: &impl Aided) -> PublicKey {
    key_of(rt, 0).public()
}

/// What the client answers to the declaration of its next operation, of these changes, for which these texts were laid
/// out.
pub fn begun(
    rt: &impl Aided,
    client: &mut MemoryClient,
    changes: &[Change<Global>],
    laid: &[Vec<u8>],
) -> Result<Vec<u8>, ClientError> {
    if client.phase() != Phase::Idle || changes.len() > MOST_CHANGES {
        rt.fail("it can't begin");
    }
    if !given(rt, are_laid(rt.alloc(), laid, changes), "memory") {
        rt.fail("not all is laid out");
    }
    client.begin(changes, laid)
}

/// Declares the client's next operation, of these changes, for which these texts were laid out.
pub fn declare_changes(
    rt: &impl Aided,
    client: &mut MemoryClient,
    changes: Vec<Change<Global>>,
    laid: Vec<Vec<u8>>,
) -> Vec<u8> {
    given(rt, begun(rt, client, &changes, &laid), "a certificate")
}

/// What the client answers where it signs the declared certificate once more, by the key of this number.
pub fn signed_again(
    rt: &impl Aided,
    client: &mut MemoryClient,
    key: usize,
) -> Result<Vec<u8>, ClientError> {
    if client.phase() != Phase::Declared || key >= client.key_count() {
        rt.fail("it can't sign once more");
    }
    client.resign(key)
}

/// The number of the newest key that signed the declared certificate, if an own one did.
pub fn declaring_key(rt: &impl Aided, client: &MemoryClient) -> Option<usize> {
    if client.phase() != Phase::Declared {
        rt.fail("nothing is declared");
    }
    client.declared_by()
}

/// How many leaves of the newest key aren't used.
pub fn leaves_left(rt: &impl Aided, client: &MemoryClient) -> u32 {
    if client.phase() == Phase::Failed {
        rt.fail("a device failed");
    }
    client.free_leaves()
}

/// Hands a reply to the client.
pub fn step_on(rt: &impl Aided, client: &mut MemoryClient, reply: &[u8]) -> Step<Global> {
    if client.phase() != Phase::Declared {
        rt.fail("nothing is declared");
    }
    given(rt, client.on_reply(reply), "memory")
}

/// Hands a block to the client, or none, where its reply asks for one.
pub fn hand(rt: &impl Aided, client: &mut MemoryClient, block: Option<&[u8]>) -> Step<Global> {
    if !client.wants() {
        rt.fail("no block is asked for");
    }
    given(rt, client.on_block(block), "memory")
}

/// The reply breaks this rule first, or none.
pub fn breaks(rt: &impl Aided, client: &mut MemoryClient, reply: &[u8], rule: Option<Rule>) {
    let found = match step_on(rt, client, reply) {
        Step::Broken(found) => Some(found),
        Step::Store(blocks) => {
            check(rt, blocks.is_empty(), "no block to be stored");
            None
        }
        Step::Need(_) => rt.fail("a block is asked for"),
    };
    if found != rule {
        let size = reply.len();
        rt.fail(format_args!("{found:?} and not {rule:?}, {size} bytes"));
    }
}

/// What the client answers where it signs the structure over the accepted reply.
pub fn signed(rt: &impl Aided, client: &mut MemoryClient) -> Result<Vec<u8>, ClientError> {
    if !client.ready() {
        rt.fail("no reply is accepted");
    }
    client.sign()
}

/// Signs the structure over the accepted reply.
pub fn sign(rt: &impl Aided, client: &mut MemoryClient) -> Vec<u8> {
    given(rt, signed(rt, client), "a structure")
}

/// Hands the server's answer to the signed structure to the client.
pub fn end(rt: &impl Aided, client: &mut MemoryClient, status: Status) {
    if client.phase() != Phase::Signed {
        rt.fail("nothing is signed");
    }
    client.on_committed(status);
}

/// It is in this phase.
pub fn is_in(rt: &impl Aided, client: &MemoryClient, phase: Phase) {
    let found = client.phase();
    if found != phase {
        rt.fail(format_args!("{found:?} and not {phase:?}"));
    }
}

/// The one structure in its view.
pub fn only_structure<'a>(
    rt: &impl Aided,
    client: &'a MemoryClient,
) -> &'a Signed<Structure<Global>> {
    if !client.has_view() {
        rt.fail("no view");
    }
    match client.structures() {
        [own] => own,
        _ => rt.fail("not one structure"),
    }
}

/// Begins a look at an i-number of a principal.
pub fn look_at(rt: &impl Aided, client: &mut MemoryClient, owner: u8, number: u16) -> Look<Global> {
    if !client.has_view() {
        rt.fail("no view");
    }
    let look = client.look(principal(rt, owner), i_number(rt, number));
    given(rt, look, "memory")
}

/// Gives a block to the client, or none, where its look asks for one.
pub fn give(rt: &impl Aided, client: &mut MemoryClient, block: Option<&[u8]>) -> Look<Global> {
    if !client.looking() {
        rt.fail("no look asks for a block");
    }
    given(rt, client.give(block), "memory")
}
