//! Clients over a memory of which a growth is refused, and what they answer. Where memory ran out, a client is as
//! before, and is asked once more.

use crate::meter::{Heap, Meter};
use crate::plans::{Planned, place_of};
use client_verify::{Client, ClientError, Look, Parts, Phase, Step, are_laid};
use layout::{Digest, User, let_go};
use leaf_ledger::{Device, MemoryDevice};
use lms_sign::{PrivateKey, PublicKey};
use std::alloc::Global;
use tests_aids::texts::joined;
use tests_aids::{Aided, check, found, given};
use update_cert::MOST_CHANGES;
use wire::Status;

/// A client over devices that don't draw on its memory.
pub(crate) type HeapClient<'h> = Client<MemoryDevice<Global>, MemoryDevice<Global>, Heap<'h>>;

/// A device on which nothing stands.
fn device(rt: &impl Aided) -> MemoryDevice<Global> {
    let device = MemoryDevice::new(rt.alloc(), Vec::new(rt.alloc()));
    given(rt, device, "memory")
}

/// A user's client at its beginning.
pub(crate) fn client<'h>(
    rt: &impl Aided,
    heap: Heap<'h>,
    user: u8,
    key: PrivateKey<Heap<'h>>,
    pinned: PublicKey,
) -> HeapClient<'h> {
    let user = found(rt, User::new(user), "a user");
    let parts = Parts::of_one(heap, key, device(rt), device(rt));
    let Parts { keys, journal } = given(rt, parts, "memory");
    match Client::open(heap, user, keys, pinned, journal) {
        Ok(client) => client,
        Err((error, _)) => rt.fail(error),
    }
}

/// The key of a client that is closed.
pub(crate) fn closed<'h, L: Device + Drop, J: Device + Drop>(
    rt: &impl Aided,
    client: Client<L, J, Heap<'h>>,
) -> PrivateKey<Heap<'h>> {
    let (key, ledger, journal) = found(rt, client.close().last(), "a key");
    let_go(ledger);
    let_go(journal);
    key
}

/// What a client answers: the block for which it asks, or else its texts.
#[derive(Drop)]
pub(crate) struct Said {
    pub(crate) needs: Option<Digest>,
    pub(crate) texts: Vec<Vec<u8>>,
}

/// It asks for a block, or for none.
fn needing(rt: &impl Aided, needs: Option<Digest>) -> Said {
    let texts = Vec::new(rt.alloc());
    Said { needs, texts }
}

/// It has one text more.
fn tell(rt: &impl Aided, said: &mut Said, text: &[u8]) {
    let copy = joined(rt, &[text]);
    given(rt, said.texts.push(copy), "memory");
}

/// It has this text.
fn telling(rt: &impl Aided, text: &[u8]) -> Said {
    let mut said = needing(rt, None);
    tell(rt, &mut said, text);
    said
}

/// What was answered. None where memory ran out.
pub(crate) fn known<T>(rt: &impl Aided, answer: Result<T, ClientError>) -> Option<T> {
    match answer {
        Ok(value) => Some(value),
        Err(ClientError::Memory) => None,
        Err(error) => rt.fail(error),
    }
}

/// What comes of a reply, or of a block: the next block that is asked for, or the texts to be stored.
fn of_step(rt: &impl Aided, step: Step<Heap<'_>>) -> Said {
    match step {
        Step::Need(digest) => needing(rt, Some(digest)),
        Step::Store(texts) => {
            let mut said = needing(rt, None);
            for text in &texts {
                tell(rt, &mut said, text);
            }
            said
        }
        Step::Broken(rule) => rt.fail(format_args!("{rule:?}")),
    }
}

/// What a look sees: the next block that is asked for, or a file.
fn of_look(rt: &impl Aided, look: Look<Heap<'_>>) -> Said {
    match look {
        Look::Need(digest) => needing(rt, Some(digest)),
        Look::File(bytes) => telling(rt, &bytes),
        _ => rt.fail("no file"),
    }
}

/// What a client answers by a text. None where memory ran out.
fn text_said(rt: &impl Aided, answer: Result<Vec<u8, Heap<'_>>, ClientError>) -> Option<Said> {
    let text = known(rt, answer)?;
    Some(telling(rt, &text))
}

/// What a client answers by a step.
fn step_said(rt: &impl Aided, answer: Result<Step<Heap<'_>>, ClientError>) -> Option<Said> {
    let step = known(rt, answer)?;
    Some(of_step(rt, step))
}

/// What a client answers by a look.
fn look_said(rt: &impl Aided, answer: Result<Look<Heap<'_>>, ClientError>) -> Option<Said> {
    let look = known(rt, answer)?;
    Some(of_look(rt, look))
}

/// The declaration of an operation.
pub(crate) fn begun<'h, L: Device, J: Device>(
    rt: &impl Aided,
    heap: Heap<'h>,
    client: &mut Client<L, J, Heap<'h>>,
    planned: &Planned<'h>,
) -> Result<Vec<u8, Heap<'h>>, ClientError> {
    let Planned { changes, laid } = planned;
    if client.phase() != Phase::Idle || changes.len() > MOST_CHANGES {
        rt.fail("it can't begin");
    }
    // What has to hold before isn't counted.
    let left = heap.pause();
    let is_laid = given(rt, are_laid(heap, laid, changes), "memory");
    heap.go_on(left);
    if !is_laid {
        rt.fail("not all is laid out");
    }
    client.begin(changes, laid)
}

/// What a client answers to a reply.
pub(crate) fn heard<'h, L: Device, J: Device>(
    rt: &impl Aided,
    client: &mut Client<L, J, Heap<'h>>,
    reply: &[u8],
) -> Result<Step<Heap<'h>>, ClientError> {
    if client.phase() != Phase::Declared {
        rt.fail("nothing is declared");
    }
    client.on_reply(reply)
}

fn handed<'h>(
    rt: &impl Aided,
    client: &mut HeapClient<'h>,
    block: &[u8],
) -> Result<Step<Heap<'h>>, ClientError> {
    if !client.wants() {
        rt.fail("no block is asked for");
    }
    client.on_block(Some(block))
}

/// The structure over an accepted reply.
pub(crate) fn signed<'h, L: Device, J: Device>(
    rt: &impl Aided,
    client: &mut Client<L, J, Heap<'h>>,
) -> Result<Vec<u8, Heap<'h>>, ClientError> {
    if !client.ready() {
        rt.fail("no reply is accepted");
    }
    client.sign()
}

fn looked<'h>(
    rt: &impl Aided,
    client: &mut HeapClient<'h>,
    place: &[u8],
) -> Result<Look<Heap<'h>>, ClientError> {
    if !client.has_view() {
        rt.fail("no view");
    }
    let (owner, number) = place_of(rt, place);
    client.look(owner, number)
}

fn gave<'h>(
    rt: &impl Aided,
    client: &mut HeapClient<'h>,
    block: &[u8],
) -> Result<Look<Heap<'h>>, ClientError> {
    if !client.looking() {
        rt.fail("no look asks for a block");
    }
    client.give(Some(block))
}

/// What a client answers to a call: `b` begins an operation of what is planned, `r` has a reply for it, `n` a block that
/// it needs, `s` has it sign, `l` look at a place, and `g` gives it a block for that. None where memory ran out.
fn asked<'h>(
    rt: &impl Aided,
    heap: Heap<'h>,
    planned: &Planned<'h>,
    client: &mut HeapClient<'h>,
    call: u8,
    text: &[u8],
) -> Option<Said> {
    match call {
        b'b' => text_said(rt, begun(rt, heap, client, planned)),
        b'r' => step_said(rt, heard(rt, client, text)),
        b'n' => step_said(rt, handed(rt, client, text)),
        b's' => text_said(rt, signed(rt, client)),
        b'l' => look_said(rt, looked(rt, client, text)),
        _ => look_said(rt, gave(rt, client, text)),
    }
}

/// The phase that a client is in, and the marks of the leaves in its ledger.
fn stand(rt: &impl Aided, client: &HeapClient<'_>) -> (Phase, Vec<u8>) {
    client.type_invariant();
    (client.phase(), joined(rt, &[client.ledger_of(0).text()]))
}

/// What a client answers at last. Where memory ran out first, its phase and the marks of its leaves are as before.
pub(crate) fn done<'h>(
    rt: &impl Aided,
    meter: &mut Meter<'h>,
    planned: &Planned<'h>,
    client: &mut HeapClient<'h>,
    call: u8,
    text: &[u8],
) -> Said {
    let heap = meter.heap;
    let (phase, marks) = stand(rt, client);
    let said = asked(rt, heap, planned, client, call, text);
    if !meter.is_again(rt, call, said.is_none()) {
        return found(rt, said, "an answer");
    }
    let (phase_after, marks_after) = stand(rt, client);
    check(rt, phase == phase_after, "the phase stands");
    check(rt, marks == marks_after, "the leaves stand");
    let again = asked(rt, heap, planned, client, call, text);
    found(rt, again, "an answer, with memory")
}

/// The numbers of the changes that are void in a client's view, as digits.
pub(crate) fn lost(rt: &impl Aided, client: &HeapClient<'_>) -> Vec<u8> {
    if !client.has_view() {
        rt.fail("no view");
    }
    let mut digits = Vec::new(rt.alloc());
    for number in client.lost() {
        given(rt, digits.push(b'0'.saturating_add(*number)), "memory");
    }
    digits
}

/// The client takes the answer to what it signed.
pub(crate) fn committed<L: Device, J: Device>(
    rt: &impl Aided,
    client: &mut Client<L, J, Heap<'_>>,
) {
    if client.phase() != Phase::Signed {
        rt.fail("nothing is signed");
    }
    client.on_committed(Status::Ok);
}
