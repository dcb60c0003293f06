//! The calls of a client that a step makes, where it may.

ghost use Rattle.std.specs.Prelude.{Err, IfErr, Ok};
ghost use Rattle.std.specs.Prelude.{◌≡◌, ◌≢◌, ◌<◌, ◌≤◌, IfOk, IfSome, IsSome, MatchOption, OnOk, false, length, map, true};
ghost use Rattle.std.specs.Option.{option_copied};
ghost use Rattle.std.specs.Vec.{vec_items};
ghost use Rattle.layout.specs.Format.{IsBytes};
ghost use Rattle.client_tree.specs.declared.questions.Question.TheVariants.{At, Free, Kind};
ghost use Rattle.client_steps.specs.Steps.{HasBegun, HasCached, HasCommitted, HasGiven, HasHeard, HasLooked};
ghost use Rattle.client_steps.specs.Steps.{HasResigned, HasSigned, HasTaken};
ghost use Rattle.client_steps.specs.Steps.{Closes, HasFirst, IsSound, IsStep, Open, Opens, Owner, closed_over};
ghost use Rattle.client_steps.specs.Steps.{ledgers_in, secrets_in};
ghost use Rattle.client_steps.specs.Anywhere.{asked, on_ok, seen};
ghost use Rattle.client_steps.specs.NotCalled.{CantBegin, CantCache, CantCommit, CantGive, CantHear, CantLook};
ghost use Rattle.client_steps.specs.NotCalled.{CantResign, CantSign, CantTake};

use checked_blocks::MOST_CACHED;
use client_verify::{Client, ClientError, Look, Parts, Phase, Step, are_laid};
use layout::{INumber, Memory, Principal, User, are_bytes};
use leaf_ledger::Device;
use lms_sign::PublicKey;
use std::alloc::Allocator;
use update_cert::{Change, MOST_CHANGES};
use wire::Status;

/// Opens a closed client, or hands its parts back.
pub fn open<L: Device, J: Device, A: Allocator + Copy>(
    alloc: A,
    user: User,
    pinned: PublicKey,
    parts: Parts<L, J, A>,
) -> Result<Client<L, J, A>, (ClientError, Parts<L, J, A>)>
    requires { 0 < length parts.keys.items }
    ensures opened { IfOk result (λ client. (o : Owner) → HasFirst user pinned (secrets_in parts.keys.items) o
        → IsStep o (closed_over (ledgers_in L.history L.fault_count parts.keys.items)
        (record { history = J.history parts.journal; faults = J.fault_count parts.journal }))
        (Opens (Ok tt)) (Open client)) }
    ensures secrets { IfOk result (λ client. client.secrets ≡ secrets_in parts.keys.items) }
    ensures sound { IfOk result (λ client. IsSound (Open client)) }
    ensures refused { IfErr result (λ e. (o : Owner) → HasFirst user pinned (secrets_in parts.keys.items) o
        → IsStep o (closed_over (ledgers_in L.history L.fault_count parts.keys.items)
        (record { history = J.history parts.journal; faults = J.fault_count parts.journal })) (Opens (Err e.0))
        (closed_over (ledgers_in L.history L.fault_count e.1.keys.items)
        (record { history = J.history e.1.journal; faults = J.fault_count e.1.journal }))) }
    ensures keys { IfErr result (λ e. secrets_in e.1.keys.items ≡ secrets_in parts.keys.items) }
{
    let Parts { keys, journal } = parts;
    let opened = Client::open(alloc, user, keys, pinned, journal);
    is_sound(&opened);
    opened
}

/// What is true of a client that was opened. For the proofs of callers: it does nothing.
fn is_sound<L: Device, J: Device, A: Allocator + Copy>(
    opened: &Result<Client<L, J, A>, (ClientError, Parts<L, J, A>)>,
)
    ensures { IfOk opened.now (λ client. IsSound (Open client)) }
{
    match opened {
        Ok(client) => client.type_invariant(),
        Err(_) => {}
    }
}

/// Closes an open client, and hands back what it was opened over.
pub fn close<L: Device, J: Device, A: Allocator + Copy>(client: Client<L, J, A>) -> Parts<L, J, A>
    ensures closed { (o : Owner) → IsStep o (Open client) Closes
        (closed_over (ledgers_in L.history L.fault_count result.keys.items)
        (record { history = J.history result.journal; faults = J.fault_count result.journal })) }
    ensures keys { secrets_in result.keys.items ≡ client.secrets }
{
    client.type_invariant();
    client.close()
}

/// Whether no operation is under way.
fn is_idle<L: Device, J: Device, A: Allocator + Copy>(client: &Client<L, J, A>) -> bool
    ensures yes { result ≡ true → client.now.phase ≡ Phase.Idle }
    ensures no { result ≡ false → client.now.phase ≢ Phase.Idle }
{
    client.phase() == Phase::Idle
}

/// Declares an operation, where none is under way and all that it needs was laid out.
pub fn begin<L: Device, J: Device, A: Allocator + Copy>(
    alloc: A,
    client: &mut Client<L, J, A>,
    changes: &[Change<A>],
    laid: &[Vec<u8, A>],
) -> Result<Option<Result<Vec<u8, A>, ClientError>>, Memory>
    ensures { IfOk result (λ done. MatchOption done
        ((client.new ≡ client.old) × CantBegin client.old changes.now (map vec_items laid.now))
        (λ answer. HasBegun client.old changes.now (map vec_items laid.now) (on_ok vec_items answer) client.new)) }
{
    if !is_idle(client) || changes.len() > MOST_CHANGES || !are_laid(alloc, laid, changes)? {
        return Ok(None);
    }
    Ok(Some(client.begin(changes, laid)))
}

/// Signs the certificate that is declared once more, by the key of this number, where something is declared and there
/// is such a key.
pub fn resign<L: Device, J: Device, A: Allocator + Copy>(
    client: &mut Client<L, J, A>,
    key: usize,
) -> Option<Result<Vec<u8, A>, ClientError>>
    ensures { MatchOption result ((client.new ≡ client.old) × CantResign client.old key)
        (λ answer. HasResigned client.old key (on_ok vec_items answer) client.new) }
{
    if client.phase() != Phase::Declared || key >= client.key_count() {
        return None;
    }
    Some(client.resign(key))
}

/// Hands a reply in, where one is waited for.
pub fn hear<L: Device, J: Device, A: Allocator + Copy>(
    client: &mut Client<L, J, A>,
    text: &[u8],
) -> Option<Result<Step<A>, ClientError>>
    ensures { MatchOption result ((client.new ≡ client.old) × CantHear client.old)
        (λ answer. HasHeard client.old text.now (on_ok asked answer) client.new) }
{
    if client.phase() != Phase::Declared {
        return None;
    }
    are_bytes(text);
    Some(client.on_reply(text))
}

/// That a block is bytes, where there is one. For the proofs of callers: it does nothing.
fn is_bytes(block: Option<&[u8]>)
    ensures { IfSome (option_copied block.entry) IsBytes }
{
    match block {
        Some(text) => are_bytes(text),
        None => {}
    }
}

/// Hands in the block that the reply under check asks for, where there is one, or its absence.
pub fn take<L: Device, J: Device, A: Allocator + Copy>(
    client: &mut Client<L, J, A>,
    block: Option<&[u8]>,
) -> Option<Result<Step<A>, ClientError>>
    ensures { MatchOption result ((client.new ≡ client.old) × CantTake client.old)
        (λ answer. HasTaken client.old (option_copied block.entry) (on_ok asked answer) client.new) }
{
    if !client.wants() {
        return None;
    }
    is_bytes(block);
    Some(client.on_block(block))
}

/// Signs what was accepted, where something was.
pub fn sign<L: Device, J: Device, A: Allocator + Copy>(
    client: &mut Client<L, J, A>,
) -> Option<Result<Vec<u8, A>, ClientError>>
    ensures signed { MatchOption result ((client.new ≡ client.old) × CantSign client.old)
        (λ answer. HasSigned client.old (on_ok vec_items answer) client.new) }
    ensures view { MatchOption result (Unit {0}) (λ answer. OnOk answer (IsSome client.new.view)) }
{
    if !client.ready() {
        return None;
    }
    Some(client.sign())
}

/// Hands in the server's answer to the structure, where one is waited for: whether it is.
pub fn commit<L: Device, J: Device, A: Allocator + Copy>(
    client: &mut Client<L, J, A>,
    status: Status,
) -> bool
    ensures taken { result ≡ true → HasCommitted client.old status client.new }
    ensures same { result ≡ false → client.new ≡ client.old }
    ensures not_taken { result ≡ false → CantCommit client.old }
{
    if client.phase() != Phase::Signed {
        return false;
    }
    client.on_committed(status);
    true
}

/// Looks into the accepted view, where there is one.
pub fn look<L: Device, J: Device, A: Allocator + Copy>(
    client: &mut Client<L, J, A>,
    principal: Principal,
    i_number: INumber,
) -> Option<Result<Look<A>, ClientError>>
    ensures { MatchOption result ((client.new ≡ client.old) × CantLook client.old)
        (λ answer. HasLooked client.old (At principal i_number) (on_ok seen answer) client.new) }
{
    if !client.has_view() {
        return None;
    }
    // For the proof: its number is below 96.
    let _number = principal.get();
    Some(client.look(principal, i_number))
}

/// Asks of what kind and size is what stands at an i-number of the accepted view, where there is one.
pub fn kind<L: Device, J: Device, A: Allocator + Copy>(
    client: &mut Client<L, J, A>,
    principal: Principal,
    i_number: INumber,
) -> Option<Result<Look<A>, ClientError>>
    ensures { MatchOption result ((client.new ≡ client.old) × CantLook client.old)
        (λ answer. HasLooked client.old (Kind principal i_number) (on_ok seen answer) client.new) }
{
    if !client.has_view() {
        return None;
    }
    // For the proof: its number is below 96.
    let _number = principal.get();
    Some(client.kind(principal, i_number))
}

/// Asks for the least i-number of a range at which nothing stands in the accepted view, where there is one.
pub fn free<L: Device, J: Device, A: Allocator + Copy>(
    client: &mut Client<L, J, A>,
    principal: Principal,
    first: INumber,
    last: INumber,
) -> Option<Result<Look<A>, ClientError>>
    requires { first ≤ last }
    ensures { MatchOption result ((client.new ≡ client.old) × CantLook client.old)
        (λ answer. HasLooked client.old (Free principal first last) (on_ok seen answer) client.new) }
{
    if !client.has_view() {
        return None;
    }
    // For the proof: its number is below 96.
    let _number = principal.get();
    Some(client.free(principal, first, last))
}

/// Hands in the block that a look asks for, where one is under way, or its absence.
pub fn give<L: Device, J: Device, A: Allocator + Copy>(
    client: &mut Client<L, J, A>,
    block: Option<&[u8]>,
) -> Option<Result<Look<A>, ClientError>>
    ensures { MatchOption result ((client.new ≡ client.old) × CantGive client.old)
        (λ answer. HasGiven client.old (option_copied block.entry) (on_ok seen answer) client.new) }
{
    if !client.looking() {
        return None;
    }
    is_bytes(block);
    Some(client.give(block))
}

/// Changes how many blocks the client's cache may have, where that is 1 to 4,096: whether it is.
pub fn cache<L: Device, J: Device, A: Allocator + Copy>(
    client: &mut Client<L, J, A>,
    capacity: usize,
) -> bool
    ensures cached { result ≡ true → HasCached client.old capacity client.new }
    ensures same { result ≡ false → client.new ≡ client.old }
    ensures not_cached { result ≡ false → CantCache capacity }
{
    if capacity == 0 || capacity > MOST_CACHED {
        return false;
    }
    client.cache(capacity);
    true
}

/// What is true of an open client at all times. For the proofs of callers: it does nothing.
pub fn type_invariant<L: Device, J: Device, A: Allocator + Copy>(client: &Client<L, J, A>)
    ensures { IsSound (Open client.now) }
{
    client.type_invariant();
}
