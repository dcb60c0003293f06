//! A user's client in memory, open or closed, and a step of it.

ghost use Rattle.std.specs.Prelude.{◌≡◌, ◌<◌, ◌++◌, [], ◌∷◌, length, map, IfOk};
ghost use Rattle.std.specs.Option.{option_copied};
ghost use Rattle.std.specs.Vec.{vec_items};
ghost use Rattle.client_steps.specs.Steps.{HasGained, Open, Owner, empty, first, secrets_in};
ghost use Rattle.client_runs.specs.Runs.{owner, pinned as pinned_key};
ghost use Rattle.client_runs.specs.Carried.{ComesOf, script_key, script_keys};
ghost use Rattle.client_runs.specs.Clients.{certificate_in, certificate_of, structure_in, structure_of};
ghost use Rattle.client_runs.specs.Slots.{AreFirst, IsLeftWith, IsOf, client_in, parts_in};
ghost use Rattle.client_runs.specs.Told.{resent as resent_in};

use crate::answering::call;
use crate::armed::{ArmedDevice, MemoryClient, Order};
use crate::crashing::{MemoryKey, MemoryParts, crash, may_leave, open_may_leave};
use crate::world::{Act, Answer};
use client_steps::{close, type_invariant};
use client_verify::{Parts, Phase};
use layout::{Memory, User, beside};
use lms_sign::{PrivateKey, PublicKey};
use std::alloc::Allocator;

/// How many keys a user other than 0 may have.
const MOST_KEYS: usize = 4;

/// A user's client.
#[derive(Drop)]
pub(crate) enum Slot<A: Allocator + Copy> {
    /// It was never named: it has one key, and nothing stands on its devices.
    Unmade,
    /// It is closed.
    Closed(MemoryParts<A>),
    /// It is open.
    Open(MemoryClient<A>),
}

/// The orders for the devices of the client that takes a step.
#[derive(Drop)]
pub(crate) struct Orders<A: Allocator + Copy> {
    pub(crate) ledgers: Order<A>,
    pub(crate) journal: Order<A>,
}

/// A user's key of this number: it is drawn from bytes of the user's number, and of 64 more for each key before it.
pub(crate) fn key_of<A: Allocator + Copy>(
    alloc: A,
    user: User,
    number: u8,
) -> Result<PrivateKey<A>, Memory>
    requires { number < 4 }
    ensures { IfOk result (λ key. key ≡ script_key user number) }
{
    let id = user.get() + 64 * number;
    PrivateKey::from_seed(alloc, [user.get(); 32], [id; 16])
}

/// How many keys a user may have.
fn most_keys(user: User) -> usize
    ensures { result ≡ length (script_keys user) }
{
    if user == User::superuser() {
        1
    } else {
        MOST_KEYS
    }
}

/// A user's key of this number, with the device of its ledger, on which nothing stands.
fn new_key<A: Allocator + Copy>(
    alloc: A,
    user: User,
    number: u8,
    orders: &Orders<A>,
) -> Result<MemoryKey<A>, Memory>
    requires { number < 4 }
    ensures key { IfOk result (λ k. k.0 ≡ script_key user number) }
    ensures ledger { IfOk result (λ k. k.1 ≡ empty) }
{
    let ledger = ArmedDevice::empty(alloc, orders.ledgers.clone()?)?;
    let key = key_of(alloc, user, number);
    let (ledger, key) = beside(ledger, key)?;
    Ok((key, ledger))
}

/// What a user's client is opened over before its first step.
fn first_parts<A: Allocator + Copy>(
    alloc: A,
    user: User,
    orders: &Orders<A>,
) -> Result<MemoryParts<A>, Memory>
    ensures client { IfOk result (λ parts. client_in (Slot.Closed parts) ≡ first) }
    ensures own { IfOk result (λ parts. IsOf (owner script_keys user) (Slot.Closed parts)) }
{
    let journal = ArmedDevice::empty(alloc, orders.journal.clone()?)?;
    let made = new_key(alloc, user, 0, orders);
    let (journal, (key, ledger)) = beside(journal, made)?;
    Parts::of_one(alloc, key, ledger, journal)
}

/// Keys with one more.
fn with_key<A: Allocator + Copy>(
    keys: Vec<MemoryKey<A>, A>,
    key: MemoryKey<A>,
) -> Result<Vec<MemoryKey<A>, A>, Memory>
    ensures { IfOk result (λ new. new.items ≡ keys.items ++ key ∷ []) }
{
    let mut keys = keys;
    let pushed = keys.push(key);
    let (keys, ()) = beside(keys, pushed)?;
    Ok(keys)
}

/// The parts of a closed client with a key more.
fn gained<A: Allocator + Copy>(
    alloc: A,
    user: User,
    orders: &Orders<A>,
    parts: MemoryParts<A>,
) -> Result<MemoryParts<A>, Memory>
    requires own { IsOf (owner script_keys user) (Slot.Closed parts) }
    requires fewer { length parts.keys.items < length (script_keys user) }
    ensures gained { IfOk result (λ new. HasGained (owner script_keys user) (parts_in parts) (parts_in new)) }
    ensures own { IfOk result (λ new. IsOf (owner script_keys user) (Slot.Closed new)) }
{
    let made = new_key(alloc, user, parts.keys.len() as u8, orders);
    let (parts, key) = beside(parts, made)?;
    let Parts { keys, journal } = parts;
    let keys = with_key(keys, key);
    let (journal, keys) = beside(journal, keys)?;
    Ok(Parts { keys, journal })
}

/// The text that an opened client has to send again, if there is one.
fn resent<A: Allocator + Copy>(alloc: A, client: &MemoryClient<A>) -> Result<Vec<u8, A>, Memory>
    ensures { IfOk result (λ text. text.items ≡ resent_in client.now.phase client.now.text) }
{
    match client.phase() {
        Phase::Declared => Ok(Vec::from_slice(alloc, client.declared())?),
        Phase::Signed => Ok(Vec::from_slice(alloc, client.signed())?),
        _ => Ok(Vec::new(alloc)),
    }
}

/// The certificate that an open client has declared, while it is to be sent.
fn declared_text<A: Allocator + Copy>(client: &MemoryClient<A>) -> Option<&[u8]>
    ensures { option_copied result ≡ certificate_in client.now.phase client.now.text }
{
    match client.phase() {
        Phase::Declared => Some(client.declared()),
        _ => None,
    }
}

/// The structure that an open client has signed, while it is to be sent.
fn signed_text<A: Allocator + Copy>(client: &MemoryClient<A>) -> Option<&[u8]>
    ensures { option_copied result ≡ structure_in client.now.phase client.now.text }
{
    match client.phase() {
        Phase::Signed => Some(client.signed()),
        _ => None,
    }
}

/// The certificate that a client sends, if it has declared one.
pub(crate) fn certificate<A: Allocator + Copy>(slot: &Slot<A>) -> Option<&[u8]>
    ensures { option_copied result ≡ certificate_of (client_in slot.now) }
{
    match slot {
        Slot::Open(client) => declared_text(client),
        _ => None,
    }
}

/// The structure that a client sends, if it has signed one.
pub(crate) fn structure<A: Allocator + Copy>(slot: &Slot<A>) -> Option<&[u8]>
    ensures { option_copied result ≡ structure_of (client_in slot.now) }
{
    match slot {
        Slot::Open(client) => signed_text(client),
        _ => None,
    }
}

/// Opens a closed client.
fn open<A: Allocator + Copy>(
    alloc: A,
    user: User,
    pinned: PublicKey,
    parts: MemoryParts<A>,
) -> Result<(Slot<A>, Answer<A>), Memory>
    requires pinned { pinned ≡ pinned_key script_keys }
    requires own { IsOf (owner script_keys user) (Slot.Closed parts) }
    ensures step { IfOk result (λ r. ComesOf (owner script_keys user) (client_in (Slot.Closed parts)) Act.Open r.1
        (client_in r.0)) }
    ensures own { IfOk result (λ r. IsOf (owner script_keys user) r.0) }
{
    match client_steps::open(alloc, user, pinned, parts) {
        Ok(client) => {
            let phase = client.phase();
            let text = resent(alloc, &client);
            let (client, text) = beside(client, text)?;
            Ok((Slot::Open(client), Answer::Opened(phase, text)))
        }
        Err((error, parts)) => Ok((Slot::Closed(parts), Answer::Refused(error))),
    }
}

/// Has a closed client gain its next key, if there is one.
fn gain<A: Allocator + Copy>(
    alloc: A,
    user: User,
    orders: &Orders<A>,
    parts: MemoryParts<A>,
) -> Result<(Slot<A>, Answer<A>), Memory>
    requires { IsOf (owner script_keys user) (Slot.Closed parts) }
    ensures step { IfOk result (λ r. ComesOf (owner script_keys user) (client_in (Slot.Closed parts)) Act.Gain r.1
        (client_in r.0)) }
    ensures own { IfOk result (λ r. IsOf (owner script_keys user) r.0) }
{
    if parts.keys.len() >= most_keys(user) {
        return Ok((Slot::Closed(parts), Answer::NotTaken));
    }
    let parts = gained(alloc, user, orders, parts)?;
    Ok((Slot::Closed(parts), Answer::Gained))
}

/// What is closed after a crash that left these bytes on its devices, as it may.
fn crashed<A: Allocator + Copy>(
    alloc: A,
    parts: MemoryParts<A>,
    ledgers: &[Vec<u8, A>],
    journal: &[u8],
) -> Result<(Slot<A>, Answer<A>), Memory>
    requires { length parts.keys.items ≡ length ledgers.now }
    ensures closed { IfOk result (λ r. IsLeftWith (map vec_items ledgers.now) journal.now
        (secrets_in parts.keys.items) r.0) }
    ensures answer { IfOk result (λ r. r.1 ≡ Answer.Crashed) }
{
    let mut parts = parts;
    let done = crash(alloc, &mut parts, ledgers, journal);
    let (parts, ()) = beside(parts, done)?;
    Ok((Slot::Closed(parts), Answer::Crashed))
}

/// A step of a closed client.
fn closed_step<A: Allocator + Copy>(
    alloc: A,
    user: User,
    pinned: PublicKey,
    orders: &Orders<A>,
    parts: MemoryParts<A>,
    act: &Act<A>,
) -> Result<(Slot<A>, Answer<A>), Memory>
    requires pinned { pinned ≡ pinned_key script_keys }
    requires own { IsOf (owner script_keys user) (Slot.Closed parts) }
    ensures step { IfOk result (λ r. ComesOf (owner script_keys user) (client_in (Slot.Closed parts)) act.now r.1
        (client_in r.0)) }
    ensures own { IfOk result (λ r. IsOf (owner script_keys user) r.0) }
{
    match act {
        Act::Open => open(alloc, user, pinned, parts),
        Act::Gain => gain(alloc, user, orders, parts),
        Act::Crash(ledgers, journal) => {
            if !may_leave(&parts, ledgers, journal) {
                return Ok((Slot::Closed(parts), Answer::NotTaken));
            }
            crashed(alloc, parts, ledgers, journal)
        }
        _ => Ok((Slot::Closed(parts), Answer::NotTaken)),
    }
}

/// A step of an open client.
fn open_step<A: Allocator + Copy>(
    alloc: A,
    client: MemoryClient<A>,
    act: &Act<A>,
) -> Result<(Slot<A>, Answer<A>), Memory>
    ensures step { IfOk result (λ r. (o : Owner) → ComesOf o (Open client) act.now r.1 (client_in r.0)) }
    ensures own { IfOk result (λ r. (o : Owner) → AreFirst client.secrets o.secrets → IsOf o r.0) }
{
    match act {
        Act::Close => {
            let parts = close(client);
            Ok((Slot::Closed(parts), Answer::Closed))
        }
        Act::Crash(ledgers, journal) => {
            if !open_may_leave(&client, ledgers, journal) {
                return Ok((Slot::Open(client), Answer::NotTaken));
            }
            crashed(alloc, close(client), ledgers, journal)
        }
        _ => {
            let mut client = client;
            let answer = call(alloc, &mut client, act);
            type_invariant(&client);
            let (client, answer) = beside(client, answer)?;
            Ok((Slot::Open(client), answer))
        }
    }
}

/// A step of a user's client.
pub(crate) fn step<A: Allocator + Copy>(
    alloc: A,
    user: User,
    pinned: PublicKey,
    orders: &Orders<A>,
    slot: Slot<A>,
    act: &Act<A>,
) -> Result<(Slot<A>, Answer<A>), Memory>
    requires pinned { pinned ≡ pinned_key script_keys }
    requires own { IsOf (owner script_keys user) slot }
    ensures step { IfOk result (λ r. ComesOf (owner script_keys user) (client_in slot) act.now r.1 (client_in r.0)) }
    ensures own { IfOk result (λ r. IsOf (owner script_keys user) r.0) }
{
    match slot {
        Slot::Unmade => {
            let parts = first_parts(alloc, user, orders)?;
            closed_step(alloc, user, pinned, orders, parts, act)
        }
        Slot::Closed(parts) => closed_step(alloc, user, pinned, orders, parts, act),
        Slot::Open(client) => open_step(alloc, client, act),
    }
}
