//! What crashes leave of clients in memory: which bytes a crash may leave, and the devices after it.

ghost use Rattle.std.specs.Prelude.{◌≡◌, false, length, map, true, OnOk};
ghost use Rattle.std.specs.Vec.{vec_items};
ghost use Rattle.leaf_ledger.specs.Device.{started};
ghost use Rattle.client_steps.specs.Steps.{Open, Closed, files_of, journal_of, ledgers_of, secrets_in};
ghost use Rattle.client_runs.specs.Slots.{files_in, parts_in};
ghost use Rattle.client_runs.specs.NotTaken.{MayLeaveAll, MayLeaveEach};

use crate::armed::{ArmedDevice, MemoryClient};
use client_verify::Parts;
use layout::Memory;
use lms_sign::PrivateKey;
use std::alloc::Allocator;

/// A key, with the device of its ledger.
pub(crate) type MemoryKey<A> = (PrivateKey<A>, ArmedDevice<A>);

/// What a client is opened over, in memory.
pub(crate) type MemoryParts<A> = Parts<ArmedDevice<A>, ArmedDevice<A>, A>;

/// Whether a crash may leave these bytes on the devices of the ledgers of a closed client, in their order.
fn each_may_leave<A: Allocator + Copy>(keys: &[MemoryKey<A>], left: &[Vec<u8, A>]) -> bool
    ensures yes { result ≡ true → MayLeaveEach (files_in keys.now) (map vec_items left.now) }
    ensures no { result ≡ false → MayLeaveEach (files_in keys.now) (map vec_items left.now) → ⊥ }
{
    if keys.len() != left.len() {
        return false;
    }
    for i in 0..left.len() {
        if !keys[i].1.may_leave(&left[i]) {
            return false;
        }
    }
    true
}

/// And whether it may on those of an open one.
fn each_open_may_leave<A: Allocator + Copy>(client: &MemoryClient<A>, left: &[Vec<u8, A>]) -> bool
    ensures yes { result ≡ true → MayLeaveEach (ledgers_of (Open client.now)) (map vec_items left.now) }
    ensures no { result ≡ false → MayLeaveEach (ledgers_of (Open client.now)) (map vec_items left.now) → ⊥ }
{
    client.type_invariant();
    if client.key_count() != left.len() {
        return false;
    }
    for i in 0..left.len() {
        if !client.ledger_of(i).may_leave(&left[i]) {
            return false;
        }
    }
    true
}

/// Whether a crash of a closed client may leave these bytes on the devices of its ledgers and on that of its journal.
pub(crate) fn may_leave<A: Allocator + Copy>(
    parts: &MemoryParts<A>,
    ledgers: &[Vec<u8, A>],
    journal: &[u8],
) -> bool
    ensures yes { result ≡ true → MayLeaveAll (ledgers_of (Closed (parts_in parts.now)))
        (journal_of (Closed (parts_in parts.now))) (map vec_items ledgers.now) journal.now }
    ensures no { result ≡ false → MayLeaveAll (ledgers_of (Closed (parts_in parts.now)))
        (journal_of (Closed (parts_in parts.now))) (map vec_items ledgers.now) journal.now → ⊥ }
{
    each_may_leave(&parts.keys, ledgers) && parts.journal.may_leave(journal)
}

/// And whether one of an open client may.
pub(crate) fn open_may_leave<A: Allocator + Copy>(
    client: &MemoryClient<A>,
    ledgers: &[Vec<u8, A>],
    journal: &[u8],
) -> bool
    ensures yes { result ≡ true → MayLeaveAll (ledgers_of (Open client.now)) (journal_of (Open client.now))
        (map vec_items ledgers.now) journal.now }
    ensures no { result ≡ false → MayLeaveAll (ledgers_of (Open client.now)) (journal_of (Open client.now))
        (map vec_items ledgers.now) journal.now → ⊥ }
{
    each_open_may_leave(client, ledgers) && client.journal().may_leave(journal)
}

/// The devices of these keys' ledgers begin anew, each with these bytes, in their order.
fn start_each_over<A: Allocator + Copy>(
    alloc: A,
    keys: &mut [MemoryKey<A>],
    left: &[Vec<u8, A>],
) -> Result<(), Memory>
    requires { length keys.old ≡ length left.now }
    ensures files { OnOk result (files_in keys.new ≡ map started (map vec_items left.now)) }
    ensures secrets { OnOk result (secrets_in keys.new ≡ secrets_in keys.old) }
{
    for i in 0..left.len() {
        keys[i].1.start_over(alloc, &left[i])?;
    }
    Ok(())
}

/// All devices of a closed client begin anew with these bytes, which a crash left.
pub(crate) fn crash<A: Allocator + Copy>(
    alloc: A,
    parts: &mut MemoryParts<A>,
    ledgers: &[Vec<u8, A>],
    journal: &[u8],
) -> Result<(), Memory>
    requires { length parts.old.keys.items ≡ length ledgers.now }
    ensures ledgers { OnOk result (files_of (parts_in parts.new).ledgers ≡ map started (map vec_items ledgers.now)) }
    ensures journal { OnOk result (parts.new.journal.history ≡ started journal.now) }
    ensures secrets { OnOk result (secrets_in parts.new.keys.items ≡ secrets_in parts.old.keys.items) }
{
    start_each_over(alloc, &mut parts.keys, ledgers)?;
    parts.journal.start_over(alloc, journal)
}
