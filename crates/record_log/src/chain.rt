//! The records of a file, as they are found.

ghost use Rattle.std.specs.Prelude.{◌≡◌, ◌≢◌, ◌+◌, ◌^◌, ◌<◌, ◌≤◌, ◌==◌, ◌++◌, ◌∷◌, [], Ok, true, false, length, take};
ghost use Rattle.std.specs.Prelude.{drop, get_or, IfOk, IfSome, IfNone, OnOk, OnErr, IsErrOf, List};
ghost use Rattle.leaf_ledger.specs.Device.{end_of_files, at_rest, synced, IsAtMostSynced, Throughout, HasRisen, HasCause};
ghost use Rattle.record_log.specs.Places.{IsReady};
ghost use Rattle.record_log.specs.Records.{Record as PureRecord, open_gate, closed_gate, size_of_header, spelled, IsShort};
ghost use Rattle.record_log.specs.Records.{Reaches, Tells, IsNew, EndsEarly, IsDamaged, KeepsLog, MayBeLeft};

use crate::error::LogError;
use crate::record::{HEADER_SIZE, Record, read_header};
use leaf_ledger::DeviceError;
use std::alloc::Allocator;
use storage::{Storage, write_through};

/// A gate that is open: a record stands after it.
pub(crate) const OPEN: u8 = 1;

/// A gate that is closed.
pub(crate) const CLOSED: u8 = 0;

/// Whether the gate there is open.
fn is_open<S: Storage>(storage: &mut S, gate: usize) -> Result<bool, DeviceError>
    requires { S.tells ≡ true → gate < length (S.history storage.old).now.text }
    ensures open { IfOk result (λ yes. S.tells ≡ true
        → yes ≡ (get_or (S.history storage.old).now.text gate 0 == open_gate)) }
    ensures same { S.history storage.new ≡ S.history storage.old }
    ensures cause { HasCause (S.fault_count storage.old) (S.fault_count storage.new) result }
{
    let mut byte = [0];
    storage.read(gate, &mut byte)?;
    Ok(byte[0] == OPEN)
}

/// The bytes that stand there.
fn read_bytes<S: Storage, A: Allocator + Copy>(
    alloc: A,
    storage: &mut S,
    at: usize,
    size: usize,
) -> Result<Vec<u8, A>, LogError>
    requires { S.tells ≡ true → at + size ≤ length (S.history storage.old).now.text }
    ensures size { IfOk result (λ bytes. length bytes.items ≡ size) }
    ensures bytes { IfOk result (λ bytes. S.tells ≡ true
        → bytes.items ≡ take size (drop at (S.history storage.old).now.text)) }
    ensures same { S.history storage.new ≡ S.history storage.old }
    ensures damaged { IsErrOf result LogError.Damaged → ⊥ }
    ensures later { S.fault_count storage.old ≤ S.fault_count storage.new }
    ensures device { IsErrOf result LogError.Device
        → HasRisen (S.fault_count storage.old) (S.fault_count storage.new) }
{
    let mut bytes = Vec::from_elem(alloc, 0, size)?;
    storage.read(at, &mut bytes)?;
    Ok(bytes)
}

/// The record that stands there, and where the gate stands that comes after it.
fn read_record<S: Storage, A: Allocator + Copy>(
    alloc: A,
    storage: &mut S,
    at: usize,
    size: usize,
) -> Result<(Record<A>, usize), LogError>
    requires size { S.tells ≡ true → size ≡ length (S.history storage.old).now.text }
    requires inside { at ≤ size }
    ensures place { IfOk result (λ r. (at < r.1) × (r.1 < size)) }
    ensures short { IfOk result (λ r. IsShort r.0) }
    ensures spelled { IfOk result (λ r. S.tells ≡ true → drop at (S.history storage.old).now.text
        ≡ spelled r.0 ++ drop r.1 (S.history storage.old).now.text) }
    ensures damaged { S.tells ≡ true → IsErrOf result LogError.Damaged
        → EndsEarly (drop at (S.history storage.old).now.text) }
    ensures same { S.history storage.new ≡ S.history storage.old }
    ensures later { S.fault_count storage.old ≤ S.fault_count storage.new }
    ensures device { IsErrOf result LogError.Device
        → HasRisen (S.fault_count storage.old) (S.fault_count storage.new) }
{
    if size - at <= HEADER_SIZE {
        return Err(LogError::Damaged);
    }
    let mut bytes = [0; 5];
    storage.read(at, &mut bytes)?;
    let (kind, length) = read_header(&bytes);
    if size - at - HEADER_SIZE <= length {
        return Err(LogError::Damaged);
    }
    let text = read_bytes(alloc, storage, at + HEADER_SIZE, length)?;
    let Some(found) = Record::new(kind, text) else {
        unreachable!();
    };
    Ok((found, at + HEADER_SIZE + length))
}

/// The record after a gate, if the gate is open. Then the gate that comes after it is the next.
pub(crate) fn next_record<S: Storage, A: Allocator + Copy>(
    alloc: A,
    storage: &mut S,
    size: usize,
    gate: &mut usize,
) -> Result<Option<Record<A>>, LogError>
    requires size { S.tells ≡ true → size ≡ length (S.history storage.old).now.text }
    requires long { 1 < size }
    requires inside { gate.old < size }
    ensures inside { gate.new < size }
    ensures further { IfOk result (λ found. IfSome found (λ _. gate.old < gate.new)) }
    ensures reaches { IfOk result (λ found. IfSome found (λ r. S.tells ≡ true
        → (rs : List PureRecord) → Reaches (S.history storage.old).now.text gate.old rs
        → Reaches (S.history storage.old).now.text gate.new (rs ++ r ∷ []))) }
    ensures ended { IfOk result (λ found. IfNone found (S.tells ≡ true
        → get_or (S.history storage.old).now.text gate.old 0 ≢ open_gate)) }
    ensures stays { IfOk result (λ found. IfNone found (gate.new ≡ gate.old)) }
    ensures stays_err { OnErr result (gate.new ≡ gate.old) }
    ensures damaged { S.tells ≡ true → IsErrOf result LogError.Damaged
        → (rs : List PureRecord) → Reaches (S.history storage.old).now.text gate.old rs
        → IsDamaged (S.history storage.old).now.text }
    ensures same { S.history storage.new ≡ S.history storage.old }
    ensures later { S.fault_count storage.old ≤ S.fault_count storage.new }
    ensures device { IsErrOf result LogError.Device
        → HasRisen (S.fault_count storage.old) (S.fault_count storage.new) }
{
    let at = *gate;
    if !is_open(storage, at)? {
        return Ok(None);
    }
    match read_record(alloc, storage, at + 1, size) {
        Ok((one, next)) => {
            *gate = next;
            Ok(Some(one))
        }
        Err(error) => Err(error),
    }
}

/// Finds one record more, if the gate is open. False where it isn't.
fn advance<S: Storage, A: Allocator + Copy>(
    alloc: A,
    storage: &mut S,
    size: usize,
    gate: &mut usize,
    found: &mut Vec<Record<A>, A>,
) -> Result<bool, LogError>
    requires size { S.tells ≡ true → size ≡ length (S.history storage.old).now.text }
    requires long { 1 < size }
    requires inside { gate.old < size }
    requires reaches { S.tells ≡ true → Reaches (S.history storage.old).now.text gate.old found.old.items }
    ensures inside { gate.new < size }
    ensures further { result ≡ Ok true → gate.old < gate.new }
    ensures reaches { OnOk result (S.tells ≡ true
        → Reaches (S.history storage.old).now.text gate.new found.new.items) }
    ensures ended { result ≡ Ok false → S.tells ≡ true
        → get_or (S.history storage.old).now.text gate.new 0 ≢ open_gate }
    ensures damaged { S.tells ≡ true → IsErrOf result LogError.Damaged
        → IsDamaged (S.history storage.old).now.text }
    ensures same { S.history storage.new ≡ S.history storage.old }
    ensures later { S.fault_count storage.old ≤ S.fault_count storage.new }
    ensures device { IsErrOf result LogError.Device
        → HasRisen (S.fault_count storage.old) (S.fault_count storage.new) }
{
    let Some(one) = next_record(alloc, storage, size, gate)? else {
        return Ok(false);
    };
    found.push(one)?;
    Ok(true)
}

/// Finds all records, and where they end.
fn walk<S: Storage, A: Allocator + Copy>(
    alloc: A,
    storage: &mut S,
    size: usize,
) -> Result<(usize, Vec<Record<A>, A>), LogError>
    requires size { S.tells ≡ true → size ≡ length (S.history storage.old).now.text }
    requires long { 1 < size }
    ensures inside { IfOk result (λ r. r.0 < size) }
    ensures reaches { IfOk result (λ r. S.tells ≡ true → Reaches (S.history storage.old).now.text r.0 r.1.items) }
    ensures ended { IfOk result (λ r. S.tells ≡ true → get_or (S.history storage.old).now.text r.0 0 ≢ open_gate) }
    ensures damaged { S.tells ≡ true → IsErrOf result LogError.Damaged
        → IsDamaged (S.history storage.old).now.text }
    ensures same { S.history storage.new ≡ S.history storage.old }
    ensures later { S.fault_count storage.old ≤ S.fault_count storage.new }
    ensures device { IsErrOf result LogError.Device
        → HasRisen (S.fault_count storage.old) (S.fault_count storage.new) }
{
    let mut gate = 0;
    let mut found = Vec::new(alloc);
    while advance(alloc, storage, size, &mut gate, &mut found)? {}
    Ok((gate, found))
}

/// Syncs, and tells how long the file is.
fn synced_size<S: Storage>(storage: &mut S) -> Result<usize, DeviceError>
    ensures synced { OnOk result (S.tells ≡ true → S.history storage.new ≡ synced (S.history storage.old)) }
    ensures size { IfOk result (λ size. S.tells ≡ true → size ≡ length (S.history storage.old).now.text) }
    ensures bounded { IfOk result (λ size. size < end_of_files) }
    ensures err { OnErr result (S.tells ≡ true → IsAtMostSynced (S.history storage.old) (S.history storage.new)) }
    ensures cause { HasCause (S.fault_count storage.old) (S.fault_count storage.new) result }
{
    storage.sync()?;
    let size = storage.len()?;
    Ok(size)
}

/// Where the file ends, which is made a log where it has at most one byte: then it has the closed gate alone. It is
/// synced before anything is read, so that what is told here stays.
pub(crate) fn start<S: Storage>(storage: &mut S) -> Result<usize, DeviceError>
    ensures bounded { IfOk result (λ size. size < end_of_files) }
    ensures some { IfOk result (λ size. 0 < size) }
    ensures size { IfOk result (λ size. S.tells ≡ true → size ≡ length (S.history storage.new).now.text) }
    ensures at_rest { OnOk result (S.tells ≡ true
        → (S.history storage.new).now ≡ at_rest (S.history storage.new).now.text) }
    ensures same { IfOk result (λ size. S.tells ≡ true → 1 < size
        → (S.history storage.new).now.text ≡ (S.history storage.old).now.text) }
    ensures made { IfOk result (λ size. S.tells ≡ true → size ≤ 1 → IsNew (S.history storage.old).now.text
        × ((S.history storage.new).now.text ≡ closed_gate ∷ [])) }
    ensures kept { S.tells ≡ true → KeepsLog (S.history storage.old) (S.history storage.new) }
    ensures new { OnOk result (S.tells ≡ true → IsNew (S.history storage.old).now.text
        → (S.history storage.new).now.text ≡ closed_gate ∷ []) }
    ensures new_err { OnErr result (S.tells ≡ true → IsNew (S.history storage.old).now.text
        → IsNew (S.history storage.new).now.text) }
    ensures left { S.tells ≡ true
        → Throughout (MayBeLeft (S.history storage.old)) (S.history storage.old) (S.history storage.new) }
    ensures cause { HasCause (S.fault_count storage.old) (S.fault_count storage.new) result }
{
    let size = synced_size(storage)?;
    if size <= 1 {
        write_through(storage, 0, &[CLOSED])?;
        return Ok(1);
    }
    Ok(size)
}

/// The records of the file, and where they end. A file of at most one byte is made a log. The storage is synced before
/// anything is read, so that what is told here stays.
pub(crate) fn find_all<S: Storage, A: Allocator + Copy>(
    alloc: A,
    storage: &mut S,
) -> Result<(usize, Vec<Record<A>, A>), LogError>
    ensures bounded { IfOk result (λ r. r.0 + 1 < end_of_files) }
    ensures ready { IfOk result (λ r. S.tells ≡ true → IsReady (S.history storage.new).now r.0) }
    ensures tells { IfOk result (λ r. S.tells ≡ true → Tells r.1.items (S.history storage.old).now.text
        × Tells r.1.items (S.history storage.new).now.text) }
    ensures kept { S.tells ≡ true → KeepsLog (S.history storage.old) (S.history storage.new) }
    ensures new { OnOk result (S.tells ≡ true → IsNew (S.history storage.old).now.text
        → (S.history storage.new).now.text ≡ closed_gate ∷ []) }
    ensures new_err { OnErr result (S.tells ≡ true → IsNew (S.history storage.old).now.text
        → IsNew (S.history storage.new).now.text) }
    ensures left { S.tells ≡ true
        → Throughout (MayBeLeft (S.history storage.old)) (S.history storage.old) (S.history storage.new) }
    ensures damaged { S.tells ≡ true → IsErrOf result LogError.Damaged
        → IsDamaged (S.history storage.old).now.text }
    ensures memory { S.tells ≡ true → IsErrOf result LogError.Memory → IsNew (S.history storage.old).now.text → ⊥ }
    ensures later { S.fault_count storage.old ≤ S.fault_count storage.new }
    ensures device { IsErrOf result LogError.Device
        → HasRisen (S.fault_count storage.old) (S.fault_count storage.new) }
{
    let size = start(storage)?;
    if size <= 1 {
        return Ok((0, Vec::new(alloc)));
    }
    walk(alloc, storage, size)
}
