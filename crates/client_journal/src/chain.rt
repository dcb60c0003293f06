//! The records of a file, as they are found.

ghost use Rattle.std.specs.Prelude.{◌≡◌, ◌⊎◌, ◌+◌, ◌^◌, ◌<◌, ◌≤◌, ◌==◌, ◌++◌, ◌∷◌, [], List, length, drop, get_or};
ghost use Rattle.std.specs.Prelude.{IfOk, IfSome, IfNone, OnOk, OnErr, IsErrOf};
ghost use Rattle.leaf_ledger.specs.Device.{end_of_files, synced, IsAtMostSynced, Throughout, HasRisen, HasCause};
ghost use Rattle.client_journal.specs.Places.{part, Reaches, Ends, IsReady};
ghost use Rattle.client_journal.specs.Records.{Record, open_gate, closed_gate, size_of_header, spelled, Tells, IsNew};
ghost use Rattle.client_journal.specs.Records.{IsOtherKind, EndsEarly, IsDamaged, KeepsJournal, MayBeLeft};

use crate::error::JournalError;
use crate::kind::Kind;
use crate::phase::Phase;
use crate::record::{HEADER_SIZE, read_header};
use crate::turn::is_in_turn;
use leaf_ledger::{Device, DeviceError, Extent, write_through};

/// A gate that is open: a record stands after it.
pub(crate) const OPEN: u8 = 1;

/// A gate that is closed.
pub(crate) const CLOSED: u8 = 0;

/// Where the records of a file end.
#[derive(Clone, Copy, Debug)]
pub(crate) struct End {
    /// Where the first gate stands that isn't open.
    pub(crate) gate: usize,
    /// Where the texts of the last records lie.
    pub(crate) phase: Phase,
}

/// Whether the gate there is open.
fn is_open<D: Device>(device: &mut D, gate: usize) -> Result<bool, JournalError>
    requires { gate < length (D.history device.old).now.text }
    ensures open { IfOk result (λ yes. yes ≡ (get_or (D.history device.old).now.text gate 0 == open_gate)) }
    ensures same { D.history device.new ≡ D.history device.old }
    ensures damaged { IsErrOf result JournalError.Damaged → ⊥ }
    ensures memory { IsErrOf result JournalError.Memory → ⊥ }
    ensures later { D.fault_count device.old ≤ D.fault_count device.new }
    ensures device { IsErrOf result JournalError.Device
        → HasRisen (D.fault_count device.old) (D.fault_count device.new) }
{
    let mut byte = [0];
    device.read(gate, &mut byte)?;
    Ok(byte[0] == OPEN)
}

/// The kind of the record that stands there, and where its text lies.
fn record_after<D: Device>(
    device: &mut D,
    at: usize,
    size: usize,
) -> Result<(Kind, Extent), JournalError>
    requires size { size ≡ length (D.history device.old).now.text }
    requires inside { at ≤ size }
    requires bounded { size < end_of_files }
    ensures place { IfOk result (λ r. (r.1.at ≡ at + size_of_header) × (r.1.at + r.1.size < size)
        × (r.1.size < 2 ^ 32)) }
    ensures spelled { IfOk result (λ r. drop at (D.history device.old).now.text
        ≡ spelled (record { kind = r.0; text = part r.1 (D.history device.old).now.text })
        ++ drop (r.1.at + r.1.size) (D.history device.old).now.text) }
    ensures damaged { IsErrOf result JournalError.Damaged → IsOtherKind (drop at (D.history device.old).now.text)
        ⊎ EndsEarly (drop at (D.history device.old).now.text) }
    ensures same { D.history device.new ≡ D.history device.old }
    ensures memory { IsErrOf result JournalError.Memory → ⊥ }
    ensures later { D.fault_count device.old ≤ D.fault_count device.new }
    ensures device { IsErrOf result JournalError.Device
        → HasRisen (D.fault_count device.old) (D.fault_count device.new) }
{
    if size - at <= HEADER_SIZE {
        return Err(JournalError::Damaged);
    }
    let mut bytes = [0; 5];
    device.read(at, &mut bytes)?;
    let Some((kind, length)) = read_header(&bytes) else {
        return Err(JournalError::Damaged);
    };
    if size - at - HEADER_SIZE <= length {
        return Err(JournalError::Damaged);
    }
    Ok((
        kind,
        Extent {
            at: at + HEADER_SIZE,
            size: length,
        },
    ))
}

/// One record further, if the gate is open.
fn advance<D: Device>(device: &mut D, size: usize, end: End) -> Result<Option<End>, JournalError>
    requires size { size ≡ length (D.history device.old).now.text }
    requires long { 1 < size }
    requires bounded { size < end_of_files }
    requires reaches { Reaches (D.history device.old).now.text end.gate end.phase }
    ensures further { IfOk result (λ next. IfSome next (λ next. (end.gate < next.gate)
        × Reaches (D.history device.old).now.text next.gate next.phase)) }
    ensures ended { IfOk result (λ next. IfNone next
        (Ends (D.history device.old).now.text end.gate end.phase)) }
    ensures damaged { IsErrOf result JournalError.Damaged → IsDamaged (D.history device.old).now.text }
    ensures same { D.history device.new ≡ D.history device.old }
    ensures memory { IsErrOf result JournalError.Memory → ⊥ }
    ensures later { D.fault_count device.old ≤ D.fault_count device.new }
    ensures device { IsErrOf result JournalError.Device
        → HasRisen (D.fault_count device.old) (D.fault_count device.new) }
{
    if !is_open(device, end.gate)? {
        return Ok(None);
    }
    match record_after(device, end.gate + 1, size) {
        Ok((kind, text)) => {
            if !is_in_turn(device, end.phase, kind, text)? {
                return Err(JournalError::Damaged);
            }
            Ok(Some(End {
                gate: text.at + text.size,
                phase: end.phase.after(kind, text),
            }))
        }
        Err(error) => Err(error),
    }
}

/// Where the records of a file end, from one gate on.
fn walk<D: Device>(device: &mut D, size: usize) -> Result<End, JournalError>
    requires size { size ≡ length (D.history device.old).now.text }
    requires long { 1 < size }
    requires bounded { size < end_of_files }
    ensures ends { IfOk result (λ end. Ends (D.history device.old).now.text end.gate end.phase) }
    ensures damaged { IsErrOf result JournalError.Damaged → IsDamaged (D.history device.old).now.text }
    ensures same { D.history device.new ≡ D.history device.old }
    ensures memory { IsErrOf result JournalError.Memory → ⊥ }
    ensures later { D.fault_count device.old ≤ D.fault_count device.new }
    ensures device { IsErrOf result JournalError.Device
        → HasRisen (D.fault_count device.old) (D.fault_count device.new) }
{
    let mut end = End {
        gate: 0,
        phase: Phase::Idle,
    };
    loop {
        match advance(device, size, end) {
            Ok(Some(next)) => end = next,
            Ok(None) => return Ok(end),
            Err(error) => return Err(error),
        }
    }
}

/// Syncs, and tells how long the file is.
fn synced_size<D: Device>(device: &mut D) -> Result<usize, DeviceError>
    ensures synced { OnOk result (D.history device.new ≡ synced (D.history device.old)) }
    ensures size { IfOk result (λ size. size ≡ length (D.history device.old).now.text) }
    ensures bounded { IfOk result (λ size. size < end_of_files) }
    ensures err { OnErr result (IsAtMostSynced (D.history device.old) (D.history device.new)) }
    ensures cause { HasCause (D.fault_count device.old) (D.fault_count device.new) result }
{
    device.sync()?;
    let size = device.len()?;
    Ok(size)
}

/// Where the records of the file end, which is made where it has at most one byte. The device is synced before anything
/// is read, so that what is told here stays.
pub(crate) fn find_end<D: Device>(device: &mut D) -> Result<End, JournalError>
    ensures ready { IfOk result (λ end. IsReady (D.history device.new).now end.gate end.phase) }
    ensures tells { OnOk result ((rs : List Record) → Tells rs (D.history device.new).now.text
        → Tells rs (D.history device.old).now.text) }
    ensures kept { KeepsJournal (D.history device.old) (D.history device.new) }
    ensures new { OnOk result (IsNew (D.history device.old).now.text
        → (D.history device.new).now.text ≡ closed_gate ∷ []) }
    ensures new_err { OnErr result (IsNew (D.history device.old).now.text → IsNew (D.history device.new).now.text) }
    ensures left { Throughout (MayBeLeft (D.history device.old)) (D.history device.old) (D.history device.new) }
    ensures damaged { IsErrOf result JournalError.Damaged → IsDamaged (D.history device.old).now.text }
    ensures memory { IsErrOf result JournalError.Memory → ⊥ }
    ensures later { D.fault_count device.old ≤ D.fault_count device.new }
    ensures device { IsErrOf result JournalError.Device
        → HasRisen (D.fault_count device.old) (D.fault_count device.new) }
{
    let size = synced_size(device)?;
    if size <= 1 {
        write_through(device, 0, &[CLOSED])?;
        return Ok(End {
            gate: 0,
            phase: Phase::Idle,
        });
    }
    walk(device, size)
}
