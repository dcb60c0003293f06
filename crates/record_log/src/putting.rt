//! Records put after others, and room for more of them.

ghost use Rattle.std.specs.Prelude.{◌≡◌, ◌+◌, ◌-◌, ◌<◌, ◌≤◌, List, true, length, OnOk, OnErr};
ghost use Rattle.leaf_ledger.specs.Device.{end_of_files, HasCause};
ghost use Rattle.record_log.specs.Records.{Record, Tells, chain};
ghost use Rattle.record_log.specs.Places.{IsReady, IsLaidOut, MayAddAll, AddsAll, KeepsRecords};

use crate::chain::OPEN;
use leaf_ledger::DeviceError;
use storage::{Storage, write_through};

/// Puts the records that are laid out in these bytes after the gate where the others end: all but the first gate is
/// written and synced, then the gate is opened, and synced.
pub(crate) fn put<S: Storage>(storage: &mut S, gate: usize, bytes: &[u8]) -> Result<(), DeviceError>
    requires bounded { gate + 1 < end_of_files }
    requires some { 1 ≤ length bytes.now }
    requires ready { S.tells ≡ true → IsReady (S.history storage.old).now gate }
    ensures bounded { OnOk result (gate + length bytes.now < end_of_files) }
    ensures ok { OnOk result (S.tells ≡ true → (added : List Record) → IsLaidOut added bytes.now
        → AddsAll added (S.history storage.old) (S.history storage.new)) }
    ensures ready { OnOk result (S.tells ≡ true → (added : List Record) → IsLaidOut added bytes.now
        → IsReady (S.history storage.new).now (gate + (length bytes.now - 1))) }
    ensures err { OnErr result (S.tells ≡ true → (added : List Record) → IsLaidOut added bytes.now
        → MayAddAll added (S.history storage.old) (S.history storage.new)) }
    ensures cause { HasCause (S.fault_count storage.old) (S.fault_count storage.new) result }
{
    write_through(storage, gate + 1, &bytes[1..])?;
    write_through(storage, gate, &[OPEN])?;
    Ok(())
}

/// Puts bytes behind the gate where the records end, and syncs: they don't count.
pub(crate) fn put_behind<S: Storage>(
    storage: &mut S,
    gate: usize,
    bytes: &[u8],
) -> Result<(), DeviceError>
    requires bounded { gate + 1 < end_of_files }
    requires ready { S.tells ≡ true → IsReady (S.history storage.old).now gate }
    // Whatever is answered, the records stay.
    ensures kept { S.tells ≡ true → KeepsRecords (S.history storage.old) (S.history storage.new) }
    ensures room { OnOk result (S.tells ≡ true → (rs : List Record) → Tells rs (S.history storage.old).now.text
        → length (chain rs) + length bytes.now < length (S.history storage.new).now.text) }
    ensures ready { OnOk result (S.tells ≡ true → IsReady (S.history storage.new).now gate) }
    ensures cause { HasCause (S.fault_count storage.old) (S.fault_count storage.new) result }
{
    write_through(storage, gate + 1, bytes)?;
    Ok(())
}
