//! The file of a ledger, as it is made and read.

ghost use Rattle.std.specs.Prelude.{◌≡◌, ◌≢◌, ◌-◌, ◌^◌, ◌<◌, ◌≤◌, ◌++◌, length, IfOk, OnOk, OnErr, IsErrOf};
ghost use Rattle.leaf_ledger.specs.Device.{at_rest, synced, IsAtMostSynced, HasCause, HasRisen};
ghost use Rattle.leaf_ledger.specs.Ledger.{UsedAsBefore, IsForeign, KeepsLedger};

use crate::device::{Device, DeviceError, write_through};
use crate::error::LedgerError;
use crate::ledger::MARKS_AT;
use lms_sign::{KEY_SIZE, Key};

/// How long the file is: the key, and a byte a leaf.
const FILE_SIZE: usize = 1080;

/// Writes the file where there is none.
fn make<D: Device>(device: &mut D, key: &[u8], marks: &[u8]) -> Result<(), DeviceError>
    requires { length (D.history device.old).now.text ≡ 0 }
    ensures ok { OnOk result ((D.history device.new).now ≡ at_rest (key.now ++ marks.now)) }
    ensures cause { HasCause (D.fault_count device.old) (D.fault_count device.new) result }
{
    device.write_at(0, key)?;
    write_through(device, key.len(), marks)?;
    Ok(())
}

/// Syncs, and tells how long the file is.
fn synced_size<D: Device>(device: &mut D) -> Result<usize, DeviceError>
    ensures synced { OnOk result (D.history device.new ≡ synced (D.history device.old)) }
    ensures size { IfOk result (λ size. size ≡ length (D.history device.old).now.text) }
    ensures err { OnErr result (IsAtMostSynced (D.history device.old) (D.history device.new)) }
    ensures cause { HasCause (D.fault_count device.old) (D.fault_count device.new) result }
{
    device.sync()?;
    let size = device.len()?;
    Ok(size)
}

/// The marks in the file of a key, which is made where there is none.
pub(crate) fn load<D: Device>(device: &mut D, key: &Key) -> Result<[u8; 1024], LedgerError>
    ensures at_rest { IfOk result (λ marks. (D.history device.new).now ≡ at_rest (key.now ++ marks)) }
    ensures used { OnOk result (UsedAsBefore (D.history device.old).now.text (D.history device.new).now.text) }
    // All that it does to a file that is there is to sync it.
    ensures kept { KeepsLedger (D.history device.old) (D.history device.new) }
    ensures foreign { IsErrOf result LedgerError.Foreign → IsForeign key.now (D.history device.old).now.text }
    ensures own { OnOk result (IsForeign key.now (D.history device.old).now.text → ⊥) }
    ensures no_leaf { IsErrOf result LedgerError.NoLeaf → ⊥ }
    ensures later { D.fault_count device.old ≤ D.fault_count device.new }
    ensures device { IsErrOf result LedgerError.Device
        → HasRisen (D.fault_count device.old) (D.fault_count device.new) }
{
    let size = synced_size(device)?;
    let mut marks = [0; 1024];
    if size == 0 {
        make(device, key, &marks)?;
        return Ok(marks);
    }
    if size != FILE_SIZE {
        return Err(LedgerError::Foreign);
    }
    let mut found = [0; KEY_SIZE];
    device.read(0, &mut found)?;
    if found != *key {
        return Err(LedgerError::Foreign);
    }
    device.read(MARKS_AT, &mut marks)?;
    Ok(marks)
}
