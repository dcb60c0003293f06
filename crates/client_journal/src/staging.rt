//! A record written after a closed gate, with the next gate after it.

ghost use Rattle.std.specs.Prelude.{◌≡◌, ◌+◌, ◌<◌, ◌≤◌, [], ◌∷◌, ◌++◌, length, OnOk};
ghost use Rattle.leaf_ledger.specs.Device.{end_of_files, at_rest, written, Throughout, HasCause};
ghost use Rattle.client_journal.specs.Records.{closed_gate, spelled, IsShort};
ghost use Rattle.client_journal.specs.Places.{KeepsFront};

use crate::chain::CLOSED;
use crate::record::{HEADER_SIZE, Record, header};
use leaf_ledger::{Device, DeviceError};

/// Writes a record and a closed gate from a place on, piece by piece, and syncs. What stands before the place stays,
/// whatever crash comes.
pub(crate) fn stage<D: Device>(
    device: &mut D,
    at: usize,
    added: &Record<'_>,
) -> Result<(), DeviceError>
    requires inside { at ≤ length (D.history device.old).now.text }
    requires bounded { at < end_of_files }
    requires short { IsShort added.now }
    requires at_rest { (D.history device.old).now ≡ at_rest (D.history device.old).now.text }
    ensures ok { OnOk result ((D.history device.new).now
        ≡ at_rest (written at (spelled added.now ++ closed_gate ∷ []) (D.history device.old).now.text)) }
    ensures bounded { OnOk result (at + length (spelled added.now) + 1 < end_of_files) }
    ensures any_moment { Throughout (KeepsFront at (D.history device.old).now.text)
        (D.history device.old) (D.history device.new) }
    ensures reads { KeepsFront at (D.history device.old).now.text (D.history device.new).now.text }
    ensures cause { HasCause (D.fault_count device.old) (D.fault_count device.new) result }
{
    let size = added.text.len();
    device.write_at(at, &header(added.kind, size as u32))?;
    device.write_at(at + HEADER_SIZE, added.text)?;
    device.write_at(at + HEADER_SIZE + size, &[CLOSED])?;
    device.sync()?;
    Ok(())
}
