//! Faults of devices.

ghost use Rattle.std.specs.Prelude.{◌≤◌};
ghost use Rattle.leaf_ledger.specs.Device.{HasRisen};

use crate::device::DeviceError;

/// Where each text of a device ends at last: offsets of files are signed.
pub(crate) const END: usize = 1 << 63;

/// Counts a fault.
pub(crate) fn fault(faults: &mut u64) -> DeviceError
    ensures later { faults.old ≤ faults.new }
    ensures rose { HasRisen faults.old faults.new }
{
    *faults = faults.saturating_add(1);
    DeviceError
}
