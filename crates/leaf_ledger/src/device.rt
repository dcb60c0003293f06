//! Devices: what holds the bytes of a file, and may fail or crash.

ghost use Rattle.std.specs.Prelude.{◌≡◌, ◌+◌, ◌^◌, ◌<◌, ◌≤◌, ℕ, length, take, drop, IfOk, OnOk, OnErr};
ghost use Rattle.leaf_ledger.specs.Device.{History, end_of_files, wrote_bytes, WroteSome, synced, HasCause};

use layout::Memory;
use thiserror::Error;

/// A call of a device failed.
#[derive(Clone, Copy, Debug, Error)]
#[error("the device failed")]
pub struct DeviceError;

/// What holds the bytes of a file.
///
/// Between two syncs each extent that was written and what lies past the old end may hold any bytes, and what lies past
/// the old end may be cut short; bytes outside stay. After a sync that succeeds a crash leaves what a read gives.
pub trait Device {
    /// What it holds and held.
    ghost history: { Self → History };

    /// How often it has failed, up to 2 ^ 64 - 1.
    ghost fault_count: { Self → ℕ };

    /// How often it has failed. It counts up to the greatest number, and stays there.
    fn faults(&self) -> u64
        ensures { result ≡ fault_count self.now };

    /// How many bytes a read gives.
    fn len(&mut self) -> Result<usize, DeviceError>
        ensures size { IfOk result (λ size. size ≡ length (history self.old).now.text) }
        ensures bounded { IfOk result (λ size. size < end_of_files) }
        ensures same { history self.new ≡ history self.old }
        ensures cause { HasCause (fault_count self.old) (fault_count self.new) result };

    /// Fills `out` with the bytes from an offset on.
    fn read(&mut self, at: usize, out: &mut [u8]) -> Result<(), DeviceError>
        requires { at + length out.old ≤ length (history self.old).now.text }
        ensures bytes { OnOk result (out.new ≡ take (length out.old) (drop at (history self.old).now.text)) }
        ensures same { history self.new ≡ history self.old }
        ensures cause { HasCause (fault_count self.old) (fault_count self.new) result };

    /// Makes room for so many bytes past the end, so that writes up to there take no memory. A device that has no room to
    /// make has nothing to do.
    fn reserve(&mut self, _more: usize) -> Result<(), Memory>
        ensures same { history self.new ≡ history self.old }
        ensures faults { fault_count self.new ≡ fault_count self.old }
    {
        Ok(())
    }

    /// Writes over what is there, and past the end. Where it fails, any part of it may be done.
    fn write_at(&mut self, at: usize, bytes: &[u8]) -> Result<(), DeviceError>
        requires { at ≤ length (history self.old).now.text }
        ensures ok { OnOk result (history self.new ≡ wrote_bytes at bytes.now (history self.old)) }
        ensures bounded { OnOk result (at + length bytes.now < end_of_files) }
        ensures err { OnErr result (WroteSome at (length bytes.now) (history self.old) (history self.new)) }
        ensures cause { HasCause (fault_count self.old) (fault_count self.new) result };

    /// From its success on a crash leaves what a read gives, until the next write.
    fn sync(&mut self) -> Result<(), DeviceError>
        ensures ok { OnOk result (history self.new ≡ synced (history self.old)) }
        ensures err { OnErr result (history self.new ≡ history self.old) }
        ensures cause { HasCause (fault_count self.old) (fault_count self.new) result };
}

/// Writes bytes at a place, and syncs.
pub fn write_through<D: Device>(device: &mut D, at: usize, bytes: &[u8]) -> Result<(), DeviceError>
    requires { at ≤ length (D.history device.old).now.text }
    ensures ok { OnOk result (D.history device.new ≡ synced (wrote_bytes at bytes.now (D.history device.old))) }
    ensures bounded { OnOk result (at + length bytes.now < end_of_files) }
    ensures err { OnErr result (WroteSome at (length bytes.now) (D.history device.old) (D.history device.new)) }
    ensures cause { HasCause (D.fault_count device.old) (D.fault_count device.new) result }
{
    device.write_at(at, bytes)?;
    device.sync()?;
    Ok(())
}
