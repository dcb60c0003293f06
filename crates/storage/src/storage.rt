//! Storages: devices of a type that tells its history or doesn't.

ghost use Rattle.std.specs.Prelude.{◌≡◌, ◌+◌, ◌^◌, ◌<◌, ◌≤◌, ℕ, Bool, true, length, take, drop, IfOk, OnOk, OnErr};
ghost use Rattle.leaf_ledger.specs.Device.{History, end_of_files, wrote_bytes, WroteSome, synced, HasCause};

use leaf_ledger::DeviceError;

/// What holds the bytes of a file.
///
/// What its calls do is what those of a device do, where storages of its type tell their history. Where they don't,
/// nothing is said of what it holds.
pub trait Storage {
    /// Whether storages of this type tell their history.
    ghost tells: { Bool };

    /// What it holds and held, if it tells that.
    ghost history: { Self → History };

    /// How often it has failed, up to 2 ^ 64 - 1.
    ghost fault_count: { Self → ℕ };

    /// How often it has failed. It counts up to the greatest number, and stays there.
    fn faults(&self) -> u64
        ensures { result ≡ fault_count self.now };

    /// How many bytes a read gives.
    fn len(&mut self) -> Result<usize, DeviceError>
        ensures size { IfOk result (λ size. tells ≡ true → size ≡ length (history self.old).now.text) }
        ensures bounded { IfOk result (λ size. size < end_of_files) }
        ensures same { history self.new ≡ history self.old }
        ensures cause { HasCause (fault_count self.old) (fault_count self.new) result };

    /// Fills `out` with the bytes from an offset on.
    fn read(&mut self, at: usize, out: &mut [u8]) -> Result<(), DeviceError>
        requires { tells ≡ true → at + length out.old ≤ length (history self.old).now.text }
        ensures bytes { OnOk result (tells ≡ true
            → out.new ≡ take (length out.old) (drop at (history self.old).now.text)) }
        ensures same { history self.new ≡ history self.old }
        ensures cause { HasCause (fault_count self.old) (fault_count self.new) result };

    /// Writes over what is there, and past the end. Where it fails, any part of it may be done.
    fn write_at(&mut self, at: usize, bytes: &[u8]) -> Result<(), DeviceError>
        requires { tells ≡ true → at ≤ length (history self.old).now.text }
        ensures ok { OnOk result (tells ≡ true → history self.new ≡ wrote_bytes at bytes.now (history self.old)) }
        ensures bounded { OnOk result (at + length bytes.now < end_of_files) }
        ensures err { OnErr result (tells ≡ true
            → WroteSome at (length bytes.now) (history self.old) (history self.new)) }
        ensures cause { HasCause (fault_count self.old) (fault_count self.new) result };

    /// From its success on a crash leaves what a read gives, until the next write.
    fn sync(&mut self) -> Result<(), DeviceError>
        ensures ok { OnOk result (tells ≡ true → history self.new ≡ synced (history self.old)) }
        ensures err { OnErr result (history self.new ≡ history self.old) }
        ensures cause { HasCause (fault_count self.old) (fault_count self.new) result };
}

/// Writes bytes at a place, and syncs.
pub fn write_through<S: Storage>(
    storage: &mut S,
    at: usize,
    bytes: &[u8],
) -> Result<(), DeviceError>
    requires { S.tells ≡ true → at ≤ length (S.history storage.old).now.text }
    ensures ok { OnOk result (S.tells ≡ true
        → S.history storage.new ≡ synced (wrote_bytes at bytes.now (S.history storage.old))) }
    ensures bounded { OnOk result (at + length bytes.now < end_of_files) }
    ensures err { OnErr result (S.tells ≡ true
        → WroteSome at (length bytes.now) (S.history storage.old) (S.history storage.new)) }
    ensures cause { HasCause (S.fault_count storage.old) (S.fault_count storage.new) result }
{
    storage.write_at(at, bytes)?;
    match storage.sync() {
        Ok(()) => Ok(()),
        Err(error) => Err(error),
    }
}
