//! Connections.

ghost use Rattle.std.specs.Prelude.{◌≤◌};
ghost use Rattle.leaf_ledger.specs.Device.{HasRisen};

use thiserror::Error;

/// The connection failed.
#[derive(Clone, Copy, Debug, Error)]
#[error("the connection failed")]
pub struct ConnectionFault;

/// A stream of bytes both ways.
pub trait Connection: Drop {
    ghost use Rattle.std.specs.Prelude.{◌≡◌, ◌≤◌, ◌<◌, ◌++◌, ℕ, List, Bool, [], Option, true, take, length, OnOk};
    ghost use Rattle.std.specs.Prelude.{OnErr, IfOk, IfErr, Ok};
    ghost use Rattle.leaf_ledger.specs.Device.{HasCause};
    ghost use Rattle.connection.specs.Told.{Told, goes_on};

    /// What was read from it and what was written to it, or None where it doesn't tell.
    ghost told: { Self → Option Told };

    /// It was read to its end.
    ghost is_at_end: { Self → Bool };

    /// How often it has failed, up to 2 ^ 64 - 1.
    ghost fault_count: { Self → ℕ };

    /// Reads bytes into the front of a buffer, and tells how many; none only at the end, or where the buffer has no
    /// room.
    fn read(&mut self, buffer: &mut [u8]) -> Result<usize, ConnectionFault>
        ensures bound { IfOk result (λ count. count ≤ length buffer.new) }
        ensures ok { IfOk result (λ count. told self.new ≡ goes_on (take count buffer.new) [] (told self.old)) }
        ensures end { result ≡ Ok 0 → 0 < length buffer.new → is_at_end self.new ≡ true }
        ensures err { OnErr result (told self.new ≡ told self.old) }
        ensures cause { HasCause (fault_count self.old) (fault_count self.new) result };

    /// Writes all bytes, or after a fault a beginning of them.
    fn write(&mut self, bytes: &[u8]) -> Result<(), ConnectionFault>
        ensures ok { OnOk result (told self.new ≡ goes_on [] bytes.now (told self.old)) }
        ensures err { IfErr result (λ _. (part rest : List ℕ) × (told self.new ≡ goes_on [] part (told self.old))
            × (bytes.now ≡ part ++ rest)) }
        ensures cause { HasCause (fault_count self.old) (fault_count self.new) result };

    /// How often it has failed. It counts up to the greatest number, and stays there.
    fn faults(&self) -> u64
        ensures { result ≡ fault_count self.now };
}

/// Counts a fault.
pub(crate) fn fault(faults: &mut u64) -> ConnectionFault
    ensures later { faults.old ≤ faults.new }
    ensures rose { HasRisen faults.old faults.new }
{
    *faults = faults.saturating_add(1);
    ConnectionFault
}
