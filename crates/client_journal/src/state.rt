//! The state that a journal tells, with its texts.

ghost use Rattle.std.specs.Prelude.{◌≡◌, ◌≤◌, length, IfOk, IsErrOf};
ghost use Rattle.leaf_ledger.specs.Device.{HasRisen};
ghost use Rattle.client_journal.specs.Places.{part, state_at, AreBelow, IsBelow};
ghost use Rattle.client_journal.specs.Told.{state_of_held};

use crate::error::JournalError;
use crate::phase::Phase;
use leaf_ledger::{Device, Extent};
use std::alloc::Allocator;

/// What a journal's records tell, by the last of them.
#[derive(Debug, Drop)]
pub enum JournalState<A: Allocator> {
    /// There is no record.
    Idle,
    /// The structure signed last, if there is one, and the certificate signed after it.
    Declared(Option<Vec<u8, A>>, Vec<u8, A>),
    /// The structure signed last, after which no certificate was signed.
    Signed(Vec<u8, A>),
}

/// The bytes of an extent.
fn read_part<D: Device, A: Allocator + Copy>(
    alloc: A,
    device: &mut D,
    place: Extent,
) -> Result<Vec<u8, A>, JournalError>
    requires { IsBelow (length (D.history device.old).now.text) place }
    ensures text { IfOk result (λ text. text.items ≡ part place (D.history device.old).now.text) }
    ensures same { D.history device.new ≡ D.history device.old }
    ensures damaged { IsErrOf result JournalError.Damaged → ⊥ }
    ensures later { D.fault_count device.old ≤ D.fault_count device.new }
    ensures device { IsErrOf result JournalError.Device
        → HasRisen (D.fault_count device.old) (D.fault_count device.new) }
{
    let mut text = Vec::from_elem(alloc, 0, place.size)?;
    device.read(place.at, &mut text)?;
    Ok(text)
}

/// The state whose texts lie there.
pub(crate) fn read_state<D: Device, A: Allocator + Copy>(
    alloc: A,
    device: &mut D,
    phase: Phase,
) -> Result<JournalState<A>, JournalError>
    requires { AreBelow (length (D.history device.old).now.text) phase }
    ensures state { IfOk result (λ state. state_of_held state ≡ state_at (D.history device.old).now.text phase) }
    ensures same { D.history device.new ≡ D.history device.old }
    ensures damaged { IsErrOf result JournalError.Damaged → ⊥ }
    // Where there is no record nothing grows.
    ensures idle { IsErrOf result JournalError.Memory → phase ≡ Phase.Idle → ⊥ }
    ensures later { D.fault_count device.old ≤ D.fault_count device.new }
    ensures device { IsErrOf result JournalError.Device
        → HasRisen (D.fault_count device.old) (D.fault_count device.new) }
{
    match phase {
        Phase::Idle => Ok(JournalState::Idle),
        Phase::Signed(structure) => Ok(JournalState::Signed(read_part(alloc, device, structure)?)),
        Phase::Declared(None, certificate) => Ok(JournalState::Declared(
            None,
            read_part(alloc, device, certificate)?,
        )),
        Phase::Declared(Some(structure), certificate) => {
            let last = read_part(alloc, device, structure)?;
            let certificate = read_part(alloc, device, certificate)?;
            Ok(JournalState::Declared(Some(last), certificate))
        }
    }
}
