//! Whether a record is in turn, which for a certificate after a certificate the two texts tell.

ghost use Rattle.std.specs.Prelude.{◌≡◌, ◌+◌, ◌<◌, ◌≤◌, length, is_some, IfOk};
ghost use Rattle.std.specs.Str.{bytes_eq};
ghost use Rattle.leaf_ledger.specs.Device.{end_of_files, extent, HasCause};
ghost use Rattle.client_journal.specs.Places.{part, state_at, IsBelow, AreBelow};
ghost use Rattle.client_journal.specs.Records.{next_state, same_unsigned as same_unsigned_texts};

use crate::kind::Kind;
use crate::phase::Phase;
use leaf_ledger::{Device, DeviceError, Extent};
use lms_sign::SIGNATURE_SIZE;

/// How many bytes of each text are compared at a time.
const PIECE_SIZE: usize = 256;

/// Whether so few bytes from one place on are those from the other.
fn same_piece<D: Device>(
    device: &mut D,
    a: usize,
    b: usize,
    size: usize,
) -> Result<bool, DeviceError>
    requires short { size ≤ PIECE_SIZE }
    requires a_inside { a + size ≤ length (D.history device.old).now.text }
    requires b_inside { b + size ≤ length (D.history device.old).now.text }
    ensures bytes { IfOk result (λ yes. yes ≡ bytes_eq (part (extent a size) (D.history device.old).now.text)
        (part (extent b size) (D.history device.old).now.text)) }
    ensures same { D.history device.new ≡ D.history device.old }
    ensures cause { HasCause (D.fault_count device.old) (D.fault_count device.new) result }
{
    let mut a_bytes = [0; PIECE_SIZE];
    let mut b_bytes = [0; PIECE_SIZE];
    device.read(a, &mut a_bytes[..size])?;
    device.read(b, &mut b_bytes[..size])?;
    Ok(a_bytes[..size] == b_bytes[..size])
}

/// Whether the bytes from one place on are those from the other. It takes no memory.
fn same_part<D: Device>(
    device: &mut D,
    a: usize,
    b: usize,
    size: usize,
) -> Result<bool, DeviceError>
    requires a_inside { a + size ≤ length (D.history device.old).now.text }
    requires b_inside { b + size ≤ length (D.history device.old).now.text }
    requires bounded { length (D.history device.old).now.text < end_of_files }
    ensures bytes { IfOk result (λ yes. yes ≡ bytes_eq (part (extent a size) (D.history device.old).now.text)
        (part (extent b size) (D.history device.old).now.text)) }
    ensures same { D.history device.new ≡ D.history device.old }
    ensures cause { HasCause (D.fault_count device.old) (D.fault_count device.new) result }
{
    let mut done = 0;
    while done < size {
        let count = (size - done).min(PIECE_SIZE);
        if !same_piece(device, a + done, b + done, count)? {
            return Ok(false);
        }
        done += count;
    }
    Ok(true)
}

/// Whether of two texts the same was signed.
fn same_unsigned<D: Device>(device: &mut D, a: Extent, b: Extent) -> Result<bool, DeviceError>
    requires a_inside { IsBelow (length (D.history device.old).now.text) a }
    requires b_inside { IsBelow (length (D.history device.old).now.text) b }
    requires bounded { length (D.history device.old).now.text < end_of_files }
    ensures texts { IfOk result (λ yes. yes ≡ same_unsigned_texts (part a (D.history device.old).now.text)
        (part b (D.history device.old).now.text)) }
    ensures same { D.history device.new ≡ D.history device.old }
    ensures cause { HasCause (D.fault_count device.old) (D.fault_count device.new) result }
{
    if a.size != b.size || a.size <= SIGNATURE_SIZE {
        return Ok(false);
    }
    same_part(device, a.at, b.at, a.size - SIGNATURE_SIZE)
}

/// Whether a record of this kind, whose text lies there, may come next.
pub(crate) fn is_in_turn<D: Device>(
    device: &mut D,
    phase: Phase,
    kind: Kind,
    text: Extent,
) -> Result<bool, DeviceError>
    requires before { AreBelow (length (D.history device.old).now.text) phase }
    requires inside { IsBelow (length (D.history device.old).now.text) text }
    requires bounded { length (D.history device.old).now.text < end_of_files }
    ensures yes { IfOk result (λ yes. yes ≡ is_some (next_state (state_at (D.history device.old).now.text phase) kind
        (part text (D.history device.old).now.text))) }
    ensures same { D.history device.new ≡ D.history device.old }
    ensures cause { HasCause (D.fault_count device.old) (D.fault_count device.new) result }
{
    match (phase, kind) {
        (Phase::Declared(_, certificate), Kind::Certificate) => {
            same_unsigned(device, certificate, text)
        }
        (Phase::Declared(_, _), Kind::Structure)
        | (Phase::Idle | Phase::Signed(_), Kind::Certificate) => Ok(true),
        (Phase::Idle | Phase::Signed(_), Kind::Structure) => Ok(false),
    }
}
