//! Signed texts: what they spell, and whether the signature is valid.

ghost use Rattle.std.specs.Prelude.{◌≡◌, IfOk, IfSome};
ghost use Rattle.layout.specs.Format.{whole};
ghost use Rattle.lms_sign.specs.Signature.{valid};
ghost use Rattle.version_order.specs.Structure.{structure};
ghost use Rattle.update_cert.specs.Cert.{cert};
ghost use Rattle.pending_list.specs.Signed.{signed};
ghost use Rattle.consistency_server.specs.Reading.{FoundIs};

use crate::verification::Verification;
use layout::{Memory, ReadError, Text, are_bytes};
use lms_sign::{PublicKey, SIGNATURE_SIZE, verify};
use pending_list::Signed;
use std::alloc::Allocator;
use update_cert::{CERT_SIZE, Cert};
use version_order::{STRUCTURE_SIZE, Structure};

/// The value that the text spells with a signature, if it does.
fn read_signed<A: Allocator + Copy, T: Text<A>>(
    alloc: A,
    text: &[u8],
) -> Result<Option<Signed<T>>, Memory>
    ensures exact { IfOk result (λ found. FoundIs found (whole (signed T.format) text.now)) }
    ensures spelled { IfOk result (λ found. IfSome found (λ s. text.now ≡ (signed T.format).spell s)) }
{
    match Signed::<T>::read(alloc, text) {
        Ok(found) => Ok(Some(found)),
        Err(ReadError::Memory) => Err(Memory),
        Err(_) => Ok(None),
    }
}

/// The certificate that the text spells with a signature, if it does. A text that is too long for one isn't read.
pub(crate) fn read_cert<A: Allocator + Copy>(
    alloc: A,
    text: &[u8],
) -> Result<Option<Signed<Cert<A>>>, Memory>
    ensures exact { IfOk result (λ found. FoundIs found (whole (signed cert) text.now)) }
    ensures spelled { IfOk result (λ found. IfSome found (λ s. text.now ≡ (signed cert).spell s)) }
{
    if text.len() > CERT_SIZE + SIGNATURE_SIZE {
        are_bytes(text);
        return Ok(None);
    }
    read_signed::<A, Cert<A>>(alloc, text)
}

/// The structure that the text spells with a signature, if it does. A text that is too long for one isn't read.
pub(crate) fn read_structure<A: Allocator + Copy>(
    alloc: A,
    text: &[u8],
) -> Result<Option<Signed<Structure<A>>>, Memory>
    ensures exact { IfOk result (λ found. FoundIs found (whole (signed structure) text.now)) }
    ensures spelled { IfOk result (λ found. IfSome found (λ s. text.now ≡ (signed structure).spell s)) }
{
    if text.len() > STRUCTURE_SIZE + SIGNATURE_SIZE {
        are_bytes(text);
        return Ok(None);
    }
    read_signed::<A, Structure<A>>(alloc, text)
}

/// What stands before the signature.
pub(crate) fn unsigned<'a, A: Allocator + Copy, T: Text<A>>(
    found: &Signed<T>,
    text: &'a [u8],
) -> &'a [u8]
    requires { text.now ≡ (signed T.format).spell found.now }
    ensures { result.now ≡ T.format.spell found.now.value }
{
    let size = found.signature.as_bytes().len();
    &text[..text.len() - size]
}

/// Whether the signature is valid under the key. It is verified unless that is known.
pub(crate) fn is_signed<A: Allocator + Copy, T: Text<A>>(
    key: &PublicKey,
    found: &Signed<T>,
    text: &[u8],
    known: Option<&Verification<'_>>,
) -> bool
    requires { text.now ≡ (signed T.format).spell found.now }
    ensures { result ≡ valid key.now (T.format.spell found.now.value) found.now.signature }
{
    let unsigned = unsigned::<A, T>(found, text);
    let signature = found.signature.as_bytes();
    if let Some(known) = known
        && let Some(is_valid) = known.validity(key, unsigned, signature)
    {
        return is_valid;
    }
    verify(key, unsigned, signature)
}
