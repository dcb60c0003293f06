//! Signed texts: read, verified, copied and compared.

use layout::{Memory, Text};
use lms_sign::{PublicKey, SIGNATURE_SIZE, verify};
use pending_list::Signed;
use std::alloc::Allocator;
use version_order::Structure;

/// A signed text's two parts: what is signed, and the last 2,508 bytes.
fn parts_of(text: &[u8]) -> (&[u8], &[u8]) {
    text.split_at(text.len().saturating_sub(SIGNATURE_SIZE))
}

/// What is signed in a signed text.
pub(crate) fn unsigned(text: &[u8]) -> &[u8] {
    parts_of(text).0
}

/// Whether the signature of a signed text is valid under the key.
pub(crate) fn is_signed(key: &PublicKey, text: &[u8]) -> bool {
    let (unsigned, signature) = parts_of(text);
    verify(key, unsigned, signature)
}

/// Whether the text spells this value.
pub(crate) fn spells<A: Allocator + Copy, T: Text<A>>(
    alloc: A,
    text: &[u8],
    value: &T,
) -> Result<bool, Memory> {
    let spelling = value.text(alloc)?;
    Ok(text == spelling.as_slice())
}

/// The same structure, with its signature.
pub(crate) fn copy_of<A: Allocator + Copy>(
    alloc: A,
    structure: &Signed<Structure<A>>,
) -> Result<Signed<Structure<A>>, Memory> {
    let value = structure.value.copy(alloc)?;
    Ok(Signed {
        value,
        signature: structure.signature,
    })
}

/// The same structures.
pub(crate) fn copies_of<A: Allocator + Copy>(
    alloc: A,
    structures: &[Signed<Structure<A>>],
) -> Result<Vec<Signed<Structure<A>>, A>, Memory> {
    let mut copies = Vec::new(alloc);
    for structure in structures {
        copies.push(copy_of(alloc, structure)?)?;
    }
    Ok(copies)
}
