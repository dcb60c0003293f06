//! Parts of texts.

ghost use Rattle.std.specs.Prelude.{◌≡◌, ◌+◌, ◌≤◌, ◌++◌, length, take};
ghost use Rattle.layout.specs.Hasher.{Holds};
ghost use Rattle.lms_sign.specs.Hashing.{headed, part};

use layout::{Digest, Hasher};

/// The size of a digest, in bytes.
pub(crate) const DIGEST_SIZE: usize = 32;

/// Writes bytes at a place.
#[inline]
pub(crate) fn put(out: &mut [u8], at: usize, bytes: &[u8])
    requires { at + length bytes.now ≤ length out.old }
    ensures { take (at + length bytes.now) out.new ≡ take at out.old ++ bytes.now }
{
    out[at..at + bytes.len()].copy_from_slice(bytes);
}

/// The digest that stands at a place.
pub(crate) fn digest_at(bytes: &[u8], at: usize) -> Digest
    requires { at + 32 ≤ length bytes.now }
    ensures { result ≡ part at 32 bytes.now }
{
    let mut digest = [0; DIGEST_SIZE];
    digest.copy_from_slice(&bytes[at..at + DIGEST_SIZE]);
    Digest::from_bytes(digest)
}

/// A hasher that took what each hashed text begins with.
#[tactic(auto, unfolding(crate::specs::Hashing::headed, layout::specs::Format::be))]
pub(crate) fn headed_hasher(id: &[u8; 16], number: u32, kind: u16) -> Hasher
    ensures { Holds result (headed id.now number kind) }
{
    let mut hasher = Hasher::new();
    hasher.update(id);
    hasher.update(&number.to_be_bytes());
    hasher.update(&kind.to_be_bytes());
    hasher
}
