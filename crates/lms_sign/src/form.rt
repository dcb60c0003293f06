//! The form of a signature (RFC 8554 section 5.4): the leaf's number, the LM-OTS type, the randomizer, the values of
//! the chains, the LMS type, and the path.

ghost use Rattle.std.specs.Prelude.{◌≡◌, ◌<◌, ◌≤◌, ◌++◌, IsTrue, length, take};
ghost use Rattle.std.specs.Int.{w32};
ghost use Rattle.layout.specs.Format.{be};
ghost use Rattle.lms_sign.specs.Keys.{ots_type};
ghost use Rattle.lms_sign.specs.Signature.{leaf_of, is_signature};

use crate::bytes::put;
use crate::tree::LEAF_COUNT;
use layout::Digest;

/// The size of a signature, in bytes.
pub const SIGNATURE_SIZE: usize = 2508;

/// The type LMS_SHA256_M32_H10.
pub(crate) const LMS_TYPE: [u8; 4] = [0, 0, 0, 6];

/// The type LMOTS_SHA256_N32_W4.
pub(crate) const OTS_TYPE: [u8; 4] = [0, 0, 0, 3];

/// Where the LM-OTS type stands.
pub(crate) const OTS_TYPE_AT: usize = 4;

/// Where the randomizer stands.
pub(crate) const RANDOMIZER_AT: usize = 8;

/// Where the values of the chains stand.
pub(crate) const VALUES_AT: usize = 40;

/// Where the LMS type stands.
pub(crate) const LMS_TYPE_AT: usize = 2184;

/// Where the path stands.
pub(crate) const PATH_AT: usize = 2188;

/// The leaf that a signature names.
pub(crate) fn leaf_of(signature: &[u8]) -> u32
    requires { 4 ≤ length signature.now }
    ensures { result ≡ leaf_of signature.now }
{
    let mut number = [0; 4];
    number.copy_from_slice(&signature[..OTS_TYPE_AT]);
    u32::from_be_bytes(number)
}

/// Whether bytes have a signature's form.
#[tactic(auto, unfolding(crate::specs::Signature::is_signature, layout::specs::Format::be))]
pub(crate) fn is_signature(signature: &[u8]) -> bool
    ensures form { result ≡ is_signature signature.now }
    ensures size { IsTrue result → length signature.now ≡ SIGNATURE_SIZE }
    ensures leaf { IsTrue result → leaf_of signature.now < LEAF_COUNT }
{
    signature.len() == SIGNATURE_SIZE
        && &signature[OTS_TYPE_AT..RANDOMIZER_AT] == OTS_TYPE.as_slice()
        && &signature[LMS_TYPE_AT..PATH_AT] == LMS_TYPE.as_slice()
        && leaf_of(signature) < LEAF_COUNT
}

/// Writes what stands before the values.
#[tactic(auto, unfolding(layout::specs::Format::be))]
pub(crate) fn put_front(signature: &mut [u8], leaf: u32, randomizer: &Digest)
    requires { length signature.old ≡ SIGNATURE_SIZE }
    ensures { take 40 signature.new ≡ be w32 leaf ++ ots_type ++ randomizer.now }
{
    put(signature, 0, &leaf.to_be_bytes());
    put(signature, OTS_TYPE_AT, &OTS_TYPE);
    put(signature, RANDOMIZER_AT, randomizer.as_bytes());
}
