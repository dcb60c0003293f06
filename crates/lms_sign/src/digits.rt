//! The digits of a digest, by which chains are cut (RFC 8554 sections 3.1.3 and 4.4).

ghost use Rattle.std.specs.Prelude.{◌≡◌, ◌*◌, ◌<◌, ◌++◌, length};
ghost use Rattle.std.specs.Int.{w16};
ghost use Rattle.layout.specs.Format.{be};
ghost use Rattle.lms_sign.specs.Digits.{coefficient, checksum};

use crate::bytes::{DIGEST_SIZE, put};
use layout::Digest;

/// The greatest digit, which is also the number of steps of a chain.
pub(crate) const LAST_DIGIT: u8 = 15;

/// How many digits a byte has.
const DIGITS_A_BYTE: usize = 2;

/// The size of a digest and its checksum, in bytes.
pub(crate) const CHECKED_SIZE: usize = DIGEST_SIZE + 2;

/// The digit with this number.
#[tactic(auto, unfolding(crate::specs::Digits::coefficient))]
pub(crate) fn coefficient(bytes: &[u8], i: usize) -> u8
    requires { i < 2 * length bytes.now }
    ensures value { result ≡ coefficient bytes.now i }
    ensures small { result < 16 }
{
    let byte = bytes[i / DIGITS_A_BYTE];
    if i % DIGITS_A_BYTE == 0 {
        byte / 16
    } else {
        byte % 16
    }
}

/// What the digits of a digest lack to 15 each, shifted left by 4.
fn checksum(digest: &[u8]) -> u16
    requires { length digest.now ≡ 32 }
    ensures { result ≡ checksum digest.now }
{
    let mut sum: u16 = 0;
    for i in 0..DIGITS_A_BYTE * DIGEST_SIZE {
        sum += u16::from(LAST_DIGIT - coefficient(digest, i));
    }
    sum * 16
}

/// A digest with its checksum after it.
pub(crate) fn with_checksum(digest: &Digest) -> [u8; 34]
    ensures { result ≡ digest.now ++ be w16 (checksum digest.now) }
{
    let mut bytes = [0; CHECKED_SIZE];
    put(&mut bytes, 0, digest.as_bytes());
    put(
        &mut bytes,
        DIGEST_SIZE,
        &checksum(digest.as_bytes()).to_be_bytes(),
    );
    bytes
}
