//! Verifications of signatures, made before the one order is locked.

ghost use Rattle.std.specs.Prelude.{◌≡◌, ◌++◌, ◌-◌, IfSome, length};
ghost use Rattle.lms_sign.specs.Signature.{valid};

use lms_sign::{PublicKey, SIGNATURE_SIZE, verify};
use std::marker::Model;

/// What the verification of a signature under a key came to. It tells nothing of what a server keeps: so it is made
/// without a lock, and holds for good.
#[derive(Drop)]
pub struct Verification<'a> {
    key: PublicKey,
    unsigned: &'a [u8],
    signature: &'a [u8],
    is_valid: bool,
}

impl<'a> Model for Verification<'a> {
    ghost use Rattle.std.specs.Prelude.{◌≡◌};
    ghost use Rattle.lms_sign.specs.Signature.{valid};
    ghost use Rattle.consistency_server.specs.Verification.{Verification};

    ghost Value = { Verification };

    ghost view = { λ v. record {
      key = v.key;
      unsigned = v.unsigned.now;
      signature = v.signature.now;
      is_valid = v.is_valid;
    } };

    ghost invariant = { λ v. v.is_valid ≡ valid v.key v.unsigned.now v.signature.now };
}

impl<'a> Verification<'a> {
    /// Verifies the last 2,508 bytes of a text as the signature of what stands before them.
    pub fn new(key: PublicKey, text: &'a [u8]) -> Verification<'a>
        ensures key { result.key ≡ key }
        ensures text { result.unsigned ++ result.signature ≡ text.now }
        ensures size { length result.unsigned ≡ length text.now - SIGNATURE_SIZE }
        ensures valid { result.is_valid ≡ valid result.key result.unsigned result.signature }
    {
        let (unsigned, signature) = text.split_at(text.len().saturating_sub(SIGNATURE_SIZE));
        let is_valid = verify(&key, unsigned, signature);
        Verification {
            key,
            unsigned,
            signature,
            is_valid,
        }
    }

    /// Whether this signature of this text is valid under this key, if it is the one that was verified.
    pub(crate) fn validity(
        &self,
        key: &PublicKey,
        unsigned: &[u8],
        signature: &[u8],
    ) -> Option<bool>
        ensures { IfSome result (λ is_valid. is_valid ≡ valid key.now unsigned.now signature.now) }
    {
        if self.key.as_bytes() == key.as_bytes()
            && self.signature == signature
            && self.unsigned == unsigned
        {
            Some(self.is_valid)
        } else {
            None
        }
    }
}
