//! Laws of keys and signatures, for the proofs of callers: functions that do nothing.

ghost use Rattle.std.specs.Prelude.{◌≡◌, ℕ, ◌+◌, ◌<◌, ◌*◌, ◌∷◌, List, length, true, replicate};
ghost use Rattle.lms_sign.specs.Digits.{checksum};
ghost use Rattle.lms_sign.specs.Keys.{is_key, public_key_of};
ghost use Rattle.lms_sign.specs.Secret.{HasLeaf, Secret, drawn_from};
ghost use Rattle.lms_sign.specs.Signature.{signature_of, valid};

use crate::form::SIGNATURE_SIZE;
use crate::public_key::KEY_SIZE;
use crate::tree::LEAF_COUNT;

/// A public key has 56 bytes, and a signature 2,508.
pub fn sizes()
    ensures key { (key : List ℕ) → is_key key ≡ true → length key ≡ KEY_SIZE }
    ensures public_key { (secret : Secret) → length secret.id ≡ 16 → length (public_key_of secret) ≡ KEY_SIZE }
    ensures signature { (secret : Secret) (text : List ℕ) (leaf : ℕ)
        → length (signature_of secret leaf text) ≡ SIGNATURE_SIZE }
    ensures valid { (key text signature : List ℕ) → valid key text signature ≡ true
        → length signature ≡ SIGNATURE_SIZE }
{}

/// What a leaf of a key signs is valid under its public key, if the leaf can sign.
pub fn signed_is_valid()
    ensures key { (secret : Secret) → length secret.id ≡ 16 → is_key (public_key_of secret) ≡ true }
    ensures signature { (secret : Secret) (text : List ℕ) (leaf : ℕ) → length secret.id ≡ 16 → leaf < LEAF_COUNT
        → HasLeaf secret leaf → valid (public_key_of secret) text (signature_of secret leaf text) ≡ true }
{}

/// Each leaf of a key that is drawn can sign.
pub fn drawn_has_leaves()
    ensures { (seed id : List ℕ) (leaf : ℕ) → leaf < LEAF_COUNT → HasLeaf (drawn_from seed id) leaf }
{}

/// Checksums by hand: of 64 digits 0, of 64 digits 15, and of 63 digits 0 and a digit 1.
#[tactic(auto, unfolding(crate::specs::Digits::checksum, crate::specs::Digits::coefficient))]
pub fn checksums()
    ensures zeros { checksum (replicate 32 0) ≡ 64 * 15 * 16 }
    ensures fifteens { checksum (replicate 32 255) ≡ 0 }
    ensures one { checksum (1 ∷ replicate 31 0) ≡ (63 * 15 + 14) * 16 }
{}
