//! Making signatures (RFC 8554 section 5.4.1).

ghost use Rattle.std.specs.Prelude.{◌≡◌, true, length};
ghost use Rattle.lms_sign.specs.Keys.{public_key_of};
ghost use Rattle.lms_sign.specs.Secret.{HasLeaf};
ghost use Rattle.lms_sign.specs.Signature.{signature_of, valid};

use crate::form::SIGNATURE_SIZE;
use crate::leaf::Leaf;
use crate::private_key::PrivateKey;
use crate::spent_leaf::{SpentLeaf, burn};
use std::alloc::Allocator;

/// Signs a text with a leaf, and spends the leaf. It takes no memory, and doesn't fail.
pub fn sign<A: Allocator>(key: &PrivateKey<A>, leaf: Leaf, text: &[u8]) -> ([u8; 2508], SpentLeaf)
    requires key { leaf.key ≡ public_key_of key.now }
    requires has { HasLeaf key.now leaf.number }
    ensures signature { result.0 ≡ signature_of key.now leaf.number text.now }
    ensures valid { valid (public_key_of key.now) text.now result.0 ≡ true }
    ensures size { length result.0 ≡ SIGNATURE_SIZE }
    ensures spent { result.1 ≡ leaf }
{
    let signature = key.signature(leaf.number(), text);
    (signature, burn(leaf))
}
