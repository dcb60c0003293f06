//! Checking signatures (RFC 8554 section 5.4.2).

ghost use Rattle.std.specs.Prelude.{◌≡◌, ◌<◌, IsTrue, length};
ghost use Rattle.lms_sign.specs.Signature.{leaf_of, root_from, valid};

use crate::bytes::digest_at;
use crate::form::{RANDOMIZER_AT, SIGNATURE_SIZE, is_signature, leaf_of};
use crate::one_time::{candidate_key, text_digest};
use crate::public_key::PublicKey;
use crate::tree::{LEAF_COUNT, climb, leaf_node};
use layout::Digest;

/// The root that a signature of a text leads to.
#[tactic(auto, unfolding(crate::specs::Signature::root_from))]
fn root_from(id: &[u8; 16], text: &[u8], signature: &[u8]) -> Digest
    requires size { length signature.now ≡ SIGNATURE_SIZE }
    requires leaf { leaf_of signature.now < LEAF_COUNT }
    ensures { result ≡ root_from id.now text.now signature.now }
{
    let leaf = leaf_of(signature);
    let digest = text_digest(id, leaf, &digest_at(signature, RANDOMIZER_AT), text);
    let key = candidate_key(id, leaf, &digest, signature);
    let node = leaf_node(id, LEAF_COUNT + leaf, &key);
    climb(id, leaf, node, signature)
}

/// Whether a signature of a text is valid under a public key. It takes no memory.
#[tactic(auto, unfolding(crate::specs::Signature::valid))]
pub fn verify(key: &PublicKey, text: &[u8], signature: &[u8]) -> bool
    ensures valid { result ≡ valid key.now text.now signature.now }
    ensures size { IsTrue result → length signature.now ≡ SIGNATURE_SIZE }
{
    if !is_signature(signature) {
        return false;
    }
    root_from(&key.id(), text, signature).as_bytes() == key.root().as_bytes()
}
