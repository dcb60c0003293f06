//! The tree over the leaves (RFC 8554 section 5.3).

ghost use Rattle.std.specs.Prelude.{◌≡◌, ◌+◌, ◌<◌, ◌++◌, [], length, slice_index_or, take};
ghost use Rattle.lms_sign.specs.Hashing.{joined};
ghost use Rattle.lms_sign.specs.Signature.{path_in};
ghost use Rattle.lms_sign.specs.Tree.{leaf_node, inner_node, ancestor, sibling, parent, climbed};

use crate::bytes::{DIGEST_SIZE, digest_at, headed_hasher, put};
use crate::form::{PATH_AT, SIGNATURE_SIZE};
use layout::Digest;

/// How many leaves a key has: so many texts can be signed.
pub const LEAF_COUNT: u32 = 1024;

/// How high the root lies above the leaves.
pub(crate) const HEIGHT: usize = 10;

/// D_LEAF, before a leaf's key.
const LEAF_KIND: u16 = 0x8282;

/// D_INTR, before the two nodes below another.
const INNER_KIND: u16 = 0x8383;

/// The node of a leaf with this key.
#[tactic(auto, unfolding(crate::specs::Tree::leaf_node))]
pub(crate) fn leaf_node(id: &[u8; 16], number: u32, key: &Digest) -> Digest
    ensures { result ≡ leaf_node id.now number key.now }
{
    let mut hasher = headed_hasher(id, number, LEAF_KIND);
    hasher.update(key.as_bytes());
    hasher.finish()
}

/// The node above two.
pub(crate) fn inner_node(id: &[u8; 16], number: u32, left: &Digest, right: &Digest) -> Digest
    ensures { result ≡ inner_node id.now number left.now right.now }
{
    let mut hasher = headed_hasher(id, number, INNER_KIND);
    hasher.update(left.as_bytes());
    hasher.update(right.as_bytes());
    hasher.finish()
}

/// The node above one of these numbers, from it and its sibling.
#[tactic(auto, unfolding(crate::specs::Tree::parent))]
fn parent(id: &[u8; 16], number: u32, other: &Digest, value: &Digest) -> Digest
    ensures { result ≡ parent id.now number other.now value.now }
{
    if number % 2 == 0 {
        inner_node(id, number / 2, value, other)
    } else {
        inner_node(id, number / 2, other, value)
    }
}

/// The root that a leaf's node and a signature's path lead to.
#[tactic(auto, unfolding(crate::specs::Tree::climbed, crate::specs::Tree::ancestor))]
pub(crate) fn climb(id: &[u8; 16], leaf: u32, node: Digest, signature: &[u8]) -> Digest
    requires leaf { leaf < LEAF_COUNT }
    requires size { length signature.now ≡ SIGNATURE_SIZE }
    ensures { result ≡ climbed id.now (LEAF_COUNT + leaf) (path_in signature.now) node 10 }
{
    let mut number = LEAF_COUNT + leaf;
    let mut node = node;
    for height in 0..HEIGHT {
        let other = digest_at(signature, PATH_AT + DIGEST_SIZE * height);
        node = parent(id, number, &other, &node);
        number /= 2;
    }
    node
}

/// The number of the other node below the same one.
#[tactic(auto, unfolding(crate::specs::Tree::sibling))]
fn sibling(number: u32) -> u32
    requires { number < 2048 }
    ensures value { result ≡ sibling number }
    ensures below { result < 2048 }
{
    if number % 2 == 0 {
        number + 1
    } else {
        number - 1
    }
}

/// Writes the siblings from a leaf's node upwards.
pub(crate) fn put_path(signature: &mut [u8], nodes: &[Digest], leaf: u32)
    requires size { length signature.old ≡ SIGNATURE_SIZE }
    requires nodes { length nodes.now ≡ 2048 }
    requires leaf { leaf < LEAF_COUNT }
    ensures { take SIGNATURE_SIZE signature.new
        ≡ take 2188 signature.old
        ++ joined 10 (λ height. slice_index_or nodes.now (sibling (ancestor (LEAF_COUNT + leaf) height)) []) }
{
    let mut number = LEAF_COUNT + leaf;
    for height in 0..HEIGHT {
        let other = nodes[sibling(number) as usize];
        put(signature, PATH_AT + DIGEST_SIZE * height, other.as_bytes());
        number /= 2;
    }
}
