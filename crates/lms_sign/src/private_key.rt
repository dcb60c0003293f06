//! Private keys (RFC 8554 section 5.2).

ghost use Rattle.std.specs.Prelude.{◌≡◌, ◌↔◌, true, ℕ, ◌+◌, ◌*◌, ◌<◌, ◌≤◌, ◌++◌, IfOk, IsTrue, [], length, take};
ghost use Rattle.std.specs.Prelude.{slice_index_or, vec_len};
ghost use Rattle.lms_sign.specs.Hashing.{joined};
ghost use Rattle.lms_sign.specs.Keys.{public_key_of};
ghost use Rattle.lms_sign.specs.OneTime.{key_of};
ghost use Rattle.lms_sign.specs.Secret.{HasLeaf, drawn_from, drawn_keys, kept_leaves};
ghost use Rattle.lms_sign.specs.Signature.{path_of, signature_of, valid};
ghost use Rattle.lms_sign.specs.Tree.{inner_node, leaf_node};

use crate::bytes::{DIGEST_SIZE, digest_at, put};
use crate::form::{LMS_TYPE, LMS_TYPE_AT, SIGNATURE_SIZE, put_front};
use crate::leaves::{GROUP_COUNT, GROUP_SIZE, leaf_keys};
use crate::one_time::{leaf_key, put_values, randomizer, text_digest};
use crate::public_key::PublicKey;
use crate::tree::{LEAF_COUNT, inner_node, leaf_node, put_path};
use layout::{Digest, Memory};
use std::alloc::Allocator;
use std::marker::Model;

/// The size of the seed that a private key is drawn from, in bytes.
pub const SEED_SIZE: usize = 32;

/// The size of the leaves' keys as they are kept, one after another, in bytes.
pub const KEPT_SIZE: usize = 32768;

/// The number of the root.
const ROOT: usize = 1;

/// The nodes are kept at their numbers, so there is a place before that of the root.
const PLACE_COUNT: usize = 2048;

/// A private key: a seed, an identifier, the keys of the leaves and the whole tree over them, so that a signature costs
/// the chains of one leaf only. The keys of the leaves are those that the seed makes, where it was drawn, or were kept.
#[derive(Drop)]
pub struct PrivateKey<A: Allocator> {
    seed: [u8; 32],
    id: [u8; 16],
    is_drawn: bool,
    leaf_keys: Vec<Digest, A>,
    nodes: Vec<Digest, A>,
}

impl<A: Allocator> Model for PrivateKey<A> {
    ghost use Rattle.std.specs.Prelude.{◌≡◌, true};
    ghost use Rattle.lms_sign.specs.Nodes.{IsTree};
    ghost use Rattle.lms_sign.specs.Secret.{Secret, drawn_keys};

    ghost Value = { Secret };

    ghost view = { λ k. record { seed = k.seed; id = k.id; leaf_keys = k.leaf_keys.items } };

    ghost invariant = { λ k. IsTree k.id k.leaf_keys.items k.nodes.items
        × (k.is_drawn ≡ true → k.leaf_keys.items ≡ drawn_keys k.seed k.id) };
}

/// Puts the keys of a group of leaves at their places.
fn put_group(keys: &mut [Digest], group: usize, values: &[Digest; 8])
    requires size { length keys.old ≡ LEAF_COUNT }
    requires group { group < GROUP_COUNT }
    ensures size { length keys.new ≡ LEAF_COUNT }
    ensures group { (i : ℕ) → i < GROUP_SIZE
        → slice_index_or keys.new (8 * group + i) [] ≡ slice_index_or values.now i [] }
    ensures before { (leaf : ℕ) → leaf < 8 * group → slice_index_or keys.new leaf [] ≡ slice_index_or keys.old leaf [] }
{
    for place in 0..GROUP_SIZE {
        keys[GROUP_SIZE * group + place] = values[place];
    }
}

/// The keys of the leaves, as the seed makes them.
fn drawn_keys<A: Allocator>(
    alloc: A,
    seed: &[u8; 32],
    id: &[u8; 16],
) -> Result<Vec<Digest, A>, Memory>
    ensures size { IfOk result (λ keys. vec_len keys ≡ LEAF_COUNT) }
    ensures keys { IfOk result (λ keys. keys.items ≡ drawn_keys seed.now id.now) }
{
    let mut keys = vec![in alloc; Digest::from_bytes([0; 32]); LEAF_COUNT as usize]?;
    for group in 0..GROUP_COUNT {
        let values = leaf_keys(seed, id, (GROUP_SIZE * group) as u32);
        put_group(&mut keys, group, &values);
    }
    Ok(keys)
}

/// The keys of the leaves in order, from groups of eight.
fn grouped_keys<A: Allocator>(alloc: A, groups: &[[Digest; 8]]) -> Result<Vec<Digest, A>, Memory>
    requires { length groups.now ≡ GROUP_COUNT }
    ensures size { IfOk result (λ keys. vec_len keys ≡ LEAF_COUNT) }
    ensures keys { IfOk result (λ keys. (group i : ℕ) → group < GROUP_COUNT → i < GROUP_SIZE
        → slice_index_or keys.items (8 * group + i) [] ≡ slice_index_or (slice_index_or groups.now group []) i []) }
{
    let mut keys = vec![in alloc; Digest::from_bytes([0; 32]); LEAF_COUNT as usize]?;
    for group in 0..GROUP_COUNT {
        put_group(&mut keys, group, &groups[group]);
    }
    Ok(keys)
}

/// Reads the keys of the leaves from bytes, in which they stand one after another.
fn read_keys(keys: &mut [Digest], kept: &[u8])
    requires size { length keys.old ≡ LEAF_COUNT }
    requires kept { length kept.now ≡ KEPT_SIZE }
    ensures size { length keys.new ≡ LEAF_COUNT }
    ensures keys { joined 1024 (λ leaf. slice_index_or keys.new leaf []) ≡ kept.now }
{
    for leaf in 0..LEAF_COUNT as usize {
        keys[leaf] = digest_at(kept, DIGEST_SIZE * leaf);
    }
}

/// Writes the keys of the leaves one after another.
fn put_keys(out: &mut [u8], keys: &[Digest])
    requires size { length out.old ≡ KEPT_SIZE }
    requires keys { length keys.now ≡ LEAF_COUNT }
    ensures { out.new ≡ joined 1024 (λ leaf. slice_index_or keys.now leaf []) }
{
    for leaf in 0..LEAF_COUNT as usize {
        put(out, DIGEST_SIZE * leaf, keys[leaf].as_bytes());
    }
}

/// The keys of the leaves that stand in bytes one after another.
fn kept_keys<A: Allocator>(alloc: A, kept: &[u8]) -> Result<Vec<Digest, A>, Memory>
    requires { length kept.now ≡ KEPT_SIZE }
    ensures size { IfOk result (λ keys. vec_len keys ≡ LEAF_COUNT) }
    ensures keys { IfOk result (λ keys. joined 1024 (λ leaf. slice_index_or keys.items leaf []) ≡ kept.now) }
{
    let mut keys = vec![in alloc; Digest::from_bytes([0; 32]); LEAF_COUNT as usize]?;
    read_keys(&mut keys, kept);
    Ok(keys)
}

/// The keys of the leaves one after another.
fn in_turn<A: Allocator>(alloc: A, keys: &[Digest]) -> Result<Vec<u8, A>, Memory>
    requires { length keys.now ≡ LEAF_COUNT }
    ensures { IfOk result (λ kept. kept.items ≡ joined 1024 (λ leaf. slice_index_or keys.now leaf [])) }
{
    let mut kept = vec![in alloc; 0u8; KEPT_SIZE]?;
    put_keys(&mut kept, keys);
    Ok(kept)
}

/// Fills the places of the leaves' nodes.
fn fill_leaf_nodes(nodes: &mut [Digest], id: &[u8; 16], keys: &[Digest])
    requires size { length nodes.old ≡ 2048 }
    requires keys { length keys.now ≡ LEAF_COUNT }
    ensures { (leaf : ℕ) → leaf < LEAF_COUNT → slice_index_or nodes.new (LEAF_COUNT + leaf) []
        ≡ leaf_node id.now (LEAF_COUNT + leaf) (slice_index_or keys.now leaf []) }
{
    for leaf in 0..LEAF_COUNT {
        let number = LEAF_COUNT + leaf;
        nodes[number as usize] = leaf_node(id, number, &keys[leaf as usize]);
    }
}

/// Fills the places of the inner nodes.
fn fill_inner_nodes(nodes: &mut [Digest], id: &[u8; 16])
    requires { length nodes.old ≡ 2048 }
    ensures leaves { (number : ℕ) → LEAF_COUNT ≤ number
        → slice_index_or nodes.new number [] ≡ slice_index_or nodes.old number [] }
    ensures inner { (number : ℕ) → 1 ≤ number → number < LEAF_COUNT
        → slice_index_or nodes.new number []
        ≡ inner_node id.now number (slice_index_or nodes.new (2 * number) [])
        (slice_index_or nodes.new (2 * number + 1) []) }
{
    for number in (1..LEAF_COUNT).rev() {
        let below = 2 * number as usize;
        nodes[number as usize] = inner_node(id, number, &nodes[below], &nodes[below + 1]);
    }
}

impl<A: Allocator + Copy> PrivateKey<A> {
    /// The key whose leaves have these keys.
    fn over(
        alloc: A,
        seed: [u8; 32],
        id: [u8; 16],
        leaf_keys: Vec<Digest, A>,
        is_drawn: bool,
    ) -> Result<PrivateKey<A>, Memory>
        requires size { vec_len leaf_keys ≡ LEAF_COUNT }
        requires drawn { is_drawn ≡ true → leaf_keys.items ≡ drawn_keys seed id }
        ensures { IfOk result (λ key. key ≡ record { seed = seed; id = id; leaf_keys = leaf_keys.items }) }
    {
        let mut nodes = vec![in alloc; Digest::from_bytes([0; 32]); PLACE_COUNT]?;
        fill_leaf_nodes(&mut nodes, &id, &leaf_keys);
        fill_inner_nodes(&mut nodes, &id);
        Ok(PrivateKey {
            seed,
            id,
            is_drawn,
            leaf_keys,
            nodes,
        })
    }

    /// Draws a key from a seed, in about a million compressions of SHA-256. Only want of memory is an error.
    pub fn from_seed(alloc: A, seed: [u8; 32], id: [u8; 16]) -> Result<PrivateKey<A>, Memory>
        ensures { IfOk result (λ key. key ≡ drawn_from seed id) }
    {
        let keys = drawn_keys(alloc, &seed, &id)?;
        PrivateKey::over(alloc, seed, id, keys, true)
    }

    /// The same key, in about three thousand compressions of SHA-256, from the keys of its leaves by groups of eight
    /// (`leaf_keys`), in order, which many threads can make beside each other. Only want of memory is an error.
    pub fn from_leaf_keys(
        alloc: A,
        seed: [u8; 32],
        id: [u8; 16],
        groups: &[[Digest; 8]],
    ) -> Result<PrivateKey<A>, Memory>
        requires size { length groups.now ≡ GROUP_COUNT }
        requires keys { (group i : ℕ) → group < GROUP_COUNT → i < GROUP_SIZE
            → slice_index_or (slice_index_or groups.now group []) i [] ≡ key_of seed id (8 * group + i) }
        ensures { IfOk result (λ key. key ≡ drawn_from seed id) }
    {
        let keys = grouped_keys(alloc, groups)?;
        PrivateKey::over(alloc, seed, id, keys, true)
    }

    /// The key over what was kept of its leaves (`kept_leaves`), whatever bytes these are, in about three thousand
    /// compressions of SHA-256. Which of its leaves can sign, `has_leaf` tells. Only want of memory is an error.
    pub fn from_kept_leaves(
        alloc: A,
        seed: [u8; 32],
        id: [u8; 16],
        kept: &[u8],
    ) -> Result<PrivateKey<A>, Memory>
        requires { length kept.now ≡ KEPT_SIZE }
        ensures seed { IfOk result (λ key. key.seed ≡ seed) }
        ensures id { IfOk result (λ key. key.id ≡ id) }
        ensures kept { IfOk result (λ key. kept_leaves key ≡ kept.now) }
    {
        let keys = kept_keys(alloc, kept)?;
        PrivateKey::over(alloc, seed, id, keys, false)
    }
}

impl<A: Allocator> PrivateKey<A> {
    /// The public key that goes with it.
    pub fn public(&self) -> PublicKey
        ensures { result ≡ public_key_of self.now }
    {
        PublicKey::new(&self.id, &self.nodes[ROOT])
    }

    /// Whether a leaf can sign: whether its key is the one that the seed makes. Where the key was drawn, it can; else
    /// it takes about a thousand compressions of SHA-256 to tell.
    pub fn has_leaf(&self, leaf: u32) -> bool
        requires { leaf < LEAF_COUNT }
        ensures { IsTrue result ↔ HasLeaf self.now leaf }
    {
        if self.is_drawn {
            return true;
        }
        let made = leaf_key(&self.seed, &self.id, leaf);
        self.leaf_keys[leaf as usize].as_bytes() == made.as_bytes()
    }

    /// The keys of the leaves, one after another, to be kept.
    pub fn kept_leaves<B: Allocator>(&self, alloc: B) -> Result<Vec<u8, B>, Memory>
        ensures { IfOk result (λ kept. kept.items ≡ kept_leaves self.now) }
    {
        in_turn(alloc, &self.leaf_keys)
    }

    /// Writes the path of a leaf into a signature.
    fn put_path(&self, signature: &mut [u8], leaf: u32)
        requires size { length signature.old ≡ SIGNATURE_SIZE }
        requires leaf { leaf < LEAF_COUNT }
        ensures { take SIGNATURE_SIZE signature.new ≡ take 2188 signature.old ++ joined 10 (path_of self.now leaf) }
    {
        put_path(signature, &self.nodes, leaf);
    }

    /// The signature of a text by one of the leaves.
    pub(crate) fn signature(&self, leaf: u32, text: &[u8]) -> [u8; 2508]
        requires leaf { leaf < LEAF_COUNT }
        requires has { HasLeaf self.now leaf }
        ensures signature { result ≡ signature_of self.now leaf text.now }
        ensures valid { valid (public_key_of self.now) text.now result ≡ true }
    {
        let randomizer = randomizer(&self.seed, &self.id, leaf);
        let digest = text_digest(&self.id, leaf, &randomizer, text);
        let mut signature = [0; SIGNATURE_SIZE];
        put_front(&mut signature, leaf, &randomizer);
        put_values(&mut signature, &self.seed, &self.id, leaf, &digest);
        put(&mut signature, LMS_TYPE_AT, &LMS_TYPE);
        self.put_path(&mut signature, leaf);
        signature
    }
}
