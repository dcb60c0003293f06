//! Public keys (RFC 8554 section 5.3).

ghost use Rattle.std.specs.Prelude.{◌≡◌, ◌++◌, true, IfSome, is_some, length};
ghost use Rattle.lms_sign.specs.Keys.{lms_type, ots_type, is_key, id_of, root_of};

use crate::bytes::{digest_at, put};
use layout::Digest;
use std::marker::Model;

/// The size of a public key, in bytes.
pub const KEY_SIZE: usize = 56;

/// The bytes of a public key.
pub type Key = [u8; KEY_SIZE];

/// The size of a key's identifier, in bytes.
pub const ID_SIZE: usize = 16;

/// The types of the key and of its one-time keys, with which a public key begins.
pub(crate) const KEY_TYPES: [u8; 8] = [0, 0, 0, 6, 0, 0, 0, 3];

/// Where the identifier stands in a key.
const ID_AT: usize = 8;

/// Where the root stands in a key.
const ROOT_AT: usize = 24;

/// A public key: LMS type, LM-OTS type, identifier and root.
#[derive(Clone, Copy, Debug, PartialEq, Eq)]
pub struct PublicKey {
    bytes: Key,
}

impl Model for PublicKey {
    ghost use Rattle.std.specs.Prelude.{◌≡◌, ℕ, List, true};
    ghost use Rattle.lms_sign.specs.Keys.{is_key};

    ghost Value = { List ℕ };

    ghost view = { λ k. k.bytes };

    ghost invariant = { λ k. is_key k.bytes ≡ true };

    ghost inverse = { λ bytes. record { bytes = bytes } };
}

impl PublicKey {
    /// The public key that these bytes are, unless it is of other types.
    #[tactic(auto, unfolding(crate::specs::Keys::is_key, layout::specs::Format::be))]
    pub fn from_bytes(bytes: Key) -> Option<PublicKey>
        ensures which { is_some result ≡ is_key bytes }
        ensures key { IfSome result (λ key. key ≡ bytes) }
    {
        if bytes.starts_with(&KEY_TYPES) {
            Some(PublicKey { bytes })
        } else {
            None
        }
    }

    /// The public key with this identifier and root.
    #[tactic(auto, unfolding(crate::specs::Keys::is_key, layout::specs::Format::be))]
    pub(crate) fn new(id: &[u8; 16], root: &Digest) -> PublicKey
        ensures { result ≡ lms_type ++ ots_type ++ id.now ++ root.now }
    {
        let mut bytes = [0; KEY_SIZE];
        put(&mut bytes, 0, &KEY_TYPES);
        put(&mut bytes, ID_AT, id);
        put(&mut bytes, ROOT_AT, root.as_bytes());
        PublicKey { bytes }
    }

    /// Its 56 bytes.
    pub fn as_bytes(&self) -> &Key
        ensures same { result.now ≡ self.now }
        ensures size { length result.now ≡ KEY_SIZE }
        ensures key { is_key self.now ≡ true }
    {
        &self.bytes
    }

    /// The identifier, with which each hashed text begins.
    pub(crate) fn id(&self) -> [u8; 16]
        ensures value { result ≡ id_of self.now }
        ensures key { is_key self.now ≡ true }
    {
        let mut id = [0; ID_SIZE];
        id.copy_from_slice(&self.as_bytes()[ID_AT..ROOT_AT]);
        id
    }

    /// The root of the tree.
    pub(crate) fn root(&self) -> Digest
        ensures { result ≡ root_of self.now }
    {
        digest_at(self.as_bytes(), ROOT_AT)
    }
}
