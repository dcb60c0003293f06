//! Leaves, as values that are spent once.

use crate::public_key::PublicKey;
use crate::tree::LEAF_COUNT;
use std::marker::Model;

/// A leaf of a public key that has signed nothing: a value that can be neither copied nor dropped, so that who holds it
/// has to spend it, by `sign` or by `burn`.
pub struct Leaf {
    key: PublicKey,
    number: u32,
}

impl Model for Leaf {
    ghost use Rattle.std.specs.Prelude.{◌<◌};
    ghost use Rattle.lms_sign.specs.Keys.{KeyLeaf};

    ghost Value = { KeyLeaf };

    ghost view = { λ l. record { key = l.key; number = l.number } };

    ghost invariant = { λ l. l.number < 1024 };
}

impl Leaf {
    ghost use Rattle.std.specs.Prelude.{◌≡◌, ◌<◌};

    /// The leaf with this number. A leaf must be issued once only: who issues it vouches for that.
    pub fn issue(key: &PublicKey, number: u32) -> Leaf
        requires { number < LEAF_COUNT }
        ensures key { result.key ≡ key.now }
        ensures number { result.number ≡ number }
    {
        Leaf { key: *key, number }
    }

    /// Its number among the key's leaves.
    pub fn number(&self) -> u32
        ensures value { result ≡ self.now.number }
        ensures below { result < LEAF_COUNT }
    {
        self.number
    }

    /// The public key that it is a leaf of.
    pub fn key(&self) -> PublicKey
        ensures { result ≡ self.now.key }
    {
        self.key
    }

    /// Its key and its number, where it ends.
    pub(crate) fn into_parts(self) -> (PublicKey, u32)
        ensures parts { record { key = result.0; number = result.1 } ≡ self }
        ensures below { result.1 < LEAF_COUNT }
    {
        let Leaf { key, number } = self;
        (key, number)
    }
}
