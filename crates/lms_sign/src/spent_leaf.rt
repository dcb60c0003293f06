//! Leaves that are spent.

ghost use Rattle.std.specs.Prelude.{◌≡◌};

use crate::leaf::Leaf;
use crate::public_key::PublicKey;
use crate::tree::LEAF_COUNT;
use std::marker::Model;

/// A leaf that nothing more can be signed with. It can't be dropped either: whoever keeps account of leaves sees each
/// end.
pub struct SpentLeaf {
    key: PublicKey,
    number: u32,
}

impl Model for SpentLeaf {
    ghost use Rattle.std.specs.Prelude.{◌<◌};
    ghost use Rattle.lms_sign.specs.Keys.{KeyLeaf};

    ghost Value = { KeyLeaf };

    ghost view = { λ l. record { key = l.key; number = l.number } };

    ghost invariant = { λ l. l.number < 1024 };
}

impl SpentLeaf {
    ghost use Rattle.std.specs.Prelude.{◌≡◌, ◌<◌};

    /// Its number among the key's leaves.
    pub fn number(&self) -> u32
        ensures value { result ≡ self.now.number }
        ensures below { result < LEAF_COUNT }
    {
        self.number
    }

    /// The public key that it is a leaf of.
    pub fn key(&self) -> PublicKey
        ensures { result ≡ self.now.key }
    {
        self.key
    }

    /// Puts it away, once it has been accounted for.
    pub fn end(self) {
        let SpentLeaf { key: _, number: _ } = self;
    }
}

/// Spends a leaf without signing.
pub fn burn(leaf: Leaf) -> SpentLeaf
    ensures { result ≡ leaf }
{
    let (key, number) = leaf.into_parts();
    SpentLeaf { key, number }
}
