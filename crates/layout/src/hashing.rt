//! SHA-256 of bytes.

ghost use Rattle.std.specs.Prelude.{◌≡◌, length, List, ℕ, [], ◌++◌};
ghost use Rattle.layout.specs.Hash.{hash};

use crate::digests::Digest;
use sha2::{Digest as _, Sha256};
use sha256_lanes::{GROUP_SIZE, digest_of_groups};

/// The digest of bytes by SHA-256 (FIPS 180-4). It takes no memory. Of bytes that come in whole groups of eight blocks,
/// as a whole block of a file does, the schedules of eight blocks are computed side by side.
#[tactic(auto, unfolding(crate::specs::Hash::hash))]
pub fn digest(bytes: &[u8]) -> Digest
    ensures hash { result ≡ hash bytes.now }
    ensures size { length (hash bytes.now) ≡ 32 }
{
    if bytes.len() % GROUP_SIZE == 0 {
        Digest::from_bytes(digest_of_groups(bytes))
    } else {
        Digest::from_bytes(Sha256::digest(bytes))
    }
}

/// Takes the bytes of a text piece by piece, to give the digest of all of them. It takes no memory.
#[derive(Drop)]
pub struct Hasher {
    inner: Sha256,
}

impl Hasher {
    ghost use Rattle.layout.specs.Hasher.{Holds};

    /// Holds no bytes yet.
    #[tactic(auto, unfolding(crate::specs::Hasher::Holds))]
    pub fn new() -> Hasher
        ensures { Holds result [] }
    {
        Hasher {
            inner: Sha256::new(),
        }
    }

    /// Takes these bytes after those that it holds.
    #[tactic(auto, unfolding(crate::specs::Hasher::Holds))]
    pub fn update(&mut self, bytes: &[u8])
        ensures { (text : List ℕ) → Holds self.old text → Holds self.new (text ++ bytes.now) }
    {
        self.inner.update(bytes);
    }

    /// The digest of all the bytes that it took.
    #[tactic(auto, unfolding(crate::specs::Hasher::Holds, crate::specs::Hash::hash))]
    pub fn finish(self) -> Digest
        ensures { (text : List ℕ) → Holds self text → result ≡ hash text }
    {
        let Hasher { inner } = self;
        Digest::from_bytes(inner.finalize())
    }
}
