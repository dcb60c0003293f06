//! Digests as values.

ghost use Rattle.layout.specs.declared.error.ReadError.TheVariants as read_error;
ghost use Rattle.std.specs.Prelude.{◌≢◌, IfErr, ◌≡◌, OnErr, OnOk, ◌++◌, length};
ghost use Rattle.layout.specs.Format.{IsBytes, Reads, raw};

use crate::error::{Memory, ReadError};
use crate::reader::Reader;
use crate::writer::Writer;
use std::alloc::Allocator;
use std::marker::Model;

/// A digest of SHA-256: 32 bytes (FIPS 180-4).
#[derive(Clone, Copy, Debug, PartialEq, Eq, PartialOrd, Ord, Hash)]
pub struct Digest([u8; 32]);

impl Model for Digest {
    ghost use Rattle.std.specs.Prelude.{ℕ, List};

    ghost Value = { List ℕ };

    ghost view = { λ d. d.0 };

    ghost inverse = { λ bytes. record { 0 = bytes } };
}

/// That the items of a slice are bytes, for the contract of what holds them.
pub fn are_bytes(bytes: &[u8])
    ensures { IsBytes bytes.now }
{}

impl Digest {
    /// The digest that these bytes are.
    pub fn from_bytes(bytes: [u8; 32]) -> Digest
        ensures { result ≡ bytes }
    {
        Digest(bytes)
    }

    /// Its 32 bytes.
    pub fn as_bytes(&self) -> &[u8; 32]
        ensures same { result.now ≡ self.now }
        ensures size { length result.now ≡ 32 }
        ensures fits { (raw 32).Fits self.now }
    {
        are_bytes(&self.0);
        &self.0
    }
}

impl Reader<'_> {
    /// 32 bytes, whatever they are. Short where they aren't there.
    pub fn digest(&mut self) -> Result<Digest, ReadError>
        ensures reads { Reads result self.new ((raw 32).read self.old) }
        ensures bytes { IsBytes self.old }
        ensures no_memory { IfErr result (λ e. e ≢ read_error.Memory) }
        ensures err { OnErr result (self.new ≡ self.old) }
    {
        let bytes = self.bytes(32)?;
        let mut copy = [0; 32];
        copy.copy_from_slice(bytes);
        Ok(Digest(copy))
    }
}

impl<A: Allocator> Writer<A> {
    /// The 32 bytes of a digest.
    pub fn digest(&mut self, digest: &Digest) -> Result<(), Memory>
        ensures ok { OnOk result (self.new ≡ self.old ++ digest.now) }
        ensures err { OnErr result (self.new ≡ self.old) }
    {
        self.bytes(digest.as_bytes())
    }
}
