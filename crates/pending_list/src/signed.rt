//! Signatures, and texts with one after them.

ghost use Rattle.std.specs.Prelude.{◌≡◌, ◌≢◌, IfErr, OnOk, OnErr, length};
ghost use Rattle.layout.specs.declared.error.ReadError.TheVariants as read_error;
ghost use Rattle.layout.specs.Format.{IsBytes, Reads};
ghost use Rattle.pending_list.specs.Signed.{signature};

use layout::{Memory, ReadError, Reader, Text, Writer, are_bytes};
use lms_sign::SIGNATURE_SIZE;
use std::alloc::Allocator;
use std::marker::Model;

/// A signature of LMS (RFC 8554 section 5.4): 2,508 bytes.
#[derive(Clone, Copy, PartialEq, Eq)]
pub struct Signature([u8; SIGNATURE_SIZE]);

impl Model for Signature {
    ghost use Rattle.std.specs.Prelude.{ℕ, List};

    ghost Value = { List ℕ };

    ghost view = { λ s. s.0 };

    ghost inverse = { λ bytes. record { 0 = bytes } };
}

impl Signature {
    /// The signature that these bytes are.
    pub fn from_bytes(bytes: [u8; SIGNATURE_SIZE]) -> Signature
        ensures { result ≡ bytes }
    {
        Signature(bytes)
    }

    /// Its 2,508 bytes.
    pub fn as_bytes(&self) -> &[u8; SIGNATURE_SIZE]
        ensures same { result.now ≡ self.now }
        ensures size { length result.now ≡ SIGNATURE_SIZE }
        ensures fits { signature.Fits self.now }
    {
        are_bytes(&self.0);
        &self.0
    }

    /// 2,508 bytes, whatever they are. Short where they aren't there.
    pub fn read_from(reader: &mut Reader<'_>) -> Result<Signature, ReadError>
        ensures reads { Reads result reader.new (signature.read reader.old) }
        ensures no_memory { IfErr result (λ e. e ≢ read_error.Memory) }
        ensures bytes { IsBytes reader.old }
        ensures err { OnErr result (reader.new ≡ reader.old) }
    {
        let bytes = reader.bytes(SIGNATURE_SIZE)?;
        let mut copy = [0; SIGNATURE_SIZE];
        copy.copy_from_slice(bytes);
        Ok(Signature(copy))
    }
}

/// A text and its signature.
#[derive(Clone, Copy, Drop)]
pub struct Signed<T> {
    pub value: T,
    pub signature: Signature,
}

impl<A: Allocator + Copy, T: Text<A>> Text<A> for Signed<T> {
    ghost use Rattle.pending_list.specs.Signed.{signed};
    ghost use Rattle.pending_list.specs.SignedLaws.{lawful_signed};

    ghost format = { signed T.format };

    fn read_fields(alloc: A, reader: &mut Reader<'_>) -> Result<Signed<T>, ReadError> {
        let value = T::read_from(alloc, reader)?;
        let signature = Signature::read_from(reader)?;
        Ok(Signed { value, signature })
    }

    fn write_fields(&self, writer: &mut Writer<A>) -> Result<(), Memory> {
        self.value.write_to(writer)?;
        writer.bytes(self.signature.as_bytes())
    }

    ghost lawful = { lawful_signed T.format T.lawful };
}
