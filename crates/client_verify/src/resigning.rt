//! The certificate that is declared is signed once more, by another of the own keys.

ghost use Rattle.std.specs.Prelude.{◌-◌, ◌↔◌, ◌≡◌, ◌≢◌, ◌≤◌, IfErr, IfOk, IsErrOf, OnErr, OnOk, length};
ghost use Rattle.lms_sign.specs.Signature.{valid};
ghost use Rattle.leaf_ledger.specs.Ledger.{IsLeastFree, LeafNumber, free_leaves};
ghost use Rattle.client_journal.specs.Records.{signature_in, unsigned as unsigned_part};
ghost use Rattle.client_releases.specs.Releasing.{AnyMoment, IsKept, IsTried, OneHasRisen, OthersStay};
ghost use Rattle.client_releases.specs.Releasing.{cert_record, ledger_at, under};
ghost use Rattle.client_releases.specs.Told.{HasKey, IsKeyUsedUp};
ghost use Rattle.client_verify.specs.State.{declaring_key, failed, newest_key, newest_signer, on, released};
ghost use Rattle.client_verify.specs.State.{resigned, resigned_text};

use crate::client::Client;
use crate::declaring::if_same;
use crate::view::Progress;
use client_releases::{ClientError, Phase, Releases, Unsigned};
use layout::{Memory, put_in};
use leaf_ledger::Device;
use lms_sign::{PublicKey, SIGNATURE_SIZE, verify};
use std::alloc::Allocator;

/// The size of the part of a text that was signed, before its signature.
fn unsigned_size(text: &[u8]) -> usize
    ensures size { result ≡ length text.now - SIGNATURE_SIZE }
    ensures inside { result ≤ length text.now }
{
    text.len().saturating_sub(SIGNATURE_SIZE)
}

/// Whether a text ends in its signature under this key.
fn is_signed_under(text: &[u8], key: &PublicKey) -> bool
    ensures { result ≡ valid key.now (unsigned_part text.now) (signature_in text.now) }
{
    let (unsigned, signature) = text.split_at(unsigned_size(text));
    verify(key, unsigned, signature)
}

/// The number of the newest key that signed a text, if one did.
fn newest_signer<L: Device, J: Device, A: Allocator>(
    releases: &Releases<L, J, A>,
    text: &[u8],
) -> Option<usize>
    ensures { result ≡ newest_signer text.now releases.now }
{
    for key in (0..releases.key_count()).rev() {
        if is_signed_under(text, &releases.key(key)) {
            return Some(key);
        }
    }
    None
}

impl<L: Device, J: Device, A: Allocator + Copy> Client<L, J, A> {
    /// How many keys there are.
    pub fn key_count(&self) -> usize
        ensures { result ≡ length self.now.secrets }
    {
        self.releases.key_count()
    }

    /// How many leaves of this key aren't used.
    pub fn free_leaves_of(&self, key: usize) -> u32
        requires key { HasKey key (released self.now) }
        requires stands { self.now.phase ≢ Phase.Failed }
        ensures { result ≡ free_leaves (ledger_at key self.now.devices).file.now.text }
    {
        self.releases.free_leaves(key)
    }

    /// And how many of the newest key.
    pub fn free_leaves(&self) -> u32
        requires { self.now.phase ≢ Phase.Failed }
        ensures { result ≡ free_leaves (ledger_at (newest_key self.now) self.now.devices).file.now.text }
    {
        self.free_leaves_of(self.newest_key())
    }

    /// The number of the newest key that signed the certificate that is declared, if one did: each is tried, from the
    /// newest to the first, which takes some thousand hashes a key.
    pub fn declared_by(&self) -> Option<usize>
        requires { self.now.phase ≡ Phase.Declared }
        ensures { result ≡ declaring_key self.now }
    {
        newest_signer(&self.releases, self.releases.text())
    }

    /// The certificate that is declared, not signed yet, with room for it in the journal.
    fn unsigned(&mut self) -> Result<Unsigned<A>, Memory>
        ensures text { IfOk result (λ unsigned. unsigned ≡ unsigned_part self.old.text) }
        ensures same { self.new ≡ self.old }
    {
        let text = self.releases.text();
        let unsigned = Vec::from_slice(self.alloc, &text[..unsigned_size(text)])?;
        let unsigned = Unsigned::new(self.alloc, unsigned)?;
        self.make_room(&unsigned)?;
        Ok(unsigned)
    }

    /// Signs the certificate that is declared once more, by this key, and gives it as it is sent; it stands in the
    /// journal by then. A reply under check, or one that was accepted, is dropped. All growths come before the leaf is
    /// taken, also the room for it in the journal. After Device the client has to be opened again.
    pub fn resign(&mut self, key: usize) -> Result<Vec<u8, A>, ClientError>
        requires declared { self.old.phase ≡ Phase.Declared }
        requires key { HasKey key (released self.old) }
        ensures resigned { OnOk result ((leaf : LeafNumber)
            × IsKept leaf (cert_record (resigned_text self.old key leaf)) (under key self.old.devices)
            (under key self.new.devices)
            × (self.new ≡ on self.new.devices (resigned self.old key leaf))) }
        ensures text { IfOk result (λ text. text.items ≡ self.new.text) }
        // What a crash leaves at any moment of the call, whatever it answers.
        ensures any_moment { (leaf : LeafNumber) → IsLeastFree (ledger_at key self.old.devices).file.now.text leaf
            → AnyMoment leaf (cert_record (resigned_text self.old key leaf)) (under key self.old.devices)
            (under key self.new.devices) }
        ensures tried { OnErr result (IsTried (λ leaf. cert_record (resigned_text self.old key leaf))
            (under key self.old.devices) (under key self.new.devices)) }
        ensures no_leaf { IsErrOf result ClientError.NoLeaf ↔ IsKeyUsedUp key (released self.old) }
        ensures rose { IsErrOf result ClientError.Device
            → OneHasRisen (under key self.old.devices) (under key self.new.devices) }
        // The ledgers of the other keys stay as they are.
        ensures others { OthersStay key self.old.devices self.new.devices }
        ensures fails { IsErrOf result ClientError.Device → self.new ≡ on self.new.devices (failed self.old) }
        ensures only { IfErr result (λ e. (e ≢ ClientError.NoNumber) × (e ≢ ClientError.Foreign)
            × (e ≢ ClientError.Damaged) × (e ≢ ClientError.NoKey)) }
        ensures err { IfErr result (λ e. e ≢ ClientError.Device → self.new ≡ self.old) }
    {
        self.releases.type_invariant();
        if !self.releases.has_free_leaf(key) {
            return Err(ClientError::NoLeaf);
        }
        let unsigned = match self.unsigned() {
            Ok(unsigned) => unsigned,
            Err(_) => return Err(ClientError::Memory),
        };
        let _size = self.releases.key(key).as_bytes();
        put_in(&mut self.progress, Progress::None);
        self.signer = if_same(self.signer, key);
        self.releases.resign(key, unsigned)
    }
}
