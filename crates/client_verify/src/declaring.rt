//! The client declares an operation: its certificate is signed, and stands in the journal before it is handed out.

ghost use Rattle.std.specs.Prelude.{◌+◌, ◌↔◌, ◌≡◌, ◌≢◌, ◌≤◌, ◌⊎◌, IfErr, IfOk, IfSome, IsErrOf, OnErr, OnOk, Some};
ghost use Rattle.std.specs.Prelude.{length, map, true};
ghost use Rattle.std.specs.Vec.{vec_items};
ghost use Rattle.layout.specs.Ranges.{last_version};
ghost use Rattle.leaf_ledger.specs.Ledger.{IsLeastFree, LeafNumber};
ghost use Rattle.update_cert.specs.Cert.{cert};
ghost use Rattle.client_releases.specs.Releasing.{AnyMoment, IsKept, IsTried, OneHasRisen, OthersStay};
ghost use Rattle.client_releases.specs.Releasing.{cert_record, ledger_at, under};
ghost use Rattle.client_releases.specs.Told.{HasKey, IsKeyUsedUp};
ghost use Rattle.client_verify.specs.Holding.{LaysOut};
ghost use Rattle.client_verify.specs.Laid.{are_laid};
ghost use Rattle.client_verify.specs.State.{declared, declared_text, failed, newest_key, next_cert, on, over, released};

use crate::client::Client;
use crate::view::Progress;
use client_releases::{ClientError, Phase, Unsigned};
use layout::{Memory, Version, put_in};
use leaf_ledger::Device;
use pending_list::digest_of_last;
use std::alloc::Allocator;
use update_cert::{Change, MOST_CHANGES, cert_text};

/// The number of the key that signed all own texts, where it is this one.
pub(crate) fn if_same(signer: Option<usize>, key: usize) -> Option<usize>
    ensures { IfSome result (λ n. (n ≡ key) × (signer ≡ Some n)) }
{
    match signer {
        Some(signer) if signer == key => Some(key),
        _ => None,
    }
}

impl<L: Device, J: Device, A: Allocator + Copy> Client<L, J, A> {
    /// The number of the newest key.
    pub(crate) fn newest_key(&self) -> usize
        ensures number { result ≡ newest_key self.now }
        ensures has { HasKey result (released self.now) }
    {
        self.releases.type_invariant();
        self.releases.key_count() - 1
    }

    /// The number of the next operation, where a leaf of the newest key is free that can sign.
    fn next_number(&self) -> Result<Version, ClientError>
        requires { self.now.phase ≡ Phase.Idle }
        ensures number { IfOk result (λ number. number ≡ self.now.number + 1) }
        ensures no_leaf { IsErrOf result ClientError.NoLeaf ↔ IsKeyUsedUp (newest_key self.now) (released self.now) }
        ensures no_number { IsErrOf result ClientError.NoNumber
            ↔ ((self.now.number ≡ last_version) × (IsKeyUsedUp (newest_key self.now) (released self.now) → ⊥)) }
        ensures only { IfErr result (λ e. (e ≡ ClientError.NoLeaf) ⊎ (e ≡ ClientError.NoNumber)) }
    {
        self.releases.type_invariant();
        if !self.releases.has_free_leaf(self.newest_key()) {
            return Err(ClientError::NoLeaf);
        }
        match self.releases.number().checked_add(1).and_then(Version::new) {
            Some(number) => Ok(number),
            None => Err(ClientError::NoNumber),
        }
    }

    /// Makes room in the journal for the record of a text that is signed next.
    pub(crate) fn make_room(&mut self, unsigned: &Unsigned<A>) -> Result<(), Memory>
        ensures { self.new ≡ self.old }
    {
        self.releases.reserve(unsigned.text().len())?;
        Ok(())
    }

    /// The certificate of these changes, not signed yet, with room for it in the journal. What was laid out for it goes
    /// into the cache, but where a look is under way.
    fn certificate(
        &mut self,
        number: Version,
        changes: &[Change<A>],
        laid: &[Vec<u8, A>],
    ) -> Result<Unsigned<A>, Memory>
        requires number { number ≡ self.old.number + 1 }
        requires few { length changes.now ≤ MOST_CHANGES }
        ensures over { OnOk result (self.new ≡ over self.new.blocks self.old) }
        ensures kept { OnOk result (LaysOut self.old (map vec_items laid.now) self.new.blocks) }
        ensures text { IfOk result (λ unsigned. unsigned ≡ cert.spell (next_cert self.old changes.now)) }
        ensures fits { OnOk result (cert.Fits (next_cert self.old changes.now)) }
        ensures err { OnErr result (self.new ≡ self.old) }
    {
        let last = digest_of_last(self.alloc, self.releases.last())?;
        let text = cert_text(self.alloc, self.releases.user(), number, last, changes)?;
        let unsigned = Unsigned::new(self.alloc, text)?;
        self.make_room(&unsigned)?;
        self.lay_out(laid);
        Ok(unsigned)
    }

    /// The next certificate, of these changes, with its number: all that it takes of memory is there, and what was laid
    /// out for it is in the cache, but where a look is under way.
    fn prepare(
        &mut self,
        changes: &[Change<A>],
        laid: &[Vec<u8, A>],
    ) -> Result<(Version, Unsigned<A>), ClientError>
        requires idle { self.old.phase ≡ Phase.Idle }
        requires few { length changes.now ≤ MOST_CHANGES }
        ensures over { OnOk result (self.new ≡ over self.new.blocks self.old) }
        ensures kept { OnOk result (LaysOut self.old (map vec_items laid.now) self.new.blocks) }
        ensures number { IfOk result (λ p. p.0 ≡ self.old.number + 1) }
        ensures text { IfOk result (λ p. p.1 ≡ cert.spell (next_cert self.old changes.now)) }
        ensures fits { OnOk result (cert.Fits (next_cert self.old changes.now)) }
        ensures free { OnOk result (IsKeyUsedUp (newest_key self.old) (released self.old) → ⊥) }
        ensures below { OnOk result (self.old.number ≢ last_version) }
        ensures no_leaf { IsErrOf result ClientError.NoLeaf ↔ IsKeyUsedUp (newest_key self.old) (released self.old) }
        ensures no_number { IsErrOf result ClientError.NoNumber
            ↔ ((self.old.number ≡ last_version) × (IsKeyUsedUp (newest_key self.old) (released self.old) → ⊥)) }
        ensures only { IfErr result (λ e. (e ≢ ClientError.Device) × (e ≢ ClientError.Foreign)
            × (e ≢ ClientError.Damaged) × (e ≢ ClientError.NoKey)) }
        ensures err { OnErr result (self.new ≡ self.old) }
    {
        let number = match self.next_number() {
            Ok(number) => number,
            Err(error) => return Err(error),
        };
        match self.certificate(number, changes, laid) {
            Ok(unsigned) => Ok((number, unsigned)),
            Err(_) => Err(ClientError::Memory),
        }
    }

    /// Declares the next operation, and gives its certificate, signed by the newest key, which stands in the journal by
    /// then. What was laid out for it goes into the cache, but where a look is under way. All growths come before the
    /// leaf is taken, also the room for it in the journal. After Device the client has to be opened again.
    pub fn begin(
        &mut self,
        changes: &[Change<A>],
        laid: &[Vec<u8, A>],
    ) -> Result<Vec<u8, A>, ClientError>
        requires idle { self.old.phase ≡ Phase.Idle }
        requires few { length changes.now ≤ MOST_CHANGES }
        requires laid { are_laid (map vec_items laid.now) changes.now ≡ true }
        ensures declared { OnOk result ((leaf : LeafNumber)
            × IsKept leaf (cert_record (declared_text self.old leaf changes.now))
            (under (newest_key self.old) self.old.devices) (under (newest_key self.old) self.new.devices)
            × (self.new ≡ over self.new.blocks (on self.new.devices (declared self.old leaf changes.now)))) }
        ensures kept { OnOk result (LaysOut self.old (map vec_items laid.now) self.new.blocks) }
        ensures text { IfOk result (λ text. text.items ≡ self.new.text) }
        // What a crash leaves at any moment of the call, whatever it answers.
        ensures any_moment { (leaf : LeafNumber)
            → IsLeastFree (ledger_at (newest_key self.old) self.old.devices).file.now.text leaf
            → AnyMoment leaf (cert_record (declared_text self.old leaf changes.now))
            (under (newest_key self.old) self.old.devices) (under (newest_key self.old) self.new.devices) }
        ensures tried { OnErr result (IsTried (λ leaf. cert_record (declared_text self.old leaf changes.now))
            (under (newest_key self.old) self.old.devices) (under (newest_key self.old) self.new.devices)) }
        ensures no_leaf { IsErrOf result ClientError.NoLeaf ↔ IsKeyUsedUp (newest_key self.old) (released self.old) }
        ensures no_number { IsErrOf result ClientError.NoNumber
            ↔ ((self.old.number ≡ last_version) × (IsKeyUsedUp (newest_key self.old) (released self.old) → ⊥)) }
        ensures rose { IsErrOf result ClientError.Device → OneHasRisen
            (under (newest_key self.old) self.old.devices) (under (newest_key self.old) self.new.devices) }
        // Of several keys the newest one signs.
        ensures others { OthersStay (newest_key self.old) self.old.devices self.new.devices }
        ensures fails { IsErrOf result ClientError.Device
            → self.new ≡ over self.new.blocks (on self.new.devices (failed self.old)) }
        ensures kept_device { IsErrOf result ClientError.Device
            → LaysOut self.old (map vec_items laid.now) self.new.blocks }
        // What is signed can be read again.
        ensures fits { OnOk result (cert.Fits (next_cert self.old changes.now)) }
        ensures fits_device { IsErrOf result ClientError.Device → cert.Fits (next_cert self.old changes.now) }
        ensures only { IfErr result (λ e. (e ≢ ClientError.Foreign) × (e ≢ ClientError.Damaged)
            × (e ≢ ClientError.NoKey)) }
        ensures err { IfErr result (λ e. e ≢ ClientError.Device → self.new ≡ self.old) }
    {
        self.releases.type_invariant();
        let newest = self.newest_key();
        let _size = self.releases.key(newest).as_bytes();
        let (number, unsigned) = match self.prepare(changes, laid) {
            Ok(prepared) => prepared,
            Err(error) => return Err(error),
        };
        put_in(&mut self.progress, Progress::None);
        self.signer = if_same(self.signer, newest);
        self.releases.declare(newest, number, unsigned)
    }
}
