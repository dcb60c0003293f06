//! What a client releases, and what its devices tell of that.

ghost use Rattle.std.specs.Prelude.{◌≡◌, ◌≢◌, ◌⊎◌, ◌↔◌, ◌<◌, ◌≤◌, length, map, true, false, Some, IfErr, IfOk};
ghost use Rattle.std.specs.Prelude.{IsErrOf, OnErr, OnOk};
ghost use Rattle.std.specs.List.{position};
ghost use Rattle.std.specs.Option.{option_copied};
ghost use Rattle.lms_sign.specs.Keys.{public_key_of};
ghost use Rattle.leaf_ledger.specs.Device.{HasRisen};
ghost use Rattle.leaf_ledger.specs.Ledger.{IsLeastFree, LeafNumber, free_leaves};
ghost use Rattle.client_journal.specs.Records.{IsDamaged, State as Recorded, TellsState, unsigned as unsigned_part};
ghost use Rattle.version_order.specs.Structure.{structure as structure_format};
ghost use Rattle.update_cert.specs.Cert.{Cert as PureCert, cert};
ghost use Rattle.client_releases.specs.OwnKeys.{AreLater, AreOpened, OneIsForeign, OneOfHasRisen, key_files};
ghost use Rattle.client_releases.specs.Releasing.{AnyMoment, IsKept, IsOpening, IsTried, OneHasRisen};
ghost use Rattle.client_releases.specs.Releasing.{OthersStay, cert_record, ledger_at, structure_record, under};
ghost use Rattle.client_releases.specs.Told.{HasKey, IsKeyUsedUp, IsToldBy, TellsOfOther, secret_at, sent};
ghost use Rattle.client_releases.specs.Told.{has_public, signed_by, told_by};

use crate::error::ClientError;
use crate::own_key::{Keys, OwnKey, close_before, number_of, open_ledgers};
use crate::parts::Parts;
use crate::phase::Phase;
use crate::releasing::keep_under;
use crate::signing::{Sealed, Unsigned};
use crate::told::{Told, told_by};
use client_journal::{Journal, Kind};
use layout::{Memory, User, Version, are_bytes, let_go, put_in};
use leaf_ledger::Device;
use lms_sign::{PublicKey, SIGNATURE_SIZE};
use pending_list::{Signature, Signed};
use std::alloc::Allocator;
use std::marker::Model;
use version_order::Structure;

/// What a client releases: each text that it signs stands in its journal before it is handed out. Beside the devices it
/// keeps in memory what the journal's records tell.
#[derive(Drop)]
pub struct Releases<L: Device, J: Device, A: Allocator> {
    user: User,
    keys: Vec<OwnKey<L, A>, A>,
    // Empty, with room for the keys when they are handed back.
    spare: Keys<L, A>,
    journal: Journal<J>,
    number: u32,
    last: Option<Signed<Structure<A>>>,
    phase: Phase,
    text: Vec<u8, A>,
}

impl<L: Device, J: Device, A: Allocator> Model for Releases<L, J, A> {
    ghost use Rattle.std.specs.Prelude.{◌≡◌, ◌≤◌, vec_capacity, vec_len};
    ghost use Rattle.client_releases.specs.Releasing.{own_devices};
    ghost use Rattle.client_releases.specs.OwnKeys.{secrets_of};
    ghost use Rattle.client_releases.specs.Told.{IsReleased, Released};

    ghost Value = { Released };

    ghost view = { λ r. record {
      user = r.user;
      secrets = secrets_of r.keys.items;
      devices = own_devices r.keys.items r.journal;
      number = r.number;
      last = r.last;
      phase = r.phase;
      text = r.text.items;
    } };

    ghost invariant = { λ r. (vec_len r.spare ≡ 0) × (vec_len r.keys ≤ vec_capacity r.spare) × IsReleased (record {
      user = r.user;
      secrets = secrets_of r.keys.items;
      devices = own_devices r.keys.items r.journal;
      number = r.number;
      last = r.last;
      phase = r.phase;
      text = r.text.items;
    }) };
}

/// What a journal tells of the client of this user.
fn remembered<J: Device, A: Allocator + Copy>(
    alloc: A,
    user: User,
    journal: &mut Journal<J>,
) -> Result<Told<A>, ClientError>
    requires { journal.old.usable ≡ true }
    ensures told { IfOk result (λ told. (recorded : Recorded) × TellsState recorded journal.old.file.now.text
        × (told_by user recorded ≡ Some told)) }
    ensures damaged { IsErrOf result ClientError.Damaged → TellsOfOther user journal.old.file.now.text }
    ensures device { IsErrOf result ClientError.Device → HasRisen journal.old.faults journal.new.faults }
    ensures only { IfErr result (λ e. (e ≡ ClientError.Memory)
        ⊎ ((e ≡ ClientError.Device) ⊎ (e ≡ ClientError.Damaged))) }
    ensures same { journal.new.file ≡ journal.old.file }
    ensures later { journal.old.faults ≤ journal.new.faults }
    ensures usable { OnOk result (journal.new.usable ≡ true) }
{
    let state = journal.state(alloc)?;
    told_by(alloc, user, state)
}

impl<L: Device, J: Device, A: Allocator + Copy> Releases<L, J, A> {
    /// Opens the ledgers, the first key's first, and then the journal, and reads from it what was released. A refusal
    /// hands back what was handed in.
    pub fn open(
        alloc: A,
        user: User,
        keys: Keys<L, A>,
        journal: J,
    ) -> Result<Releases<L, J, A>, (ClientError, Parts<L, J, A>)>
        requires { 0 < length keys.items }
        ensures whose { IfOk result (λ r. (r.user ≡ user) × (r.secrets ≡ map (λ k. k.0) keys.items)) }
        ensures told { IfOk result (λ r. IsToldBy (J.history journal).now.text r) }
        // Each ledger is opened: the same leaves are used as before, none of a new ledger.
        ensures ledgers { IfOk result
            (λ r. AreOpened (key_files L.history L.fault_count keys.items) r.devices.ledgers) }
        ensures moments { IfOk result (λ r. IsOpening (map (λ k. L.history k.1) keys.items) (J.history journal)
            (map (λ l. l.file) r.devices.ledgers) r.devices.journal.file) }
        ensures moments_err { IfErr result (λ e. IsOpening (map (λ k. L.history k.1) keys.items) (J.history journal)
            (map (λ k. L.history k.1) e.1.keys.items) (J.history e.1.journal)) }
        ensures foreign { IfErr result (λ e. e.0 ≡ ClientError.Foreign
            → OneIsForeign (key_files L.history L.fault_count keys.items)) }
        ensures damaged { IfErr result (λ e. e.0 ≡ ClientError.Damaged
            → IsDamaged (J.history journal).now.text ⊎ TellsOfOther user (J.history journal).now.text) }
        ensures device { IfErr result (λ e. e.0 ≡ ClientError.Device
            → OneOfHasRisen (map (λ k. L.fault_count k.1) keys.items) (map (λ k. L.fault_count k.1) e.1.keys.items)
            ⊎ HasRisen (J.fault_count journal) (J.fault_count e.1.journal)) }
        ensures only { IfErr result (λ e. (e.0 ≢ ClientError.NoLeaf) × (e.0 ≢ ClientError.NoNumber)
            × (e.0 ≢ ClientError.NoKey)) }
        ensures later { IfOk result (λ r. J.fault_count journal ≤ r.devices.journal.faults) }
        ensures later_err { IfErr result
            (λ e. AreLater (map (λ k. L.fault_count k.1) keys.items) (map (λ k. L.fault_count k.1) e.1.keys.items)
            × (J.fault_count journal ≤ J.fault_count e.1.journal)) }
        ensures keys_err { IfErr result (λ e. map (λ k. k.0) e.1.keys.items ≡ map (λ k. k.0) keys.items) }
    {
        let Ok(own) = Vec::with_capacity(alloc, keys.len()) else {
            return Err((ClientError::Memory, Parts { keys, journal }));
        };
        let (keys, spare) = match open_ledgers(own, keys) {
            Ok(opened) => opened,
            Err((error, keys)) => return Err((error.into(), Parts { keys, journal })),
        };
        let mut journal = match Journal::open(journal) {
            Ok(journal) => journal,
            Err((error, journal)) => {
                let keys = close_before(keys, spare);
                return Err((error.into(), Parts { keys, journal }));
            }
        };
        match remembered(alloc, user, &mut journal) {
            Ok(told) => {
                let Told {
                    number,
                    last,
                    phase,
                    text,
                } = told;
                Ok(Releases {
                    user,
                    keys,
                    spare,
                    journal,
                    number,
                    last,
                    phase,
                    text,
                })
            }
            Err(error) => {
                let keys = close_before(keys, spare);
                let journal = journal.close();
                Err((error, Parts { keys, journal }))
            }
        }
    }
}

impl<L: Device, J: Device, A: Allocator> Releases<L, J, A> {
    ghost use Rattle.client_releases.specs.Told.{IsReleased};

    /// Whose client it is.
    pub fn user(&self) -> User
        ensures { result ≡ self.now.user }
    {
        self.user
    }

    /// How many keys there are.
    pub fn key_count(&self) -> usize
        ensures { result ≡ length self.now.secrets }
    {
        self.keys.len()
    }

    /// The public key of this number.
    pub fn key(&self, key: usize) -> PublicKey
        requires { HasKey key self.now }
        ensures { result ≡ public_key_of (secret_at key self.now) }
    {
        self.keys[key].key.public()
    }

    /// The number of the first key with this public key, if there is one.
    pub fn key_number(&self, public: &PublicKey) -> Option<usize>
        ensures { result ≡ position (has_public public.now) self.now.secrets }
    {
        number_of(&self.keys, public)
    }

    /// The number of the operation that was declared last, 0 where none was.
    pub fn number(&self) -> u32
        ensures { result ≡ self.now.number }
    {
        self.number
    }

    /// The structure that was signed last.
    pub fn last(&self) -> Option<&Signed<Structure<A>>>
        ensures { option_copied result ≡ self.now.last }
    {
        self.last.as_ref()
    }

    /// How far the operation is.
    pub fn phase(&self) -> Phase
        ensures { result ≡ self.now.phase }
    {
        self.phase
    }

    /// The signed text that was released last, to be sent again: empty where none was.
    pub fn text(&self) -> &[u8]
        ensures { result.now ≡ self.now.text }
    {
        &self.text
    }

    /// The device of this key's ledger, to be looked at.
    pub fn ledger(&self, key: usize) -> &L
        requires { HasKey key self.now }
        ensures file { L.history result.now ≡ (ledger_at key self.now.devices).file }
        ensures faults { L.fault_count result.now ≡ (ledger_at key self.now.devices).faults }
    {
        self.keys[key].ledger.device()
    }

    /// And that of the journal.
    pub fn journal(&self) -> &J
        ensures file { J.history result.now ≡ self.now.devices.journal.file }
        ensures faults { J.fault_count result.now ≡ self.now.devices.journal.faults }
    {
        self.journal.device()
    }

    /// What is true of it at all times, for the proofs of callers: it does nothing.
    pub fn type_invariant(&self)
        ensures { IsReleased self.now }
    {
        let _phase = &self.phase;
    }

    /// Whether a leaf of this key is free that can sign: the next one is tried, which takes some hashes where the key
    /// was kept.
    pub fn has_free_leaf(&self, key: usize) -> bool
        requires key { HasKey key self.now }
        requires stands { self.now.phase ≢ Phase.Failed }
        ensures { result ≡ false ↔ IsKeyUsedUp key self.now }
    {
        let own = &self.keys[key];
        match own.ledger.next_free() {
            Some(leaf) => own.key.has_leaf(leaf),
            None => false,
        }
    }

    /// How many leaves of this key aren't used.
    pub fn free_leaves(&self, key: usize) -> u32
        requires key { HasKey key self.now }
        requires stands { self.now.phase ≢ Phase.Failed }
        ensures { result ≡ free_leaves (ledger_at key self.now.devices).file.now.text }
    {
        let own = &self.keys[key];
        own.ledger.free_leaves()
    }

    /// Makes room in the journal for the record of a text that has so many bytes before its signature, so that what
    /// releases it takes no memory.
    pub fn reserve(&mut self, unsigned_size: usize) -> Result<(), Memory>
        ensures { self.new ≡ self.old }
    {
        self.journal
            .reserve(unsigned_size.saturating_add(SIGNATURE_SIZE))?;
        Ok(())
    }

    /// Releases the certificate of the next operation, of this number: it is signed and journaled, and then handed out.
    /// Where room was made for it, it takes no memory, and fails by the devices alone.
    pub fn declare(
        &mut self,
        key: usize,
        number: Version,
        unsigned: Unsigned<A>,
    ) -> Result<Vec<u8, A>, ClientError>
        requires idle { self.old.phase ≡ Phase.Idle }
        requires key { HasKey key self.old }
        requires free { IsKeyUsedUp key self.old → ⊥ }
        requires own { (c : PureCert) × (unsigned ≡ cert.spell c) × cert.Fits c × (c.user ≡ self.old.user)
            × (c.number ≡ number) }
        ensures declared { OnOk result ((leaf : LeafNumber)
            × IsKept leaf (cert_record (sent self.old key leaf unsigned)) (under key self.old.devices)
            (under key self.new.devices)
            × (self.new ≡ record self.old {
              devices = self.new.devices;
              number = number;
              phase = Phase.Declared;
              text = sent self.old key leaf unsigned;
            })) }
        ensures text { IfOk result (λ text. text.items ≡ self.new.text) }
        ensures others { OthersStay key self.old.devices self.new.devices }
        ensures any_moment { (leaf : LeafNumber) → IsLeastFree (ledger_at key self.old.devices).file.now.text leaf
            → AnyMoment leaf (cert_record (sent self.old key leaf unsigned)) (under key self.old.devices)
            (under key self.new.devices) }
        ensures tried { OnErr result (IsTried (λ leaf. cert_record (sent self.old key leaf unsigned))
            (under key self.old.devices) (under key self.new.devices)) }
        ensures device { IfErr result (λ e. (e ≡ ClientError.Device)
            × OneHasRisen (under key self.old.devices) (under key self.new.devices)) }
        ensures err { OnErr result (self.new ≡ record self.old { devices = self.new.devices; phase = Phase.Failed }) }
    {
        match keep_under(
            &mut self.keys,
            key,
            &mut self.journal,
            Kind::Certificate,
            unsigned,
        ) {
            Ok(sealed) => {
                let Sealed {
                    kept,
                    sent,
                    signature: _,
                } = sealed;
                self.number = number.get();
                self.phase = Phase::Declared;
                self.text = kept;
                Ok(sent)
            }
            Err(error) => {
                self.phase = Phase::Failed;
                Err(error)
            }
        }
    }

    /// Signs the certificate that is declared once more, by this key: it is journaled, and then handed out in place of
    /// the text before. Where room was made for it, it takes no memory, and fails by the devices alone.
    pub fn resign(&mut self, key: usize, unsigned: Unsigned<A>) -> Result<Vec<u8, A>, ClientError>
        requires declared { self.old.phase ≡ Phase.Declared }
        requires key { HasKey key self.old }
        requires free { IsKeyUsedUp key self.old → ⊥ }
        requires same { unsigned ≡ unsigned_part self.old.text }
        ensures resigned { OnOk result ((leaf : LeafNumber)
            × IsKept leaf (cert_record (sent self.old key leaf unsigned)) (under key self.old.devices)
            (under key self.new.devices)
            × (self.new ≡ record self.old {
              devices = self.new.devices;
              text = sent self.old key leaf unsigned;
            })) }
        ensures text { IfOk result (λ text. text.items ≡ self.new.text) }
        ensures others { OthersStay key self.old.devices self.new.devices }
        ensures any_moment { (leaf : LeafNumber) → IsLeastFree (ledger_at key self.old.devices).file.now.text leaf
            → AnyMoment leaf (cert_record (sent self.old key leaf unsigned)) (under key self.old.devices)
            (under key self.new.devices) }
        ensures tried { OnErr result (IsTried (λ leaf. cert_record (sent self.old key leaf unsigned))
            (under key self.old.devices) (under key self.new.devices)) }
        ensures device { IfErr result (λ e. (e ≡ ClientError.Device)
            × OneHasRisen (under key self.old.devices) (under key self.new.devices)) }
        ensures err { OnErr result (self.new ≡ record self.old { devices = self.new.devices; phase = Phase.Failed }) }
    {
        are_bytes(&self.text);
        let journal = &mut self.journal;
        match keep_under(&mut self.keys, key, journal, Kind::Certificate, unsigned) {
            Ok(sealed) => {
                let Sealed {
                    kept: text,
                    sent,
                    signature: _,
                } = sealed;
                self.text = text;
                Ok(sent)
            }
            Err(error) => {
                self.phase = Phase::Failed;
                Err(error)
            }
        }
    }

    /// Releases the structure of the declared operation: its text is signed and journaled, and then handed out with its
    /// signature. Where room was made for it, it takes no memory, and fails by the devices alone.
    pub fn sign(
        &mut self,
        key: usize,
        structure: Structure<A>,
        unsigned: Unsigned<A>,
    ) -> Result<(Vec<u8, A>, Signature), ClientError>
        requires declared { self.old.phase ≡ Phase.Declared }
        requires key { HasKey key self.old }
        requires free { IsKeyUsedUp key self.old → ⊥ }
        requires text { unsigned ≡ structure_format.spell structure }
        requires own { (structure.plan.user ≡ self.old.user) × (structure.plan.number ≡ self.old.number) }
        ensures signed { OnOk result ((leaf : LeafNumber)
            × IsKept leaf (structure_record (sent self.old key leaf unsigned)) (under key self.old.devices)
            (under key self.new.devices)
            × (self.new ≡ record self.old {
              devices = self.new.devices;
              last = Some (signed_by (secret_at key self.old) leaf structure);
              phase = Phase.Signed;
              text = sent self.old key leaf unsigned;
            })) }
        ensures text { IfOk result (λ s. s.0.items ≡ self.new.text) }
        ensures signature { IfOk result (λ s. self.new.last ≡ Some (record { value = structure; signature = s.1 })) }
        ensures others { OthersStay key self.old.devices self.new.devices }
        ensures any_moment { (leaf : LeafNumber) → IsLeastFree (ledger_at key self.old.devices).file.now.text leaf
            → AnyMoment leaf (structure_record (sent self.old key leaf unsigned)) (under key self.old.devices)
            (under key self.new.devices) }
        ensures tried { OnErr result (IsTried (λ leaf. structure_record (sent self.old key leaf unsigned))
            (under key self.old.devices) (under key self.new.devices)) }
        ensures device { IfErr result (λ e. (e ≡ ClientError.Device)
            × OneHasRisen (under key self.old.devices) (under key self.new.devices)) }
        ensures err { OnErr result (self.new ≡ record self.old { devices = self.new.devices; phase = Phase.Failed }) }
    {
        // Its own contract says that it fits its text.
        let _plan = structure.plan();
        match keep_under(
            &mut self.keys,
            key,
            &mut self.journal,
            Kind::Structure,
            unsigned,
        ) {
            Ok(sealed) => {
                let Sealed {
                    kept,
                    sent,
                    signature,
                } = sealed;
                let signed = Signed {
                    value: structure,
                    signature,
                };
                put_in(&mut self.last, Some(signed));
                self.phase = Phase::Signed;
                put_in(&mut self.text, kept);
                Ok((sent, signature))
            }
            Err(error) => {
                let_go(structure);
                self.phase = Phase::Failed;
                Err(error)
            }
        }
    }

    /// The structure is committed, of which no record tells.
    pub fn commit(&mut self)
        requires { self.old.phase ≡ Phase.Signed }
        ensures { self.new ≡ record self.old { phase = Phase.Idle } }
    {
        self.phase = Phase::Idle;
    }

    /// Hands back what it was opened over. It takes no memory.
    pub fn close(self) -> Parts<L, J, A>
        ensures keys { map (λ k. k.0) result.keys.items ≡ self.secrets }
        ensures ledgers { map (λ k. L.history k.1) result.keys.items ≡ map (λ l. l.file) self.devices.ledgers }
        ensures faults { map (λ k. L.fault_count k.1) result.keys.items ≡ map (λ l. l.faults) self.devices.ledgers }
        ensures journal { J.history result.journal ≡ self.devices.journal.file }
        ensures journal_faults { J.fault_count result.journal ≡ self.devices.journal.faults }
    {
        let Releases {
            user: _,
            keys,
            spare,
            journal,
            number: _,
            last: _,
            phase: _,
            text: _,
        } = self;
        Parts {
            keys: close_before(keys, spare),
            journal: journal.close(),
        }
    }
}
