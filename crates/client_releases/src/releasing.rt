//! A text is signed by a leaf of the ledger and put into the journal, before anybody sees it.

ghost use Rattle.std.specs.Prelude.{◌≡◌, ◌+◌, ◌<◌, ◌^◌, ◌++◌, length, true, vec_len, IfErr, IfOk, OnErr};
ghost use Rattle.layout.specs.Types.{Bytes};
ghost use Rattle.lms_sign.specs.Keys.{public_key_of};
ghost use Rattle.lms_sign.specs.Signature.{signature_of};
ghost use Rattle.pending_list.specs.Signed.{signature as signature_format};
ghost use Rattle.leaf_ledger.specs.Device.{at_rest};
ghost use Rattle.leaf_ledger.specs.Ledger.{IsFileOf, IsLeastFree, LeafNumber};
ghost use Rattle.client_journal.specs.Records.{MayCome};
ghost use Rattle.client_releases.specs.OwnKeys.{secrets_of};
ghost use Rattle.client_releases.specs.Releasing.{AnyMoment, IsKept, IsTried, IsUsedUp, OneHasRisen, OthersStay};
ghost use Rattle.client_releases.specs.Releasing.{ledger_in, own_devices, secret_in, under};

use crate::error::ClientError;
use crate::own_key::OwnKey;
use crate::signing::{Sealed, Unsigned};
use client_journal::{Journal, Kind, Record};
use leaf_ledger::{Device, Ledger};
use lms_sign::{PrivateKey, SIGNATURE_SIZE, sign};
use pending_list::Signature;
use std::alloc::Allocator;

/// Signs a text by the least free leaf and appends it to the journal. From Ok on leaf and record stay, whatever crash
/// comes, so that the text may be handed out. Where room was made for the record, it takes no memory, and fails by the
/// devices alone.
pub(crate) fn keep<L: Device, J: Device, A: Allocator>(
    ledger: &mut Ledger<L>,
    journal: &mut Journal<J>,
    key: &PrivateKey<A>,
    kind: Kind,
    unsigned: Unsigned<A>,
) -> Result<Sealed<A>, ClientError>
    requires ledger_usable { ledger.old.usable ≡ true }
    requires own_key { ledger.old.key ≡ public_key_of key.now }
    requires settled { ledger.old.outstanding ≡ 0 }
    requires free { IsUsedUp key.now ledger.old → ⊥ }
    requires journal_usable { journal.old.usable ≡ true }
    requires journal_rests { journal.old.file.now ≡ at_rest journal.old.file.now.text }
    requires turn { (signature : Bytes) → signature_format.Fits signature
        → MayCome (record { kind = kind; text = unsigned ++ signature }) journal.old.file.now.text }
    requires short { length unsigned + SIGNATURE_SIZE < 2 ^ 32 }
    ensures kept { IfOk result (λ s. (leaf : LeafNumber)
        × (s.signature ≡ signature_of key.now leaf unsigned) × (s.kept.items ≡ unsigned ++ s.signature)
        × IsKept leaf (record { kind = kind; text = s.kept.items })
        (record { ledger = ledger.old; journal = journal.old })
        (record { ledger = ledger.new; journal = journal.new })) }
    ensures sent { IfOk result (λ s. s.sent.items ≡ s.kept.items) }
    ensures fits { IfOk result (λ s. signature_format.Fits s.signature) }
    ensures any_moment { (leaf : LeafNumber) → IsLeastFree ledger.old.file.now.text leaf
        → AnyMoment leaf (record { kind = kind; text = unsigned ++ signature_of key.now leaf unsigned })
        (record { ledger = ledger.old; journal = journal.old })
        (record { ledger = ledger.new; journal = journal.new }) }
    ensures tried { OnErr result (IsTried
        (λ leaf. record { kind = kind; text = unsigned ++ signature_of key.now leaf unsigned })
        (record { ledger = ledger.old; journal = journal.old })
        (record { ledger = ledger.new; journal = journal.new })) }
    ensures device { IfErr result (λ e. (e ≡ ClientError.Device)
        × OneHasRisen (record { ledger = ledger.old; journal = journal.old })
        (record { ledger = ledger.new; journal = journal.new })) }
    ensures usable { IfOk result (λ _. (ledger.new.usable ≡ true) × (journal.new.usable ≡ true)) }
    ensures own_file { IsFileOf ledger.old.key ledger.new.file.now.text }
    ensures same_key { ledger.new.key ≡ ledger.old.key }
    ensures none_outstanding { ledger.new.outstanding ≡ 0 }
{
    let leaf = ledger.take()?;
    let (signature, spent) = sign(key, leaf, unsigned.text());
    ledger.settle(spent);
    let sealed = unsigned.sealed(Signature::from_bytes(signature));
    let record = Record {
        kind,
        text: &sealed.kept,
    };
    journal.append(record)?;
    Ok(sealed)
}

/// The same by one key among others: their ledgers stay as they are.
pub(crate) fn keep_under<L: Device, J: Device, A: Allocator>(
    keys: &mut Vec<OwnKey<L, A>, A>,
    n: usize,
    journal: &mut Journal<J>,
    kind: Kind,
    unsigned: Unsigned<A>,
) -> Result<Sealed<A>, ClientError>
    requires inside { n < length keys.old.items }
    requires ledger_usable { (ledger_in n keys.old.items).usable ≡ true }
    requires own_key { (ledger_in n keys.old.items).key ≡ public_key_of (secret_in n keys.old.items) }
    requires settled { (ledger_in n keys.old.items).outstanding ≡ 0 }
    requires free { IsUsedUp (secret_in n keys.old.items) (ledger_in n keys.old.items) → ⊥ }
    requires journal_usable { journal.old.usable ≡ true }
    requires journal_rests { journal.old.file.now ≡ at_rest journal.old.file.now.text }
    requires turn { (signature : Bytes) → signature_format.Fits signature
        → MayCome (record { kind = kind; text = unsigned ++ signature }) journal.old.file.now.text }
    requires short { length unsigned + SIGNATURE_SIZE < 2 ^ 32 }
    ensures kept { IfOk result (λ s. (leaf : LeafNumber)
        × (s.signature ≡ signature_of (secret_in n keys.old.items) leaf unsigned)
        × (s.kept.items ≡ unsigned ++ s.signature) × IsKept leaf (record { kind = kind; text = s.kept.items })
        (under n (own_devices keys.old.items journal.old)) (under n (own_devices keys.new.items journal.new))) }
    ensures sent { IfOk result (λ s. s.sent.items ≡ s.kept.items) }
    ensures fits { IfOk result (λ s. signature_format.Fits s.signature) }
    ensures any_moment { (leaf : LeafNumber) → IsLeastFree (ledger_in n keys.old.items).file.now.text leaf
        → AnyMoment leaf
        (record { kind = kind; text = unsigned ++ signature_of (secret_in n keys.old.items) leaf unsigned })
        (under n (own_devices keys.old.items journal.old)) (under n (own_devices keys.new.items journal.new)) }
    ensures tried { OnErr result (IsTried
        (λ leaf. record { kind = kind; text = unsigned ++ signature_of (secret_in n keys.old.items) leaf unsigned })
        (under n (own_devices keys.old.items journal.old)) (under n (own_devices keys.new.items journal.new))) }
    ensures device { IfErr result (λ e. (e ≡ ClientError.Device)
        × OneHasRisen (under n (own_devices keys.old.items journal.old))
        (under n (own_devices keys.new.items journal.new))) }
    ensures usable { IfOk result (λ _. ((ledger_in n keys.new.items).usable ≡ true) × (journal.new.usable ≡ true)) }
    ensures own_file { IsFileOf (ledger_in n keys.old.items).key (ledger_in n keys.new.items).file.now.text }
    ensures same_key { (ledger_in n keys.new.items).key ≡ (ledger_in n keys.old.items).key }
    ensures none_outstanding { (ledger_in n keys.new.items).outstanding ≡ 0 }
    ensures secrets { secrets_of keys.new.items ≡ secrets_of keys.old.items }
    ensures as_many { vec_len keys.new ≡ vec_len keys.old }
    ensures others { OthersStay n (own_devices keys.old.items journal.old) (own_devices keys.new.items journal.new) }
{
    let own = &mut keys[n];
    keep(&mut own.ledger, journal, &own.key, kind, unsigned)
}
