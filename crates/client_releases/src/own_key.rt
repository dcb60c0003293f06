//! A client's keys, each with its ledger: how they are opened together, and handed back.

ghost use Rattle.std.specs.List.{position};
ghost use Rattle.std.specs.Prelude.{◌≡◌, ◌+◌, ◌≤◌, ◌++◌, map, IfErr, IfOk, vec_len, vec_capacity};
ghost use Rattle.client_releases.specs.OwnKeys.{AreOpened, AreSettled, OneIsRefused, closed_key, key_files};
ghost use Rattle.client_releases.specs.OwnKeys.{ledgers_of, secrets_of};
ghost use Rattle.client_releases.specs.Told.{has_public};

use leaf_ledger::{Device, Ledger, LedgerError};
use lms_sign::{PrivateKey, PublicKey};
use std::alloc::Allocator;
use std::marker::Model;

/// A key, and the ledger of its leaves.
#[derive(Drop)]
pub(crate) struct OwnKey<L: Device, A: Allocator> {
    pub(crate) key: PrivateKey<A>,
    pub(crate) ledger: Ledger<L>,
}

impl<L: Device, A: Allocator> Model for OwnKey<L, A> {
    ghost use Rattle.client_releases.specs.OwnKeys.{OwnKey};

    ghost Value = { OwnKey };

    ghost view = { λ own. record { secret = own.key; ledger = own.ledger } };
}

/// The number of the first of these keys with this public key, if there is one.
pub(crate) fn number_of<L: Device, A: Allocator>(
    own: &[OwnKey<L, A>],
    public: &PublicKey,
) -> Option<usize>
    ensures { result ≡ position (λ k. has_public public.now k.secret) own.now }
{
    own.iter().position(|own| own.key.public() == *public)
}

/// Keys with the devices of their ledgers.
pub type Keys<L, A> = Vec<(PrivateKey<A>, L), A>;

/// Closes ledgers, and puts each key with its device before those that are there, in their order. It takes no memory.
pub(crate) fn close_before<L: Device, A: Allocator>(
    own: Vec<OwnKey<L, A>, A>,
    rest: Keys<L, A>,
) -> Keys<L, A>
    requires room { vec_len own + vec_len rest ≤ vec_capacity rest }
    requires settled { AreSettled (ledgers_of own.items) }
    ensures { key_files L.history L.fault_count result.items
        ≡ map closed_key own.items ++ key_files L.history L.fault_count rest.items }
{
    let mut own = own;
    let mut keys = rest;
    while let Some(last) = own.pop() {
        let OwnKey { key, ledger } = last;
        if let Err(_) = keys.insert(0, (key, ledger.close())) {
            unreachable!();
        }
    }
    own.destroy_empty();
    keys
}

/// Opens the ledgers of keys, the first key's first, into a vector that has room for them. A refusal hands the keys
/// back, in their order. It takes no memory.
pub(crate) fn open_ledgers<L: Device, A: Allocator>(
    own: Vec<OwnKey<L, A>, A>,
    keys: Keys<L, A>,
) -> Result<(Vec<OwnKey<L, A>, A>, Keys<L, A>), (LedgerError, Keys<L, A>)>
    requires none { vec_len own ≡ 0 }
    requires room { vec_len keys ≤ vec_capacity own }
    ensures opened { IfOk result
        (λ r. AreOpened (key_files L.history L.fault_count keys.items) (ledgers_of r.0.items)) }
    ensures secrets { IfOk result (λ r. secrets_of r.0.items ≡ map (λ k. k.0) keys.items) }
    ensures spare { IfOk result (λ r. (vec_len r.1 ≡ 0) × (vec_len r.0 ≤ vec_capacity r.1)) }
    ensures refused { IfErr result (λ e. OneIsRefused e.0 (key_files L.history L.fault_count keys.items)
        (key_files L.history L.fault_count e.1.items)) }
{
    let mut own = own;
    let mut rest = keys;
    while !rest.is_empty() {
        let (key, ledger) = rest.remove(0);
        match Ledger::open(ledger, &key.public()) {
            Ok(ledger) => {
                if let Err(_) = own.push(OwnKey { key, ledger }) {
                    unreachable!();
                }
            }
            Err((error, ledger)) => {
                if let Err(_) = rest.insert(0, (key, ledger)) {
                    unreachable!();
                }
                return Err((error, close_before(own, rest)));
            }
        }
    }
    Ok((own, rest))
}
