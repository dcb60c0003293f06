//! A key with the ledger of its leaves.

ghost use Rattle.std.specs.Prelude.{◌≡◌};
ghost use Rattle.lms_sign.specs.Keys.{public_key_of};

use crate::caller::CallError;
use layout::Memory;
use leaf_ledger::{Ledger, LedgerError, MemoryDevice};
use lms_sign::{PrivateKey, burn, sign};
use std::alloc::Global;

/// A key that signs with one leaf after another. Its ledger lies in memory, so that nothing of it is left afterwards.
#[derive(Drop)]
pub(crate) struct Signer {
    pub(crate) key: PrivateKey<Global>,
    ledger: Ledger<MemoryDevice<Global>>,
    ghost own: { ledger.key ≡ public_key_of key },
}

impl Signer {
    /// A key of which no leaf is used.
    pub(crate) fn new(alloc: Global, key: PrivateKey<Global>) -> Result<Signer, Memory> {
        let device = MemoryDevice::new(alloc, Vec::new(alloc))?;
        match Ledger::open(device, &key.public()) {
            Ok(ledger) => Ok(Signer { key, ledger }),
            // A new device in memory fails for nothing else.
            Err(_) => Err(Memory),
        }
    }

    /// The signature of a text by the next leaf.
    pub(crate) fn sign(&mut self, text: &[u8]) -> Result<[u8; 2508], CallError> {
        if !self.ledger.usable() {
            return Err(CallError::Memory);
        }
        let leaf = match self.ledger.take() {
            Ok(leaf) => leaf,
            Err(LedgerError::NoLeaf) => return Err(CallError::NoLeaf),
            Err(_) => return Err(CallError::Memory),
        };
        if !self.key.has_leaf(leaf.number()) {
            self.ledger.settle(burn(leaf));
            return Err(CallError::NoLeaf);
        }
        let (signature, spent) = sign(&self.key, leaf, text);
        self.ledger.settle(spent);
        Ok(signature)
    }
}
