//! What a client is opened over.

ghost use Rattle.std.specs.Prelude.{◌≡◌, [], ◌∷◌, length, IfOk, IfSome, None};

use crate::own_key::Keys;
use layout::{Memory, let_go};
use leaf_ledger::Device;
use lms_sign::PrivateKey;
use std::alloc::Allocator;

/// What a client is opened over, and hands back: its keys, each with the device of its ledger, the first key first, and
/// the device of its journal.
#[derive(Drop)]
pub struct Parts<L: Device, J: Device, A: Allocator> {
    pub keys: Keys<L, A>,
    pub journal: J,
}

impl<L: Device + Drop, J: Device + Drop, A: Allocator> Parts<L, J, A> {
    /// Those of a client with one key.
    pub fn of_one(
        alloc: A,
        key: PrivateKey<A>,
        ledger: L,
        journal: J,
    ) -> Result<Parts<L, J, A>, Memory>
        ensures keys { IfOk result (λ parts. parts.keys.items ≡ (key, ledger) ∷ []) }
        ensures journal { IfOk result (λ parts. parts.journal ≡ journal) }
    {
        let mut keys = Vec::new(alloc);
        match keys.push((key, ledger)) {
            Ok(()) => Ok(Parts { keys, journal }),
            Err(_) => {
                let_go(keys);
                let_go(journal);
                Err(Memory)
            }
        }
    }

    /// The last key, with the device of its ledger, and the device of the journal: of a client with one key all of it.
    pub fn last(self) -> Option<(PrivateKey<A>, L, J)>
        ensures key { length self.keys.items ≡ 1 → IfSome result (λ l. self.keys.items ≡ (l.0, l.1) ∷ []) }
        ensures journal { IfSome result (λ l. l.2 ≡ self.journal) }
        ensures none { result ≡ None → length self.keys.items ≡ 0 }
    {
        let Parts { keys, journal } = self;
        let mut keys = keys;
        match keys.pop() {
            Some((key, ledger)) => {
                let_go(keys);
                Some((key, ledger, journal))
            }
            None => {
                let_go(keys);
                let_go(journal);
                None
            }
        }
    }
}
