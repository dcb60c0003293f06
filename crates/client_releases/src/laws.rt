//! A law of keys that are used up, for whoever reads the contracts: a function that does nothing.

ghost use Rattle.std.specs.Prelude.{◌↔◌, ℕ, List};
ghost use Rattle.lms_sign.specs.Secret.{drawn_from};
ghost use Rattle.leaf_ledger.specs.Ledger.{IsFull, LedgerState};
ghost use Rattle.client_releases.specs.Releasing.{IsUsedUp};

/// A key that was drawn is used up where each of its leaves is used.
pub fn drawn_is_used_up()
    ensures { (seed id : List ℕ) (ledger : LedgerState)
        → IsUsedUp (drawn_from seed id) ledger ↔ IsFull ledger.file.now.text }
{}
