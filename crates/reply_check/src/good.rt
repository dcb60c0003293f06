//! Lists that break no rule.

ghost use Rattle.std.specs.Prelude.{◌≡◌, true, IfSome};
ghost use Rattle.std.specs.Option.{option_copied};
ghost use Rattle.lms_sign.specs.Signature.{valid};
ghost use Rattle.update_cert.specs.Cert.{cert};
ghost use Rattle.version_order.specs.Structure.{structure};
ghost use Rattle.reply_check.specs.Verified.{IsJudgedBy};

use crate::by_table::supers_version;
use crate::lists::{Lists, pending_of, shown_of};
use client_tree::PendingTable;
use layout::User;
use lms_sign::PublicKey;
use pending_list::Signed;
use principals::Table;
use std::alloc::Allocator;
use std::marker::Model;
use update_cert::Cert;
use version_order::Structure;

/// Lists that break no rule by this table of principals.
#[derive(Drop)]
pub struct Good<A: Allocator> {
    /// The lists.
    pub lists: Lists<A>,
    /// The table.
    pub table: PendingTable<A>,
}

impl<A: Allocator> Model for Good<A> {
    ghost use Rattle.std.specs.Prelude.{◌≡◌, None};
    ghost use Rattle.reply_check.specs.FirstBroken.{lists_break};
    ghost use Rattle.reply_check.specs.Good.{Good};

    ghost Value = { Good };

    ghost view = { λ g. record { lists = g.lists; table = g.table.table; void = g.table.voids } };

    ghost invariant = { λ g. lists_break g.table.table g.lists ≡ None };
}

impl<A: Allocator> Good<A> {
    /// The lists.
    pub fn lists(&self) -> &Lists<A>
        ensures { result.now ≡ self.now.lists }
    {
        &self.lists
    }

    /// The table of principals.
    pub fn table(&self) -> &Table<A>
        ensures { result.now ≡ self.now.table }
    {
        &self.table.table
    }

    /// Whether what the lists show of this user, at this version of user 0, was verified under this key.
    fn has_key(&self, user: User, version: u32, key: &PublicKey) -> bool
        ensures { result ≡ true → IsJudgedBy self.now.lists self.now.table user version key.now }
    {
        if user == User::superuser() {
            return self.lists.has_pinned(key);
        }
        match self.table.table.key_at(user, version) {
            Some(listed) => listed == *key,
            None => false,
        }
    }

    /// The structure of this user, where it was verified under this key.
    pub(crate) fn structure_of(&self, key: &PublicKey, user: User) -> Option<&Signed<Structure<A>>>
        ensures { IfSome (option_copied result) (λ z. valid key.now (structure.spell z.value) z.signature ≡ true) }
    {
        let shown = shown_of(user, self.lists.structures())?;
        if !self.has_key(user, supers_version(shown.value.plan()), key) {
            return None;
        }
        Some(shown)
    }

    /// The pending certificate of this user, not the own one, where it was verified under this key.
    pub(crate) fn cert_of(&self, key: &PublicKey, user: User) -> Option<&Signed<Cert<A>>>
        ensures { IfSome (option_copied result) (λ c. valid key.now (cert.spell c.value) c.signature ≡ true) }
    {
        let item = pending_of(user, self.lists.others())?;
        if !self.has_key(user, supers_version(item.plan()), key) {
            return None;
        }
        Some(item.signed_cert())
    }
}
