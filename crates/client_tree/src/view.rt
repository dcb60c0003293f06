//! The view of a reply: on which handle each principal's part stands, and which operations come after it.

ghost use Rattle.std.specs.Prelude.{◌≡◌, IfOk, IfSome, MatchOption, Some, true, false, nat_lt};
ghost use Rattle.std.specs.Option.{option_copied, option_map, option_map_or};
ghost use Rattle.client_tree.specs.View.{acts_for, comes_after, handle_in, handle_of, newer, newest, record_of};
ghost use Rattle.client_tree.specs.View.{structure_of};

use crate::genesis::first_handle;
use layout::{Digest, Group, Memory, Principal};
use lms_sign::Key;
use pending_list::{PendingItem, Signed, raises, table_version};
use principals::Table;
use std::alloc::Allocator;
use std::marker::Model;
use version_order::{GroupRecord, Structure};

/// The lists of a reply, whose last pending operation is the own one; user 0's key, which every client knows; and the
/// table of principals by which members are judged.
#[derive(Drop)]
pub struct View<'a, A: Allocator> {
    key: &'a Key,
    table: &'a Table<A>,
    structures: &'a [Signed<Structure<A>>],
    others: &'a [PendingItem<A>],
    own: &'a PendingItem<A>,
}

impl<'a, A: Allocator> Model for View<'a, A> {
    ghost use Rattle.client_tree.specs.View.{View};

    ghost Value = { View };

    ghost view = { λ v. record {
      key = v.key.now;
      table = v.table.now;
      structures = v.structures.now;
      others = v.others.now;
      own = v.own.now;
    } };
}

/// The group that a principal is, if it isn't a user.
fn group_of(principal: Principal) -> Option<Group>
    ensures is_user { MatchOption result (nat_lt principal 64 ≡ true) (λ group. nat_lt principal 64 ≡ false) }
    ensures same { IfSome result (λ group. group ≡ principal) }
{
    let group = Group::new(principal.get())?;
    let _range = group.get();
    Some(group)
}

/// The structure of a user, if there is one.
fn structure_of<A: Allocator>(
    principal: Principal,
    structures: &[Signed<Structure<A>>],
) -> Option<&Signed<Structure<A>>>
    ensures { option_copied result ≡ structure_of principal structures.now }
{
    structures.iter().find(|structure| structure.value.plan().user().get() == principal.get())
}

/// The record of a group, if there is one.
fn record_of(group: Group, records: &[GroupRecord]) -> Option<&GroupRecord>
    ensures { option_copied result ≡ record_of group records.now }
{
    records.iter().find(|row| row.group == group)
}

/// The record of greater version, of equal ones the first.
fn newer(one: Option<GroupRecord>, other: Option<GroupRecord>) -> Option<GroupRecord>
    ensures { result ≡ newer one other }
{
    match (one, other) {
        (Some(first), Some(second)) if first.version.get() < second.version.get() => other,
        (Some(_), _) => one,
        (None, _) => other,
    }
}

/// The record of a group that has the greatest version, if there is one.
fn newest<A: Allocator>(group: Group, structures: &[Signed<Structure<A>>]) -> Option<GroupRecord>
    ensures { result ≡ newest group structures.now }
{
    let mut best = None;
    let mut left = structures.len();
    while left > 0 {
        left -= 1;
        let written = record_of(group, structures[left].value.groups().as_slice());
        best = newer(written.copied(), best);
    }
    best
}

impl<'a, A: Allocator> View<'a, A> {
    ghost use Rattle.client_tree.specs.View.{View};

    /// The view of these lists.
    pub fn new(
        key: &'a Key,
        table: &'a Table<A>,
        structures: &'a [Signed<Structure<A>>],
        others: &'a [PendingItem<A>],
        own: &'a PendingItem<A>,
    ) -> View<'a, A>
        ensures { result ≡ record {
          key = key.now;
          table = table.now;
          structures = structures.now;
          others = others.now;
          own = own.now;
        } }
    {
        View {
            key,
            table,
            structures,
            others,
            own,
        }
    }
}

impl<'a, A: Allocator> View<'a, A> {
    /// The table of principals.
    pub(crate) fn table(&self) -> &'a Table<A>
        ensures { result.now ≡ self.now.table }
    {
        self.table
    }

    /// The pending operations of others, in order.
    pub(crate) fn others(&self) -> &'a [PendingItem<A>]
        ensures { result.now ≡ self.now.others }
    {
        self.others
    }

    /// The own operation.
    pub(crate) fn own(&self) -> &'a PendingItem<A>
        ensures { result.now ≡ self.now.own }
    {
        self.own
    }

    /// The version of a group's newest record, 0 without one.
    fn newest_version(&self, group: Group) -> u32
        ensures { result ≡ option_map_or (λ r. r.version) (newest group self.now.structures) 0 }
    {
        match newest(group, self.structures) {
            Some(row) => row.version.get(),
            None => 0,
        }
    }

    /// Whether an operation comes after the handle on which a principal's part stands.
    #[tactic(auto, unfolding(crate::specs::View::comes_after))]
    pub(crate) fn comes_after(&self, principal: Principal, item: &PendingItem<A>) -> bool
        ensures { result ≡ comes_after self.now principal item.now }
    {
        match group_of(principal) {
            Some(group) => {
                raises(self.table, group, item)
                    && self.newest_version(group) < item.plan().vector().version_of(principal)
            }
            None => item.cert().user().get() == principal.get(),
        }
    }
}

/// The handle of a group's newest record, if there is one.
fn group_handle<A: Allocator>(group: Group, structures: &[Signed<Structure<A>>]) -> Option<Digest>
    ensures { result ≡ option_map (λ r. r.handle) (newest group structures.now) }
{
    newest(group, structures).map(|row| row.handle)
}

/// The handle of a user's structure, if there is one.
fn user_handle<A: Allocator>(
    principal: Principal,
    structures: &[Signed<Structure<A>>],
) -> Option<Digest>
    ensures { result ≡ option_map (λ z. z.value.handle) (structure_of principal structures.now) }
{
    structure_of(principal, structures).map(|shown| shown.value.handle())
}

/// The handle on which a principal's part stands, by these structures. The error is Memory.
pub(crate) fn handle_in<A: Allocator + Copy>(
    alloc: A,
    key: &Key,
    structures: &[Signed<Structure<A>>],
    principal: Principal,
) -> Result<Digest, Memory>
    ensures { IfOk result (λ handle. handle ≡ handle_in key.now structures.now principal) }
{
    let named = match group_of(principal) {
        Some(group) => group_handle(group, structures),
        None => user_handle(principal, structures),
    };
    match named {
        Some(handle) => Ok(handle),
        None => first_handle(alloc, principal, key),
    }
}

impl<'a, A: Allocator + Copy> View<'a, A> {
    /// The handle on which a principal's part stands. The error is Memory.
    pub(crate) fn handle_of(&self, alloc: A, principal: Principal) -> Result<Digest, Memory>
        ensures { IfOk result (λ handle. handle ≡ handle_of self.now principal) }
    {
        handle_in(alloc, self.key, self.structures, principal)
    }
}

/// Whether the operation's user is a member of this principal, if it is a group, where membership is judged at its
/// table version.
pub(crate) fn acts_for<A: Allocator>(
    table: &Table<A>,
    principal: Principal,
    item: &PendingItem<A>,
) -> bool
    ensures { result ≡ acts_for table.now item.now principal }
{
    match Group::new(principal.get()) {
        Some(group) => table.is_member(group, item.cert().user(), table_version(item.plan())),
        None => false,
    }
}
