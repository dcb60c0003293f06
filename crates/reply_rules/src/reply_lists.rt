//! The lists of a reply, as the rules speak of them.

ghost use Rattle.std.specs.Prelude.{◌≡◌, ◌≤◌, ◌++◌, length, filter, true};
ghost use Rattle.std.specs.Option.{option_copied};
ghost use Rattle.pending_list.specs.Reply.{top, depth_of_top, is_above};
ghost use Rattle.reply_rules.specs.Lists.{lists_of, items, structure_of};
ghost use Rattle.reply_rules.specs.Rules.{lists, items_waiting, items_above};
ghost use Rattle.reply_rules.specs.Split.{place_above};

use crate::lists::shown_user;
use pending_list::{PendingItem, Reply, Signed, depth_of_top, is_deeper, top};
use std::alloc::Allocator;
use std::marker::Model;
use version_order::{Structure, depth};

/// The lists of a reply that meets the rule on lists: the structures, and the pending operations, of which the last is
/// the own one. Those that aren't above come before those that are.
#[derive(Drop)]
pub struct Lists<'a, A: Allocator> {
    structures: &'a [Signed<Structure<A>>],
    pending: &'a [PendingItem<A>],
    others: &'a [PendingItem<A>],
    own: &'a PendingItem<A>,
    waiting: &'a [PendingItem<A>],
    above: &'a [PendingItem<A>],
    top: Option<&'a Signed<Structure<A>>>,
}

impl<'a, A: Allocator> Model for Lists<'a, A> {
    ghost use Rattle.std.specs.Option.{option_copied};
    ghost use Rattle.reply_rules.specs.Lists.{Lists};
    ghost use Rattle.reply_rules.specs.Split.{IsSplit};

    ghost Value = { Lists };

    ghost view = { λ l. record { structures = l.structures.now; others = l.others.now; own = l.own.now } };

    ghost invariant = { λ l. IsSplit (record { structures = l.structures.now; others = l.others.now; own = l.own.now })
        l.pending.now l.waiting.now l.above.now (option_copied l.top) };
}

/// How many operations come before the first that is of greater depth than this.
fn place_above<A: Allocator>(pending: &[PendingItem<A>], depth: u64) -> usize
    ensures same { result ≡ place_above depth pending.now }
    ensures inside { result ≤ length pending.now }
{
    let mut before = 0;
    for item in pending {
        if is_deeper(item, depth) {
            return before;
        }
        before += 1;
    }
    before
}

/// What is pending and of greater depth than top, in order. Of a reply that meets the rule on lists it is the end of
/// the pending list.
pub fn above_top<A: Allocator>(reply: &Reply<A>) -> &[PendingItem<A>]
    requires { lists reply.now ≡ true }
    ensures { result.now ≡ filter (λ i. is_above reply.now.structures i.plan) reply.now.pending }
{
    let pending = reply.pending();
    let place = place_above(pending, depth_of_top(reply));
    let (_waiting, above) = pending.split_at(place);
    above
}

impl<'a, A: Allocator> Lists<'a, A> {
    /// The lists of a reply that meets the rule on lists. None where nothing is pending.
    pub fn of(reply: &'a Reply<A>) -> Option<Lists<'a, A>>
        requires { lists reply.now ≡ true }
        ensures { result ≡ lists_of reply.now }
    {
        let structures = reply.structures();
        let pending = reply.pending();
        let (own, others) = pending.split_last()?;
        let place = place_above(pending, depth_of_top(reply));
        let (waiting, above) = pending.split_at(place);
        Some(Lists {
            structures,
            pending,
            others,
            own,
            waiting,
            above,
            top: top(reply),
        })
    }

    /// The structures.
    pub fn structures(&self) -> &'a [Signed<Structure<A>>]
        ensures { result.now ≡ self.now.structures }
    {
        self.structures
    }

    /// The pending operations, in order.
    pub fn pending(&self) -> &'a [PendingItem<A>]
        ensures { result.now ≡ items self.now }
    {
        self.pending
    }

    /// Those before the own one.
    pub(crate) fn others(&self) -> &'a [PendingItem<A>]
        ensures { result.now ≡ self.now.others }
    {
        self.others
    }

    /// The own one.
    pub(crate) fn own(&self) -> &'a PendingItem<A>
        ensures { result.now ≡ self.now.own }
    {
        self.own
    }

    /// The structure of greatest depth.
    pub(crate) fn top(&self) -> Option<&'a Signed<Structure<A>>>
        ensures { option_copied result ≡ top self.now.structures }
    {
        self.top
    }

    /// The pending operations that aren't of greater depth than top, in order.
    pub(crate) fn waiting(&self) -> &'a [PendingItem<A>]
        ensures waiting { result.now ≡ items_waiting self.now }
        ensures joined { items self.now ≡ items_waiting self.now ++ items_above self.now }
    {
        self.waiting
    }

    /// Those that are above, in order.
    pub(crate) fn above(&self) -> &'a [PendingItem<A>]
        ensures { result.now ≡ items_above self.now }
    {
        self.above
    }

    /// How many operations top counts, 0 where there is no structure.
    pub(crate) fn depth_of_top(&self) -> u64
        ensures { result ≡ depth_of_top self.now.structures }
    {
        match self.top {
            Some(top) => depth(top.value.plan()),
            None => 0,
        }
    }

    /// The structure of a user.
    pub(crate) fn structure_of(&self, user: u8) -> Option<&'a Signed<Structure<A>>>
        ensures { option_copied result ≡ structure_of user self.now }
    {
        self.structures
            .iter()
            .find(|structure| shown_user(structure) == user)
    }
}
