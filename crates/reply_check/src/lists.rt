//! The lists of a reply that breaks none of the rules on lists.

ghost use Rattle.std.specs.Prelude.{◌≡◌, ◌==◌, ◌<◌, None, Some, IfOk, IsSome, IsSomeAnd, OnOk, MatchResult, find, true};
ghost use Rattle.std.specs.Prelude.{vec_len, vec_capacity};
ghost use Rattle.std.specs.Option.{option_copied};
ghost use Rattle.std.specs.Ordering.{nat_cmp};
ghost use Rattle.layout.specs.Ascending.{Ascends, Stands, IsFree};
ghost use Rattle.pending_list.specs.Reply.{user_of};
ghost use Rattle.reply_rules.specs.Broken.{broken};
ghost use Rattle.reply_rules.specs.Lists.{items};
ghost use Rattle.reply_check.specs.FirstBroken.{shown_of, view_over};
ghost use Rattle.reply_check.specs.Good.{with_own};
ghost use Rattle.reply_check.specs.Verified.{AreSupers};

use client_tree::View;
use first_rule::broken;
use layout::{Memory, User};
use lms_sign::PublicKey;
use pending_list::{PendingItem, Reply, Signed};
use principals::Table;
use reply_rules::Rule;
use std::alloc::Allocator;
use std::marker::Model;
use version_order::Structure;

/// The structure that a reply has of a user.
pub(crate) fn shown_of<A: Allocator>(
    user: User,
    structures: &[Signed<Structure<A>>],
) -> Option<&Signed<Structure<A>>>
    ensures { option_copied result ≡ shown_of user structures.now }
{
    structures
        .iter()
        .find(|structure| structure.value.plan().user() == user)
}

/// The pending operation of a user.
pub(crate) fn pending_of<A: Allocator>(
    user: User,
    pending: &[PendingItem<A>],
) -> Option<&PendingItem<A>>
    ensures { option_copied result ≡ find (λ i. i.cert.user == user) pending.now }
{
    pending.iter().find(|item| item.cert().user() == user)
}

/// The lists of a reply whose structures ascend by user: the structures, and the pending operations with the own one,
/// which is the last, apart. Beside them user 0's key, under which its signatures were verified.
#[derive(Drop)]
pub struct Lists<A: Allocator> {
    pinned: PublicKey,
    structures: Vec<Signed<Structure<A>>, A>,
    others: Vec<PendingItem<A>, A>,
    own: PendingItem<A>,
}

impl<A: Allocator> Model for Lists<A> {
    ghost use Rattle.std.specs.Prelude.{None};
    ghost use Rattle.std.specs.Ordering.{nat_cmp};
    ghost use Rattle.layout.specs.Ascending.{Ascends};
    ghost use Rattle.pending_list.specs.Reply.{user_of};
    ghost use Rattle.reply_rules.specs.Lists.{Lists};
    ghost use Rattle.reply_check.specs.Verified.{AreSupers};

    ghost Value = { Lists };

    ghost view = { λ a. record { structures = a.structures.items; others = a.others.items; own = a.own } };

    ghost invariant = { λ a. Ascends nat_cmp user_of None a.structures.items
        × AreSupers (record { structures = a.structures.items; others = a.others.items; own = a.own }) a.pinned };
}

/// A reply that breaks none of the rules on itself: it meets the rule on lists, something is pending, and user 0's
/// signatures were verified under this key.
#[derive(Drop)]
pub struct Admitted<A: Allocator> {
    pinned: PublicKey,
    reply: Reply<A>,
}

impl<A: Allocator> Model for Admitted<A> {
    ghost use Rattle.std.specs.Prelude.{◌≡◌, IsSome, true};
    ghost use Rattle.pending_list.specs.Reply.{Reply};
    ghost use Rattle.reply_rules.specs.Lists.{lists_of};
    ghost use Rattle.reply_rules.specs.Rules.{lists};
    ghost use Rattle.reply_check.specs.FirstBroken.{super_signature};

    ghost Value = { Reply };

    ghost view = { λ a. a.reply };

    ghost invariant = { λ a. (lists a.reply ≡ true) × IsSome (lists_of a.reply)
        × (super_signature a.pinned a.reply ≡ true) };
}

impl<A: Allocator> Admitted<A> {
    ghost use Rattle.reply_rules.specs.Lists.{lists_of};
    ghost use Rattle.reply_rules.specs.Rules.{lists};
    ghost use Rattle.reply_check.specs.FirstBroken.{super_signature};

    /// This reply, whose signatures of user 0 are valid under this key.
    pub(crate) fn new(pinned: PublicKey, reply: Reply<A>) -> Admitted<A>
        requires lists { lists reply ≡ true }
        requires pending { IsSome (lists_of reply) }
        requires signed { super_signature pinned reply ≡ true }
        ensures { result ≡ reply }
    {
        Admitted { pinned, reply }
    }

    /// The structures.
    pub(crate) fn structures(&self) -> &[Signed<Structure<A>>]
        ensures { IsSomeAnd (lists_of self.now) (λ x. x.structures ≡ result.now) }
    {
        self.reply.structures()
    }

    /// The pending operations, in order.
    pub(crate) fn pending(&self) -> &[PendingItem<A>]
        ensures { IsSomeAnd (lists_of self.now) (λ x. items x ≡ result.now) }
    {
        self.reply.pending()
    }

    /// The own one, which is the last, and those before it.
    pub fn split(&self) -> (&PendingItem<A>, &[PendingItem<A>])
        ensures { IsSomeAnd (lists_of self.now) (λ x. (x.own ≡ result.0.now) × (x.others ≡ result.1.now)) }
    {
        let Some((own, others)) = self.reply.pending().split_last() else {
            unreachable!()
        };
        (own, others)
    }

    /// The view of its lists, with user 0's key and this table of principals.
    pub(crate) fn view<'a>(&'a self, key: &'a [u8; 56], table: &'a Table<A>) -> View<'a, A>
        ensures { IsSomeAnd (lists_of self.now) (λ x. result ≡ view_over key.now table.now x) }
    {
        let (own, others) = self.split();
        View::new(key, table, self.structures(), others, own)
    }

    /// Its lists.
    pub fn into_lists(self) -> Lists<A>
        ensures { lists_of self ≡ Some result }
    {
        let pinned = self.pinned;
        let (structures, mut pending) = self.reply.into_parts();
        let Some(own) = pending.pop() else {
            unreachable!()
        };
        Lists {
            pinned,
            structures,
            others: pending,
            own,
        }
    }
}

impl<A: Allocator + Copy> Admitted<A> {
    ghost use Rattle.reply_rules.specs.Lists.{lists_of};

    /// The first rule by this table that the lists break, but for those on signatures.
    pub(crate) fn broken_by(&self, alloc: A, table: &Table<A>) -> Result<Option<Rule>, Memory>
        ensures { IfOk result (λ rule. IsSomeAnd (lists_of self.now) (λ x. rule ≡ broken table.now x)) }
    {
        let (own, _others) = self.split();
        broken(alloc, &self.reply, table, own.plan().user())
    }
}

impl<A: Allocator> Lists<A> {
    /// The structures.
    pub(crate) fn structures(&self) -> &[Signed<Structure<A>>]
        ensures { result.now ≡ self.now.structures }
    {
        &self.structures
    }

    /// The pending operations before the own one, in order.
    pub(crate) fn others(&self) -> &[PendingItem<A>]
        ensures { result.now ≡ self.now.others }
    {
        &self.others
    }

    /// Whether user 0's signatures in these lists were verified under this key.
    pub(crate) fn has_pinned(&self, key: &PublicKey) -> bool
        ensures { result ≡ true → AreSupers self.now key.now }
    {
        self.pinned == *key
    }

    /// The own item, which is the last pending one.
    pub fn own(&self) -> &PendingItem<A>
        ensures { result.now ≡ self.now.own }
    {
        &self.own
    }

    /// The view of these lists, with user 0's key and this table of principals.
    pub(crate) fn view<'a>(&'a self, key: &'a [u8; 56], table: &'a Table<A>) -> View<'a, A>
        ensures { result ≡ record {
          key = key.now;
          table = table.now;
          structures = self.now.structures;
          others = self.now.others;
          own = self.now.own;
        } }
    {
        View::new(key, table, &self.structures, &self.others, &self.own)
    }
}

impl<A: Allocator + Copy> Lists<A> {
    /// A copy of the structures, with room for one more.
    pub fn copies(&self, alloc: A) -> Result<Vec<Signed<Structure<A>>, A>, Memory>
        ensures same { IfOk result (λ copies. copies.items ≡ self.now.structures) }
        ensures room { IfOk result (λ copies. vec_len copies < vec_capacity copies) }
        ensures ascending { OnOk result (Ascends nat_cmp user_of None self.now.structures) }
    {
        let mut copies = Vec::new(alloc);
        for shown in &self.structures {
            let value = shown.value.copy(alloc)?;
            copies.push(Signed {
                value,
                signature: shown.signature,
            })?;
        }
        copies.reserve(1)?;
        Ok(copies)
    }
}

/// Where the structure of a user stands, or where it would stand.
fn find<A: Allocator>(structures: &[Signed<Structure<A>>], user: User) -> Result<usize, usize>
    requires { Ascends nat_cmp user_of None structures.now }
    ensures { MatchResult result (Stands nat_cmp user_of structures.now user)
        (IsFree nat_cmp user_of structures.now user) }
{
    structures.binary_search_by_key(&user.get(), |shown| shown.value.plan().user().get())
}

/// The structures with this one in its user's place.
pub fn with_own<A: Allocator>(
    structures: Vec<Signed<Structure<A>>, A>,
    own: Signed<Structure<A>>,
) -> Vec<Signed<Structure<A>>, A>
    requires room { vec_len structures < vec_capacity structures }
    requires ascending { Ascends nat_cmp user_of None structures.items }
    ensures { result.items ≡ with_own own structures.items }
{
    let mut list = structures;
    match find(&list, own.value.plan().user()) {
        Ok(place) => list[place] = own,
        Err(place) => list.insert(place, own).unwrap(),
    }
    list
}
