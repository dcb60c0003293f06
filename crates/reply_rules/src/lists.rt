//! The rule on the lists themselves: both stand in their order, and no user is pending twice.

ghost use Rattle.std.specs.Prelude.{◌≡◌, ◌==◌, map, not};
ghost use Rattle.std.specs.List.{list_all};
ghost use Rattle.reply_rules.specs.Rules.{ascends, each_once, depth, is_planned, lists};

use pending_list::{PendingItem, Reply, Signed};
use std::alloc::Allocator;
use version_order::{Structure, depth};

/// Whose structure it is.
pub(crate) fn shown_user<A: Allocator>(structure: &Signed<Structure<A>>) -> u8
    ensures { result ≡ structure.now.value.plan.user }
{
    structure.value.plan().user().get()
}

/// Whose operation it is.
pub(crate) fn pending_user<A: Allocator>(item: &PendingItem<A>) -> u8
    ensures { result ≡ item.now.plan.user }
{
    item.plan().user().get()
}

/// Whether the structures ascend strictly by user.
fn structures_ascend<A: Allocator>(structures: &[Signed<Structure<A>>]) -> bool
    ensures { result ≡ ascends (map (λ z. z.value.plan.user) structures.now) }
{
    let mut before = None;
    for structure in structures {
        let user = shown_user(structure);
        if before.is_some_and(|before| user <= before) {
            return false;
        }
        before = Some(user);
    }
    true
}

/// Whether the pending operations ascend strictly by depth.
fn pending_ascends<A: Allocator>(pending: &[PendingItem<A>]) -> bool
    ensures { result ≡ ascends (map (λ i. depth i.plan) pending.now) }
{
    let mut before = None;
    for item in pending {
        let depth = depth(item.plan());
        if before.is_some_and(|before| depth <= before) {
            return false;
        }
        before = Some(depth);
    }
    true
}

/// Whether none of these operations is of the user.
fn is_apart<A: Allocator>(user: u8, pending: &[PendingItem<A>]) -> bool
    ensures { result ≡ list_all (λ n. not (user == n)) (map (λ i. i.plan.user) pending.now) }
{
    for item in pending {
        if user == pending_user(item) {
            return false;
        }
    }
    true
}

/// Whether no user has two pending operations.
fn pending_once<A: Allocator>(pending: &[PendingItem<A>]) -> bool
    ensures { result ≡ each_once (map (λ i. i.plan.user) pending.now) }
{
    for (i, item) in pending.iter().enumerate() {
        if !is_apart(pending_user(item), &pending[i + 1..]) {
            return false;
        }
    }
    true
}

/// Whether the plan has its certificate's user and number.
fn is_planned<A: Allocator>(item: &PendingItem<A>) -> bool
    ensures { result ≡ is_planned item.now }
{
    item.plan().user() == item.cert().user() && item.plan().number() == item.cert().number()
}

/// Whether each plan has its certificate's user and number.
fn are_planned<A: Allocator>(pending: &[PendingItem<A>]) -> bool
    ensures { result ≡ list_all is_planned pending.now }
{
    pending.iter().all(is_planned)
}

/// Whether the reply meets the rule on lists.
#[tactic(auto, unfolding(crate::specs::Rules::lists))]
pub fn lists_hold<A: Allocator>(reply: &Reply<A>) -> bool
    ensures { result ≡ lists reply.now }
{
    structures_ascend(reply.structures())
        && pending_ascends(reply.pending())
        && pending_once(reply.pending())
        && are_planned(reply.pending())
}
