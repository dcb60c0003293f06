//! The rule on numbers.

ghost use Rattle.std.specs.Prelude.{◌≡◌, ◌<◌, ◌==◌, map};
ghost use Rattle.std.specs.List.{list_all, list_any};
ghost use Rattle.std.specs.Option.{option_copied};
ghost use Rattle.version_order.specs.Vector.{version_of};
ghost use Rattle.reply_rules.specs.Lists.{number_of};
ghost use Rattle.reply_rules.specs.Rules.{is_numbered, is_next, pending_next, waits, top_vector, counts_at, top_counts};
ghost use Rattle.reply_rules.specs.Rules.{numbers};

use crate::lists::pending_user;
use crate::reply_lists::Lists;
use layout::Principal;
use pending_list::{PendingItem, Signed};
use std::alloc::Allocator;
use version_order::{Plan, Structure};

/// Whether the number is the plan's own version of its user.
fn is_numbered<A: Allocator>(plan: &Plan<A>) -> bool
    ensures { result ≡ is_numbered plan.now }
{
    plan.vector().version_of(Principal::from(plan.user())) == plan.number().get()
}

/// Whether that holds of each structure's plan.
fn structures_numbered<A: Allocator>(structures: &[Signed<Structure<A>>]) -> bool
    ensures { result ≡ list_all is_numbered (map (λ z. z.value.plan) structures.now) }
{
    for structure in structures {
        if !is_numbered(structure.value.plan()) {
            return false;
        }
    }
    true
}

/// Whether it holds of each pending plan.
fn pending_numbered<A: Allocator>(pending: &[PendingItem<A>]) -> bool
    ensures { result ≡ list_all is_numbered (map (λ i. i.plan) pending.now) }
{
    for item in pending {
        if !is_numbered(item.plan()) {
            return false;
        }
    }
    true
}

/// The number of a user's structure, 0 where there is none.
fn number_of<A: Allocator>(lists: &Lists<'_, A>, user: u8) -> u32
    ensures { result ≡ number_of user lists.now }
{
    match lists.structure_of(user) {
        Some(structure) => structure.value.plan().number().get(),
        None => 0,
    }
}

/// Whether the number is one more than that of the user's structure.
fn is_next<A: Allocator>(lists: &Lists<'_, A>, plan: &Plan<A>) -> bool
    ensures { result ≡ is_next lists.now plan.now }
{
    let before = number_of(lists, plan.user().get());
    u64::from(plan.number().get()) == u64::from(before) + 1
}

/// Whether that holds of each pending plan.
fn pending_next<A: Allocator>(lists: &Lists<'_, A>) -> bool
    ensures { result ≡ pending_next lists.now }
{
    let pending = lists.pending();
    for item in pending {
        if !is_next(lists, item.plan()) {
            return false;
        }
    }
    true
}

/// Whether one of these operations is of the user.
fn has_user<A: Allocator>(items: &[PendingItem<A>], user: u8) -> bool
    ensures { result ≡ list_any (λ i. i.plan.user == user) items.now }
{
    items.iter().any(|item| pending_user(item) == user)
}

/// Whether a pending plan of the user isn't above.
fn waits<A: Allocator>(lists: &Lists<'_, A>, user: u8) -> bool
    ensures { result ≡ waits lists.now user }
{
    has_user(lists.waiting(), user)
}

/// Top's version of a user, 0 where there is no structure.
fn top_version<A: Allocator>(lists: &Lists<'_, A>, user: u8) -> u32
    requires { user < 64 }
    ensures { result ≡ version_of user (top_vector lists.now) }
{
    match (lists.top(), Principal::new(user)) {
        (Some(top), Some(principal)) => top.value.plan().vector().version_of(principal),
        _ => 0,
    }
}

/// Whether top has seen as many operations of the user as its structure and a pending plan that isn't above say.
fn counts_at<A: Allocator>(lists: &Lists<'_, A>, user: u8) -> bool
    requires { user < 64 }
    ensures { result ≡ counts_at lists.now user }
{
    let seen = u64::from(number_of(lists, user)) + u64::from(waits(lists, user));
    u64::from(top_version(lists, user)) == seen
}

/// Whether that holds of each user.
fn top_counts<A: Allocator>(lists: &Lists<'_, A>) -> bool
    ensures { result ≡ top_counts lists.now }
{
    for user in 0..64 {
        if !counts_at(lists, user) {
            return false;
        }
    }
    true
}

/// Whether the rule on numbers holds.
#[tactic(auto, unfolding(crate::specs::Rules::numbers))]
pub fn numbers_hold<A: Allocator>(lists: &Lists<'_, A>) -> bool
    ensures { result ≡ numbers lists.now }
{
    structures_numbered(lists.structures())
        && pending_numbered(lists.pending())
        && pending_next(lists)
        && top_counts(lists)
}
