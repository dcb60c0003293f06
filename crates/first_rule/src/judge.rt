//! The first rule on the lists that doesn't hold.

ghost use Rattle.std.specs.Prelude.{◌≡◌, ◌<◌, ◌-◌, IfOk, IfSome, length, map, true};
ghost use Rattle.std.specs.List.{list_all, slice_get};
ghost use Rattle.reply_rules.specs.Lists.{lists_of};
ghost use Rattle.reply_rules.specs.Rules.{is_known, lists, unknown_user};
ghost use Rattle.reply_rules.specs.Broken.{broken};

use layout::{Memory, Principal, User};
use pending_list::{PendingItem, Reply, Signed};
use principals::Table;
use reply_rules::{
    Lists, Rule, entries_hold, group_records_hold, link_holds, numbers_hold, vector_holds,
};
use std::alloc::Allocator;
use version_order::{Plan, Structure};

/// Whether the plan's user is listed since its version of user 0 or before.
fn is_known<A: Allocator>(table: &Table<A>, plan: &Plan<A>) -> bool
    ensures { result ≡ is_known table.now plan.now }
{
    let number = plan.vector().version_of(Principal::from(User::superuser()));
    table.is_listed(plan.user(), number)
}

/// Whether that holds of each structure.
fn structures_known<A: Allocator>(table: &Table<A>, structures: &[Signed<Structure<A>>]) -> bool
    ensures { result ≡ list_all (is_known table.now) (map (λ z. z.value.plan) structures.now) }
{
    for structure in structures {
        if !is_known(table, structure.value.plan()) {
            return false;
        }
    }
    true
}

/// Whether it holds of each pending operation.
fn pending_known<A: Allocator>(table: &Table<A>, pending: &[PendingItem<A>]) -> bool
    ensures { result ≡ list_all (is_known table.now) (map (λ i. i.plan) pending.now) }
{
    for item in pending {
        if !is_known(table, item.plan()) {
            return false;
        }
    }
    true
}

/// Whether the rule on unknown users holds.
#[tactic(auto, unfolding(reply_rules::specs::Rules::unknown_user))]
fn users_known<A: Allocator>(table: &Table<A>, lists: &Lists<'_, A>) -> bool
    ensures { result ≡ unknown_user table.now lists.now }
{
    structures_known(table, lists.structures()) && pending_known(table, lists.pending())
}

/// The first of the rules that these lists break.
fn first_broken<A: Allocator + Copy>(
    alloc: A,
    table: &Table<A>,
    lists: &Lists<'_, A>,
) -> Result<Option<Rule>, Memory>
    ensures { IfOk result (λ rule. rule ≡ broken table.now lists.now) }
{
    if !users_known(table, lists) {
        return Ok(Some(Rule::UnknownUser));
    }
    if !numbers_hold(lists) {
        return Ok(Some(Rule::Numbers));
    }
    if !vector_holds(alloc, table, lists)? {
        return Ok(Some(Rule::Vector));
    }
    if !entries_hold(alloc, lists)? {
        return Ok(Some(Rule::Entries));
    }
    if !link_holds(alloc, lists)? {
        return Ok(Some(Rule::Link));
    }
    if !group_records_hold(alloc, table, lists)? {
        return Ok(Some(Rule::GroupRecord));
    }
    Ok(None)
}

/// The first broken rule of those that speak of the lists and the table alone: UnknownUser, Numbers, Vector, Entries,
/// Link and GroupRecord. The last pending operation is the own one.
pub fn broken<A: Allocator + Copy>(
    alloc: A,
    reply: &Reply<A>,
    table: &Table<A>,
    own: User,
) -> Result<Option<Rule>, Memory>
    requires lists { lists reply.now ≡ true }
    requires pending { 0 < length reply.now.pending }
    requires own { IfSome (slice_get reply.now.pending (length reply.now.pending - 1)) (λ i. i.plan.user ≡ own) }
    ensures { IfOk result (λ rule. IfSome (lists_of reply.now) (λ x. rule ≡ broken table.now x)) }
{
    let _own = own;
    match Lists::of(reply) {
        Some(lists) => first_broken(alloc, table, &lists),
        None => Ok(None),
    }
}
