//! The rule on vectors.

ghost use Rattle.std.specs.Prelude.{◌≡◌, ◌++◌, IfOk, map, true, false};
ghost use Rattle.std.specs.List.{list_all};
ghost use Rattle.layout.specs.Ranges.{last_version};
ghost use Rattle.version_order.specs.Vector.{version_of, raised, raised_all, vector as vector_format};
ghost use Rattle.reply_rules.specs.Rules.{in_order, any_two, all_in_order, own_above, top_vector, same_vector};
ghost use Rattle.reply_rules.specs.Rules.{vectors_follow, vector};

use crate::reply_lists::Lists;
use layout::{Group, Memory, Principal};
use pending_list::{PendingItem, Signed, raised_groups};
use principals::Table;
use std::alloc::Allocator;
use std::marker::Model;
use version_order::{Plan, PlanError, Structure, Vector, below, depth};

/// A plan with its depth, which is counted once.
#[derive(Drop)]
struct CountedPlan<'a, A: Allocator> {
    plan: &'a Plan<A>,
    depth: u64,
}

impl<'a, A: Allocator> Model for CountedPlan<'a, A> {
    ghost use Rattle.std.specs.Prelude.{◌≡◌};
    ghost use Rattle.version_order.specs.Plan.{Plan};
    ghost use Rattle.reply_rules.specs.Rules as rules;

    ghost Value = { Plan };

    ghost view = { λ c. c.plan.now };

    ghost invariant = { λ c. c.depth ≡ rules.depth c.plan.now };
}

impl<'a, A: Allocator> CountedPlan<'a, A> {
    /// The plan with its depth.
    fn of(plan: &'a Plan<A>) -> CountedPlan<'a, A>
        ensures { result ≡ plan.now }
    {
        CountedPlan {
            plan,
            depth: depth(plan),
        }
    }
}

/// The plans of these structures.
fn counted<'a, A: Allocator>(
    alloc: A,
    structures: &'a [Signed<Structure<A>>],
) -> Result<Vec<CountedPlan<'a, A>, A>, Memory>
    ensures { IfOk result (λ made. made.items ≡ map (λ z. z.value.plan) structures.now) }
{
    let mut made = Vec::new(alloc);
    for structure in structures {
        made.push(CountedPlan::of(structure.value.plan()))?;
    }
    Ok(made)
}

/// These plans, and after them the pending ones.
fn with_pending<'a, A: Allocator>(
    plans: Vec<CountedPlan<'a, A>, A>,
    pending: &'a [PendingItem<A>],
) -> Result<Vec<CountedPlan<'a, A>, A>, Memory>
    ensures { IfOk result (λ made. made.items ≡ plans.entry.items ++ map (λ i. i.plan) pending.now) }
{
    let mut made = plans;
    for item in pending {
        made.push(CountedPlan::of(item.plan()))?;
    }
    Ok(made)
}

/// Whether the depths differ, and no component falls from the lesser to the greater.
fn in_order<A: Allocator>(p: &CountedPlan<'_, A>, q: &CountedPlan<'_, A>) -> bool
    ensures { result ≡ in_order p.now q.now }
{
    (p.depth < q.depth && below(p.plan, q.plan)) || (q.depth < p.depth && below(q.plan, p.plan))
}

/// Whether the plan is in order with each of these.
fn orders<A: Allocator>(plan: &CountedPlan<'_, A>, others: &[CountedPlan<'_, A>]) -> bool
    ensures { result ≡ list_all (in_order plan.now) others.now }
{
    others.iter().all(|other| in_order(plan, other))
}

/// Whether any two of these plans are in order.
fn any_in_order<A: Allocator>(plans: &[CountedPlan<'_, A>]) -> bool
    ensures { result ≡ any_two in_order plans.now }
{
    for (i, plan) in plans.iter().enumerate() {
        if !orders(plan, &plans[i + 1..]) {
            return false;
        }
    }
    true
}

/// Whether any two items are.
fn all_in_order<A: Allocator + Copy>(alloc: A, lists: &Lists<'_, A>) -> Result<bool, Memory>
    ensures { IfOk result (λ b. b ≡ all_in_order lists.now) }
{
    let structures = counted(alloc, lists.structures())?;
    let plans = with_pending(structures, lists.pending())?;
    Ok(any_in_order(&plans))
}

/// Whether the own plan is above.
fn own_above<A: Allocator>(lists: &Lists<'_, A>) -> bool
    ensures { result ≡ own_above lists.now }
{
    lists.depth_of_top() < depth(lists.own().plan())
}

/// A copy of top's vector, which is empty without a structure.
fn top_vector<A: Allocator + Copy>(alloc: A, lists: &Lists<'_, A>) -> Result<Vector<A>, Memory>
    ensures { IfOk result (λ v. v ≡ top_vector lists.now) }
{
    match lists.top() {
        Some(top) => top.value.plan().vector().copy(alloc),
        None => Ok(Vector::new(alloc)),
    }
}

/// Adds one to the version of a principal, and tells whether it could grow.
fn raise<A: Allocator>(next: &mut Vector<A>, principal: Principal) -> Result<bool, Memory>
    ensures raised { IfOk result (λ grows. grows ≡ true → next.new ≡ raised principal next.old) }
    ensures last { IfOk result (λ grows. grows ≡ false → version_of principal next.old ≡ last_version) }
    ensures fits { vector_format.Fits next.old }
{
    let _fits = next.components();
    match next.raise(principal) {
        Ok(()) => Ok(true),
        Err(PlanError::Limit) => Ok(false),
        Err(PlanError::Memory) => Err(Memory),
    }
}

/// Whether the plan's vector is this one with one more for its user and for each of these groups. Where it is, it is
/// this one from then on.
fn follows<A: Allocator>(
    plan: &Plan<A>,
    groups: &[Group],
    next: &mut Vector<A>,
) -> Result<bool, Memory>
    ensures follows { IfOk result (λ follows. follows
        ≡ same_vector plan.now.vector (raised_all groups.now (raised plan.now.user next.old))) }
    ensures next { IfOk result (λ follows. follows ≡ true → next.new ≡ plan.now.vector) }
{
    let _fits = plan.vector().components();
    if !raise(next, Principal::from(plan.user()))? {
        return Ok(false);
    }
    for group in groups {
        if !raise(next, Principal::from(*group))? {
            return Ok(false);
        }
    }
    Ok(plan.vector().same(next))
}

/// Whether each plan above has the vector that follows from the one before it, the first one from top's.
fn vectors_follow<A: Allocator + Copy>(
    alloc: A,
    table: &Table<A>,
    lists: &Lists<'_, A>,
) -> Result<bool, Memory>
    ensures { IfOk result (λ holds. holds ≡ vectors_follow table.now lists.now) }
{
    let mut next = top_vector(alloc, lists)?;
    let above = lists.above();
    for item in above {
        let groups = raised_groups(alloc, table, item)?;
        if !follows(item.plan(), &groups, &mut next)? {
            return Ok(false);
        }
    }
    Ok(true)
}

/// Whether the rule on vectors holds.
#[tactic(auto, unfolding(crate::specs::Rules::vector))]
pub fn vector_holds<A: Allocator + Copy>(
    alloc: A,
    table: &Table<A>,
    lists: &Lists<'_, A>,
) -> Result<bool, Memory>
    ensures { IfOk result (λ holds. holds ≡ vector table.now lists.now) }
{
    Ok(all_in_order(alloc, lists)? && own_above(lists) && vectors_follow(alloc, table, lists)?)
}
