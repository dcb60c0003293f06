//! The order of plans, and the plan of the next operation.

ghost use Rattle.std.specs.Prelude.{◌≡◌, ◌∷◌, Ok, Err, OnOk, IfOk, true, false};
ghost use Rattle.version_order.specs.Vector.{depth, is_below, raised, raised_all, can_raise_all};

use crate::error::PlanError;
use crate::plan::{Entries, Plan};
use crate::vector::Vector;
use layout::{Digest, Group, Principal, User, Version};
use std::alloc::Allocator;

/// How many operations a plan counts: the sum of the users' versions.
pub fn depth<A: Allocator>(plan: &Plan<A>) -> u64
    ensures { result ≡ depth plan.now.vector }
{
    plan.vector().depth()
}

/// Whether no component of the first plan's vector is greater than the second's.
pub fn below<A: Allocator>(first: &Plan<A>, second: &Plan<A>) -> bool
    ensures { result ≡ is_below first.now.vector second.now.vector }
{
    first.vector().is_below(second.vector())
}

/// The plan of an operation whose predecessor has the vector `last`: one more for its user, and for each group whose
/// state it changes. The entries are the operations that are pending.
pub fn next_plan<A: Allocator + Copy>(
    alloc: A,
    last: &Vector<A>,
    entries: Entries<A>,
    user: User,
    number: Version,
    certificate: Digest,
    groups: &[Group],
) -> Result<Plan<A>, PlanError>
    ensures ok { IfOk result (λ plan. plan
        ≡ record {
          user = user;
          number = number;
          certificate = certificate;
          vector = raised_all groups.now (raised user last.now);
          entries = entries;
        }) }
    ensures within { OnOk result (can_raise_all (user ∷ groups.now) last.now ≡ true) }
    ensures limit { result ≡ Err PlanError.Limit → can_raise_all (user ∷ groups.now) last.now ≡ false }
{
    let mut vector = last.copy(alloc)?;
    vector.raise(Principal::from(user))?;
    for group in groups {
        vector.raise(Principal::from(*group))?;
    }
    Ok(Plan::new(user, number, certificate, vector, entries))
}
