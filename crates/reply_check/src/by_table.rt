//! The first broken rule of those on the lists of a reply, by the table of principals.

ghost use Rattle.std.specs.Prelude.{◌≡◌, IfOk, IsSomeAnd};
ghost use Rattle.std.specs.List.{list_all};
ghost use Rattle.reply_rules.specs.Lists.{lists_of};
ghost use Rattle.version_order.specs.Vector.{version_of};
ghost use Rattle.reply_check.specs.FirstBroken.{cert_is_signed, lists_break, structure_is_signed};

use crate::known::Known;
use crate::lists::Admitted;
use layout::{Memory, Principal, User};
use pending_list::{PendingItem, Signed};
use principals::Table;
use reply_rules::Rule;
use std::alloc::Allocator;
use version_order::{Plan, Structure};

/// The version of user 0 in a plan.
pub(crate) fn supers_version<A: Allocator>(plan: &Plan<A>) -> u32
    ensures { result ≡ version_of 0 plan.now.vector }
{
    plan.vector().version_of(Principal::from(User::superuser()))
}

/// Whether a structure of another user than user 0 is signed by the key that the table has of the user at its plan's
/// version of user 0.
fn structure_is_signed<A: Allocator + Copy>(
    alloc: A,
    known: &Known<'_, A>,
    table: &Table<A>,
    shown: &Signed<Structure<A>>,
) -> Result<bool, Memory>
    ensures { IfOk result (λ is. is ≡ structure_is_signed table.now shown.now) }
{
    let user = shown.value.plan().user();
    if user == User::superuser() {
        return Ok(true);
    }
    let version = supers_version(shown.value.plan());
    match table.key_at(user, version) {
        Some(key) => known.structure_is_signed(alloc, &key, shown),
        None => Ok(false),
    }
}

/// Whether a pending certificate of another user than user 0 is.
fn cert_is_signed<A: Allocator + Copy>(
    alloc: A,
    known: &Known<'_, A>,
    table: &Table<A>,
    item: &PendingItem<A>,
) -> Result<bool, Memory>
    ensures { IfOk result (λ is. is ≡ cert_is_signed table.now item.now) }
{
    let user = item.cert().user();
    if user == User::superuser() {
        return Ok(true);
    }
    let version = supers_version(item.plan());
    match table.key_at(user, version) {
        Some(key) => known.cert_is_signed(alloc, &key, item),
        None => Ok(false),
    }
}

/// Whether each structure is.
fn structures_are_signed<A: Allocator + Copy>(
    alloc: A,
    known: &Known<'_, A>,
    table: &Table<A>,
    structures: &[Signed<Structure<A>>],
) -> Result<bool, Memory>
    ensures { IfOk result (λ are. are ≡ list_all (structure_is_signed table.now) structures.now) }
{
    for shown in structures {
        if !structure_is_signed(alloc, known, table, shown)? {
            return Ok(false);
        }
    }
    Ok(true)
}

/// Whether each pending certificate is.
fn certs_are_signed<A: Allocator + Copy>(
    alloc: A,
    known: &Known<'_, A>,
    table: &Table<A>,
    pending: &[PendingItem<A>],
) -> Result<bool, Memory>
    ensures { IfOk result (λ are. are ≡ list_all (cert_is_signed table.now) pending.now) }
{
    for item in pending {
        if !cert_is_signed(alloc, known, table, item)? {
            return Ok(false);
        }
    }
    Ok(true)
}

/// The first rule that the lists of a reply break by this table.
#[tactic(auto, unfolding(crate::specs::FirstBroken::signatures, crate::specs::FirstBroken::certificates))]
pub(crate) fn lists_broken<A: Allocator + Copy>(
    alloc: A,
    known: &Known<'_, A>,
    table: &Table<A>,
    reply: &Admitted<A>,
) -> Result<Option<Rule>, Memory>
    ensures { IfOk result (λ rule. IsSomeAnd (lists_of reply.now) (λ x. rule ≡ lists_break table.now x)) }
{
    let first = reply.broken_by(alloc, table)?;
    if first == Some(Rule::UnknownUser) {
        return Ok(first);
    }
    if !structures_are_signed(alloc, known, table, reply.structures())? {
        return Ok(Some(Rule::Signature));
    }
    if !certs_are_signed(alloc, known, table, reply.pending())? {
        return Ok(Some(Rule::Certificate));
    }
    Ok(first)
}
