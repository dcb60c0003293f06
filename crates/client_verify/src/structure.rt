//! The structure over an accepted reply, before it is signed.

ghost use Rattle.std.specs.Prelude.{◌≡◌, IfOk};
ghost use Rattle.std.specs.Option.{option_copied};
ghost use Rattle.version_order.specs.Structure.{structure};
ghost use Rattle.client_verify.specs.State.{structure_over};

use client_releases::Unsigned;
use layout::{Digest, Memory, Text, beside};
use pending_list::Signed;
use std::alloc::Allocator;
use version_order::{GroupRecord, GroupRecords, Plan, Structure};

/// The structure over a plan, with this handle, after the one that was signed last, whose records of groups are carried
/// on but where there is a new one.
fn structure_over<A: Allocator + Copy>(
    alloc: A,
    handle: Digest,
    records: &[GroupRecord],
    last: Option<&Signed<Structure<A>>>,
    plan: &Plan<A>,
) -> Result<Structure<A>, Memory>
    ensures { IfOk result (λ s. s ≡ structure_over handle records.now (option_copied last.entry) plan.now) }
{
    let plan = plan.copy(alloc)?;
    let mut groups = match last {
        Some(last) => last.value.groups().copy(alloc)?,
        None => GroupRecords::new(alloc),
    };
    for state in records {
        groups.set(*state)?;
    }
    Ok(Structure::new(plan, handle, groups))
}

/// The structure that comes next, before it is signed: to be kept, to be shown in the view, and its text.
#[derive(Drop)]
pub(crate) struct Draft<A: Allocator> {
    pub(crate) structure: Structure<A>,
    pub(crate) shown: Structure<A>,
    pub(crate) text: Unsigned<A>,
}

/// The structure once more, and its text.
fn shown_with_text<A: Allocator + Copy>(
    alloc: A,
    next: &Structure<A>,
) -> Result<(Structure<A>, Unsigned<A>), Memory>
    ensures shown { IfOk result (λ both. both.0 ≡ next.now) }
    ensures text { IfOk result (λ both. both.1 ≡ structure.spell next.now) }
    ensures fits { IfOk result (λ _. structure.Fits next.now) }
{
    // Its own contract says that it fits its text.
    let _plan = next.plan();
    let text = Unsigned::new(alloc, next.text(alloc)?)?;
    let shown = next.copy(alloc)?;
    Ok((shown, text))
}

/// The structure over a plan, with these new records of groups. All growths are here.
pub(crate) fn draft_over<A: Allocator + Copy>(
    alloc: A,
    handle: Digest,
    records: &[GroupRecord],
    last: Option<&Signed<Structure<A>>>,
    plan: &Plan<A>,
) -> Result<Draft<A>, Memory>
    ensures structure { IfOk result
        (λ d. d.structure ≡ structure_over handle records.now (option_copied last.entry) plan.now) }
    ensures shown { IfOk result (λ d. d.shown ≡ d.structure) }
    ensures text { IfOk result (λ d. d.text ≡ structure.spell d.structure) }
    ensures fits { IfOk result (λ d. structure.Fits d.structure) }
{
    let structure = structure_over(alloc, handle, records, last, plan)?;
    let copied = shown_with_text(alloc, &structure);
    let (structure, (shown, text)) = beside(structure, copied)?;
    Ok(Draft {
        structure,
        shown,
        text,
    })
}
