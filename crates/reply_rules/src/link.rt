//! The rule on links. Each certificate's digest is made once, and each structure's at most once, since no two pending
//! certificates are of one user.

ghost use Rattle.std.specs.Prelude.{◌≡◌, ◌&&◌, IfOk};
ghost use Rattle.reply_rules.specs.Rules.{names_certificate, names_last, link};

use crate::reply_lists::Lists;
use layout::Memory;
use pending_list::{PendingItem, digest_of_last};
use std::alloc::Allocator;

/// Whether the plan names its certificate.
fn names_certificate<A: Allocator + Copy>(alloc: A, item: &PendingItem<A>) -> Result<bool, Memory>
    ensures { IfOk result (λ names. names ≡ names_certificate item.now) }
{
    Ok(item.plan().certificate() == item.cert().digest(alloc)?)
}

/// Whether the certificate names its user's structure.
fn names_last<A: Allocator + Copy>(
    alloc: A,
    lists: &Lists<'_, A>,
    item: &PendingItem<A>,
) -> Result<bool, Memory>
    ensures { IfOk result (λ names. names ≡ names_last lists.now item.now) }
{
    let structure = lists.structure_of(item.cert().user().get());
    let last = digest_of_last(alloc, structure)?;
    Ok(item.cert().last() == last)
}

/// Whether both are so.
fn links<A: Allocator + Copy>(
    alloc: A,
    lists: &Lists<'_, A>,
    item: &PendingItem<A>,
) -> Result<bool, Memory>
    ensures { IfOk result (λ links. links ≡ (names_certificate item.now && names_last lists.now item.now)) }
{
    Ok(names_certificate(alloc, item)? && names_last(alloc, lists, item)?)
}

/// Whether the rule on links holds.
#[tactic(auto, unfolding(crate::specs::Rules::link))]
pub fn link_holds<A: Allocator + Copy>(alloc: A, lists: &Lists<'_, A>) -> Result<bool, Memory>
    ensures { IfOk result (λ holds. holds ≡ link lists.now) }
{
    let items = lists.pending();
    for item in items {
        if !links(alloc, lists, item)? {
            return Ok(false);
        }
    }
    Ok(true)
}
