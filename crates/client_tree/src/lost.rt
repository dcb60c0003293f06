//! The changes of the own operation that are lost.

ghost use Rattle.std.specs.Prelude.{◌≡◌, ◌≤◌, IfOk, length};
ghost use Rattle.std.specs.List.{list_any};
ghost use Rattle.client_tree.specs.Lost.{counts, is_kept, lost_from};
ghost use Rattle.update_cert.specs.declared.cert.TheConstants.{MOST_CHANGES};

use layout::{Memory, Principal};
use std::alloc::Allocator;
use std::marker::Model;
use update_cert::{Change, Voids};

/// The changes of a part's principal that have no effect.
#[derive(Drop)]
pub(crate) struct PartVoids<A: Allocator> {
    principal: Principal,
    voids: Voids<A>,
}

impl<A: Allocator> Model for PartVoids<A> {
    ghost use Rattle.client_tree.specs.Lost.{PartVoids};

    ghost Value = { PartVoids };

    ghost view = { λ v. record { principal = v.principal; numbers = v.voids } };
}

impl<A: Allocator> PartVoids<A> {
    /// These changes of this principal.
    pub(crate) fn new(principal: Principal, voids: Voids<A>) -> PartVoids<A>
        ensures { result ≡ record { principal = principal; numbers = voids } }
    {
        PartVoids { principal, voids }
    }

    /// Whether the change of this number is of the part's principal, and has effect.
    fn counts(&self, number: u8, change: &Change<A>) -> bool
        ensures { result ≡ counts number change.now self.now }
    {
        self.principal == change.principal() && !self.voids.numbers().contains(&number)
    }
}

/// Whether the change of this number has effect in one of these parts.
fn has_effect<A: Allocator>(number: u8, change: &Change<A>, parts: &[PartVoids<A>]) -> bool
    ensures { result ≡ list_any (counts number change.now) parts.now }
{
    parts.iter().any(|part| part.counts(number, change))
}

/// Whether the change of this number has effect in one of these parts, and isn't one of the table's that has none.
fn is_kept<A: Allocator>(
    number: u8,
    change: &Change<A>,
    parts: &[PartVoids<A>],
    table: &[u8],
) -> bool
    ensures { result ≡ is_kept number parts.now table.now change.now }
{
    has_effect(number, change, parts) && !table.contains(&number)
}

/// The numbers, from 1 and ascending, of the changes that have effect in none of these parts, or are of the table of
/// principals and have none there, as these numbers say.
pub(crate) fn lost_among<A: Allocator + Copy>(
    alloc: A,
    changes: &[Change<A>],
    parts: &[PartVoids<A>],
    table: &[u8],
) -> Result<Vec<u8, A>, Memory>
    requires few { length changes.now ≤ MOST_CHANGES }
    ensures { IfOk result (λ lost. lost.items ≡ lost_from 1 parts.now table.now changes.now) }
{
    let mut lost = Vec::new(alloc);
    for (place, change) in changes.iter().enumerate() {
        let number = place as u8 + 1;
        if !is_kept(number, change, parts, table) {
            lost.push(number)?;
        }
    }
    Ok(lost)
}
