//! The groups that an operation raises.

ghost use Rattle.std.specs.Prelude.{◌≡◌, IfOk};
ghost use Rattle.std.specs.List.{list_any};
ghost use Rattle.pending_list.specs.Groups.{touches, raises_at, groups_at, table_version, raised_groups, raises};

use crate::reply::PendingItem;
use layout::{Group, Memory, Principal, User};
use principals::Table;
use std::alloc::Allocator;
use update_cert::{Cert, Change};
use version_order::Plan;

/// Whether one of these changes is of the group.
fn touch<A: Allocator>(changes: &[Change<A>], group: Group) -> bool
    ensures { result ≡ list_any (touches group) changes.now }
{
    let group = Principal::from(group);
    changes.iter().any(|change| change.principal() == group)
}

/// Whether a change of the certificate is of the group, and its user is a member at this version of the table.
fn raises_at<A: Allocator>(table: &Table<A>, version: u32, cert: &Cert<A>, group: Group) -> bool
    ensures { result ≡ raises_at table.now version cert.now group }
{
    touch(cert.changes(), group) && table.is_member(group, cert.user(), version)
}

/// User 0's number before the operation: where membership is judged.
pub fn table_version<A: Allocator>(plan: &Plan<A>) -> u32
    ensures { result ≡ table_version plan.now }
{
    let number = plan.vector().version_of(Principal::from(User::superuser()));
    if plan.user() == User::superuser() {
        number.saturating_sub(1)
    } else {
        number
    }
}

/// The groups that a certificate raises, ascending, where membership is judged at this version of the table. The error
/// is Memory.
pub fn groups_at<A: Allocator + Copy>(
    alloc: A,
    table: &Table<A>,
    version: u32,
    cert: &Cert<A>,
) -> Result<Vec<Group, A>, Memory>
    ensures { IfOk result (λ groups. groups.items ≡ groups_at table.now version cert.now) }
{
    let mut raised = Vec::new(alloc);
    for n in 0..32 {
        let Some(group) = Group::new(64 + n) else {
            unreachable!()
        };
        if raises_at(table, version, cert, group) {
            raised.push(group)?;
        }
    }
    Ok(raised)
}

/// The groups that a pending operation raises, ascending. The error is Memory.
pub fn raised_groups<A: Allocator + Copy>(
    alloc: A,
    table: &Table<A>,
    item: &PendingItem<A>,
) -> Result<Vec<Group, A>, Memory>
    ensures { IfOk result (λ groups. groups.items ≡ raised_groups table.now item.now) }
{
    groups_at(alloc, table, table_version(item.plan()), item.cert())
}

/// Whether the operation raises the group.
pub fn raises<A: Allocator>(table: &Table<A>, group: Group, item: &PendingItem<A>) -> bool
    ensures { result ≡ raises table.now group item.now }
{
    let _range = group.get();
    raises_at(table, table_version(item.plan()), item.cert(), group)
}
