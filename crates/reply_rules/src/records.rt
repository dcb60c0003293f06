//! The rule on group records.

ghost use Rattle.std.specs.Prelude.{◌≡◌, ◌==◌, ◌&&◌, ◌+◌, IfOk, not, nat_le, nat_lt};
ghost use Rattle.std.specs.List.{list_all, list_any};
ghost use Rattle.version_order.specs.Vector.{version_of};
ghost use Rattle.pending_list.specs.Groups.{groups, raises};
ghost use Rattle.reply_rules.specs.Rules.{version_within, table_within, of_member, record_holds, differ, records_once};
ghost use Rattle.reply_rules.specs.Rules.{newest_in, newest, versions_beyond, each_once, has_all, group_complete};
ghost use Rattle.reply_rules.specs.Rules.{group_records};

use crate::reply_lists::Lists;
use layout::{Group, Memory, Principal, User};
use pending_list::{PendingItem, Signed, raises};
use principals::Table;
use std::alloc::Allocator;
use version_order::{GroupRecord, Plan, Structure};

/// Whether the record's version is at most its structure's version of the group.
fn version_within<A: Allocator>(plan: &Plan<A>, row: &GroupRecord) -> bool
    ensures { result ≡ version_within plan.now row.now }
{
    row.version.get() <= plan.vector().version_of(Principal::from(row.group))
}

/// Whether its table version is at most its structure's version of user 0.
fn table_within<A: Allocator>(plan: &Plan<A>, row: &GroupRecord) -> bool
    ensures { result ≡ table_within plan.now row.now }
{
    row.table <= plan.vector().version_of(Principal::from(User::superuser()))
}

/// Whether its structure's user is a member of the group at that table version.
fn of_member<A: Allocator>(table: &Table<A>, plan: &Plan<A>, row: &GroupRecord) -> bool
    ensures { result ≡ of_member table.now plan.now row.now }
{
    table.is_member(row.group, plan.user(), row.table)
}

fn record_holds<A: Allocator>(table: &Table<A>, plan: &Plan<A>, row: &GroupRecord) -> bool
    ensures { result ≡ record_holds table.now plan.now row.now }
{
    version_within(plan, row) && table_within(plan, row) && of_member(table, plan, row)
}

/// Whether each of these records of one structure holds.
fn each_holds<A: Allocator>(table: &Table<A>, plan: &Plan<A>, records: &[GroupRecord]) -> bool
    ensures { result ≡ list_all (record_holds table.now plan.now) records.now }
{
    records.iter().all(|row| record_holds(table, plan, row))
}

/// Whether each record of these structures does.
fn records_hold<A: Allocator>(table: &Table<A>, structures: &[Signed<Structure<A>>]) -> bool
    ensures { result ≡ list_all (λ z. list_all (record_holds table.now z.value.plan) z.value.groups) structures.now }
{
    for structure in structures {
        let records = structure.value.groups().as_slice();
        if !each_holds(table, structure.value.plan(), records) {
            return false;
        }
    }
    true
}

/// Whether none of these records is of the record's group and version.
fn is_apart(row: &GroupRecord, records: &[GroupRecord]) -> bool
    ensures { result ≡ list_all (λ s. not ((row.now.group == s.group) && (row.now.version == s.version))) records.now }
{
    records.iter().all(|other| !(row.group == other.group && row.version == other.version))
}

/// Whether no record of the one structure is of a group and a version of the other's.
fn differ<A: Allocator>(y: &Signed<Structure<A>>, z: &Signed<Structure<A>>) -> bool
    ensures { result ≡ differ y.now z.now }
{
    let others = z.value.groups().as_slice();
    y.value
        .groups()
        .as_slice()
        .iter()
        .all(|row| is_apart(row, others))
}

/// Whether that holds of the structure and each of the others.
fn differs_from<A: Allocator>(z: &Signed<Structure<A>>, others: &[Signed<Structure<A>>]) -> bool
    ensures { result ≡ list_all (differ z.now) others.now }
{
    for other in others {
        if !differ(z, other) {
            return false;
        }
    }
    true
}

/// Whether no two structures have records of one group with one version.
fn records_once<A: Allocator>(structures: &[Signed<Structure<A>>]) -> bool
    ensures { result ≡ records_once structures.now }
{
    for (i, structure) in structures.iter().enumerate() {
        if !differs_from(structure, &structures[i + 1..]) {
            return false;
        }
    }
    true
}

/// The greatest version of a group in these records, 0 without one.
fn newest_in(records: &[GroupRecord], group: Group) -> u32
    ensures { result ≡ newest_in group records.now }
{
    let mut best = 0;
    for row in records {
        if row.group == group && best < row.version.get() {
            best = row.version.get();
        }
    }
    best
}

/// The greatest version of a group in a record, 0 without one.
fn newest<A: Allocator>(structures: &[Signed<Structure<A>>], group: Group) -> u32
    ensures { result ≡ newest group structures.now }
{
    let mut best = 0;
    for structure in structures {
        let version = newest_in(structure.value.groups().as_slice(), group);
        if best < version {
            best = version;
        }
    }
    best
}

/// Whether the item raises the group, and has a version of it beyond this one.
fn is_beyond<A: Allocator>(
    table: &Table<A>,
    group: Group,
    newest: u32,
    item: &PendingItem<A>,
) -> bool
    ensures { result ≡ (raises table.now group item.now && nat_lt newest (version_of group item.now.plan.vector)) }
{
    raises(table, group, item) && newest < item.plan().vector().version_of(Principal::from(group))
}

/// The versions of a group beyond this one, of those of these pending items that raise it.
fn versions_beyond<A: Allocator + Copy>(
    alloc: A,
    table: &Table<A>,
    group: Group,
    newest: u32,
    items: &[PendingItem<A>],
) -> Result<Vec<u32, A>, Memory>
    ensures { IfOk result (λ versions. versions.items ≡ versions_beyond table.now group newest items.now) }
{
    let mut versions = Vec::new(alloc);
    for item in items {
        if is_beyond(table, group, newest, item) {
            versions.push(item.plan().vector().version_of(Principal::from(group)))?;
        }
    }
    Ok(versions)
}

/// Whether none of these numbers is this one.
fn is_new(number: u32, numbers: &[u32]) -> bool
    ensures { result ≡ list_all (λ m. not (number == m)) numbers.now }
{
    numbers.iter().all(|other| number != *other)
}

/// Whether no number comes twice.
fn each_once(numbers: &[u32]) -> bool
    ensures { result ≡ each_once numbers.now }
{
    for (i, number) in numbers.iter().enumerate() {
        if !is_new(*number, &numbers[i + 1..]) {
            return false;
        }
    }
    true
}

/// Whether none of these numbers is greater than this one.
fn are_within(numbers: &[u32], most: u32) -> bool
    ensures { result ≡ list_all (λ v. nat_le v most) numbers.now }
{
    numbers.iter().all(|number| *number <= most)
}

/// Whether the number is one of these.
fn is_there(numbers: &[u32], number: u32) -> bool
    ensures { result ≡ list_any (λ k. k == number) numbers.now }
{
    numbers.iter().any(|other| *other == number)
}

/// Whether each number that is greater than the one and at most the other is one of these. It is told from above, so
/// that it ends at the first that isn't.
fn has_all(least: u32, most: u32, numbers: &[u32]) -> bool
    ensures { result ≡ has_all (least + 1) most numbers.now }
{
    let mut number = most;
    while least < number {
        if !is_there(numbers, number) {
            return false;
        }
        number -= 1;
    }
    true
}

/// Whether these versions are each number beyond the one up to the other, once.
fn are_complete(versions: &[u32], newest: u32, own: u32) -> bool
    ensures { result ≡ (each_once versions.now
        && (list_all (λ v. nat_le v own) versions.now && has_all (newest + 1) own versions.now)) }
{
    each_once(versions) && are_within(versions, own) && has_all(newest, own, versions)
}

/// Whether the pending items that raise the group have each version beyond its newest record up to the own plan's,
/// once.
fn group_complete<A: Allocator + Copy>(
    alloc: A,
    table: &Table<A>,
    lists: &Lists<'_, A>,
    group: Group,
) -> Result<bool, Memory>
    ensures { IfOk result (λ complete. complete ≡ group_complete table.now lists.now group) }
{
    let newest = newest(lists.structures(), group);
    let own = lists
        .own()
        .plan()
        .vector()
        .version_of(Principal::from(group));
    let versions = versions_beyond(alloc, table, group, newest, lists.pending())?;
    Ok(are_complete(&versions, newest, own))
}

/// Whether that holds of each group.
fn groups_complete<A: Allocator + Copy>(
    alloc: A,
    table: &Table<A>,
    lists: &Lists<'_, A>,
) -> Result<bool, Memory>
    ensures { IfOk result (λ complete. complete ≡ list_all (group_complete table.now lists.now) groups) }
{
    for n in 0..32 {
        let Some(group) = Group::new(64 + n) else {
            unreachable!()
        };
        if !group_complete(alloc, table, lists, group)? {
            return Ok(false);
        }
    }
    Ok(true)
}

/// Whether the rule on group records holds.
#[tactic(auto, unfolding(crate::specs::Rules::group_records))]
pub fn group_records_hold<A: Allocator + Copy>(
    alloc: A,
    table: &Table<A>,
    lists: &Lists<'_, A>,
) -> Result<bool, Memory>
    ensures { IfOk result (λ holds. holds ≡ group_records table.now lists.now) }
{
    let structures = lists.structures();
    Ok(
        records_hold(table, structures)
            && records_once(structures)
            && groups_complete(alloc, table, lists)?,
    )
}
