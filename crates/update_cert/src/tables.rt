//! The changes of a certificate, applied to the table of principals.

ghost use Rattle.std.specs.Prelude.{◌≡◌, false, Some, IfOk, IsOk, OnOk, OnErr, IsNone, IfSome, if◌then◌else◌};
ghost use Rattle.std.specs.List.{list_any};
ghost use Rattle.principals.specs.TableText.{table as table_format, NoneAfter};
ghost use Rattle.update_cert.specs.Change.{table_action_of};
ghost use Rattle.update_cert.specs.Cert.{cert as cert_format};
ghost use Rattle.update_cert.specs.World.{Actor, Tree, Principals, is_of_table};
ghost use Rattle.update_cert.specs.Reading.{Reading, after_read, void_of_table_read};
ghost use Rattle.update_cert.specs.Tables.{alters, table_becomes, table_after_change, table_after, may_change};
ghost use Rattle.update_cert.specs.TableVoids.{ToldEffect, is_void_on, table_voids};

use crate::cert::Cert;
use crate::change::{AnyAction, Change, TableChange};
use crate::voids::Voids;
use layout::{Memory, Principal, User, Version};
use principals::{Table, TableError};
use std::alloc::Allocator;

/// Whether a change of the table had effect, unless memory ran out.
fn had_effect(told: Result<(), TableError>) -> Result<bool, Memory>
    ensures { ToldEffect told result }
{
    match told {
        Ok(()) => Ok(true),
        Err(error) => match error {
            TableError::Memory => Err(Memory),
            _ => Ok(false),
        },
    }
}

/// Does a change to the table, in user 0's operation of this number, and answers whether it had effect.
fn alter<A: Allocator + Copy>(
    table: &mut Table<A>,
    number: Version,
    change: &TableChange,
) -> Result<bool, Memory>
    ensures effect { IfOk result (λ effect. effect ≡ alters number (table_action_of change.now) table.old) }
    ensures table { OnOk result (table.new
        ≡ (if alters number (table_action_of change.now) table.old
        then table_becomes number (table_action_of change.now) table.old else table.old)) }
    ensures fits { table_format.Fits table.old → NoneAfter number table.old
        → OnOk result (table_format.Fits table.new) }
    ensures err { OnErr result (table.new ≡ table.old) }
{
    match change {
        TableChange::AddUser(user, key) => had_effect(table.add_user(number, *user, *key)),
        TableChange::AddMember(group, user) => {
            let _range = group.get();
            had_effect(table.add_member(number, Principal::from(*group), *user))
        }
        TableChange::DropMember(group, user) => Ok(table.end_member(number, *group, *user)),
        TableChange::SetKey(user, key) => had_effect(table.set_key(number, *user, *key)),
    }
}

/// Applies a change in a user's operation of this number, if it is one of the table, and answers whether it is such a
/// one and has no effect.
fn apply_change<A: Allocator + Copy>(
    table: &mut Table<A>,
    user: User,
    number: Version,
    change: &Change<A>,
) -> Result<bool, Memory>
    ensures void { IfOk result (λ is_void. is_void ≡ is_void_on user number change.now table.old) }
    ensures table { OnOk result (table.new ≡ table_after_change user number change.now table.old) }
    ensures fits { table_format.Fits table.old → NoneAfter number table.old
        → OnOk result (table_format.Fits table.new) }
    ensures err { OnErr result (table.new ≡ table.old) }
{
    match change.action() {
        AnyAction::At(_) => Ok(false),
        AnyAction::OfTable(_) if user != User::superuser() => Ok(true),
        AnyAction::OfTable(change) => {
            let effect = alter(table, number, change)?;
            Ok(!effect)
        }
    }
}

/// Applies the changes of a certificate in turn, and gives the numbers of those of the table that have no effect. Where
/// memory runs out the table may have some of them.
fn apply_each<A: Allocator + Copy>(
    alloc: A,
    table: &mut Table<A>,
    cert: &Cert<A>,
) -> Result<Vec<u8, A>, Memory>
    ensures table { OnOk result (table.new ≡ table_after cert.now.user cert.now.number cert.now.changes table.old) }
    ensures voids { IfOk result (λ voids. voids.items
        ≡ table_voids 1 cert.now.user cert.now.number cert.now.changes table.old) }
    ensures fits { table_format.Fits table.old → NoneAfter cert.now.number table.old
        → OnOk result (table_format.Fits table.new) }
    ensures stays { may_change cert.now ≡ false → table.new ≡ table.old }
{
    let user = cert.user();
    let number = cert.number();
    let mut numbers = Vec::new(alloc);
    for (place, change) in cert.changes().iter().enumerate() {
        if apply_change(table, user, number, change)? {
            numbers.push(place as u8 + 1)?;
        }
    }
    Ok(numbers)
}

/// Whether a change is one of the table.
fn is_of_table<A: Allocator>(change: &Change<A>) -> bool
    ensures { result ≡ is_of_table change.now }
{
    match change.action() {
        AnyAction::At(_) => false,
        AnyAction::OfTable(_) => true,
    }
}

/// Whether one of these changes is one of the table.
fn any_of_table<A: Allocator>(changes: &[Change<A>]) -> bool
    ensures { result ≡ list_any is_of_table changes.now }
{
    changes.iter().any(|change| is_of_table(change))
}

/// Whether an operation may change the table: it is user 0's, and has a change of it.
fn may_change<A: Allocator>(cert: &Cert<A>) -> bool
    ensures same { result ≡ may_change cert.now }
    ensures fits { cert_format.Fits cert.now }
{
    cert.user() == User::superuser() && any_of_table(cert.changes())
}

/// What a certificate's changes make of the table of principals: those of parts are passed over. Where memory runs out
/// the table is as it was; one that may change is copied first.
pub fn apply_table<A: Allocator + Copy>(
    alloc: A,
    table: &mut Table<A>,
    cert: &Cert<A>,
) -> Result<Voids<A>, Memory>
    // In each tree in which the table stands at its place, whatever stands for digests.
    ensures table { (reads : Reading) (tree : Tree) (actor : Actor)
        → tree 0 1 ≡ Some (Principals table.old) → actor.user ≡ cert.now.user → actor.number ≡ cert.now.number
        → OnOk result (after_read reads actor cert.now.changes tree 0 1 ≡ Some (Principals table.new)) }
    ensures voids { (reads : Reading) (tree : Tree) (actor : Actor)
        → tree 0 1 ≡ Some (Principals table.old) → actor.user ≡ cert.now.user → actor.number ≡ cert.now.number
        → IfOk result (λ voids. voids ≡ void_of_table_read reads actor cert.now.changes tree) }
    // The same, said of the table alone.
    ensures after { OnOk result (table.new ≡ table_after cert.now.user cert.now.number cert.now.changes table.old) }
    // A table that has a text has one afterwards, if no row begins later.
    ensures fits { table_format.Fits table.old → NoneAfter cert.now.number table.old
        → OnOk result (table_format.Fits table.new) }
    ensures err { OnErr result (table.new ≡ table.old) }
{
    if !may_change(cert) {
        let numbers = apply_each(alloc, table, cert)?;
        return Ok(Voids::of(numbers));
    }
    let mut new = table.copy(alloc)?;
    let numbers = apply_each(alloc, &mut new, cert)?;
    *table = new;
    Ok(Voids::of(numbers))
}

/// The table after an operation, where it may change it. None where the operation can't: the table is as it was.
pub fn table_after<A: Allocator + Copy>(
    alloc: A,
    table: &Table<A>,
    cert: &Cert<A>,
) -> Result<Option<Table<A>>, Memory>
    ensures changed { IfOk result (λ after. IfSome after
        (λ new. new ≡ table_after cert.now.user cert.now.number cert.now.changes table.now)) }
    ensures same { IfOk result (λ after. IsNone after
        → table_after cert.now.user cert.now.number cert.now.changes table.now ≡ table.now) }
    // An operation that can't change it takes no memory.
    ensures no_memory { may_change cert.now ≡ false → IsOk result }
{
    if !may_change(cert) {
        return Ok(None);
    }
    let mut new = table.copy(alloc)?;
    let _voids = apply_each(alloc, &mut new, cert)?;
    Ok(Some(new))
}
