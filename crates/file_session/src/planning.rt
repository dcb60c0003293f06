//! The changes of an operation, and the texts that are stored for it.

ghost use Rattle.std.specs.Prelude.{◌≡◌, ◌≤◌, ◌∷◌, [], ℕ, IfErr, IfOk, OnErr, Some, length, map, true};
ghost use Rattle.directory.specs.Name.{is_name};
ghost use Rattle.update_cert.specs.Change.{Change as AnyChange, of_table, table_action_of};
ghost use Rattle.update_cert.specs.World.{Content, File};
ghost use Rattle.client_verify.specs.Laid.{is_laid};
ghost use Rattle.commands.specs.Answers.{Refused};
ghost use Rattle.commands.specs.Asked.{Outcome, Tells, Writes, all_on_table, makes_named, outcome_of};
ghost use Rattle.update_cert.specs.declared.cert.TheConstants.{MOST_CHANGES};
ghost use Rattle.commands.specs.Names.{IsNamedCourse};
ghost use Rattle.file_session.specs.Declaring.{declared, texts_for};
ghost use Rattle.file_session.specs.Parts.{CanBegin, HasFew, IsChange, IsOf, IsPlanOf, IsSmall, bytes_of, content_of};
ghost use Rattle.file_session.specs.Parts.{links_and_unlinks, makes_at, puts_at, unlinks_and_removes};

use crate::stop::Stop;
use crate::texts::{New, Prepared, at, link, prepare, unlink};
use commands::{Answer, Course, Refusal};
use directory::Target;
use layout::{INumber, Memory};
use std::alloc::Allocator;
use update_cert::{Action, Change, TableChange};

/// The changes of an operation, and the texts that are stored for it.
#[derive(Drop)]
pub(crate) struct Operation<A: Allocator> {
    /// The changes.
    pub(crate) changes: Vec<Change<A>, A>,
    /// The texts.
    pub(crate) texts: Vec<Vec<u8, A>, A>,
}

/// What a command comes to.
#[derive(Drop)]
pub(crate) enum Plan<A: Allocator> {
    /// An answer at once.
    Tells(Answer<A>),
    /// An operation.
    Writes(Operation<A>),
}

/// A refusal.
pub(crate) fn refused<A: Allocator>(why: Refusal) -> Plan<A>
    ensures plan { IsPlanOf (Tells (Refused why)) result }
    ensures can_begin { CanBegin result }
{
    Plan::Tells(Answer::Refused(why))
}

/// An operation of this change, for which nothing is stored.
fn one<A: Allocator + Copy>(alloc: A, change: Change<A>) -> Result<Plan<A>, Memory>
    requires { is_laid [] change.action ≡ true }
    ensures can_begin { IfOk result CanBegin }
    ensures plan { (wanted : AnyChange Content) → declared wanted ≡ change → texts_for wanted.action ≡ []
        → IfOk result (IsPlanOf (Writes (wanted ∷ []))) }
{
    let mut changes = Vec::new(alloc);
    changes.push(change)?;
    Ok(Plan::Writes(Operation {
        changes,
        texts: Vec::new(alloc),
    }))
}

/// An operation of this change of the table of principals.
pub(crate) fn plan_of_table<A: Allocator + Copy>(
    alloc: A,
    change: TableChange,
) -> Result<Plan<A>, Memory>
    ensures can_begin { IfOk result CanBegin }
    ensures plan { (wanted : AnyChange Content) → declared wanted ≡ of_table (table_action_of change)
        → texts_for wanted.action ≡ [] → IfOk result (IsPlanOf (Writes (wanted ∷ []))) }
{
    one(alloc, Change::of_table(change))
}

/// These changes of the table of principals, in memory of their own.
fn changes_of_table<A: Allocator + Copy>(
    alloc: A,
    changes: &[TableChange],
) -> Result<Vec<Change<A>, A>, Memory>
    ensures { IfOk result (λ all. all.items ≡ map (λ c. of_table (table_action_of c)) changes.now) }
{
    let mut all = Vec::new(alloc);
    for change in changes {
        all.push(Change::of_table(*change))?;
    }
    Ok(all)
}

/// An operation of these changes of the table of principals.
pub(crate) fn plan_of_all<A: Allocator + Copy>(
    alloc: A,
    changes: &[TableChange],
) -> Result<Plan<A>, Memory>
    requires { length changes.now ≤ MOST_CHANGES }
    ensures can_begin { IfOk result CanBegin }
    ensures plan { IfOk result (IsPlanOf (Writes (all_on_table changes.now))) }
{
    let all = changes_of_table(alloc, changes)?;
    Ok(Plan::Writes(Operation {
        changes: all,
        texts: Vec::new(alloc),
    }))
}

/// What is put in the place of a file.
fn put<A: Allocator + Copy>(alloc: A, bytes: &[u8], target: Target) -> Result<Plan<A>, Memory>
    requires { IsSmall bytes.now }
    ensures plan { IfOk result (IsPlanOf (puts_at target (File bytes.now))) }
    ensures can_begin { IfOk result CanBegin }
{
    let Prepared { inode, texts } = prepare(alloc, New::File(bytes))?;
    let mut changes = Vec::new(alloc);
    changes.push(at(target, Action::Put(inode)))?;
    Ok(Plan::Writes(Operation { changes, texts }))
}

/// What is made at an i-number, without a name.
fn make<A: Allocator + Copy>(alloc: A, new: New<'_>, target: Target) -> Result<Plan<A>, Memory>
    requires { IsSmall (bytes_of new) }
    ensures plan { IfOk result (IsPlanOf (makes_at target (content_of new.entry))) }
    ensures can_begin { IfOk result CanBegin }
{
    let Prepared { inode, texts } = prepare(alloc, new)?;
    let mut changes = Vec::new(alloc);
    changes.push(at(target, Action::Make(inode)))?;
    Ok(Plan::Writes(Operation { changes, texts }))
}

/// What is made at an i-number of the directory's principal, and linked there.
fn make_named<A: Allocator + Copy>(
    alloc: A,
    new: New<'_>,
    directory: Target,
    name: &str,
    i_number: INumber,
) -> Result<Plan<A>, Memory>
    requires small { IsSmall (bytes_of new) }
    requires name { is_name name.now ≡ true }
    ensures plan { IfOk result (IsPlanOf (makes_named directory name.now (content_of new.entry) (Some i_number))) }
    ensures can_begin { IfOk result CanBegin }
{
    let Prepared { inode, texts } = prepare(alloc, new)?;
    let target = Target {
        principal: directory.principal,
        i_number,
    };
    let mut changes = Vec::new(alloc);
    changes.push(at(target, Action::Make(inode)))?;
    changes.push(link(alloc, directory, name, target)?)?;
    Ok(Plan::Writes(Operation { changes, texts }))
}

/// What a name stands for is taken away with it.
fn unlink_and_remove<A: Allocator + Copy>(
    alloc: A,
    directory: Target,
    name: &str,
    target: Target,
) -> Result<Plan<A>, Memory>
    requires { is_name name.now ≡ true }
    ensures plan { IfOk result (IsPlanOf (unlinks_and_removes directory name.now target)) }
    ensures can_begin { IfOk result CanBegin }
{
    let mut changes = Vec::new(alloc);
    changes.push(unlink(alloc, directory, name)?)?;
    changes.push(at(target, Action::Remove))?;
    Ok(Plan::Writes(Operation {
        changes,
        texts: Vec::new(alloc),
    }))
}

/// A directory gets a name for a target, and another name is taken from its directory.
fn link_and_unlink<A: Allocator + Copy>(
    alloc: A,
    to: Target,
    to_name: &str,
    target: Target,
    directory: Target,
    name: &str,
) -> Result<Plan<A>, Memory>
    requires to_name { is_name to_name.now ≡ true }
    requires name { is_name name.now ≡ true }
    ensures plan { IfOk result (IsPlanOf (links_and_unlinks to to_name.now target directory name.now)) }
    ensures can_begin { IfOk result CanBegin }
{
    let mut changes = Vec::new(alloc);
    changes.push(link(alloc, to, to_name, target)?)?;
    changes.push(unlink(alloc, directory, name)?)?;
    Ok(Plan::Writes(Operation {
        changes,
        texts: Vec::new(alloc),
    }))
}

/// What a course comes to, with this as what is put or made.
pub(crate) fn plan_of<A: Allocator + Copy>(
    alloc: A,
    new: New<'_>,
    course: &Course<'_>,
) -> Result<Plan<A>, Memory>
    requires small { IsSmall (bytes_of new) }
    requires named { IsNamedCourse course.now }
    requires file { IsOf new course.now }
    ensures plan { IfOk result (IsPlanOf (outcome_of (content_of new.entry) course.now)) }
    ensures can_begin { IfOk result CanBegin }
    ensures changes { OnErr result (IsChange (outcome_of (content_of new.entry) course.now)) }
{
    match course {
        Course::Refuse(why) => Ok(refused(*why)),
        Course::Put(target) => match new {
            New::File(bytes) => put(alloc, bytes, *target),
            New::Directory => unreachable!(),
        },
        Course::Make(target) => make(alloc, new, *target),
        Course::MakeNamed {
            directory,
            name,
            i_number,
        } => make_named(alloc, new, *directory, name, *i_number),
        Course::Remove(target) => one(alloc, at(*target, Action::Remove)),
        Course::Unlink { directory, name } => {
            let change = unlink(alloc, *directory, name)?;
            one(alloc, change)
        }
        Course::UnlinkAndRemove {
            directory,
            name,
            target,
        } => unlink_and_remove(alloc, *directory, name, *target),
        Course::Link {
            directory,
            name,
            target,
        } => {
            let change = link(alloc, *directory, name, *target)?;
            one(alloc, change)
        }
        Course::LinkAndUnlink {
            to,
            to_name,
            target,
            directory,
            name,
        } => link_and_unlink(alloc, *to, to_name, *target, *directory, name),
    }
}

/// What is planned, if memory doesn't run out.
pub(crate) fn or_stop<A: Allocator>(planned: Result<Plan<A>, Memory>) -> Result<Plan<A>, Stop>
    ensures plan { (outcome : Outcome) → IfOk planned (IsPlanOf outcome) → IfOk result (IsPlanOf outcome) }
    ensures can_begin { IfOk planned CanBegin → IfOk result CanBegin }
    ensures changes { (outcome : Outcome) → OnErr planned (IsChange outcome) → OnErr result (IsChange outcome) }
    ensures few { (n : ℕ) → IfOk planned (HasFew n) → IfOk result (HasFew n) }
    ensures memory { IfErr result (λ e. e ≡ Stop.Memory) }
{
    match planned {
        Ok(plan) => Ok(plan),
        Err(Memory) => Err(Stop::Memory),
    }
}
