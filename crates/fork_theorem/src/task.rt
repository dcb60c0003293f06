//! What a script has a user do.

ghost use Rattle.std.specs.Prelude.{◌≡◌, ◌≤◌, IfOk, length, true};
ghost use Rattle.directory.specs.Name.{is_name};

use crate::words::{Unread, bytes_of, group, i_number, next, principal, user};
use directory::{Entry, Name, Target, name_text};
use layout::{Group, User, let_go};
use std::alloc::Allocator;
use std::str::Split;
use update_cert::MOST_CHANGES;

/// What is done at an i-number.
#[derive(Drop)]
pub(crate) enum TaskAction<A: Allocator> {
    /// `make P I file TEXT`.
    Make(Vec<u8, A>),
    /// `make P I dir`.
    MakeDirectory,
    /// `put P I TEXT`.
    Put(Vec<u8, A>),
    /// `remove P I`.
    Remove,
    /// `link P D NAME TP TI`.
    Link(Entry<A>),
    /// `unlink P D NAME`.
    Unlink(Name<A>),
}

/// What is done to the table of principals.
#[derive(Clone, Copy)]
pub(crate) enum TableTask {
    /// `adduser V`: the key is the first one of V's client.
    AddUser(User),
    /// `addmember G V`.
    AddMember(Group, User),
    /// `dropmember G V`.
    DropMember(Group, User),
    /// `setkey V`: the key is V's next one, which V's client has from then on, but for user 0's.
    SetKey(User),
}

/// A change of a script.
#[derive(Drop)]
pub(crate) enum Task<A: Allocator> {
    /// This is done at an i-number of a principal.
    At(Target, TaskAction<A>),
    /// This is done to the table of principals.
    OfTable(TableTask),
}

/// The file or directory that the next two words name.
fn target(words: &mut Split<'_, char>) -> Result<Target, Unread> {
    let principal = principal(words)?;
    let i_number = i_number(words)?;
    Ok(Target {
        principal,
        i_number,
    })
}

/// What is made: a file or the empty directory.
fn made<A: Allocator>(alloc: A, words: &mut Split<'_, char>) -> Result<TaskAction<A>, Unread> {
    match next(words)? {
        "file" => Ok(TaskAction::Make(bytes_of(alloc, next(words)?)?)),
        "dir" => Ok(TaskAction::MakeDirectory),
        _ => Err(Unread::NoCommand),
    }
}

/// The new bytes of a file.
fn put<A: Allocator>(alloc: A, words: &mut Split<'_, char>) -> Result<TaskAction<A>, Unread> {
    Ok(TaskAction::Put(bytes_of(alloc, next(words)?)?))
}

/// The name that the next word is.
fn name<'a>(words: &mut Split<'a, char>) -> Result<&'a str, Unread>
    ensures { IfOk result (λ name. is_name name.now ≡ true) }
{
    match name_text(next(words)?.as_bytes()) {
        Some(text) => Ok(text),
        None => Err(Unread::NoCommand),
    }
}

/// A new entry: its name, and what it stands for.
fn linked<A: Allocator>(alloc: A, words: &mut Split<'_, char>) -> Result<TaskAction<A>, Unread> {
    let name = name(words)?;
    let target = target(words)?;
    Ok(TaskAction::Link(Entry::new(alloc, name, target)?))
}

/// The name of an entry that is taken out.
fn unlinked<A: Allocator>(alloc: A, words: &mut Split<'_, char>) -> Result<TaskAction<A>, Unread> {
    let name = name(words)?;
    Ok(TaskAction::Unlink(Name::new(alloc, name)?))
}

/// What is done at an i-number, by this verb.
fn action<A: Allocator>(
    alloc: A,
    verb: &str,
    words: &mut Split<'_, char>,
) -> Result<TaskAction<A>, Unread> {
    match verb {
        "make" => made(alloc, words),
        "put" => put(alloc, words),
        "remove" => Ok(TaskAction::Remove),
        "link" => linked(alloc, words),
        "unlink" => unlinked(alloc, words),
        _ => Err(Unread::NoCommand),
    }
}

/// What is done at an i-number of a principal, by this verb.
fn task_at<A: Allocator>(
    alloc: A,
    verb: &str,
    words: &mut Split<'_, char>,
) -> Result<Task<A>, Unread> {
    let place = target(words)?;
    Ok(Task::At(place, action(alloc, verb, words)?))
}

/// A group and a user.
fn membership(words: &mut Split<'_, char>) -> Result<(Group, User), Unread> {
    let group = group(words)?;
    Ok((group, user(words)?))
}

/// What is done to the table of principals by this verb, if it is one of those.
fn table_task(verb: &str, words: &mut Split<'_, char>) -> Result<Option<TableTask>, Unread> {
    match verb {
        "adduser" => Ok(Some(TableTask::AddUser(user(words)?))),
        "setkey" => Ok(Some(TableTask::SetKey(user(words)?))),
        "addmember" => {
            let (group, user) = membership(words)?;
            Ok(Some(TableTask::AddMember(group, user)))
        }
        "dropmember" => {
            let (group, user) = membership(words)?;
            Ok(Some(TableTask::DropMember(group, user)))
        }
        _ => Ok(None),
    }
}

/// What a change of a script says, up to its last word.
fn task_in<A: Allocator>(alloc: A, words: &mut Split<'_, char>) -> Result<Task<A>, Unread> {
    let verb = next(words)?;
    match table_task(verb, words)? {
        Some(task) => Ok(Task::OfTable(task)),
        None => task_at(alloc, verb, words),
    }
}

/// What a change of a script says.
fn task_of<A: Allocator>(alloc: A, text: &str) -> Result<Task<A>, Unread> {
    let mut words = text.split(' ');
    let task = task_in(alloc, &mut words)?;
    if words.next().is_some() {
        let_go(task);
        return Err(Unread::NoCommand);
    }
    Ok(task)
}

/// What a list of changes says, which are parted by `; `: at most as many as an operation has.
pub(crate) fn tasks_of<A: Allocator + Copy>(
    alloc: A,
    text: &str,
) -> Result<Vec<Task<A>, A>, Unread> {
    let mut tasks = Vec::new(alloc);
    for part in text.split("; ") {
        if tasks.len() == MOST_CHANGES {
            return Err(Unread::NoCommand);
        }
        tasks.push(task_of(alloc, part)?)?;
    }
    Ok(tasks)
}
