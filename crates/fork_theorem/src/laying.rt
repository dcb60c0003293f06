//! Laying out what a script's operation names: its changes, and the texts to be stored before it is declared.

use crate::players::Players;
use crate::task::{TableTask, Task, TaskAction};
use directory::Directory;
use itable::{Inode, Laid, LayError, lay_file};
use layout::{Digest, Memory, Text, User, digest};
use lms_sign::PrivateKey;
use std::alloc::Allocator;
use update_cert::{Action, Change, TableChange};

/// The changes of an operation, the texts that were laid out for it, and the keys that it names, each with its user.
#[derive(Drop)]
pub(crate) struct Work<A: Allocator> {
    pub(crate) changes: Vec<Change<A>, A>,
    pub(crate) laid: Vec<Vec<u8, A>, A>,
    pub(crate) keys: NamedKeys<A>,
}

/// Keys of users, in the order in which they are named.
pub(crate) type NamedKeys<A> = Vec<(User, PrivateKey<A>), A>;

/// Lays a file out, and gives the digest of its i-node.
fn lay<A: Allocator + Copy>(
    alloc: A,
    laid: &mut Vec<Vec<u8, A>, A>,
    file: &[u8],
) -> Result<Digest, LayError> {
    let Laid { inode, blocks } = lay_file(alloc, file)?;
    let digest = digest(&inode);
    laid.push(inode)?;
    for block in blocks {
        laid.push(block)?;
    }
    Ok(digest)
}

/// The digest of the i-node of the empty directory.
fn empty_directory<A: Allocator + Copy>(alloc: A) -> Result<Digest, Memory> {
    let directory = Directory::empty(alloc);
    let _entries = directory.entries();
    let text = directory.text(alloc)?;
    let inode = Inode::of_directory(alloc, &text)?;
    let text = inode.text(alloc)?;
    Ok(digest(&text))
}

/// What an action of a script is as a change's action.
fn action_of<A: Allocator + Copy>(
    alloc: A,
    laid: &mut Vec<Vec<u8, A>, A>,
    action: TaskAction<A>,
) -> Result<Action<A>, LayError> {
    match action {
        TaskAction::Make(bytes) => Ok(Action::Make(lay(alloc, laid, &bytes)?)),
        TaskAction::MakeDirectory => Ok(Action::Make(empty_directory(alloc)?)),
        TaskAction::Put(bytes) => Ok(Action::Put(lay(alloc, laid, &bytes)?)),
        TaskAction::Remove => Ok(Action::Remove),
        TaskAction::Link(entry) => Ok(Action::Link(entry)),
        TaskAction::Unlink(name) => Ok(Action::Unlink(name)),
    }
}

/// Whether a task names a further key of this user.
fn is_key_of<A: Allocator>(task: &Task<A>, user: User) -> bool {
    match task {
        Task::OfTable(TableTask::SetKey(of)) => *of == user,
        _ => false,
    }
}

/// Whether each user has as many further keys as the tasks name.
pub(crate) fn have_keys<A: Allocator + Copy>(
    players: &mut Players<A>,
    tasks: &[Task<A>],
) -> Result<bool, Memory> {
    for task in tasks {
        if let Task::OfTable(TableTask::SetKey(user)) = task {
            let wanted = tasks.iter().filter(|task| is_key_of(task, *user)).count();
            if wanted > players.keys_left(*user)? as usize {
                return Ok(false);
            }
        }
    }
    Ok(true)
}

/// How many of these keys are a user's.
fn count_of<A: Allocator>(keys: &NamedKeys<A>, user: User) -> u8 {
    let mut count: u8 = 0;
    for named in keys {
        if named.0 == user {
            count = count.saturating_add(1);
        }
    }
    count
}

/// Names the next key of a user, after those that are named already.
fn named_key<A: Allocator + Copy>(
    players: &mut Players<A>,
    keys: &mut NamedKeys<A>,
    user: User,
) -> Result<TableChange, Memory> {
    let key = players.next_key(user, count_of(keys, user))?;
    let change = TableChange::SetKey(user, key.public());
    keys.push((user, key))?;
    Ok(change)
}

/// What is done to the table of principals, as a change's.
fn table_change_of<A: Allocator + Copy>(
    players: &mut Players<A>,
    keys: &mut NamedKeys<A>,
    task: TableTask,
) -> Result<TableChange, Memory> {
    match task {
        TableTask::SetKey(user) => named_key(players, keys, user),
        TableTask::AddUser(user) => {
            let key = players.key_of(user)?;
            Ok(TableChange::AddUser(user, key))
        }
        TableTask::AddMember(group, user) => Ok(TableChange::AddMember(group, user)),
        TableTask::DropMember(group, user) => Ok(TableChange::DropMember(group, user)),
    }
}

/// The change that a task is, with what has to be laid out for it.
fn change_of<A: Allocator + Copy>(
    alloc: A,
    players: &mut Players<A>,
    laid: &mut Vec<Vec<u8, A>, A>,
    keys: &mut NamedKeys<A>,
    task: Task<A>,
) -> Result<Change<A>, LayError> {
    match task {
        Task::At(place, action) => {
            let action = action_of(alloc, laid, action)?;
            Ok(Change::new(place.principal, place.i_number, action))
        }
        Task::OfTable(task) => Ok(Change::of_table(table_change_of(players, keys, task)?)),
    }
}

/// The changes that a script's tasks are, in order, with what has to be laid out for them. A file can be too large.
pub(crate) fn work_of<A: Allocator + Copy>(
    alloc: A,
    players: &mut Players<A>,
    tasks: Vec<Task<A>, A>,
) -> Result<Work<A>, LayError> {
    let mut changes = Vec::new(alloc);
    let mut laid = Vec::new(alloc);
    let mut keys = Vec::new(alloc);
    for task in tasks {
        changes.push(change_of(alloc, players, &mut laid, &mut keys, task)?)?;
    }
    Ok(Work {
        changes,
        laid,
        keys,
    })
}
