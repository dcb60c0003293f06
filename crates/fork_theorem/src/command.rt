//! What a line of a script says.

use crate::task::{Task, tasks_of};
use crate::who::Who;
use crate::words::{ServerName, Unread, client, i_number, next, number, principal, server, user};
use hostile_server::Edit;
use layout::{INumber, Principal, User, let_go};
use std::alloc::Allocator;
use std::str::Split;

/// A command of a script.
#[derive(Drop)]
pub(crate) enum Command<A: Allocator> {
    /// `begin U` or `begin U CHANGES`: the contents are laid out and stored, and the client declares an operation.
    Begin(Who, Vec<Task<A>, A>),
    /// `update U X` or `update U X EDIT`: the certificate is sent, the reply edited and handed in with its blocks and,
    /// where it is accepted, the structure signed.
    Update(Who, ServerName, Option<Edit>),
    /// `commit U X`: the structure is sent.
    Commit(Who, ServerName),
    /// `restart U`: the client crashes, nothing unsynced is kept, and it is opened again.
    Restart(Who),
    /// `show U P I`: what stands there in the client's view.
    Show(Who, Principal, INumber),
    /// `steal V`: a second client has V's keys, and what V's client has released so far. Lines name it `V*`.
    Steal(User),
    /// `fork X Y`: Y becomes a copy of X.
    Fork(ServerName, ServerName),
    /// `invent X V W`: in X the plan of what V has pending gains an entry of W's committed operation.
    Invent(ServerName, User, User),
    /// `force X V`: X lists V's last signed structure, unchecked, and drops what V has pending.
    Force(ServerName, User),
}

/// `U` or `U CHANGES`.
fn begin_of<A: Allocator + Copy>(alloc: A, rest: &str) -> Result<Command<A>, Unread> {
    let (word, changes) = match rest.split_once(' ') {
        Some((word, changes)) => (word, Some(changes)),
        None => (rest, None),
    };
    let who = client(&mut word.split(' '))?;
    let tasks = match changes {
        Some(changes) => tasks_of(alloc, changes)?,
        None => Vec::new(alloc),
    };
    Ok(Command::Begin(who, tasks))
}

/// What is made of a reply, by this verb.
fn edit_of(verb: &str, words: &mut Split<'_, char>) -> Result<Edit, Unread> {
    match verb {
        "drop" => Ok(Edit::DropStructure(user(words)?)),
        "old" => {
            let user = user(words)?;
            Ok(Edit::OldStructure(user, number(words)?))
        }
        "hide" => Ok(Edit::HideItem(user(words)?)),
        "cut" => Ok(Edit::Cut(number(words)?)),
        "flip" => Ok(Edit::Flip(number(words)?)),
        _ => Err(Unread::NoCommand),
    }
}

/// `U X` or `U X EDIT`.
fn update_of<A: Allocator>(words: &mut Split<'_, char>) -> Result<Command<A>, Unread> {
    let who = client(words)?;
    let server = server(words)?;
    let edit = match words.next() {
        Some(verb) => Some(edit_of(verb, words)?),
        None => None,
    };
    Ok(Command::Update(who, server, edit))
}

/// The command of this name, up to its last word.
fn command_in<A: Allocator>(name: &str, words: &mut Split<'_, char>) -> Result<Command<A>, Unread> {
    match name {
        "update" => update_of(words),
        "commit" => Ok(Command::Commit(client(words)?, server(words)?)),
        "restart" => Ok(Command::Restart(client(words)?)),
        "show" => Ok(Command::Show(client(words)?, principal(words)?, i_number(words)?)),
        "steal" => Ok(Command::Steal(user(words)?)),
        "fork" => Ok(Command::Fork(server(words)?, server(words)?)),
        "invent" => Ok(Command::Invent(server(words)?, user(words)?, user(words)?)),
        "force" => Ok(Command::Force(server(words)?, user(words)?)),
        _ => Err(Unread::NoCommand),
    }
}

/// The command of this name and these words, of which none is left.
fn whole_command<A: Allocator>(name: &str, rest: &str) -> Result<Command<A>, Unread> {
    let mut words = rest.split(' ');
    let command = command_in(name, &mut words)?;
    if words.next().is_some() {
        let_go(command);
        return Err(Unread::NoCommand);
    }
    Ok(command)
}

/// The command of a line, whose words are parted by one blank.
pub(crate) fn command_of<A: Allocator + Copy>(alloc: A, line: &str) -> Result<Command<A>, Unread> {
    let Some((name, rest)) = line.split_once(' ') else {
        return Err(Unread::NoCommand);
    };
    if name == "begin" {
        begin_of(alloc, rest)
    } else {
        whole_command(name, rest)
    }
}
