//! Command lines: what their words ask for, and how a line is parted into words.

use crate::stop::Stop;
use crate::words::Words;
use crate::world::World;
use commands::Command;
use file_commands::{Line, LineError, NewFolder, Request, SplitError, Wanted, split_words};
use layout::{User, let_go};
use lms_sign::PublicKey;
use std::alloc::Global;

/// The words of a text.
fn words_of<'a>(alloc: Global, text: &'a str) -> Result<Vec<&'a str>, Stop> {
    let mut words = Vec::new(alloc);
    for word in text.split(' ') {
        words.push(word)?;
    }
    Ok(words)
}

/// Says words, with spaces between them.
fn say_words(world: &mut World, words: &[&str]) -> Result<(), Stop> {
    for (place, word) in words.iter().enumerate() {
        if place > 0 {
            world.say(" ")?;
        }
        world.say(word)?;
    }
    Ok(())
}

/// Says a command about a user and a key.
fn say_key(world: &mut World, word: &str, user: User, key: &PublicKey) -> Result<(), Stop> {
    world.show(format_args!("{word} {} ", user.get()))?;
    world.say_digits(key.as_bytes())
}

/// Says a command that changes the table of principals.
fn say_change(world: &mut World, command: &Command<'_>) -> Result<(), Stop> {
    match command {
        Command::AddUser { user, key } => say_key(world, "adduser", *user, key),
        Command::SetKey { user, key } => say_key(world, "setkey", *user, key),
        Command::AddMember { group, user } => {
            let (group, user) = (group.get(), user.get());
            world.show(format_args!("addmember {group} {user}"))
        }
        Command::DropMember { group, user } => {
            let (group, user) = (group.get(), user.get());
            world.show(format_args!("dropmember {group} {user}"))
        }
        _ => world.say("another command"),
    }
}

/// Says a command.
fn say_command(world: &mut World, command: &Command<'_>) -> Result<(), Stop> {
    match command {
        Command::Ls(path) => say_words(world, &["ls", path]),
        Command::Details(path) => say_words(world, &["details", path]),
        Command::Cat(path) => say_words(world, &["cat", path]),
        Command::Mkdir(path) => say_words(world, &["mkdir", path]),
        Command::Rm(path) => say_words(world, &["rm", path]),
        Command::Link { path, target } => say_words(world, &["link", path, target]),
        _ => say_change(world, command),
    }
}

/// Says what is wanted.
fn say_wanted(world: &mut World, wanted: &Wanted<'_>) -> Result<(), Stop> {
    match wanted {
        Wanted::Key => world.say("key"),
        Wanted::Users => world.say("users"),
        Wanted::Status => world.say("status"),
        Wanted::Run(command) => say_command(world, command),
        Wanted::Put { path, file } => say_words(world, &["put", path, file]),
        Wanted::Get { path, file } => say_words(world, &["get", path, file]),
        Wanted::PutTree { path, dir } => say_words(world, &["put tree", path, dir]),
        Wanted::GetTree { path, dir } => say_words(world, &["get tree", path, dir]),
        Wanted::Move { path, to } => say_words(world, &["move", path, to]),
        Wanted::Admin(file) => say_words(world, &["admin", file]),
        Wanted::Renew { early: false } => world.say("renew"),
        Wanted::Renew { early: true } => world.say("renew early"),
        Wanted::Batch { stops: false } => world.say("batch"),
        Wanted::Batch { stops: true } => world.say("batch that stops"),
    }
}

/// Says a line: the directory, the server and the user, and what is wanted.
fn say_line(world: &mut World, line: &Line<'_>) -> Result<(), Stop> {
    say_words(world, &[line.dir, line.server])?;
    world.show(format_args!(" {}", line.user.get()))?;
    world.say(if line.moved { ", moved: " } else { ": " })?;
    say_wanted(world, &line.wanted)
}

/// Says a folder that is to be made: where, whose, and which file user 0's public key is in.
fn say_folder(world: &mut World, folder: &NewFolder<'_>) -> Result<(), Stop> {
    world.show(format_args!("init {} {}", folder.dir, folder.user.get()))?;
    match folder.super_key {
        Some(file) => say_words(world, &["", file]),
        None => Ok(()),
    }
}

/// Says what hinders a line from being read; the text is what it prints.
fn say_error(world: &mut World, error: &LineError) -> Result<(), Stop> {
    let printed = format!(in world.alloc; "{error}")?;
    world.keep_bytes(printed.as_bytes())?;
    match error {
        LineError::Words(fault) => {
            let kind = fault.kind();
            world.show(format_args!("{kind:?}"))
        }
        _ => world.say(&printed),
    }
}

/// What the words of a command line ask for.
pub(crate) fn line(world: &mut World, words: &mut Words<'_>) -> Result<(), Stop> {
    let words = words_of(world.alloc, words.rest())?;
    match Request::read(world.alloc, &words) {
        Ok(Request::Line(line)) => say_line(world, &line),
        Ok(Request::Init(folder)) => say_folder(world, &folder),
        Err(error) => {
            let said = say_error(world, &error);
            let_go(error);
            said
        }
    }
}

/// What the words of a line of a batch ask for.
pub(crate) fn batch(world: &mut World, words: &mut Words<'_>) -> Result<(), Stop> {
    let words = words_of(world.alloc, words.rest())?;
    match Wanted::read(world.alloc, &words) {
        Ok(wanted) => say_wanted(world, &wanted),
        Err(error) => {
            let said = say_error(world, &error);
            let_go(error);
            said
        }
    }
}

/// The words of a line, each in square brackets.
pub(crate) fn split(world: &mut World, words: &mut Words<'_>) -> Result<(), Stop> {
    let found = match split_words(world.alloc, words.rest()) {
        Ok(found) => found,
        Err(SplitError::Unclosed) => return Err(Stop::Unclosed),
        Err(SplitError::Memory) => return Err(Stop::Memory),
    };
    if found.is_empty() {
        return world.say("no word");
    }
    for word in &found {
        world.show(format_args!("[{word}]"))?;
    }
    Ok(())
}
