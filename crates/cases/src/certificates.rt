//! Certificates: made of their parts, what they say, and with a signature.

use crate::directories::{say_target, target};
use crate::plans::digest;
use crate::stop::Stop;
use crate::tables::key;
use crate::words::Words;
use crate::world::World;
use directory::{Entry, Name, Target, name_text};
use layout::{Text, let_go};
use lms_sign::SIGNATURE_SIZE;
use pending_list::{Signature, Signed};
use std::alloc::Global;
use update_cert::{Action, AnyAction, Cert, Change, MOST_CHANGES, TableChange};

/// A change of the table.
fn table_change(world: &World, verb: &str, words: &mut Words<'_>) -> Result<TableChange, Stop> {
    match verb {
        "list" => Ok(TableChange::AddUser(words.user()?, key(&world.names, words)?)),
        "add" => Ok(TableChange::AddMember(words.group()?, words.user()?)),
        "drop" => Ok(TableChange::DropMember(words.group()?, words.user()?)),
        "set" => Ok(TableChange::SetKey(words.user()?, key(&world.names, words)?)),
        _ => Err(Stop::Word),
    }
}

/// The entry of a name.
fn entry(world: &World, words: &mut Words<'_>) -> Result<Entry<Global>, Stop> {
    let target = target(words)?;
    let bytes = world.bytes(words)?;
    match name_text(&bytes) {
        Some(text) => Ok(Entry::new(world.alloc, text, target)?),
        None => Err(Stop::Word),
    }
}

/// A name.
fn name(world: &World, words: &mut Words<'_>) -> Result<Name<Global>, Stop> {
    let bytes = world.bytes(words)?;
    match name_text(&bytes) {
        Some(text) => Ok(Name::new(world.alloc, text)?),
        None => Err(Stop::Word),
    }
}

/// What is done at an i-number.
fn action(world: &World, verb: &str, words: &mut Words<'_>) -> Result<Action<Global>, Stop> {
    match verb {
        "make" => Ok(Action::Make(digest(world, words)?)),
        "put" => Ok(Action::Put(digest(world, words)?)),
        "remove" => Ok(Action::Remove),
        "link" => Ok(Action::Link(entry(world, words)?)),
        _ => Ok(Action::Unlink(name(world, words)?)),
    }
}

/// A change.
fn change(world: &World, words: &mut Words<'_>) -> Result<Change<Global>, Stop> {
    let verb = words.word()?;
    match verb {
        "make" | "put" | "remove" | "link" | "unlink" => {
            let place = target(words)?;
            let action = action(world, verb, words)?;
            Ok(Change::new(place.principal, place.i_number, action))
        }
        _ => Ok(Change::of_table(table_change(world, verb, words)?)),
    }
}

/// Adds the changes that the parts say which are left.
fn push_changes(
    world: &World,
    changes: &mut Vec<Change<Global>>,
    words: &mut Words<'_>,
) -> Result<(), Stop> {
    for _ in 0..MOST_CHANGES {
        if words.is_empty() {
            break;
        }
        let mut part = Words::of(words.part());
        changes.push(change(world, &mut part)?)?;
        if !part.is_empty() {
            return Err(Stop::Word);
        }
    }
    Ok(())
}

/// The text is the certificate of a user and a number, which names this last structure, with these changes:
/// `USER NUMBER DIGEST | CHANGE | ..`.
fn make(world: &mut World, words: &mut Words<'_>) -> Result<(), Stop> {
    let (user, number) = (words.user()?, words.version()?);
    let mut part = Words::of(words.part());
    let last = digest(world, &mut part)?;
    let mut changes = Vec::new(world.alloc);
    let pushed = push_changes(world, &mut changes, words);
    if changes.len() > MOST_CHANGES {
        return Err(Stop::Word);
    }
    let cert = Cert::new(user, number, last, changes);
    let written = world.write(&cert);
    let_go(cert);
    pushed?;
    written
}

/// Says what is done at an i-number.
fn say_action(world: &mut World, action: &Action<Global>) -> Result<(), Stop> {
    match action {
        Action::Make(inode) => world.say_digits(inode.as_bytes()),
        Action::Put(inode) => world.say_digits(inode.as_bytes()),
        Action::Remove => Ok(()),
        Action::Link(entry) => {
            say_target(world, entry.target())?;
            world.say(" ")?;
            world.say(entry.name().as_str())
        }
        Action::Unlink(name) => world.say(name.as_str()),
    }
}

/// The word of what is done.
fn word_of(action: &AnyAction<Global>) -> &'static str {
    match action {
        AnyAction::At(Action::Make(_)) => "make ",
        AnyAction::At(Action::Put(_)) => "put ",
        AnyAction::At(Action::Remove) => "remove ",
        AnyAction::At(Action::Link(_)) => "link ",
        AnyAction::At(Action::Unlink(_)) => "unlink ",
        AnyAction::OfTable(_) => "of the table ",
    }
}

/// Says a change.
fn say_change(world: &mut World, change: &Change<Global>) -> Result<(), Stop> {
    world.say(word_of(change.action()))?;
    let target = Target {
        principal: change.principal(),
        i_number: change.i_number(),
    };
    say_target(world, target)?;
    world.say(" ")?;
    if let AnyAction::At(action) = change.action() {
        say_action(world, action)?;
    }
    world.say(";")
}

/// Says what a certificate does.
fn say_changes(world: &mut World, cert: &Cert<Global>) -> Result<(), Stop> {
    for change in cert.changes() {
        say_change(world, change)?;
    }
    Ok(())
}

/// Says whose certificate it is, and what it does.
fn say_cert(world: &mut World, cert: &Cert<Global>) -> Result<(), Stop> {
    world.show(cert.user().get())?;
    world.say(" ")?;
    world.show(cert.number().get())?;
    world.say(" ")?;
    world.say_digits(cert.last().as_bytes())?;
    world.say(";")?;
    say_changes(world, cert)
}

/// What the certificate says.
fn said(world: &mut World) -> Result<(), Stop> {
    let cert: Cert<Global> = world.read()?;
    let said = say_cert(world, &cert);
    let_go(cert);
    said
}

/// The text is that of the certificate with this signature.
fn sign(world: &mut World, words: &mut Words<'_>) -> Result<(), Stop> {
    let bytes = world.bytes(words)?;
    let Ok(bytes) = <[u8; SIGNATURE_SIZE]>::try_from(bytes.as_slice()) else {
        return Err(Stop::Word);
    };
    let signature = Signature::from_bytes(bytes);
    let value: Cert<Global> = world.read()?;
    let signed = Signed { value, signature };
    let written = world.write(&signed);
    let_go(signed);
    written
}

/// What the signed certificate says; and the text is its signature.
fn unsign(world: &mut World) -> Result<(), Stop> {
    let signed: Signed<Cert<Global>> = world.read()?;
    let said = say_cert(world, &signed.value);
    let signature = signed.signature;
    let_go(signed);
    said?;
    world.keep_bytes(signature.as_bytes())
}

/// A line of certificates.
pub(crate) fn certificate(world: &mut World, words: &mut Words<'_>) -> Result<(), Stop> {
    match words.word()? {
        "make" => make(world, words),
        "said" => said(world),
        "sign" => sign(world, words),
        "unsign" => unsign(world),
        _ => Err(Stop::Word),
    }
}
