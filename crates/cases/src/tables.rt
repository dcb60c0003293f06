//! Steps of the table of principals, whose text is `$it`.

use crate::names::Names;
use crate::stop::Stop;
use crate::words::{Words, found};
use crate::world::World;
use layout::{Text, let_go};
use lms_sign::{KEY_SIZE, PublicKey};
use principals::Table;
use std::alloc::Global;
use update_cert::{Cert, apply_table, table_after};

/// The key that the words which are left spell.
pub(crate) fn key(names: &Names, words: &mut Words<'_>) -> Result<PublicKey, Stop> {
    let bytes = names.bytes(words)?;
    match <[u8; KEY_SIZE]>::try_from(bytes.as_slice()) {
        Ok(bytes) => found(PublicKey::from_bytes(bytes)),
        Err(_) => Err(Stop::Word),
    }
}

/// The table of a key that stands for user 0.
fn begin(world: &mut World, words: &mut Words<'_>) -> Result<(), Stop> {
    let key = key(&world.names, words)?;
    write(world, Table::genesis(world.alloc, key))
}

/// An operation of this number lists a user, takes in or drops a member, or gives a user a further key.
fn change(
    table: &mut Table<Global>,
    names: &Names,
    verb: &str,
    words: &mut Words<'_>,
) -> Result<(), Stop> {
    let number = words.version()?;
    match verb {
        "list" => table.add_user(number, words.user()?, key(names, words)?)?,
        "add" => table.add_member(number, words.principal()?, words.user()?)?,
        "drop" => table.drop_member(number, words.principal()?, words.user()?)?,
        _ => table.set_key(number, words.user()?, key(names, words)?)?,
    }
    Ok(())
}

/// What a table says of a user, as `since`, or as one of a group or a number.
fn said(
    table: &Table<Global>,
    world: &mut World,
    verb: &str,
    words: &mut Words<'_>,
) -> Result<(), Stop> {
    let user = words.user()?;
    match verb {
        "since" => match table.since(user) {
            Some(number) => world.show(number),
            None => world.say("none"),
        },
        "listed" => world.say_whether(table.is_listed(user, words.number()?)),
        "member" => world.say_whether(table.is_member(words.group()?, user, words.number()?)),
        "key" => said_key(world, table.key_of(user)),
        _ => said_key(world, table.key_at(user, words.number()?)),
    }
}

/// A key, as digits.
fn said_key(world: &mut World, key: Option<PublicKey>) -> Result<(), Stop> {
    match key {
        Some(key) => world.say_digits(key.as_bytes()),
        None => world.say("none"),
    }
}

/// The changes of a certificate that have no effect on the table, which it changes.
fn applied(world: &mut World, table: &mut Table<Global>, text: &[u8]) -> Result<(), Stop> {
    let cert: Cert<Global> = Cert::read(world.alloc, text)?;
    let voids = apply_table(world.alloc, table, &cert);
    let_go(cert);
    match voids {
        Ok(voids) => world.show_numbers(voids.numbers()),
        Err(_) => Err(Stop::Memory),
    }
}

/// What a certificate makes of the table, or that it is the same.
fn followed(world: &mut World, table: &Table<Global>, text: &[u8]) -> Result<(), Stop> {
    let cert: Cert<Global> = Cert::read(world.alloc, text)?;
    let after = table_after(world.alloc, table, &cert);
    let_go(cert);
    match after {
        Ok(Some(after)) => write(world, after),
        Ok(None) => world.say("same"),
        Err(_) => Err(Stop::Memory),
    }
}

/// The text of a table is `$it` from now on.
fn write(world: &mut World, table: Table<Global>) -> Result<(), Stop> {
    let text = table.text(world.alloc);
    let_go(table);
    world.keep(text)
}

/// A step of the table.
fn step(world: &mut World, verb: &str, words: &mut Words<'_>) -> Result<(), Stop> {
    let mut table: Table<Global> = world.read()?;
    let done = change(&mut table, &world.names, verb, words);
    write(world, table)?;
    done
}

/// What the table is asked for.
fn ask(world: &mut World, verb: &str, words: &mut Words<'_>) -> Result<(), Stop> {
    let table: Table<Global> = world.read()?;
    let said = said(&table, world, verb, words);
    let_go(table);
    said
}

/// What becomes of the table by a certificate, whose bytes are the words that are left.
fn apply(world: &mut World, words: &mut Words<'_>) -> Result<(), Stop> {
    let text = world.bytes(words)?;
    let mut table: Table<Global> = world.read()?;
    let done = applied(world, &mut table, &text);
    write(world, table)?;
    done
}

/// What would become of it.
fn after(world: &mut World, words: &mut Words<'_>) -> Result<(), Stop> {
    let text = world.bytes(words)?;
    let table: Table<Global> = world.read()?;
    let done = followed(world, &table, &text);
    let_go(table);
    done
}

/// A line of the table.
pub(crate) fn table(world: &mut World, words: &mut Words<'_>) -> Result<(), Stop> {
    let verb = words.word()?;
    match verb {
        "genesis" => begin(world, words),
        "list" | "add" | "drop" | "set" => step(world, verb, words),
        "since" | "listed" | "member" | "key" | "key_at" => ask(world, verb, words),
        "apply" => apply(world, words),
        "after" => after(world, words),
        _ => Err(Stop::Word),
    }
}
