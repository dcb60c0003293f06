//! Steps of a directory, whose text is `$it`.

use crate::stop::Stop;
use crate::words::Words;
use crate::world::World;
use directory::{Directory, Target};
use layout::{Text, let_go};
use std::alloc::Global;

/// The place that two words say.
pub(crate) fn target(words: &mut Words<'_>) -> Result<Target, Stop> {
    Ok(Target {
        principal: words.principal()?,
        i_number: words.i_number()?,
    })
}

/// Says a place.
pub(crate) fn say_target(world: &mut World, target: Target) -> Result<(), Stop> {
    let (principal, number) = (target.principal.get(), target.i_number.get());
    let text = format!(in world.alloc; "{principal}:{number}")?;
    world.say(&text)
}

/// Says all entries.
fn say_entries(world: &mut World, directory: &Directory<Global>) -> Result<(), Stop> {
    for entry in directory.entries() {
        world.say(entry.name().as_str())?;
        world.say(" ")?;
        say_target(world, entry.target())?;
        world.say(";")?;
    }
    Ok(())
}

/// What the directory says.
fn said(
    world: &mut World,
    directory: &Directory<Global>,
    verb: &str,
    name: &[u8],
) -> Result<(), Stop> {
    match verb {
        "get" => match directory.get(name) {
            Some(target) => say_target(world, target),
            None => world.say("none"),
        },
        "count" => world.show(directory.entries().len()),
        _ => say_entries(world, directory),
    }
}

/// What the directory is asked for.
fn ask(world: &mut World, verb: &str, words: &mut Words<'_>) -> Result<(), Stop> {
    let name = world.bytes(words)?;
    let directory: Directory<Global> = world.read()?;
    let said = said(world, &directory, verb, &name);
    let_go(directory);
    said
}

/// The text of a directory is `$it` from now on.
fn write(world: &mut World, directory: Directory<Global>) -> Result<(), Stop> {
    let text = directory.text(world.alloc);
    let_go(directory);
    world.keep(text)
}

/// A name stands for a place from now on.
fn link(world: &mut World, words: &mut Words<'_>) -> Result<(), Stop> {
    let target = target(words)?;
    let name = world.bytes(words)?;
    let mut directory: Directory<Global> = world.read()?;
    let done = directory.link(&name, target);
    write(world, directory)?;
    Ok(done?)
}

/// A name stands for nothing any more.
fn unlink(world: &mut World, words: &mut Words<'_>) -> Result<(), Stop> {
    let name = world.bytes(words)?;
    let mut directory: Directory<Global> = world.read()?;
    let done = directory.unlink(&name);
    write(world, directory)?;
    Ok(done?)
}

/// A line of the directory.
pub(crate) fn directory(world: &mut World, words: &mut Words<'_>) -> Result<(), Stop> {
    let verb = words.word()?;
    match verb {
        "empty" => {
            let directory = Directory::empty(world.alloc);
            write(world, directory)
        }
        "link" => link(world, words),
        "unlink" => unlink(world, words),
        "get" | "count" | "entries" => ask(world, verb, words),
        _ => Err(Stop::Word),
    }
}
