//! Cases: of each line what is answered, and whether it is what is wanted.

use crate::answers::{answer as print_answer, path, place};
use crate::blocks::{change, hold, look, spot, tree};
use crate::certificates::certificate;
use crate::directories::directory;
use crate::errors::error;
use crate::files::file;
use crate::frames::frame;
use crate::i_tables::i_table;
use crate::lines::{batch, line, split};
use crate::lists::{list, operation};
use crate::names::push;
use crate::plans::plan;
use crate::reading::{read, read_once};
use crate::replies::reply;
use crate::stop::Stop;
use crate::tables::table;
use crate::words::Words;
use crate::world::World;
use layout::{digest, put_in};

/// What is answered where nothing else is, and what is wanted where nothing else stands.
const DONE: &str = "done";

/// The words that are left are the bytes of a name.
fn name(world: &mut World, words: &mut Words<'_>) -> Result<(), Stop> {
    let name = words.word()?;
    let bytes = world.bytes(words)?;
    world.names.name(name, bytes)
}

/// The text has this name, too.
fn keep(world: &mut World, words: &mut Words<'_>) -> Result<(), Stop> {
    let bytes = Vec::from_slice(world.alloc, &world.it)?;
    world.names.name(words.word()?, bytes)
}

/// The words that are left are the text.
fn set(world: &mut World, words: &mut Words<'_>) -> Result<(), Stop> {
    let bytes = world.bytes(words)?;
    put_in(&mut world.it, bytes);
    Ok(())
}

/// Whether the text is these bytes, or begins with them.
fn compare(world: &mut World, verb: &str, words: &mut Words<'_>) -> Result<(), Stop> {
    let bytes = world.bytes(words)?;
    let holds = world.it.starts_with(&bytes) && (verb == "starts" || world.it.len() == bytes.len());
    world.say_whether(holds)
}

/// How many bytes the text has.
fn size(world: &mut World) -> Result<(), Stop> {
    let size = world.it.len();
    world.show(size)
}

/// The digest of bytes.
fn digest_of(world: &mut World, words: &mut Words<'_>) -> Result<(), Stop> {
    let bytes = world.bytes(words)?;
    world.say_digits(digest(&bytes).as_bytes())
}

/// No block is held any more.
fn forget(world: &mut World) -> Result<(), Stop> {
    world.held.clear();
    Ok(())
}

/// What is answered to the words after a verb of commands.
fn command_answer(world: &mut World, verb: &str, words: &mut Words<'_>) -> Result<(), Stop> {
    match verb {
        "answer" => print_answer(world, words),
        "path" => path(world, words),
        "place" => place(world, words),
        "line" => line(world, words),
        "batch" => batch(world, words),
        "split" => split(world, words),
        _ => Err(Stop::Word),
    }
}

/// What is answered to the words after a verb of rules.
fn rule_answer(world: &mut World, verb: &str, words: &mut Words<'_>) -> Result<(), Stop> {
    match verb {
        "op" => operation(world, words),
        "list" => list(world, words),
        "hold" => hold(world, words),
        "forget" => forget(world),
        "spot" => spot(world, words),
        "tree" => tree(world, words),
        "look" => look(world, words),
        "change" => change(world, words),
        "i_table" => i_table(world, words),
        "file" => file(world, words),
        _ => command_answer(world, verb, words),
    }
}

/// What is answered to the words after a verb.
fn answer(world: &mut World, verb: &str, words: &mut Words<'_>) -> Result<(), Stop> {
    match verb {
        "let" => name(world, words),
        "keep" => keep(world, words),
        "it" => set(world, words),
        "is" | "starts" => compare(world, verb, words),
        "size" => size(world),
        "digest" => digest_of(world, words),
        "read" => read(world, words),
        "long" => read_once(world, words),
        "table" => table(world, words),
        "dir" => directory(world, words),
        "plan" => plan(world, words),
        "cert" => certificate(world, words),
        "frame" => frame(world, words),
        "reply" => reply(world, words),
        "error" => error(world, words),
        _ => rule_answer(world, verb, words),
    }
}

/// What is answered to a case whose words are all taken.
fn whole_answer(world: &mut World, case: &str) -> Result<(), Stop> {
    let mut words = Words::of(case);
    let verb = words.word()?;
    answer(world, verb, &mut words)?;
    if words.is_empty() {
        Ok(())
    } else {
        Err(Stop::Word)
    }
}

/// Tells what was found, where it isn't what is wanted.
fn try_case(world: &mut World, place: (&str, usize), line: &str) -> Result<(), Stop> {
    let (case, wanted) = line.split_once(" = ").unwrap_or((line, DONE));
    world.answer.clear();
    let stopped = match whole_answer(world, case) {
        Ok(()) if world.answer.is_empty() => DONE,
        Ok(()) => "",
        Err(stop) => stop.name(),
    };
    if !stopped.is_empty() {
        world.answer.clear();
        world.say(stopped)?;
    }
    if world.answer.as_slice() == wanted.as_bytes() {
        return Ok(());
    }
    tell_wrong(world, place, wanted)
}

/// Tells what was found, and what is wanted.
fn tell_wrong(world: &mut World, place: (&str, usize), wanted: &str) -> Result<(), Stop> {
    let (file, line) = place;
    let found = String::from_utf8_lossy(world.alloc, &world.answer)?;
    let told = format!(in world.alloc; "{file}:{line}: {found}, and not {wanted}\n")?;
    push(&mut world.told, told.as_bytes())
}

/// Tries each line of a file but comments, and tells how many there are.
pub(crate) fn try_cases(world: &mut World, file: &str, text: &str) -> Result<(), Stop> {
    let mut count = 0u32;
    for (place, line) in text.lines().enumerate() {
        if !line.is_empty() && !line.starts_with('#') {
            count = count.saturating_add(1);
            try_case(world, (file, place.saturating_add(1)), line)?;
        }
    }
    let told = format!(in world.alloc; "{file}: {count} cases\n")?;
    push(&mut world.told, told.as_bytes())
}
