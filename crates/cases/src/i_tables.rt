//! I-tables, each of which lives for one line: what is set, loaded and told of it, part by part.

ghost use Rattle.std.specs.Prelude.{◌≡◌, IfOk, true};
ghost use Rattle.itable.specs.ITable.{loaded as is_loaded};

use crate::plans::digest;
use crate::stop::Stop;
use crate::words::{Words, found};
use crate::world::World;
use itable::{ChunkNumber, ITable, read_chunk, read_root};
use layout::{Digest, INumber, digest as digest_of, let_go};
use std::alloc::Global;

/// How many parts a line has at most.
const MOST_PARTS: usize = 64;

/// How many i-numbers a digest is set at most.
const MOST_PAIRS: usize = 4096;

/// The i-number of the next word, whose chunk is loaded.
fn loaded(table: &ITable<Global>, words: &mut Words<'_>) -> Result<INumber, Stop>
    ensures { IfOk result (λ i_number. is_loaded table.now i_number ≡ true) }
{
    let i_number = words.i_number()?;
    if table.loaded(i_number) {
        Ok(i_number)
    } else {
        Err(Stop::NotLoaded)
    }
}

/// A digest is set at each i-number that is told after it.
fn set(world: &World, table: &mut ITable<Global>, words: &mut Words<'_>) -> Result<(), Stop> {
    let digest = digest(world, &mut Words::of(words.word()?))?;
    for _ in 0..MOST_PAIRS {
        if words.is_empty() {
            break;
        }
        let i_number = loaded(table, words)?;
        table.set(i_number, digest)?;
    }
    Ok(())
}

/// Says a digest, if there is one.
fn say_digest(world: &mut World, digest: Option<Digest>) -> Result<(), Stop> {
    match digest {
        Some(digest) => world.say_digits(digest.as_bytes()),
        None => world.say("none"),
    }
}

/// The text is that of a chunk.
fn chunk(world: &mut World, table: &ITable<Global>, words: &mut Words<'_>) -> Result<(), Stop> {
    let number = found(ChunkNumber::new(words.byte()?))?;
    match table.chunk_text(world.alloc, number)? {
        Some(text) => world.keep(Ok(text)),
        None => world.say("none"),
    }
}

/// Loads a chunk, whose text the words which are left spell.
fn load(world: &World, table: &mut ITable<Global>, words: &mut Words<'_>) -> Result<(), Stop> {
    let i_number = words.i_number()?;
    let text = world.bytes(words)?;
    let Some(listed) = table.unloaded(i_number) else {
        return Err(Stop::Loaded);
    };
    let chunk = read_chunk(world.alloc, &text)?;
    let loaded = if chunk.number() != listed.number || digest_of(&text) != listed.digest {
        Err(Stop::AnotherChunk)
    } else {
        match table.load(&chunk, listed.digest) {
            Ok(()) => Ok(()),
            Err(_) => Err(Stop::Memory),
        }
    };
    let_go(chunk);
    loaded
}

/// One part of a line.
fn step(world: &mut World, table: &mut ITable<Global>, words: &mut Words<'_>) -> Result<(), Stop> {
    match words.word()? {
        "set" => set(world, table, words),
        "load" => load(world, table, words),
        "get" => {
            let i_number = loaded(table, words)?;
            say_digest(world, table.get(i_number))
        }
        "remove" => {
            let i_number = loaded(table, words)?;
            say_digest(world, table.remove(i_number))
        }
        "loaded" => world.say_whether(table.loaded(words.i_number()?)),
        "principal" => world.show(table.principal().get()),
        "pairs" => world.show(table.pairs().len()),
        "chunk" => chunk(world, table, words),
        "root" => {
            let text = table.root_text(world.alloc);
            world.keep(text)
        }
        "handle" => {
            let handle = table.handle(world.alloc)?;
            world.say_digits(handle.as_bytes())
        }
        _ => Err(Stop::Word),
    }
}

/// One part after another.
fn steps(world: &mut World, table: &mut ITable<Global>, words: &mut Words<'_>) -> Result<(), Stop> {
    for _ in 0..MOST_PARTS {
        if words.is_empty() {
            break;
        }
        let mut part = Words::of(words.part());
        let answered = world.answer.len();
        step(world, table, &mut part)?;
        if !part.is_empty() {
            return Err(Stop::Word);
        }
        if world.answer.len() != answered {
            world.say(";")?;
        }
    }
    Ok(())
}

/// The table at the beginning of a line: a principal's empty one, or that of a root, of which no chunk is loaded.
fn first(world: &World, words: &mut Words<'_>) -> Result<ITable<Global>, Stop> {
    match words.word()? {
        "new" => Ok(ITable::empty(world.alloc, words.principal()?)),
        "of" => {
            let text = world.bytes(words)?;
            Ok(ITable::of_root(world.alloc, read_root(world.alloc, &text)?))
        }
        _ => Err(Stop::Word),
    }
}

/// A line of i-tables.
pub(crate) fn i_table(world: &mut World, words: &mut Words<'_>) -> Result<(), Stop> {
    let mut table = first(world, &mut Words::of(words.part()))?;
    let done = steps(world, &mut table, words);
    let_go(table);
    done
}
