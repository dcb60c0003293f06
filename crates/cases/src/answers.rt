//! What is printed of answers, also to writers that fail, with which status; and paths.

use crate::directories::{say_target, target};
use crate::errors::{REFUSALS, RULES};
use crate::stop::Stop;
use crate::words::{Words, found};
use crate::world::World;
use commands::{Answer, Kind, Path, Row, path_of, place_of};
use directory::{Directory, Entry, name_text};
use layout::{Text, let_go};
use std::alloc::Global;
use std::io::{self, ErrorKind, Write};
use wire::Status;

/// How many names a path has at most here.
const MOST_NAMES: usize = 9;

/// A writer that takes a few bytes at a time, each time after it was interrupted, and no more than so many: from then
/// on it fails, or takes none.
#[derive(Drop)]
struct Narrow {
    bytes: Vec<u8>,
    left: usize,
    fails: bool,
    is_interrupted: bool,
}

impl Write for Narrow {
    fn write(&mut self, bytes: &[u8]) -> io::Result<usize> {
        self.is_interrupted = !self.is_interrupted;
        if self.is_interrupted {
            return Err(ErrorKind::Interrupted.into());
        }
        if self.left == 0 && self.fails {
            return Err(ErrorKind::StorageFull.into());
        }
        let count = bytes.len().min(self.left).min(3);
        self.left -= count;
        self.bytes.extend_from_slice(&bytes[..count])?;
        Ok(count)
    }

    fn flush(&mut self) -> io::Result<()> {
        Ok(())
    }
}

/// Whether a writer that takes so many bytes gets as many of this text, and it is told whether these are all.
fn is_cut(alloc: Global, answer: &Answer<Global>, text: &[u8], left: usize, fails: bool) -> bool {
    let mut narrow = Narrow {
        bytes: Vec::new(alloc),
        left,
        fails,
        is_interrupted: false,
    };
    let is_whole = answer.write(&mut narrow).is_ok();
    is_whole == (left == text.len()) && Some(narrow.bytes.as_slice()) == text.get(..left)
}

/// Whether that is so wherever the writer fails, or takes no more.
fn is_cut_anywhere(alloc: Global, answer: &Answer<Global>, text: &[u8]) -> bool {
    for left in 0..=text.len() {
        if !is_cut(alloc, answer, text, left, true) || !is_cut(alloc, answer, text, left, false) {
            return false;
        }
    }
    true
}

/// The status; the text is what is printed, of which a writer that fails gets a beginning.
fn print(world: &mut World, answer: &Answer<Global>) -> Result<(), Stop> {
    let mut text: Vec<u8> = Vec::new(world.alloc);
    if answer.write(&mut text).is_err() {
        return Err(Stop::Memory);
    }
    if !is_cut_anywhere(world.alloc, answer, &text) {
        return Err(Stop::NotCut);
    }
    world.keep(Ok(text))?;
    world.show(answer.status())
}

/// The entries of a directory, whose text the words which are left spell.
fn listing(world: &World, words: &mut Words<'_>) -> Result<Answer<Global>, Stop> {
    let text = world.bytes(words)?;
    let directory: Directory<Global> = Directory::read(world.alloc, &text)?;
    Ok(Answer::Listing(directory))
}

/// What stands at an entry.
fn kind(words: &mut Words<'_>) -> Result<Kind, Stop> {
    match words.word()? {
        "nothing" => Ok(Kind::Nothing),
        "directory" => Ok(Kind::Directory),
        "file" => Ok(Kind::File(words.number()?)),
        _ => Err(Stop::Word),
    }
}

/// A row: what stands there, a place, and a name.
fn row(world: &World, words: &mut Words<'_>) -> Result<Row<Global>, Stop> {
    let kind = kind(words)?;
    let target = target(words)?;
    let bytes = world.bytes(words)?;
    match name_text(&bytes) {
        Some(name) => Ok(Row::new(Entry::new(world.alloc, name, target)?, kind)),
        None => Err(Stop::Word),
    }
}

/// The answer of one row.
fn details(world: &World, words: &mut Words<'_>) -> Result<Answer<Global>, Stop> {
    let row = row(world, words)?;
    let mut rows = Vec::new(world.alloc);
    rows.push(row)?;
    Ok(Answer::Details(rows))
}

/// The answer that words say.
fn answer_of(world: &World, words: &mut Words<'_>) -> Result<Answer<Global>, Stop> {
    match words.word()? {
        "done" => Ok(Answer::Done),
        "bytes" => Ok(Answer::Bytes(world.bytes(words)?)),
        "lost" => Ok(Answer::Lost(world.bytes(words)?)),
        "listing" => listing(world, words),
        "details" => details(world, words),
        "declined" => {
            let status = found(Status::from_number(words.byte()?))?;
            Ok(Answer::Declined(status))
        }
        "broken" => {
            let rule = found(RULES.get(words.number()? as usize))?;
            Ok(Answer::Broken(*rule))
        }
        "refused" => {
            let refusal = found(REFUSALS.get(words.number()? as usize))?;
            Ok(Answer::Refused(*refusal))
        }
        _ => Err(Stop::Word),
    }
}

/// A line of answers.
pub(crate) fn answer(world: &mut World, words: &mut Words<'_>) -> Result<(), Stop> {
    let answer = answer_of(world, words)?;
    let printed = print(world, &answer);
    let_go(answer);
    printed
}

/// Says where a path begins, and its names.
fn say_path(world: &mut World, path: Path<'_>) -> Result<(), Stop> {
    say_target(world, path.start())?;
    let mut names = path.names();
    for _ in 0..MOST_NAMES {
        if names.is_empty() {
            break;
        }
        world.say(" ")?;
        world.say(names.next().unwrap_or("no name"))?;
    }
    match names.next() {
        Some(_) => Err(Stop::AnotherName),
        None => Ok(()),
    }
}

/// What the rest of the line is as a path.
pub(crate) fn path(world: &mut World, words: &mut Words<'_>) -> Result<(), Stop> {
    match path_of(words.rest()) {
        Some(path) => say_path(world, path),
        None => world.say("none"),
    }
}

/// What the rest of the line is as a place.
pub(crate) fn place(world: &mut World, words: &mut Words<'_>) -> Result<(), Stop> {
    match place_of(words.rest()) {
        Some(place) => say_target(world, place),
        None => world.say("none"),
    }
}
