//! Running a script.

use crate::command::command_of;
use crate::outcome::Outcome;
use crate::words::Unread;
use crate::world::World;
use layout::{Memory, let_go};
use std::alloc::{AllocError, Allocator};
use std::io::{self, BufRead, Write};
use std::sync::Wait;
use thiserror::Error;

/// Why a script could not be run to its end. The lines before stand.
#[derive(Debug, Drop, Error)]
pub enum PlayError {
    /// The script could not be read.
    #[error("the script can't be read")]
    Read,
    /// A line could not be written.
    #[error("a line can't be written")]
    Write,
    /// Memory ran out.
    #[error("out of memory")]
    Memory,
}

impl From<Memory> for PlayError {
    fn from(_e: Memory) -> PlayError {
        PlayError::Memory
    }
}

impl From<AllocError> for PlayError {
    fn from(_e: AllocError) -> PlayError {
        PlayError::Memory
    }
}

/// The bytes of a line without its end.
fn without_end(line: &[u8]) -> &[u8] {
    line.strip_suffix(b"\n".as_slice()).unwrap_or(line)
}

/// What a line comes to; nothing where it is empty or a comment.
fn outcome_of<R: Wait, A: Allocator + Copy>(
    alloc: A,
    world: &mut World<'_, R, A>,
    line: &[u8],
) -> Result<Option<Outcome<A>>, Memory> {
    if line.is_empty() || line.starts_with(b"#".as_slice()) {
        return Ok(None);
    }
    let Ok(text) = std::str::from_utf8(line) else {
        return Ok(Some(Outcome::Error));
    };
    match command_of(alloc, text) {
        Ok(command) => Ok(Some(world.run(command)?)),
        Err(Unread::NoCommand) => Ok(Some(Outcome::Error)),
        Err(Unread::Memory) => Err(Memory),
    }
}

/// Runs the script that the reader gives in this world, and writes a line for each command.
fn play_in<R: Wait, A: Allocator + Copy, I: BufRead, O: Write>(
    alloc: A,
    world: &mut World<'_, R, A>,
    reader: &mut I,
    writer: &mut O,
) -> Result<(), PlayError> {
    let mut line = Vec::new(alloc);
    for _ in 0..u64::MAX {
        line.clear();
        let size = reader
            .read_until(b'\n', &mut line)
            .map_err(|_| PlayError::Read)?;
        if size == 0 {
            break;
        }
        if let Some(outcome) = outcome_of(alloc, world, without_end(&line))? {
            write_line(outcome, writer)?;
        }
    }
    Ok(())
}

/// Writes the line of an outcome.
fn write_line<A: Allocator, W: Write>(
    outcome: Outcome<A>,
    writer: &mut W,
) -> Result<(), PlayError> {
    let written = outcome.write_line(writer);
    let_go(outcome);
    written.map_err(|_| PlayError::Write)
}

/// Runs the script that the reader gives, and writes a line for each command. Lines that are empty or begin with `#`
/// are skipped. The cache of each client may have so many blocks, at least 1 and at most 4,096: no line changes for it.
/// It waits for the lock of the stored blocks, which nobody else has.
pub fn play<R: Wait, A: Allocator + Copy, I: BufRead, O: Write>(
    rt: &R,
    alloc: A,
    capacity: usize,
    reader: &mut I,
    writer: &mut O,
) -> Result<(), PlayError> {
    let mut world = World::new(rt, alloc, capacity)?;
    let played = play_in(alloc, &mut world, reader, writer);
    let_go(world);
    played
}
