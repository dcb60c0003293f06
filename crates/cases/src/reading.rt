//! What bytes are read as, and the first fault of those that are no such text.

use crate::stop::Stop;
use crate::words::Words;
use crate::world::World;
use directory::Directory;
use itable::{Chunk, Inode, Root};
use layout::{Text, let_go};
use pending_list::{Reply, Signed};
use principals::Table;
use std::alloc::Global;
use update_cert::Cert;
use version_order::{Plan, Structure, Vector};
use wire::body_of;

/// What is answered of bytes that are read, and spelled so again.
const OK: &str = "ok";

/// Whether a value is spelled so.
fn is_spelled<T: Text<Global>>(alloc: Global, value: &T, text: &[u8]) -> Result<(), Stop> {
    let spelled = value.text(alloc)?;
    if spelled.as_slice() == text {
        Ok(())
    } else {
        Err(Stop::Other)
    }
}

/// Bytes are read, and spelled so again.
fn read_as<T: Text<Global>>(alloc: Global, text: &[u8]) -> Result<(), Stop> {
    let value: T = T::read(alloc, text)?;
    let spelled = is_spelled(alloc, &value, text);
    let_go(value);
    spelled
}

/// Bytes are read as what a word says, and spelled so again.
fn read_kind(alloc: Global, kind: &str, text: &[u8]) -> Result<(), Stop> {
    match kind {
        "certificate" => read_as::<Cert<Global>>(alloc, text),
        "signed_certificate" => read_as::<Signed<Cert<Global>>>(alloc, text),
        "vector" => read_as::<Vector<Global>>(alloc, text),
        "plan" => read_as::<Plan<Global>>(alloc, text),
        "structure" => read_as::<Structure<Global>>(alloc, text),
        "signed_structure" => read_as::<Signed<Structure<Global>>>(alloc, text),
        "reply" => read_as::<Reply<Global>>(alloc, text),
        "inode" => read_as::<Inode<Global>>(alloc, text),
        "chunk" => read_as::<Chunk<Global>>(alloc, text),
        "root" => read_as::<Root<Global>>(alloc, text),
        "directory" => read_as::<Directory<Global>>(alloc, text),
        "principals" => read_as::<Table<Global>>(alloc, text),
        "frame" => match body_of(text) {
            Ok(_) => Ok(()),
            Err(fault) => Err(fault.into()),
        },
        _ => Err(Stop::Word),
    }
}

/// Each proper prefix of a text is short, and a byte more trails.
fn ends_there(alloc: Global, kind: &str, text: &mut Vec<u8>) -> Result<(), Stop> {
    for size in 0..text.len() {
        let front = text.get(..size).unwrap_or(&[]);
        if read_kind(alloc, kind, front) != Err(Stop::Short) {
            return Err(Stop::LongPrefix);
        }
    }
    text.push(0)?;
    if read_kind(alloc, kind, text) == Err(Stop::Trailing) {
        Ok(())
    } else {
        Err(Stop::NoTrail)
    }
}

/// The bytes are read as what a word says, and so neither each proper prefix of them nor a byte more.
pub(crate) fn read(world: &mut World, words: &mut Words<'_>) -> Result<(), Stop> {
    let kind = words.word()?;
    let mut text = world.bytes(words)?;
    read_kind(world.alloc, kind, &text)?;
    ends_there(world.alloc, kind, &mut text)?;
    world.say(OK)
}

/// The text is read as what a word says.
pub(crate) fn read_once(world: &mut World, words: &mut Words<'_>) -> Result<(), Stop> {
    read_kind(world.alloc, words.word()?, &world.it)?;
    world.say(OK)
}
