//! What errors print, each by its number among those of its kind.

use crate::stop::Stop;
use crate::words::{Words, found};
use crate::world::World;
use commands::Refusal;
use connection::{ConnectionFault, WriteFault};
use directory::DirError;
use file_commands::LineError;
use itable::LayError;
use layout::{Digest, Memory, Principal, ReadError};
use principals::TableError;
use reply_rules::Rule;
use std::fmt::Display;
use transport::TransportError;
use tree_parts::{ApplyError, Spot};
use version_order::PlanError;
use wire::FrameError;

static READING: [ReadError; 6] = [
    ReadError::Short,
    ReadError::Trailing,
    ReadError::BadTag,
    ReadError::Order,
    ReadError::Range,
    ReadError::Memory,
];

static DIRECTORIES: [DirError; 5] = [
    DirError::There,
    DirError::Absent,
    DirError::BadName,
    DirError::Full,
    DirError::Memory,
];

static TABLES: [TableError; 9] = [
    TableError::Listed,
    TableError::Unlisted,
    TableError::NotGroup,
    TableError::NotMember,
    TableError::Full,
    TableError::Memory,
    TableError::Pinned,
    TableError::KeysFull,
    TableError::TooSoon,
];

static LAYING: [LayError; 2] = [LayError::TooLarge, LayError::Memory];

static PLANNING: [PlanError; 2] = [PlanError::Limit, PlanError::Memory];

static FRAMING: [FrameError; 2] = [FrameError::Length, FrameError::Memory];

pub(crate) static REFUSALS: [Refusal; 12] = [
    Refusal::NoPath,
    Refusal::There,
    Refusal::NotEmpty,
    Refusal::NoNumber,
    Refusal::NoLeaf,
    Refusal::NoKey,
    Refusal::TooLarge,
    Refusal::Device,
    Refusal::Foreign,
    Refusal::Damaged,
    Refusal::Cut,
    Refusal::Memory,
];

static CARRYING: [TransportError; 3] = [
    TransportError::Fault,
    TransportError::NoFrame,
    TransportError::Memory,
];

static CONNECTING: [ConnectionFault; 1] = [ConnectionFault];

static WRITING: [WriteFault; 1] = [WriteFault];

pub(crate) static RULES: [Rule; 15] = [
    Rule::Form,
    Rule::Lists,
    Rule::OwnLast,
    Rule::OwnPending,
    Rule::SuperSignature,
    Rule::Block,
    Rule::Content,
    Rule::UnknownUser,
    Rule::Signature,
    Rule::Certificate,
    Rule::Numbers,
    Rule::Vector,
    Rule::Entries,
    Rule::Link,
    Rule::GroupRecord,
];

static MEMORY: [Memory; 1] = [Memory];

/// Says what the error of a number prints.
fn say<E: Display>(world: &mut World, errors: &[E], number: u32) -> Result<(), Stop> {
    match errors.get(number as usize) {
        Some(error) => world.show(format_args!("{error}")),
        None => Err(Stop::Word),
    }
}

/// Says the number and the name of a rule.
fn say_rule(world: &mut World, number: u32) -> Result<(), Stop> {
    match RULES.get(number as usize) {
        Some(rule) => {
            let number = rule.number();
            world.show(format_args!("{number} {rule}"))
        }
        None => Err(Stop::Word),
    }
}

/// Says what an error of changes prints.
fn say_applying(world: &mut World, number: u32) -> Result<(), Stop> {
    match number {
        0 => {
            let root = Spot::Root(found(Principal::new(0))?);
            let missing = ApplyError::Missing(Digest::from_bytes([0; 32]), root);
            world.show(format_args!("{missing}"))
        }
        1 => world.show(format_args!("{}", ApplyError::Memory)),
        _ => Err(Stop::Word),
    }
}

/// Says what an error of command lines prints.
fn say_commanding(world: &mut World, number: u32) -> Result<(), Stop> {
    match number {
        0 => world.show(LineError::Key),
        1 => world.show(LineError::Memory),
        _ => Err(Stop::Word),
    }
}

/// What an error prints.
pub(crate) fn error(world: &mut World, words: &mut Words<'_>) -> Result<(), Stop> {
    let kind = words.word()?;
    let number = words.number()?;
    match kind {
        "memory" => say(world, &MEMORY, number),
        "reading" => say(world, &READING, number),
        "directory" => say(world, &DIRECTORIES, number),
        "table" => say(world, &TABLES, number),
        "laying" => say(world, &LAYING, number),
        "planning" => say(world, &PLANNING, number),
        "framing" => say(world, &FRAMING, number),
        "rule" => say_rule(world, number),
        "refusal" => say(world, &REFUSALS, number),
        "carrying" => say(world, &CARRYING, number),
        "connecting" => say(world, &CONNECTING, number),
        "writing" => say(world, &WRITING, number),
        "commanding" => say_commanding(world, number),
        "applying" => say_applying(world, number),
        _ => Err(Stop::Word),
    }
}
