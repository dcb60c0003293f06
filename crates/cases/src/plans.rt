//! Plans of next operations, what they say, and records of groups.

use crate::stop::Stop;
use crate::words::Words;
use crate::world::World;
use layout::{Digest, Group, Text, let_go};
use std::alloc::Global;
use version_order::{
    Entries, GroupRecord, GroupRecords, Plan, PlanError, Structure, Vector, below, depth, next_plan,
};

/// The digest that the words which are left spell.
pub(crate) fn digest(world: &World, words: &mut Words<'_>) -> Result<Digest, Stop> {
    let bytes = world.bytes(words)?;
    match <[u8; 32]>::try_from(bytes.as_slice()) {
        Ok(bytes) => Ok(Digest::from_bytes(bytes)),
        Err(_) => Err(Stop::Word),
    }
}

/// The groups of the words before a mark.
fn groups(world: &World, words: &mut Words<'_>) -> Result<Vec<Group>, Stop> {
    let mut groups = Vec::new(world.alloc);
    let mut part = Words::of(words.part());
    for _ in 0..u8::MAX {
        if part.is_empty() {
            break;
        }
        groups.push(part.group()?)?;
    }
    Ok(groups)
}

/// The text of a plan, which is let go.
fn text_of(alloc: Global, plan: Result<Plan<Global>, PlanError>) -> Result<Vec<u8>, Stop> {
    let plan = plan?;
    let text = plan.text(alloc);
    let_go(plan);
    Ok(text?)
}

/// The text is the plan of a user's first operation after the vector `$it`, which raises groups, of a certificate with
/// this digest: `USER GROUP .. | DIGEST`.
fn next(world: &mut World, words: &mut Words<'_>) -> Result<(), Stop> {
    let user = words.user()?;
    let groups = groups(world, words)?;
    let named = digest(world, words)?;
    let before: Vector<Global> = world.read()?;
    let entries = Entries::new(world.alloc);
    let first = layout::Version::first();
    let plan = next_plan(world.alloc, &before, entries, user, first, named, &groups);
    let_go(before);
    let text = text_of(world.alloc, plan)?;
    world.keep(Ok(text))
}

/// What the plan says: how deep it is, or whether it is below another one, or has the same vector.
fn said(
    world: &mut World,
    plan: &Plan<Global>,
    other: &Plan<Global>,
    verb: &str,
) -> Result<(), Stop> {
    match verb {
        "depth" => world.show(depth(plan)),
        "below" => world.say_whether(below(plan, other)),
        _ => world.say_whether(plan.vector().same(other.vector())),
    }
}

/// The plan beside the one that the words which are left spell.
fn compare(world: &mut World, verb: &str, words: &mut Words<'_>) -> Result<(), Stop> {
    let bytes = world.bytes(words)?;
    let plan: Plan<Global> = world.read()?;
    let said = match Plan::read(world.alloc, &bytes) {
        Ok(other) => said(world, &plan, &other, verb),
        Err(fault) => Err(fault.into()),
    };
    let_go(plan);
    said
}

/// A record is set among those of groups.
fn set_record(world: &mut World, words: &mut Words<'_>) -> Result<(), Stop> {
    let record = GroupRecord {
        group: words.group()?,
        version: words.version()?,
        table: words.number()?,
        handle: digest(world, words)?,
    };
    let mut records: GroupRecords<Global> = world.read()?;
    let set = records.set(record);
    let text = records.text(world.alloc);
    let_go(records);
    set?;
    world.keep(text)
}

/// The text is that of the records of the structure.
fn records(world: &mut World) -> Result<(), Stop> {
    let structure: Structure<Global> = world.read()?;
    let text = structure.groups().text(world.alloc);
    let_go(structure);
    world.keep(text)
}

/// A line of plans.
pub(crate) fn plan(world: &mut World, words: &mut Words<'_>) -> Result<(), Stop> {
    let verb = words.word()?;
    match verb {
        "next" => next(world, words),
        "depth" | "below" | "same" => compare(world, verb, words),
        "record" => set_record(world, words),
        "records" => records(world),
        _ => Err(Stop::Word),
    }
}
