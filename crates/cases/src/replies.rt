//! Replies: what stands above their structures, and which rule on their lists they break.

use crate::stop::Stop;
use crate::words::Words;
use crate::world::World;
use first_rule::broken;
use layout::{Text, let_go};
use pending_list::{Reply, depth_of_top, digest_of_last, is_above, top};
use principals::Table;
use reply_rules::{Rule, above_top, lists_hold};
use std::alloc::Global;

/// Whether the first pending operation is above the structures.
fn say_above(world: &mut World, reply: &Reply<Global>) -> Result<(), Stop> {
    match reply.pending().first() {
        Some(item) => world.say_whether(is_above(reply, item)),
        None => world.say("none"),
    }
}

/// The digest by which the first user's next certificate names its last structure.
fn say_last(world: &mut World, reply: &Reply<Global>) -> Result<(), Stop> {
    let digest = digest_of_last(world.alloc, reply.structures().first())?;
    world.say_digits(digest.as_bytes())
}

/// The first rule on the lists that the reply breaks by the table of principals `$table`.
fn say_broken(world: &mut World, reply: &Reply<Global>) -> Result<(), Stop> {
    if !lists_hold(reply) {
        return world.show(Rule::Lists);
    }
    let Some(own) = reply.pending().last() else {
        return Err(Stop::Word);
    };
    let text = world.names.bytes_of("table")?;
    let table: Table<Global> = Table::read(world.alloc, text)?;
    let rule = broken(world.alloc, reply, &table, own.plan().user());
    let_go(table);
    match rule? {
        Some(rule) => world.show(rule),
        None => world.say("none"),
    }
}

/// How many operations are above the structures.
fn count_above(world: &mut World, reply: &Reply<Global>) -> Result<(), Stop> {
    if lists_hold(reply) {
        world.show(above_top(reply).len())
    } else {
        world.show(Rule::Lists)
    }
}

/// What a reply says.
fn said(world: &mut World, reply: &Reply<Global>, verb: &str) -> Result<(), Stop> {
    match verb {
        "above" => say_above(world, reply),
        "top" => world.say_whether(top(reply).is_some()),
        "depth" => world.show(depth_of_top(reply)),
        "last" => say_last(world, reply),
        "breaks" => say_broken(world, reply),
        "count" => count_above(world, reply),
        _ => Err(Stop::Word),
    }
}

/// The text is that of the reply without structures and without pending operations.
fn empty(world: &mut World) -> Result<(), Stop> {
    let empty = Reply::new(Vec::new(world.alloc), Vec::new(world.alloc));
    let written = world.write(&empty);
    let_go(empty);
    written
}

/// A line of replies.
pub(crate) fn reply(world: &mut World, words: &mut Words<'_>) -> Result<(), Stop> {
    let verb = words.word()?;
    if verb == "empty" {
        return empty(world);
    }
    let reply: Reply<Global> = world.read()?;
    let said = said(world, &reply, verb);
    let_go(reply);
    said
}
