//! Blocks that are held, which texts spots take, what is missing, and what is read of a tree.

ghost use Rattle.client_tree.specs.Held.{held as held_of};
ghost use Rattle.tree_parts.specs.Asked.{IsReadFrom};

use crate::plans::digest;
use crate::stop::Stop;
use crate::words::{Words, found};
use crate::world::World;
use client_tree::{Held, Seen, View, read_table};
use itable::{ChunkNumber, ITable};
use layout::{Digest, INumber, Principal, Text, digest as digest_of, let_go};
use lms_sign::{KEY_SIZE, PublicKey};
use pending_list::{PendingItem, Reply};
use principals::Table;
use std::alloc::Global;
use tree_parts::{ApplyError, Part, Spot, apply};
use update_cert::Cert;

/// User 0's key; nothing here is under it.
static PINNED: [u8; KEY_SIZE] = [7; KEY_SIZE];

/// The form of a key.
const FORM: [u8; KEY_SIZE] =
    *b"\x00\x00\x00\x06\x00\x00\x00\x03................................................";

/// Holds all that is held.
fn keep_all(world: &World, held: &mut Held<Global>) -> Result<(), Stop> {
    for text in &world.held {
        let _digest = held.keep(Vec::from_slice(world.alloc, text)?)?;
    }
    Ok(())
}

/// The blocks that are held.
fn held(world: &World) -> Result<Held<Global>, Stop> {
    let mut held = Held::empty(world.alloc);
    match keep_all(world, &mut held) {
        Ok(()) => Ok(held),
        Err(stop) => {
            let_go(held);
            Err(stop)
        }
    }
}

/// One text more is held.
pub(crate) fn hold(world: &mut World, words: &mut Words<'_>) -> Result<(), Stop> {
    let text = world.bytes(words)?;
    world.held.push(text)?;
    Ok(())
}

/// The place of a block, and the digest of an i-node, whose text the words which are left spell.
fn of_inode(world: &World, words: &mut Words<'_>) -> Result<(u16, Digest), Stop> {
    let place = words.short()?;
    Ok((place, digest_of(&world.bytes(words)?)))
}

/// The spot that words say.
fn spot_of(world: &World, words: &mut Words<'_>) -> Result<Spot, Stop> {
    let kind = words.word()?;
    match kind {
        "root" => Ok(Spot::Root(words.principal()?)),
        "inode" => Ok(Spot::Inode(words.principal()?, words.i_number()?)),
        "chunk" => {
            let principal = words.principal()?;
            let number = found(ChunkNumber::new(words.byte()?))?;
            Ok(Spot::Chunk(principal, number))
        }
        _ => {
            let (place, inode) = of_inode(world, words)?;
            match kind {
                "file" => Ok(Spot::File(inode, place)),
                "directory" => Ok(Spot::Directory(inode, place)),
                "table" => Ok(Spot::Table(inode, place)),
                _ => Err(Stop::Word),
            }
        }
    }
}

/// Whether a spot takes a text: `SPOT | BYTES`.
pub(crate) fn spot(world: &mut World, words: &mut Words<'_>) -> Result<(), Stop> {
    let mut part = Words::of(words.part());
    let spot = spot_of(world, &mut part)?;
    if !part.is_empty() {
        return Err(Stop::Word);
    }
    let text = world.bytes(words)?;
    let held = held(world)?;
    let taken = spot.takes(world.alloc, &held, &text);
    let_go(held);
    world.say_whether(taken?)
}

/// Says a block of an i-node.
fn say_block(world: &mut World, kind: &str, inode: Digest, place: u16) -> Result<(), Stop> {
    world.show(format_args!("missing {kind} {place} "))?;
    world.say_digits(inode.as_bytes())
}

/// Says where a block is missing; and the text is its digest.
fn say_missing(world: &mut World, error: ApplyError) -> Result<(), Stop> {
    let ApplyError::Missing(digest, spot) = error else {
        return Err(Stop::Memory);
    };
    world.keep_bytes(digest.as_bytes())?;
    match spot {
        Spot::Root(owner) => world.show(format_args!("missing root {}", owner.get())),
        Spot::Chunk(owner, chunk) => {
            let (owner, chunk) = (owner.get(), chunk.get());
            world.show(format_args!("missing chunk {owner} {chunk}"))
        }
        Spot::Inode(owner, number) => {
            let (owner, number) = (owner.get(), number.get());
            world.show(format_args!("missing inode {owner} {number}"))
        }
        Spot::File(inode, place) => say_block(world, "file", inode, place),
        Spot::Directory(inode, place) => say_block(world, "directory", inode, place),
        Spot::Table(inode, place) => say_block(world, "table", inode, place),
    }
}

/// Says the pairs of an i-table.
fn say_pairs(world: &mut World, table: &ITable<Global>) -> Result<(), Stop> {
    for pair in table.pairs() {
        world.show(pair.i_number.get())?;
        world.say(" ")?;
        world.say_digits(pair.digest.as_bytes())?;
        world.say(";")?;
    }
    Ok(())
}

/// The pairs of the i-table of a principal and a handle, or which block is missing.
pub(crate) fn tree(world: &mut World, words: &mut Words<'_>) -> Result<(), Stop> {
    let principal = words.principal()?;
    let handle = digest(world, words)?;
    let held = held(world)?;
    let table = read_table(world.alloc, &held, principal, handle);
    let_go(held);
    match table {
        Ok(table) => {
            let said = say_pairs(world, &table);
            let_go(table);
            said
        }
        Err(error) => say_missing(world, error),
    }
}

/// What stands at a place in the tree that a reply shows whose own operation this is.
fn seen(
    world: &World,
    reply: &Reply<Global>,
    own: &PendingItem<Global>,
    held: &Held<Global>,
    place: (Principal, INumber),
) -> Result<Seen<Global>, ApplyError> {
    let Some(key) = PublicKey::from_bytes(FORM) else {
        return Err(ApplyError::Memory);
    };
    let table = Table::genesis(world.alloc, key);
    let view = View::new(&PINNED, &table, reply.structures(), &[], own);
    let seen = view.look(world.alloc, held, place.0, place.1);
    let_go(table);
    seen
}

/// Says what stands somewhere: of a file the text is its bytes.
fn say_seen(world: &mut World, seen: Result<Seen<Global>, ApplyError>) -> Result<(), Stop> {
    match seen {
        Ok(Seen::Nothing) => world.say("nothing"),
        Ok(Seen::File(bytes)) => {
            world.names.name("file", bytes)?;
            world.say("file")
        }
        Ok(Seen::Directory(directory)) => {
            let_go(directory);
            world.say("directory")
        }
        Err(error) => say_missing(world, error),
    }
}

/// Looks at a place in the tree that a reply shows.
fn look_by(
    world: &mut World,
    reply: &Reply<Global>,
    place: (Principal, INumber),
) -> Result<(), Stop> {
    let [own] = reply.pending() else {
        return Err(Stop::Word);
    };
    let held = held(world)?;
    let seen = seen(world, reply, own, &held, place);
    let_go(held);
    say_seen(world, seen)
}

/// What stands at an i-number of a principal in the tree that the reply of this name shows, or which block is missing.
pub(crate) fn look(world: &mut World, words: &mut Words<'_>) -> Result<(), Stop> {
    let place = (words.principal()?, words.i_number()?);
    let text = world.bytes(words)?;
    let reply: Reply<Global> = Reply::read(world.alloc, &text)?;
    let said = look_by(world, &reply, place);
    let_go(reply);
    said
}

/// Says whether anything stands at an i-number.
fn say_stands(
    world: &mut World,
    held: &Held<Global>,
    part: Part<Global>,
    i_number: INumber,
) -> Result<(), Stop>
    requires { IsReadFrom (held_of held.now) part }
{
    let mut part = part;
    let stands = match part.load(world.alloc, held, i_number) {
        Ok(()) => Some(part.stands(i_number)),
        Err(_) => None,
    };
    let_go(part);
    match stands {
        Some(true) => world.say("; something stands"),
        Some(false) => world.say("; nothing stands"),
        None => world.say("; a chunk is missing"),
    }
}

/// What a certificate makes of a part, which is read from blocks.
fn change_part(
    world: &mut World,
    held: &Held<Global>,
    part: Part<Global>,
    cert: &Cert<Global>,
    i_number: INumber,
) -> Result<(), Stop>
    requires { IsReadFrom (held_of held.now) part }
{
    let mut part = part;
    let said = match apply(world.alloc, &mut part, held, false, cert) {
        Ok(voids) => world.show_numbers(voids.numbers()),
        Err(error) => say_missing(world, error),
    };
    let stands = say_stands(world, held, part, i_number);
    said?;
    stands
}

/// The same over what is held.
fn change_held(
    world: &mut World,
    held: &Held<Global>,
    cert: &Cert<Global>,
    place: (Principal, INumber),
    handle: Digest,
) -> Result<(), Stop> {
    match Part::open(world.alloc, held, place.0, handle) {
        Ok(part) => change_part(world, held, part, cert, place.1),
        Err(error) => say_missing(world, error),
    }
}

/// The same of a certificate.
fn change_by(
    world: &mut World,
    cert: &Cert<Global>,
    place: (Principal, INumber),
    handle: Digest,
) -> Result<(), Stop> {
    let held = held(world)?;
    let said = change_held(world, &held, cert, place, handle);
    let_go(held);
    said
}

/// What the certificate, the text, makes of a principal's part of this handle: the changes without effect, or which
/// block is missing; and whether anything stands at an i-number then.
pub(crate) fn change(world: &mut World, words: &mut Words<'_>) -> Result<(), Stop> {
    let place = (words.principal()?, words.i_number()?);
    let handle = digest(world, words)?;
    let cert: Cert<Global> = world.read()?;
    let said = change_by(world, &cert, place, handle);
    let_go(cert);
    said
}
