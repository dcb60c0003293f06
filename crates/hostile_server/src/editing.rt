//! What the server makes of a reply before it is handed in.

ghost use Rattle.std.specs.Prelude.{◌≤◌, IfOk, IfSome, vec_len};

use crate::lists::user_of;
use crate::texts::copy_of;
use layout::{Memory, ReadError, Text, User, put_in};
use pending_list::{MOST_ROWS, PendingItem, Reply, Signed};
use std::alloc::Allocator;
use version_order::Structure;

/// A change of a reply. One that finds nothing to change leaves it.
#[derive(Clone, Copy, Debug)]
pub enum Edit {
    /// The structure of this user is left out.
    DropStructure(User),
    /// In the place of this user's structure stands that of this number, which the server listed.
    OldStructure(User, u64),
    /// What this user has pending is left out.
    HideItem(User),
    /// Its first bytes alone, this many.
    Cut(u64),
    /// The lowest bit of the byte at this place is another.
    Flip(u64),
}

/// The two lists of a reply.
type Lists<A> = (Vec<Signed<Structure<A>>, A>, Vec<PendingItem<A>, A>);

/// The two lists of a reply, which has no more rows than a reply can.
fn lists_in<A: Allocator>(reply: Reply<A>) -> Lists<A>
    ensures structures { vec_len result.0 ≤ MOST_ROWS }
    ensures pending { vec_len result.1 ≤ MOST_ROWS }
{
    let _structures = reply.structures();
    reply.into_parts()
}

/// The two lists of the reply that a text is, if it is one.
fn lists_of<A: Allocator + Copy>(alloc: A, text: &[u8]) -> Result<Option<Lists<A>>, Memory>
    ensures structures { IfOk result (λ lists. IfSome lists (λ both. vec_len both.0 ≤ MOST_ROWS)) }
    ensures pending { IfOk result (λ lists. IfSome lists (λ both. vec_len both.1 ≤ MOST_ROWS)) }
{
    match Reply::read(alloc, text) {
        Ok(reply) => Ok(Some(lists_in(reply))),
        Err(ReadError::Memory) => Err(Memory),
        Err(_) => Ok(None),
    }
}

/// Takes the structure of a user out.
fn drop_structure<A: Allocator>(structures: &mut Vec<Signed<Structure<A>>, A>, user: User)
    ensures { vec_len structures.new ≤ vec_len structures.old }
{
    structures.retain(|structure| user_of(structure) != user);
}

/// Takes what a user has pending out.
fn hide_item<A: Allocator>(pending: &mut Vec<PendingItem<A>, A>, user: User)
    ensures { vec_len pending.new ≤ vec_len pending.old }
{
    pending.retain(|item| item.plan().user() != user);
}

/// Puts a copy of a structure in the place of its user's, if that has one.
fn roll_back<A: Allocator + Copy>(
    alloc: A,
    structures: &mut Vec<Signed<Structure<A>>, A>,
    structure: &Signed<Structure<A>>,
) -> Result<(), Memory>
    ensures { vec_len structures.new ≤ vec_len structures.old }
{
    for place in 0..structures.len() {
        if user_of(&structures[place]) == user_of(structure) {
            let copy = copy_of(alloc, structure)?;
            put_in(&mut structures[place], copy);
            return Ok(());
        }
    }
    Ok(())
}

/// The reply without the structure of a user.
pub(crate) fn without_structure<A: Allocator + Copy>(
    alloc: A,
    text: Vec<u8, A>,
    user: User,
) -> Result<Vec<u8, A>, Memory> {
    let Some((mut structures, pending)) = lists_of(alloc, &text)? else {
        return Ok(text);
    };
    drop_structure(&mut structures, user);
    Reply::new(structures, pending).text(alloc)
}

/// The reply without what a user has pending.
pub(crate) fn without_item<A: Allocator + Copy>(
    alloc: A,
    text: Vec<u8, A>,
    user: User,
) -> Result<Vec<u8, A>, Memory> {
    let Some((structures, mut pending)) = lists_of(alloc, &text)? else {
        return Ok(text);
    };
    hide_item(&mut pending, user);
    Reply::new(structures, pending).text(alloc)
}

/// The reply with this structure in the place of its user's.
pub(crate) fn with_structure<A: Allocator + Copy>(
    alloc: A,
    text: Vec<u8, A>,
    structure: &Signed<Structure<A>>,
) -> Result<Vec<u8, A>, Memory> {
    let Some((mut structures, pending)) = lists_of(alloc, &text)? else {
        return Ok(text);
    };
    roll_back(alloc, &mut structures, structure)?;
    Reply::new(structures, pending).text(alloc)
}

/// The reply with the lowest bit of this byte changed.
pub(crate) fn flipped<A: Allocator>(mut text: Vec<u8, A>, place: u64) -> Vec<u8, A> {
    let place = place as usize;
    if place < text.len() {
        text[place] ^= 1;
    }
    text
}

/// So many first bytes of the reply.
pub(crate) fn cut<A: Allocator>(mut text: Vec<u8, A>, size: u64) -> Vec<u8, A> {
    text.truncate(size as usize);
    text
}
