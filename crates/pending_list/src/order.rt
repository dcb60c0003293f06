//! Where the line of committed operations ends, which pending ones continue it, and what a certificate names of it.

ghost use Rattle.std.specs.Prelude.{◌≡◌, ◌≤◌, ◌↔◌, [], IfOk, IfSome, IsNone, IsOk};
ghost use Rattle.std.specs.List.{All, Contains};
ghost use Rattle.std.specs.Option.{option_copied};
ghost use Rattle.pending_list.specs.Reply.{depth_of, user_of, outranks, higher, top, depth_of_top, is_above};
ghost use Rattle.pending_list.specs.Reply.{digest_of_last, is_deeper};

use crate::reply::{PendingItem, Reply};
use crate::signed::Signed;
use layout::{Digest, Memory};
use std::alloc::Allocator;
use version_order::{Structure, depth};

/// Whether the first counts more operations than the second, or as many for a lesser user.
#[tactic(auto, unfolding(crate::specs::Reply::outranks))]
pub fn outranks<A: Allocator>(first: &Signed<Structure<A>>, second: &Signed<Structure<A>>) -> bool
    ensures { result ≡ outranks first.now second.now }
{
    let (first, second) = (first.value.plan(), second.value.plan());
    let (counts, others) = (depth(first), depth(second));
    others < counts || counts == others && first.user().get() < second.user().get()
}

/// The first, but where the second outranks it.
fn higher<'a, A: Allocator>(
    first: &'a Signed<Structure<A>>,
    second: &'a Signed<Structure<A>>,
) -> &'a Signed<Structure<A>>
    ensures { Some result.now ≡ higher first.now (Some second.now) }
{
    if outranks(second, first) {
        second
    } else {
        first
    }
}

fn highest<A: Allocator>(structures: &[Signed<Structure<A>>]) -> Option<&Signed<Structure<A>>>
    ensures { option_copied result ≡ top structures.now }
{
    let mut best: Option<&Signed<Structure<A>>> = None;
    for structure in structures {
        best = match best {
            Some(best) => Some(higher(best, structure)),
            None => Some(structure),
        };
    }
    best
}

/// The structure of greatest depth, of equal ones the least user's, in whatever order the list has them.
pub fn top<A: Allocator>(reply: &Reply<A>) -> Option<&Signed<Structure<A>>>
    ensures same { option_copied result ≡ top reply.now.structures }
    ensures none { IsNone result ↔ (reply.now.structures ≡ []) }
    ensures there { IfSome result (λ top. Contains reply.now.structures top.now) }
    // No structure is deeper.
    ensures deepest { IfSome result (λ top. All (λ s. depth_of s ≤ depth_of top.now) reply.now.structures) }
    // None of equal depth has a lesser user.
    ensures least { IfSome result (λ top. All (λ s. depth_of s ≡ depth_of top.now → user_of top.now ≤ user_of s)
        reply.now.structures) }
{
    highest(reply.structures())
}

/// How many operations the top counts: 0 where there is no structure.
pub fn depth_of_top<A: Allocator>(reply: &Reply<A>) -> u64
    ensures { result ≡ depth_of_top reply.now.structures }
{
    match top(reply) {
        Some(structure) => depth(structure.value.plan()),
        None => 0,
    }
}

/// Whether a pending operation counts more operations than this many.
pub fn is_deeper<A: Allocator>(item: &PendingItem<A>, count: u64) -> bool
    ensures { result ≡ is_deeper item.now.plan count }
{
    count < depth(item.plan())
}

/// Whether a pending operation counts more than the top.
pub fn is_above<A: Allocator>(reply: &Reply<A>, item: &PendingItem<A>) -> bool
    ensures { result ≡ is_above reply.now.structures item.now.plan }
{
    is_deeper(item, depth_of_top(reply))
}

/// The digest by which a certificate names its user's last structure: 32 zeros where it has none.
pub fn digest_of_last<A: Allocator + Copy>(
    alloc: A,
    last: Option<&Signed<Structure<A>>>,
) -> Result<Digest, Memory>
    ensures same { IfOk result (λ digest. digest ≡ digest_of_last (option_copied last.entry)) }
    // Zeros take no memory.
    ensures of_nothing { option_copied last.entry ≡ None → IsOk result }
{
    match last {
        Some(last) => last.value.digest(alloc),
        None => Ok(Digest::from_bytes([0; 32])),
    }
}
