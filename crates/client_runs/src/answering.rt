//! The steps of an open client that keep it open: which call is made, and what is answered.

ghost use Rattle.std.specs.Prelude.{◌≡◌, IfOk};
ghost use Rattle.std.specs.Option.{option_copied, option_map};
ghost use Rattle.std.specs.Vec.{vec_items};
ghost use Rattle.client_runs.specs.Slots.{StaysOpen, Tells};

use crate::armed::MemoryClient;
use crate::signing::sign_and_tell;
use crate::world::{Act, Answer};
use client_steps::{begin, cache, commit, free, give, hear, kind, look, resign, take};
use layout::{INumber, Memory, Principal};
use std::alloc::Allocator;
use update_cert::Change;
use wire::Status;

/// A block, lent.
fn lent<A: Allocator>(block: &Option<Vec<u8, A>>) -> Option<&[u8]>
    ensures { option_copied result ≡ option_map vec_items block.now }
{
    match block {
        Some(text) => Some(text.as_slice()),
        None => None,
    }
}

/// It declares an operation.
fn begins<A: Allocator + Copy>(
    alloc: A,
    client: &mut MemoryClient<A>,
    changes: &Vec<Change<A>, A>,
    laid: &Vec<Vec<u8, A>, A>,
) -> Result<Answer<A>, Memory>
    ensures { IfOk result (λ answer. Tells client.old (Act.Begin changes.now laid.now) answer client.new) }
{
    match begin(alloc, client, changes, laid)? {
        Some(answer) => Ok(Answer::Begun(answer)),
        None => Ok(Answer::NotTaken),
    }
}

/// It signs the certificate that is declared once more.
fn resigns<A: Allocator + Copy>(client: &mut MemoryClient<A>, key: u8) -> Answer<A>
    ensures { Tells client.old (Act.Resign key) result client.new }
{
    match resign(client, key as usize) {
        Some(answer) => Answer::Begun(answer),
        None => Answer::NotTaken,
    }
}

/// It takes a reply.
fn hears<A: Allocator + Copy>(client: &mut MemoryClient<A>, text: &Vec<u8, A>) -> Answer<A>
    ensures { Tells client.old (Act.Reply text.now) result client.new }
{
    match hear(client, text) {
        Some(answer) => Answer::Asks(answer),
        None => Answer::NotTaken,
    }
}

/// It takes a block that a reply asks for.
fn takes<A: Allocator + Copy>(client: &mut MemoryClient<A>, block: &Option<Vec<u8, A>>) -> Answer<A>
    ensures { Tells client.old (Act.Block block.now) result client.new }
{
    match take(client, lent(block)) {
        Some(answer) => Answer::Asks(answer),
        None => Answer::NotTaken,
    }
}

/// It signs.
fn signs<A: Allocator + Copy>(alloc: A, client: &mut MemoryClient<A>) -> Result<Answer<A>, Memory>
    ensures { IfOk result (λ answer. Tells client.old Act.Sign answer client.new) }
{
    match sign_and_tell(alloc, client)? {
        Some(answer) => Ok(Answer::Signed(answer)),
        None => Ok(Answer::NotTaken),
    }
}

/// It takes the server's answer to its structure.
fn commits<A: Allocator + Copy>(client: &mut MemoryClient<A>, status: Status) -> Answer<A>
    ensures { Tells client.old (Act.Committed status) result client.new }
{
    if commit(client, status) {
        Answer::Committed
    } else {
        Answer::NotTaken
    }
}

/// It looks at an i-number.
fn looks<A: Allocator + Copy>(
    client: &mut MemoryClient<A>,
    principal: Principal,
    i_number: INumber,
) -> Answer<A>
    ensures { Tells client.old (Act.Look principal i_number) result client.new }
{
    match look(client, principal, i_number) {
        Some(answer) => Answer::Sees(answer),
        None => Answer::NotTaken,
    }
}

/// It asks of what kind is what stands at an i-number.
fn kinds<A: Allocator + Copy>(
    client: &mut MemoryClient<A>,
    principal: Principal,
    i_number: INumber,
) -> Answer<A>
    ensures { Tells client.old (Act.Kind principal i_number) result client.new }
{
    match kind(client, principal, i_number) {
        Some(answer) => Answer::Sees(answer),
        None => Answer::NotTaken,
    }
}

/// It asks for the least i-number of a range at which nothing stands.
fn frees<A: Allocator + Copy>(
    client: &mut MemoryClient<A>,
    principal: Principal,
    first: INumber,
    last: INumber,
) -> Answer<A>
    ensures { Tells client.old (Act.Free principal first last) result client.new }
{
    if last.get() < first.get() {
        return Answer::NotTaken;
    }
    match free(client, principal, first, last) {
        Some(answer) => Answer::Sees(answer),
        None => Answer::NotTaken,
    }
}

/// It takes a block that a look asks for.
fn gives<A: Allocator + Copy>(client: &mut MemoryClient<A>, block: &Option<Vec<u8, A>>) -> Answer<A>
    ensures { Tells client.old (Act.Give block.now) result client.new }
{
    match give(client, lent(block)) {
        Some(answer) => Answer::Sees(answer),
        None => Answer::NotTaken,
    }
}

/// Its cache may have so many blocks.
fn caches<A: Allocator + Copy>(client: &mut MemoryClient<A>, capacity: u16) -> Answer<A>
    ensures { Tells client.old (Act.Cache capacity) result client.new }
{
    if cache(client, capacity as usize) {
        Answer::Cached
    } else {
        Answer::NotTaken
    }
}

/// A call of an open client, or what only a closed one can do.
pub(crate) fn call<A: Allocator + Copy>(
    alloc: A,
    client: &mut MemoryClient<A>,
    act: &Act<A>,
) -> Result<Answer<A>, Memory>
    requires { StaysOpen act.now }
    ensures { IfOk result (λ answer. Tells client.old act.now answer client.new) }
{
    match act {
        Act::Begin(changes, laid) => begins(alloc, client, changes, laid),
        Act::Resign(key) => Ok(resigns(client, *key)),
        Act::Reply(text) => Ok(hears(client, text)),
        Act::Block(block) => Ok(takes(client, block)),
        Act::Sign => signs(alloc, client),
        Act::Committed(status) => Ok(commits(client, *status)),
        Act::Look(principal, i_number) => Ok(looks(client, *principal, *i_number)),
        Act::Kind(principal, i_number) => Ok(kinds(client, *principal, *i_number)),
        Act::Free(principal, first, last) => Ok(frees(client, *principal, *first, *last)),
        Act::Give(block) => Ok(gives(client, block)),
        Act::Cache(capacity) => Ok(caches(client, *capacity)),
        Act::Open | Act::Gain => Ok(Answer::NotTaken),
        Act::Close => unreachable!(),
        Act::Crash(_, _) => unreachable!(),
    }
}
